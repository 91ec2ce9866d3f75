ghost use Rattle.std.specs.Prelude.{◌≡◌, ◌*◌, ◌%◌, ◌^◌, bit_xor, IfOk};
ghost use Rattle.std.specs.List.{fold};
ghost use Rattle.casa_script.specs.Sums.{reply_sum, sum_of, with_byte};

use casa_flight::Reply;
use casa_wire::push_reply_at;
use std::alloc::{AllocError, Global};

/// The sum of no bytes.
const FIRST_SUM: u32 = 2_166_136_261;

/// What a sum is multiplied by with each byte.
const FACTOR: u32 = 16_777_619;

/// The sum of bytes: FNV-1a with 32 bits.
pub fn sum_of(bytes: &[u8]) -> u32
    ensures { result ≡ sum_of bytes.now }
{
    bytes
        .iter()
        .fold(FIRST_SUM, |sum, byte| with_byte(sum, *byte))
}

fn with_byte(sum: u32, byte: u8) -> u32
    ensures { result ≡ with_byte sum byte }
{
    (sum ^ byte as u32).wrapping_mul(FACTOR)
}

/// The sum of the reply to the call at this position in the history, counted from 1: of the bytes of its line, its line end
/// left out.
///
/// `AllocError` where there is no memory for that line.
pub fn reply_sum(alloc: Global, reply: &Reply, position: usize) -> Result<u32, AllocError>
    ensures { IfOk result (λ sum. sum ≡ reply_sum reply.now position) }
{
    let mut line = Vec::new(alloc);
    sum_behind(&mut line, reply, position)
}

/// The sum of a reply, whose line stands behind the bytes for a while.
pub(crate) fn sum_behind(
    out: &mut Vec<u8>,
    reply: &Reply,
    position: usize,
) -> Result<u32, AllocError>
    ensures same { out.new.items ≡ out.old.items }
    ensures sum { IfOk result (λ sum. sum ≡ reply_sum reply.now position) }
{
    let before = out.len();
    push_reply_at(out, reply, position)?;
    let end = out.len() - 1;
    let sum = sum_of(&out[before..end]);
    out.truncate(before);
    Ok(sum)
}

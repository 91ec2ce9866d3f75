//! Writes whole texts, and counts their bytes.

ghost use Rattle.std.specs.Prelude.{◌≡◌, ℕ, ◌+◌, ◌<◌, length, take, IfOk, IfErr, OnOk};
ghost use Rattle.std.specs.Io.KnownBytes.{Appends};
ghost use Rattle.casa_session.specs.Sending.{saturating_count};

use std::io::{ErrorKind, Write};

/// A writer took no more bytes.
#[derive(Clone, Copy, PartialEq, Eq, Debug)]
pub struct Unsent {
    /// The bytes that it took in all, at most `u64::MAX`.
    pub written: u64,
}

/// Writes all the bytes, and answers how many the writer has taken in all where it had taken `written` before.
/// The count stays at `u64::MAX` once it is there.
///
/// An interrupted write is made again. `Unsent` where a write fails in another way or takes no byte, before all
/// bytes are written.
pub fn send<W: Write>(writer: &mut W, bytes: &[u8], written: u64) -> Result<u64, Unsent>
    ensures ok { OnOk result (Appends (W.contents writer.old) (W.contents writer.new) bytes.now) }
    ensures count { IfOk result (λ n. n ≡ saturating_count (written + length bytes.now)) }
    ensures err { IfErr result (λ e. (k : ℕ) × (k < length bytes.now) ×
        Appends (W.contents writer.old) (W.contents writer.new) (take k bytes.now) ×
        (e.written ≡ saturating_count (written + k))) }
{
    let mut at = 0;
    let mut count = written;
    let mut tries_left = u64::MAX;
    'tries: while at < bytes.len() {
        if tries_left == 0 {
            return Err(Unsent { written: count });
        }
        tries_left -= 1;
        match writer.write(&bytes[at..]) {
            Ok(0) => return Err(Unsent { written: count }),
            Ok(n) => {
                at += n;
                count = count.saturating_add(n as u64);
            }
            Err(error) => {
                if error.kind() != ErrorKind::Interrupted {
                    return Err(Unsent { written: count });
                }
            }
        }
    }
    Ok(count)
}

//! Copies of what lies in a row.

ghost use Rattle.std.specs.Prelude.{◌≡◌, ◌≤◌, IfOk, vec_capacity};

use std::alloc::{AllocError, Global};

/// How many entries are moved at once: what fits in 4,096 bytes goes faster than a longer move.
const PIECE: usize = 192;

/// Room for so many entries and some more, by steps that grow with it. So the copies of a list that changes by a flight at
/// a time are of few sizes, and the memory of one that is let go fits the next.
fn stepped(room: usize) -> usize
    ensures { room ≤ result }
{
    let step = (room / 8).next_power_of_two();
    room.saturating_add(step - room % step)
}

/// These in their order, copied as they lie in memory, with room for at least so many entries in all. `AllocError` where
/// there is no memory for that.
pub fn copied<T: Copy>(alloc: Global, all: &[T], room: usize) -> Result<Vec<T>, AllocError>
    ensures items { IfOk result (λ copy. copy.items ≡ all.now) }
    ensures room { IfOk result (λ copy. room ≤ vec_capacity copy) }
{
    let mut copy = Vec::with_capacity(alloc, stepped(room))?;
    for some in all.chunks(PIECE) {
        copy.extend_from_slice(some)?;
    }
    Ok(copy)
}

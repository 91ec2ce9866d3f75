//! A regulation's list.

ghost use Rattle.std.specs.Prelude.{◌≡◌, IfOk};
ghost use Rattle.casa_look.specs.ListText.{list_text};

use casa_flight::ListReply;
use casa_wire::{Part, push_list, push_parts, push_text};
use std::alloc::{AllocError, Global};

/// Room for a list without its rows, in bytes.
const LIST_ROOM: usize = 160;

/// Room for a row, in bytes.
const ROW_ROOM: usize = 80;

/// The list of a regulation after so many calls.
///
/// An object with `list`, as a reply to the call `list` has it, and `n`, the number of the calls. `AllocError` where there is
/// no memory for it.
pub fn list_text(alloc: Global, calls: usize, list: &ListReply) -> Result<Vec<u8>, AllocError>
    ensures { IfOk result (λ text. text.items ≡ list_text calls list.now) }
{
    let mut text = Vec::with_capacity(alloc, room_for(list.rows.as_slice().len()))?;
    push_text(&mut text, b"{\"list\":")?;
    push_list(&mut text, list)?;
    push_parts(
        &mut text,
        &[
            Part::Text(b",\"n\":"),
            Part::Number(calls as u64),
            Part::Text(b"}"),
        ],
    )?;
    Ok(text)
}

/// About how many bytes a list with so many rows takes.
fn room_for(rows: usize) -> usize {
    LIST_ROOM.saturating_add(rows.saturating_mul(ROW_ROOM))
}

//! The text of many entries.

ghost use Rattle.std.specs.Prelude.{◌≡◌, ◌+◌, ◌<◌, ◌^◌, length, IfOk};
ghost use Rattle.casa_day.specs.Scripts.{IsTextOf};

use crate::script::Script;
use casa_history::SharedEntry;
use std::alloc::{AllocError, Global};

/// The lines of these entries, each with its LF, where so many entries stand before them in the history. `AllocError` where
/// there is no memory for them.
pub fn text_of<C, R, S: Script<C, R>>(
    alloc: Global,
    script: &S,
    before: usize,
    entries: &[SharedEntry<C, R>],
) -> Result<Vec<u8>, AllocError>
    requires { before + length entries.now < 2 ^ 64 }
    ensures { IfOk result (λ text. IsTextOf S.Script (before + 1) entries.now text.items) }
{
    let mut text = Vec::new(alloc);
    let mut position = before;
    for entry in entries {
        position += 1;
        script.push(&mut text, position, entry)?;
        text.push(b'\n')?;
    }
    Ok(text)
}

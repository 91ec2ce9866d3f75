//! Lines of calls as the lines of a journal.

ghost use Rattle.std.specs.Prelude.{◌≡◌, ◌++◌, List, ℕ, Some, OnOk, true};
ghost use Rattle.casa_tape.specs.Lines.{IsLine};
ghost use Rattle.casa_script.specs.Lines.{entry_text};
ghost use Rattle.casa_script.specs.Said.{call_at, line_vouches_for};

use crate::reading::{call_at, line_vouches_for};
use crate::writing::push_entry;
use casa_day::Script;
use casa_flight::{Call, Reply};
use casa_history::Entry;
use std::alloc::{AllocError, Global};

/// How a journal of calls is written: a line an entry, which has its position, its desk, the version of the rules and the sum
/// of its reply.
#[derive(Clone, Copy, Debug)]
pub struct CallScript;

impl Script<Call, Reply> for CallScript {
    ghost says = { call_at };

    ghost vouches_for = { λ position line reply. line_vouches_for position line reply ≡ true };

    fn push(
        &self,
        out: &mut Vec<u8>,
        position: usize,
        entry: &Entry<Call, Reply>,
    ) -> Result<(), AllocError>
        ensures { OnOk result ((line : List ℕ) × (out.new.items ≡ out.old.items ++ line)
            × IsLine line × (call_at position line ≡ Some entry.now.call)
            × (line_vouches_for position line entry.now.reply ≡ true)
            × (line ≡ entry_text position entry.now)) }
    {
        push_entry(out, position, entry)?;
        Ok(())
    }

    fn read(
        &self,
        alloc: Global,
        position: usize,
        line: &[u8],
    ) -> Result<Option<Call>, AllocError> {
        call_at(alloc, position, line)
    }

    fn vouches(
        &self,
        alloc: Global,
        position: usize,
        line: &[u8],
        answer: &Reply,
    ) -> Result<bool, AllocError> {
        line_vouches_for(alloc, position, line, answer)
    }
}

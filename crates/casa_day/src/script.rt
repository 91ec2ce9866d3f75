//! How entries are written as lines.

ghost use Rattle.std.specs.Prelude.{◌≡◌, ◌↔◌, ◌++◌, List, ℕ, Some, IfOk, IsTrue, OnOk};

use casa_history::Entry;
use std::alloc::{AllocError, Global};

/// Writes entries as lines, reads the calls of lines, and tells which replies lines vouch for.
pub trait Script<C, R> {
    ghost use Rattle.std.specs.Prelude.{Option};
    ghost use Rattle.casa_tape.specs.Lines.{IsLine};

    /// The call that a line says at a position, if it says one.
    ghost says: { ℕ → List ℕ → Option C };

    /// The line at a position vouches for the reply to its call.
    ghost vouches_for: { ℕ → List ℕ → R → Type 0 };

    /// Writes the line of an entry, without LF, behind the bytes that stand there: it says the entry's call at the position,
    /// vouches for its reply, and has neither LF nor NUL. `AllocError` where there is no memory for it.
    fn push(
        &self,
        out: &mut Vec<u8>,
        position: usize,
        entry: &Entry<C, R>,
    ) -> Result<(), AllocError>
        ensures { OnOk result ((line : List ℕ) × (out.new.items ≡ out.old.items ++ line)
            × IsLine line × (says position line ≡ Some entry.now.call)
            × vouches_for position line entry.now.reply) };

    /// The call that a line says at a position; `None` where it says none. `AllocError` where there is no memory for it.
    fn read(&self, alloc: Global, position: usize, line: &[u8]) -> Result<Option<C>, AllocError>
        ensures { IfOk result (λ call. call ≡ says position line.now) };

    /// Whether the line at a position vouches for a reply. `AllocError` where there is no memory to tell.
    fn vouches(
        &self,
        alloc: Global,
        position: usize,
        line: &[u8],
        answer: &R,
    ) -> Result<bool, AllocError>
        ensures { IfOk result (λ vouches. IsTrue vouches
            ↔ vouches_for position line.now answer.now) };
}

//! Appending lines.

ghost use Rattle.std.specs.Prelude.{◌≡◌, ◌++◌, List, ℕ, OnOk};
ghost use Rattle.casa_tape.specs.Tape.{HasCause, IsSynced};
ghost use Rattle.casa_tape.specs.Lines.{journal_of, AreLines, IsBetween};
ghost use Rattle.casa_tape.specs.Journals.{IsSettled, LeavesOnly};

use crate::tape::{Tape, TapeError};

/// Writes the text of some lines at the end of a journal, and puts it on the disk. `NoMemory` where there is no memory for
/// it, `Failed` where the file fails; at both the tape is to be recovered before anything else.
pub fn append<T: Tape>(tape: &mut T, text: &[u8]) -> Result<(), TapeError>
    requires { IsSynced T.holds T.may_leave tape.old }
    // At `Ok` the lines are there, and each crash leaves just that.
    ensures settled { OnOk result ((lines added : List (List ℕ)) → AreLines added
        → text.now ≡ journal_of added → IsSettled T.Tape tape.old lines
        → IsSettled T.Tape tape.new (lines ++ added)) }
    ensures synced { OnOk result (IsSynced T.holds T.may_leave tape.new) }
    // A crash at any moment of the call leaves the lines from before it, and the first of the new ones.
    ensures any_moment { (lines added : List (List ℕ)) → AreLines added
        → text.now ≡ journal_of added → IsSettled T.Tape tape.old lines
        → LeavesOnly T.Tape tape.old tape.new (IsBetween lines added) }
    ensures cause { HasCause (T.has_failed tape.old) (T.has_failed tape.new) result }
{
    tape.append(text)?;
    tape.sync()?;
    Ok(())
}

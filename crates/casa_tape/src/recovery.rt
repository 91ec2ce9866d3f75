//! Recovering a journal that a crash may have left torn, in two steps: `look` and `mend`.

ghost use Rattle.std.specs.Prelude.{◌≡◌, ◌↔◌, List, ℕ, IfOk, OnOk};
ghost use Rattle.casa_tape.specs.Tape.{HasCause, IsSynced};
ghost use Rattle.casa_tape.specs.Lines.{StandsAs};
ghost use Rattle.casa_tape.specs.Journals.{HoldsOnly, IsSettled, LeavesOnly};
ghost use Rattle.casa_tape.specs.Recovery.{bytes_found, lines_found};

use crate::found::Found;
use crate::lines::whole_end;
use crate::tape::{Tape, TapeError};
use std::alloc::Global;

/// Reads a file, as a crash may have left it, and finds where its whole lines end. What is read is put on the disk before,
/// so that it stays. `NoMemory` where there is no memory for it, `Failed` where the file fails.
pub fn look<T: Tape>(alloc: Global, tape: &mut T) -> Result<Found, TapeError>
    ensures found { IfOk result (λ found. HoldsOnly T.Tape tape.new (bytes_found found)) }
    ensures synced { OnOk result (IsSynced T.holds T.may_leave tape.new) }
    // The file stays as it is, whenever a crash comes.
    ensures held { (xs : List ℕ) → T.holds tape.new xs ↔ T.holds tape.old xs }
    ensures any_moment { LeavesOnly T.Tape tape.old tape.new (T.may_leave tape.old) }
    ensures cause { HasCause (T.has_failed tape.old) (T.has_failed tape.new) result }
{
    tape.sync()?;
    let bytes = tape.read(alloc)?;
    let end = whole_end(&bytes);
    Ok(Found { bytes, end })
}

/// Cuts what stands behind the whole lines of a file that was looked at, and puts that on the disk. `NoMemory` where there
/// is no memory for it, `Failed` where the file fails; at both the file stands for the same lines.
pub fn mend<T: Tape>(tape: &mut T, found: &Found) -> Result<(), TapeError>
    requires synced { IsSynced T.holds T.may_leave tape.old }
    requires found { HoldsOnly T.Tape tape.old (bytes_found found.now) }
    ensures settled { OnOk result (IsSettled T.Tape tape.new (lines_found found.now)) }
    // A crash at any moment of this call leaves a file that stands for the same lines.
    ensures any_moment { LeavesOnly T.Tape tape.old tape.new (StandsAs (T.may_leave tape.old)) }
    ensures cause { HasCause (T.has_failed tape.old) (T.has_failed tape.new) result }
{
    tape.cut(found.end)?;
    tape.sync()?;
    Ok(())
}

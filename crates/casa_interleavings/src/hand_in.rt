//! Handing a prepared answer in.

ghost use Rattle.std.specs.Prelude.{◌≡◌, ◌≢◌, ◌+◌, ◌∷◌, [], ◌++◌, ℕ, List, length, vec_len, IfOk, OnOk};
ghost use Rattle.casa_history.specs.declared.entry.Entry.{Entry};
ghost use Rattle.casa_history.specs.declared.pass.Pass.{Pass};
ghost use Rattle.casa_history.specs.Entries.{desk_of};
ghost use Rattle.casa_commit.specs.Legal.{entry};
ghost use Rattle.casa_commit.specs.Prepared.{call_of, view_of, reply_of};
ghost use Rattle.casa_commit.specs.Rooms.{world_of, entries_of, Admits};
ghost use Rattle.casa_interleavings.specs.Desks.{Begins, IsOutcomeOfCommit};

use crate::event::Outcome;
use crate::stamped::Stamped;
use casa_commit::{CommitFault, Prepared, Room, commit};
use casa_history::Pass;
use std::alloc::AllocError;

/// Hands an answer in and tells the outcome, or answers `AllocError` where there is no memory for the entry.
pub(crate) fn hand_in<W: Stamped>(
    room: &mut Room<W>,
    pass: &mut Pass<W::Call, W::Reply>,
    prepared: Prepared<W>,
) -> Result<Outcome, AllocError>
    requires admitted { Admits room.old pass.old }
    requires of_world { W.is_of (view_of prepared) (world_of room.old) }
    ensures pass { OnOk result ((desk_of pass.new ≡ desk_of pass.old)
        × Admits room.new pass.new) }
    ensures views { OnOk result ((v : W.View) → W.is_of v (world_of room.old)
        → W.is_of v (world_of room.new)) }
    ensures ties { OnOk result ((c : W.Call) (v : W.View) (before : List (Entry W.Call W.Reply)) →
        Begins before (entries_of room.old) → W.is_of v (world_of room.old)
        → W.is_view_of before c v →
        W.is_tied v (world_of room.old) → W.is_tied v (world_of room.new)) }
    ensures grows { OnOk result (Begins (entries_of room.old) (entries_of room.new)) }
    ensures tells { IfOk result (λ outcome. (before : List (Entry W.Call W.Reply))
        → Begins before (entries_of room.old) →
        W.is_view_of before (call_of prepared) (view_of prepared)
        → W.is_tied (view_of prepared) (world_of room.old) →
        IsOutcomeOfCommit (W.is_unmoved before (call_of prepared) (entries_of room.old)) outcome
        (entries_of room.old)
        (entry (desk_of pass.old) (call_of prepared) (reply_of prepared)) (entries_of room.new)) }
    ensures others { OnOk result ((p : Pass W.Call W.Reply) → desk_of p ≢ desk_of pass.old →
        Admits room.old p → Admits room.new p) }
{
    match commit(room, pass, prepared) {
        Ok(receipt) => Ok(Outcome::Accepted(receipt.position)),
        Err((CommitFault::Stale, _)) => Ok(Outcome::Refused),
        Err((CommitFault::NoMemory, _)) => Err(AllocError),
        Err((CommitFault::ForeignPass, _)) => unreachable!(),
    }
}

//! A whole life, on a file in memory.

ghost use Rattle.std.specs.Prelude.{◌≡◌, ℕ, List, IfErr, IfOk, IsErrOf};
ghost use Rattle.casa_flight.specs.declared.call.Call.{Call};
ghost use Rattle.casa_flight.specs.declared.reply.Reply.{Reply};
ghost use Rattle.casa_history.specs.declared.entry.Entry.{Entry};
ghost use Rattle.casa_plan.specs.Rooms.{IsSequential};
ghost use Rattle.casa_tape.specs.declared.memory.MemoryTape.{MemoryTape as TapeInMemory};
ghost use Rattle.casa_tape.specs.Lines.{whole_lines};
ghost use Rattle.casa_day.specs.Journals.{Keeps};
ghost use Rattle.casa_day.specs.Refusals.{IsOfLines, IsRefused};
ghost use Rattle.casa_interleavings.specs.Lives.{HasLived};

use crate::day_event::DayEvent;
use crate::living::{Ended, live};
use casa_commit::World;
use casa_day::{DayFault, OpenFault, Script};
use casa_flight::{Call, Reply};
use casa_tape::{MemoryTape, Tape};
use casa_view::{Board, Store};
use std::alloc::Global;

/// A life on a file in memory with these bytes, whatever a crash made of them, with a board over this store. The errors are
/// those of `open`, but for `NotRead`; a life ends before its events do where there is no memory.
pub fn live_in_memory<K: Store, S: Script<Call, Reply>>(
    alloc: Global,
    store: K,
    script: &S,
    found: Vec<u8>,
    events: &[DayEvent<Call>],
) -> Result<Ended<K, MemoryTape>, OpenFault>
    ensures lived { IfOk result (λ life. (tape : TapeInMemory)
        × ⟦<MemoryTape as Tape>⟧.holds tape found.items
        × ((c : List ℕ) → ⟦<MemoryTape as Tape>⟧.may_leave tape c → c ≡ found.items)
        × HasLived S.Script ⟦<MemoryTape as Tape>⟧ ⟦<Board<K> as World>⟧ tape found.items events.now
        life.0 life.1) }
    ensures refused { IfErr result (λ fault. IsOfLines fault
        → IsRefused S.Script ⟦<Board<K> as World>⟧ (whole_lines found.items) fault) }
    ensures accepted { IfErr result (λ fault. (history : List (Entry Call Reply)) (least : ℕ)
        → IsSequential history → Keeps S.Script history least found.items → ¬ (IsOfLines fault)) }
    ensures never_fails { IsErrOf result OpenFault.NotRead → ⊥ }
    ensures never_fails_on { IfOk result (λ life. IsErrOf life.0 DayFault.NotWritten → ⊥) }
{
    let tape = MemoryTape::new(alloc, found);
    match live(alloc, store, script, tape, events) {
        Ok(life) => Ok(life),
        Err((fault, _)) => Err(fault),
    }
}

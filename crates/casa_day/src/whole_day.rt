//! A whole life, on a file in memory.

ghost use Rattle.std.specs.Prelude.{◌≡◌, ◌<◌, [], List, ℕ, IfErr, IfOk, IsErrOf, OnOk};
ghost use Rattle.casa_history.specs.declared.entry.Entry.{Entry};
ghost use Rattle.casa_commit.specs.Legal.{IsLegal};
ghost use Rattle.casa_commit.specs.Rooms.{entries_of, open_desks};
ghost use Rattle.casa_tape.specs.Lines.{whole_lines};
ghost use Rattle.casa_tape.specs.declared.memory.MemoryTape.{MemoryTape as TapeInMemory};
ghost use Rattle.casa_day.specs.Days.{HasPassed};
ghost use Rattle.casa_day.specs.Refusals.{IsOfLines, IsRefused};
ghost use Rattle.casa_day.specs.Journals.{Keeps};

use crate::day::Day;
use crate::event::{DayFault, Event, OpenFault};
use crate::script::Script;
use casa_commit::{Gate, Room, World};
use casa_tape::{MemoryTape, Tape};
use std::alloc::Global;

/// A life on a file in memory with these bytes, whatever a crash made of them: the calls that it says are answered again,
/// and then happens what these events ask for. The day as it stands at its end, also where it could not go on, which is
/// where there was no memory.
///
/// At each moment of it a crash leaves a file that says a beginning of the history, which is legal, with each call whose
/// reply was told before. The errors are those of `Day::open`, but for `NotRead`.
pub fn live_in_memory<W: World + Drop, S: Script<W::Call, W::Reply> + Drop, G: Gate<W>>(
    alloc: Global,
    script: S,
    gate: &G,
    room: Room<W>,
    found: Vec<u8>,
    events: &[Event<W::Call>],
) -> Result<(Day<W, S, MemoryTape>, Result<(), DayFault>), OpenFault>
    requires empty { entries_of room ≡ [] }
    requires desk { 0 < open_desks room }
    ensures passed { IfOk result (λ r. (tape : TapeInMemory)
        × ⟦<MemoryTape as Tape>⟧.holds tape found.items
        × ((c : List ℕ) → ⟦<MemoryTape as Tape>⟧.may_leave tape c → c ≡ found.items)
        × HasPassed S.Script ⟦<MemoryTape as Tape>⟧ tape found.items events.now r.1 r.0) }
    ensures desks { IfOk result (λ r. open_desks r.0.room ≡ open_desks room) }
    ensures legal { IfOk result (λ r. IsLegal W.after W.reply W.opening (entries_of r.0.room)) }
    ensures refused { IfErr result (λ fault. IsOfLines fault
        → IsRefused S.Script W.World (whole_lines found.items) fault) }
    ensures accepted { IfErr result (λ fault. (history : List (Entry W.Call W.Reply)) (least : ℕ)
        → IsLegal W.after W.reply W.opening history → Keeps S.Script history least found.items
        → ¬ (IsOfLines fault)) }
    ensures never_fails { IsErrOf result OpenFault.NotRead → ⊥ }
    ensures never_fails_on { IfOk result (λ r. IsErrOf r.1 DayFault.NotWritten → ⊥) }
{
    let tape = MemoryTape::new(alloc, found);
    let mut day = match Day::open(alloc, script, gate, room, tape) {
        Ok(day) => day,
        Err((fault, _)) => return Err(fault),
    };
    let lived = day.live(alloc, gate, events);
    Ok((day, lived))
}

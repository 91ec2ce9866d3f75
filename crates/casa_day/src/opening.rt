//! Opening a day: its journal is read, and its calls are answered again.

ghost use Rattle.std.specs.Prelude.{◌≡◌, ◌↔◌, ◌<◌, ◌++◌, ◌∷◌, [], List, ℕ, length, IfErr, IfOk, IsErrOf, OnOk};
ghost use Rattle.casa_history.specs.declared.entry.Entry.{Entry};
ghost use Rattle.casa_commit.specs.Legal.{IsLegal};
ghost use Rattle.casa_commit.specs.Rooms.{entries_of, open_desks};
ghost use Rattle.casa_tape.specs.Lines.{AreLines, StandsAs, journal_of, whole_lines};
ghost use Rattle.casa_tape.specs.Journals.{IsSettled, LeavesOnly};
ghost use Rattle.casa_day.specs.Scripts.{Says, Say};
ghost use Rattle.casa_day.specs.Refusals.{IsOfLines, IsRefused, IsRefusedAt};
ghost use Rattle.casa_day.specs.Days.{IsRestored, IsRunningDay, tape_left};
ghost use Rattle.casa_day.specs.Journals.{IsBegun, Keeps};

use crate::day::Day;
use crate::event::OpenFault;
use crate::journal::Journal;
use crate::script::Script;
use casa_commit::{Gate, Room, World};
use casa_tape::{Tape, first_line, look, mend};
use std::alloc::Global;

/// The desk that answers the calls of the journal again.
const JOURNAL_DESK: u32 = 0;

impl<W: World + Drop, S: Script<W::Call, W::Reply> + Drop, T: Tape + Drop> Day<W, S, T> {
    /// Opens the day of a journal, as a crash may have left it, in a room where nothing was answered. The room then has
    /// answered the calls that the whole lines say, and what stands behind them is cut. All of them count as told.
    ///
    /// An error hands the tape back, and gives the room up: `NotRead` where the tape fails; `BadLine` at the first line
    /// that says no call at its position, or `ReplayDiffers` at the first whose call is now answered otherwise than it
    /// vouches, whichever comes first, and then the file is as it was; `NoMemory` where there is no memory.
    pub fn open<G: Gate<W>>(
        alloc: Global,
        script: S,
        gate: &G,
        room: Room<W>,
        tape: T,
    ) -> Result<Self, (OpenFault, T)>
        requires empty { entries_of room ≡ [] }
        requires desk { 0 < open_desks room }
        ensures running { IfOk result (λ day. IsRunningDay S.Script T.Tape day) }
        ensures begun { IfOk result (λ day. IsBegun day.journal.tape
            (length (entries_of day.room)) day.journal) }
        ensures said { IfOk result (λ day. (xs : List ℕ) → T.holds tape xs
            → Say S.Script 1 (whole_lines xs) (entries_of day.room)) }
        ensures settled { IfOk result (λ day. (xs : List ℕ) → T.holds tape xs
            → IsSettled T.Tape day.journal.tape (whole_lines xs)) }
        ensures desks { IfOk result (λ day. open_desks day.room ≡ open_desks room) }
        ensures refused { IfErr result (λ e. IsOfLines e.0 → (xs : List ℕ) → T.holds tape xs
            → IsRefused S.Script W.World (whole_lines xs) e.0) }
        ensures untouched { IfErr result (λ e. IsOfLines e.0 → (xs : List ℕ)
            → T.holds (tape_left result) xs ↔ T.holds tape xs) }
        // No file that a day over this world left is refused.
        ensures accepted { IfErr result (λ e. (history : List (Entry W.Call W.Reply)) (least : ℕ)
            (xs : List ℕ) → IsLegal W.after W.reply W.opening history → T.holds tape xs
            → Keeps S.Script history least xs → ¬ (IsOfLines e.0)) }
        ensures cause { IfErr result (λ e. e.0 ≡ OpenFault.NotRead → T.has_failed (tape_left result)) }
        // A crash at any moment of it leaves a file that stands for the same lines.
        ensures any_moment { LeavesOnly T.Tape tape (tape_left result)
            (StandsAs (T.may_leave tape)) }
    {
        let mut room = room;
        let mut tape = tape;
        let journaled = match restore(alloc, &script, gate, &mut room, &mut tape) {
            Ok(journaled) => journaled,
            Err(fault) => return Err((fault, tape)),
        };
        match Journal::begin(alloc, tape, journaled) {
            Ok(journal) => Ok(Day {
                room,
                script,
                journal,
            }),
            Err(tape) => Err((OpenFault::NoMemory, tape)),
        }
    }
}

/// Reads a journal, answers the calls of its whole lines again, and then cuts what stands behind them. How many they are.
fn restore<W: World, S: Script<W::Call, W::Reply>, T: Tape, G: Gate<W>>(
    alloc: Global,
    script: &S,
    gate: &G,
    room: &mut Room<W>,
    tape: &mut T,
) -> Result<usize, OpenFault>
    requires empty { entries_of room.old ≡ [] }
    requires desk { 0 < open_desks room.old }
    ensures restored { IfOk result (λ count. IsRestored S.Script T.Tape tape.old tape.new
        (entries_of room.new) count) }
    ensures desks { OnOk result (open_desks room.new ≡ open_desks room.old) }
    ensures refused { IfErr result (λ fault. IsOfLines fault → (xs : List ℕ) → T.holds tape.old xs
        → IsRefused S.Script W.World (whole_lines xs) fault) }
    ensures untouched { IfErr result (λ fault. IsOfLines fault → (xs : List ℕ)
        → T.holds tape.new xs ↔ T.holds tape.old xs) }
    ensures cause { IsErrOf result OpenFault.NotRead → T.has_failed tape.new }
    ensures any_moment { LeavesOnly T.Tape tape.old tape.new (StandsAs (T.may_leave tape.old)) }
{
    let found = look(alloc, tape)?;
    let count = replay(alloc, script, gate, room, found.lines())?;
    mend(tape, &found)?;
    Ok(count)
}

/// Answers the calls of these lines again, one after the other. How many they are.
fn replay<W: World, S: Script<W::Call, W::Reply>, G: Gate<W>>(
    alloc: Global,
    script: &S,
    gate: &G,
    room: &mut Room<W>,
    text: &[u8],
) -> Result<usize, OpenFault>
    requires empty { entries_of room.old ≡ [] }
    requires desk { 0 < open_desks room.old }
    ensures said { IfOk result (λ count. (lines : List (List ℕ)) → AreLines lines
        → text.now ≡ journal_of lines → Say S.Script 1 lines (entries_of room.new)
        × (count ≡ length (entries_of room.new))) }
    ensures refused { IfErr result (λ fault. (lines : List (List ℕ)) → AreLines lines
        → text.now ≡ journal_of lines → IsRefused S.Script W.World lines fault) }
    ensures desks { OnOk result (open_desks room.new ≡ open_desks room.old) }
    ensures read { IsErrOf result OpenFault.NotRead → ⊥ }
{
    let mut rest = text;
    let mut position = 0;
    while let Some((line, others)) = first_line(rest) {
        position += 1;
        answer_again(alloc, script, gate, room, position, line)?;
        rest = others;
    }
    Ok(position)
}

/// Answers the call of the line at a position again, and compares its reply with the one for which the line vouches.
fn answer_again<W: World, S: Script<W::Call, W::Reply>, G: Gate<W>>(
    alloc: Global,
    script: &S,
    gate: &G,
    room: &mut Room<W>,
    position: usize,
    line: &[u8],
) -> Result<(), OpenFault>
    requires { 0 < open_desks room.old }
    ensures said { OnOk result ((e : Entry W.Call W.Reply) × Says S.Script position line.now e
        × (entries_of room.new ≡ entries_of room.old ++ e ∷ [])) }
    ensures legal { OnOk result (IsLegal W.after W.reply W.opening (entries_of room.new)) }
    ensures desks { OnOk result (open_desks room.new ≡ open_desks room.old) }
    ensures refused { IfErr result (λ fault. IsRefusedAt S.Script W.World (entries_of room.old)
        position line.now fault) }
{
    let Some(call) = script.read(alloc, position, line)? else {
        return Err(OpenFault::BadLine(position));
    };
    let receipt = room.answer(alloc, JOURNAL_DESK, &call, gate)?;
    if !script.vouches(alloc, position, line, &receipt.entry.reply)? {
        return Err(OpenFault::ReplayDiffers(position));
    }
    Ok(())
}

//! The day.

ghost use Rattle.std.specs.Prelude.{◌≡◌, ◌≤◌, ◌++◌, ◌∷◌, [], List, ℕ, length, take, IfOk, OnOk, OnErr, IsErrOf};
ghost use Rattle.casa_commit.specs.Legal.{IsLegal};
ghost use Rattle.casa_commit.specs.Rooms.{entries_of, open_desks};

use crate::event::{DayFault, Event};
use crate::journal::Journal;
use crate::script::Script;
use casa_commit::{Gate, Room, World};
use casa_tape::Tape;
use std::alloc::Global;

/// A room with its journal, and the script of the journal's lines.
#[derive(Drop)]
pub struct Day<W: World, S, T> {
    pub room: Room<W>,
    pub script: S,
    pub journal: Journal<T>,
}

impl<W: World, S: Script<W::Call, W::Reply>, T: Tape> Day<W, S, T> {
    ghost use Rattle.casa_day.specs.Courses.{course_of, step, Happened};
    ghost use Rattle.casa_day.specs.Days.{IsRunningDay, WentOn};

    /// What happens, one event after the other. At each end, and so at each moment since the day began, the history is legal,
    /// and a crash at any moment since a reply was told leaves a file that has its call, at its position.
    ///
    /// `NotWritten` where the tape fails, `NoMemory` where there is no memory; at both the day is to be opened again.
    pub fn live<G: Gate<W>>(
        &mut self,
        alloc: Global,
        gate: &G,
        events: &[Event<W::Call>],
    ) -> Result<(), DayFault>
        requires { IsRunningDay S.Script T.Tape self.old }
        ensures went_on { WentOn S.Script T.Tape self.old self.new result }
        ensures legal { IsLegal W.after W.reply W.opening (entries_of self.new.room) }
        // What happened is what the events say, up to one that failed, of which nothing counts.
        ensures course { Happened (open_desks self.old.room) events.now result
            (course_of self.old) (course_of self.new) }
    {
        for event in events {
            self.happen(alloc, gate, event)?;
        }
        Ok(())
    }

    /// What one event asks for. `NotWritten` where the tape fails, `NoMemory` where there is no memory.
    pub fn happen<G: Gate<W>>(
        &mut self,
        alloc: Global,
        gate: &G,
        event: &Event<W::Call>,
    ) -> Result<(), DayFault>
        requires { IsRunningDay S.Script T.Tape self.old }
        ensures went_on { WentOn S.Script T.Tape self.old self.new result }
        ensures course { OnOk result (course_of self.new
            ≡ step (open_desks self.old.room) event.now (course_of self.old)) }
        ensures nothing_happened { OnErr result (course_of self.new ≡ course_of self.old) }
    {
        match event {
            Event::Answer(desk, call) => self.answer(alloc, gate, *desk, call),
            Event::Flush => self.flush(alloc),
            Event::Tell(position) => self.tell(*position),
        }
    }

    /// A desk's call is answered, where the desk is open. `NoMemory` where there is no memory for it; the day can go on.
    pub fn answer<G: Gate<W>>(
        &mut self,
        alloc: Global,
        gate: &G,
        desk: u32,
        call: &W::Call,
    ) -> Result<(), DayFault>
        requires { IsRunningDay S.Script T.Tape self.old }
        ensures went_on { WentOn S.Script T.Tape self.old self.new result }
        ensures running { IsRunningDay S.Script T.Tape self.new }
        ensures course { OnOk result (course_of self.new
            ≡ step (open_desks self.old.room) (Event.Answer desk call.now) (course_of self.old)) }
        ensures nothing_happened { OnErr result (course_of self.new ≡ course_of self.old) }
        ensures not_written { IsErrOf result DayFault.NotWritten → ⊥ }
    {
        if desk < self.room.desks() {
            self.room.answer(alloc, desk, call, gate)?;
        }
        Ok(())
    }

    /// Writes the entries that the journal does not have, and puts them on the disk. `NotWritten` where the tape fails,
    /// `NoMemory` where there is no memory; at both the day is to be opened again.
    pub fn flush(&mut self, alloc: Global) -> Result<(), DayFault>
        requires { IsRunningDay S.Script T.Tape self.old }
        ensures went_on { WentOn S.Script T.Tape self.old self.new result }
        ensures course { OnOk result (course_of self.new
            ≡ step (open_desks self.old.room) Event.Flush (course_of self.old)) }
        ensures nothing_happened { OnErr result (course_of self.new ≡ course_of self.old) }
    {
        self.journal.flush(alloc, &self.script, self.room.history())
    }

    /// The reply at this position, counted from 1, is told, where the journal has its call. `NoMemory` where there is no
    /// memory to note that; the day can go on.
    pub fn tell(&mut self, position: usize) -> Result<(), DayFault>
        requires { IsRunningDay S.Script T.Tape self.old }
        ensures went_on { WentOn S.Script T.Tape self.old self.new result }
        ensures running { IsRunningDay S.Script T.Tape self.new }
        ensures course { OnOk result (course_of self.new
            ≡ step (open_desks self.old.room) (Event.Tell position) (course_of self.old)) }
        ensures nothing_happened { OnErr result (course_of self.new ≡ course_of self.old) }
        ensures not_written { IsErrOf result DayFault.NotWritten → ⊥ }
    {
        self.journal.tell(position)
    }
}

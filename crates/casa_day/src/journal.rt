//! The journal of a history.

ghost use Rattle.std.specs.Prelude.{◌≡◌, ◌+◌, ◌<◌, ◌^◌, nat_lt, nat_le, ◌&&◌, if◌then◌else◌, [], ◌∷◌, List, drop, length, IfErr, IfOk, IsErrOf, OnOk, OnErr};
ghost use Rattle.casa_history.specs.declared.entry.Entry.{Entry};
ghost use Rattle.casa_history.specs.Entries.{entries};
ghost use Rattle.casa_tape.specs.Tape.{IsSynced};
ghost use Rattle.casa_tape.specs.Journals.{LeavesOnly};

use crate::event::DayFault;
use crate::script::Script;
use crate::text::text_of;
use casa_history::{History, SharedEntry};
use casa_tape::{Tape, append};
use std::alloc::Global;
use std::snapshot::Snapshot;

/// A reply that was told, or the opening of the journal: a position, and when. `at` has no bytes.
#[derive(Drop)]
pub struct Told<T> {
    pub position: usize,
    pub at: Snapshot<T>,
}

/// A journal: the tape, how many entries it has, and what was told.
#[derive(Drop)]
pub struct Journal<T> {
    pub tape: T,
    pub journaled: usize,
    pub told: Vec<Told<T>>,
}

impl<T: Tape> Journal<T> {
    ghost use Rattle.casa_day.specs.Journals.{IsBegun, IsRunning, IsSafe, IsToldNow, Keeps};

    /// The journal on a tape that has so many entries, all of which count as told. An error hands the tape back, where there
    /// is no memory.
    pub fn begin(alloc: Global, tape: T, journaled: usize) -> Result<Journal<T>, T>
        ensures begun { IfOk result (λ journal. IsBegun tape journaled journal) }
        ensures back { IfErr result (λ back. back ≡ tape) }
    {
        let at = Snapshot::of(&tape);
        let mut told = Vec::new(alloc);
        let position = journaled;
        if told.push(Told { position, at }).is_err() {
            return Err(tape);
        }
        Ok(Journal {
            tape,
            journaled,
            told,
        })
    }

    /// Writes the entries of the history that the journal does not have, and puts them on the disk. `NotWritten` where the
    /// tape fails, `NoMemory` where there is no memory; at both the journal is to be opened again.
    pub fn flush<C, R, S: Script<C, R>>(
        &mut self,
        alloc: Global,
        script: &S,
        history: &History<C, R>,
    ) -> Result<(), DayFault>
        requires { IsRunning S.Script T.Tape (entries history.now) self.old }
        ensures safe { IsSafe S.Script T.Tape (entries history.now) self.new }
        // A crash at any moment of it leaves a file that keeps what the journal had.
        ensures any_moment { LeavesOnly T.Tape self.old.tape self.new.tape
            (Keeps S.Script (entries history.now) self.old.journaled) }
        ensures running { OnOk result (IsRunning S.Script T.Tape (entries history.now) self.new) }
        ensures all { OnOk result (self.new.journaled ≡ length (entries history.now)) }
        ensures less { OnErr result (self.new.journaled ≡ self.old.journaled) }
        ensures told { self.new.told.items ≡ self.old.told.items }
        ensures cause { IsErrOf result DayFault.NotWritten → T.has_failed self.new.tape }
    {
        self.write(alloc, script, &history.entries()[self.journaled..])
    }

    /// Writes these entries, which stand in the history behind those that the journal has, and puts them on the disk. Errors
    /// as of `flush`.
    pub fn write<C, R, S: Script<C, R>>(
        &mut self,
        alloc: Global,
        script: &S,
        behind: &[SharedEntry<C, R>],
    ) -> Result<(), DayFault>
        requires synced { IsSynced T.holds T.may_leave self.old.tape }
        requires fits { self.old.journaled + length behind.now < 2 ^ 64 }
        ensures safe { (history : List (Entry C R)) → IsRunning S.Script T.Tape history self.old
            → drop self.old.journaled history ≡ behind.now
            → IsSafe S.Script T.Tape history self.new }
        ensures any_moment { (history : List (Entry C R)) → IsRunning S.Script T.Tape history self.old
            → drop self.old.journaled history ≡ behind.now
            → LeavesOnly T.Tape self.old.tape self.new.tape
            (Keeps S.Script history self.old.journaled) }
        ensures running { OnOk result ((history : List (Entry C R))
            → IsRunning S.Script T.Tape history self.old
            → drop self.old.journaled history ≡ behind.now
            → IsRunning S.Script T.Tape history self.new) }
        ensures count { OnOk result (self.new.journaled
            ≡ self.old.journaled + length behind.now) }
        ensures less { OnErr result (self.new.journaled ≡ self.old.journaled) }
        ensures told { self.new.told.items ≡ self.old.told.items }
        ensures cause { IsErrOf result DayFault.NotWritten → T.has_failed self.new.tape }
    {
        let count = self.journaled + behind.len();
        let text = text_of(alloc, script, self.journaled, behind)?;
        append(&mut self.tape, &text)?;
        self.journaled = count;
        Ok(())
    }

    /// The reply at this position, counted from 1, is told, where the journal has its call. `NoMemory` where there is no
    /// memory to note that.
    pub fn tell(&mut self, position: usize) -> Result<(), DayFault>
        ensures same { (self.new.tape ≡ self.old.tape) × (self.new.journaled ≡ self.old.journaled) }
        ensures told { OnOk result (IsToldNow self.old self.new
            (if nat_lt 0 position && nat_le position self.old.journaled
            then position ∷ [] else [])) }
        ensures untold { OnErr result (self.new.told.items ≡ self.old.told.items) }
        ensures not_written { IsErrOf result DayFault.NotWritten → ⊥ }
    {
        if position == 0 || position > self.journaled {
            return Ok(());
        }
        let at = Snapshot::of(&self.tape);
        if self.told.push(Told { position, at }).is_err() {
            return Err(DayFault::NoMemory);
        }
        Ok(())
    }
}

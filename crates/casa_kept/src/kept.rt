//! The file of a journal.

ghost use Rattle.std.specs.Prelude.{◌≡◌, ◌+◌, ◌<◌, ◌^◌, ◌++◌, [], true, false, length, IsErrOf, OnOk};
ghost use Rattle.casa_front.specs.Openings.{history_name};
ghost use Rattle.casa_tape.specs.Journals.{LeavesOnly};
ghost use Rattle.casa_day.specs.Journals.{Keeps};
ghost use Rattle.casa_kept.specs.Notes.{Has, IsKeptFor, IsNotedNow};
ghost use Rattle.casa_kept.specs.declared.kept.Unkept.TheVariants.{NoMemory, Failed};

use crate::synced::Synced;
use casa_day::{Script, Told, text_of};
use casa_front::{Front, Keeper, Named, Notes, Opened};
use casa_history::{Entry, SharedEntry};
use casa_tape::{Tape, append};
use std::alloc::Global;
use std::marker::{Model, PhantomData};
use std::snapshot::Snapshot;
use thiserror::Error;

/// Why the disk does not have what was answered.
#[derive(Clone, Copy, PartialEq, Eq, Debug, Error)]
pub enum Unkept {
    /// The journal's file has failed, now or earlier.
    #[error("the journal could not be written")]
    Failed,
    /// There is no memory for what would be written now.
    #[error("there is no memory for what the journal lacks")]
    NoMemory,
}

/// The file of a journal: its lines, which are on the disk, say just the entries that the front has seen. Where a write has
/// failed, of the last of them some may be missing.
///
/// What it had at any moment that was noted, a crash since then leaves. Nothing is ever done to it but that lines are written
/// behind the others, since nobody gets the tape back.
pub struct Kept<C, R, S: Script<C, R>, L: Named, T: Tape> {
    tape: T,
    is_broken: bool,
    front: Front<C, R, L>,
    count: usize,
    notes: Keeper<Told<T>, (), Notes<L>>,
    script: PhantomData<S>,
}

impl<C, R, S: Script<C, R>, L: Named, T: Tape> Model for Kept<C, R, S, L, T> {
    ghost use Rattle.std.specs.Prelude.{◌≡◌, length};
    ghost use Rattle.casa_kept.specs.Notes.{IsFile, Journaled};

    ghost Value = { Journaled C R T };

    ghost view = { λ k. record { tape = k.tape; is_broken = k.is_broken; front = k.front; notes = k.notes } };

    ghost invariant = { λ k. (k.count ≡ length k.front)
        × IsFile S.Script T.Tape k.is_broken k.front k.tape k.notes };
}

impl<C, R, S: Script<C, R>, L: Named, T: Tape + Drop> Drop for Kept<C, R, S, L, T> {
    fn drop(self) {
        let Kept {
            tape: _,
            is_broken: _,
            front: _,
            count: _,
            notes: _,
            script: _,
        } = self;
    }
}

impl<C, R, S: Script<C, R>, L: Named, T: Tape + Drop> Kept<C, R, S, L, T> {
    /// The journal in this file, whose lines say what the front has seen, so many entries, and are on the disk. That it has
    /// them now is its first note.
    pub fn begin(tape: T, front: &Front<C, R, L>, count: usize, opened: Opened<Told<T>, ()>) -> Self
        requires has { Has S.Script T.Tape front.now tape }
        requires count { count ≡ length front.now }
        requires name { history_name opened ≡ L.notes }
        ensures tape { result.tape ≡ tape }
        ensures front { result.front ≡ front.now }
        ensures whole { result.is_broken ≡ false }
        ensures noted { IsNotedNow [] result.notes tape count }
    {
        let mut notes = opened.named::<Notes<L>>();
        note(&mut notes, &tape, count);
        Kept {
            tape,
            is_broken: false,
            front: front.again(),
            count,
            notes,
            script: PhantomData,
        }
    }

    /// Whether a write has failed.
    pub fn is_broken(&self) -> bool
        ensures { result ≡ self.now.is_broken }
    {
        self.is_broken
    }

    /// How many entries the file has.
    pub fn count(&self) -> usize
        ensures { result ≡ length self.now.front }
    {
        self.count
    }

    /// What the file has.
    pub fn synced(&self) -> Synced<C, R, L, T>
        requires { self.now.is_broken ≡ false }
        ensures front { result.front ≡ self.now.front }
        ensures notes { result.notes ≡ self.now.notes }
    {
        Synced {
            front: self.front.again(),
            notes: self.notes.front(),
        }
    }

    /// Its entries, and the file as it stands, also where a write has failed: since the moment at which it was noted that it
    /// has what was handed out here, a crash leaves a file that keeps that.
    pub fn keeps(&mut self, synced: &Synced<C, R, L, T>) -> (Front<C, R, L>, Snapshot<T>)
        ensures front { result.0 ≡ self.old.front }
        ensures now { result.1.value ≡ self.old.tape }
        ensures same { self.new ≡ self.old }
        ensures kept { IsKeptFor S.Script T.Tape self.old.front self.old.tape synced.now }
    {
        self.notes.knows(&synced.notes);
        synced.front.agrees(&self.front);
        (self.front.again(), Snapshot::of(&self.tape))
    }

    /// Writes these entries, which stand in the history behind those that the file has, puts them on the disk, and notes that.
    /// The front has seen all of them.
    ///
    /// `NoMemory` where there is none for their text, and then all is as it was; `Failed` where the file could not be written
    /// or synced, and then nothing more can be written to it.
    pub fn write(
        &mut self,
        alloc: Global,
        script: &S,
        now: &Front<C, R, L>,
        behind: &[SharedEntry<C, R>],
    ) -> Result<(), Unkept>
        requires whole { self.old.is_broken ≡ false }
        requires behind { now.now ≡ self.old.front ++ behind.now }
        requires fits { length now.now < 2 ^ 64 }
        ensures all { OnOk result ((self.new.front ≡ now.now) × (self.new.is_broken ≡ false)) }
        ensures noted { OnOk result (IsNotedNow self.old.notes self.new.notes self.new.tape
            (length now.now)) }
        ensures nothing { IsErrOf result NoMemory → self.new ≡ self.old }
        ensures broken { IsErrOf result Failed → (self.new.front ≡ now.now)
            × (self.new.is_broken ≡ true) × (self.new.notes ≡ self.old.notes) }
        // A crash at any moment of it leaves a file that keeps what it had.
        ensures any_moment { LeavesOnly T.Tape self.old.tape self.new.tape
            (Keeps S.Script now.now (length self.old.front)) }
    {
        let Ok(text) = text_of(alloc, script, self.count, behind) else {
            return Err(Unkept::NoMemory);
        };
        let appended = append(&mut self.tape, &text);
        self.front = now.again();
        self.count += behind.len();
        let Ok(()) = appended else {
            self.is_broken = true;
            return Err(Unkept::Failed);
        };
        note(&mut self.notes, &self.tape, self.count);
        Ok(())
    }
}

/// Notes that the file has so many entries now.
fn note<T: Tape + Drop, L: Named>(notes: &mut Keeper<Told<T>, (), Notes<L>>, tape: &T, count: usize)
    ensures { IsNotedNow notes.old notes.new tape.now count }
{
    let at = Snapshot::of(tape);
    let entry = Entry {
        desk: 0,
        call: Told {
            position: count,
            at,
        },
        reply: (),
    };
    let mut seen = notes.front();
    notes.push(&mut seen, &entry);
}

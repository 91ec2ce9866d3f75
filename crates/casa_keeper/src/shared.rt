//! The journal behind a lock.

ghost use Rattle.std.specs.Prelude.{◌≡◌, false, length, IfOk, IfSome};
ghost use mathlib.Core.List.{IsPrefix};
ghost use Rattle.casa_kept.specs.Notes.{IsKeptFor};

use casa_commit::Gate;
use casa_day::Script;
use casa_engine::{Engine, EngineName};
use casa_flight::{Call, Reply};
use casa_front::{Front, Named};
use casa_kept::{Kept, Synced, Unkept};
use casa_tape::Tape;
use casa_view::{Board, Store};
use std::alloc::Global;
use std::snapshot::Snapshot;
use std::sync::{Condvar, Mutex, Wait};

/// What the lock holds: the file, where nobody writes it now, and what it had on the disk when it was put there last, so many
/// entries.
struct Keeping<S: Script<Call, Reply>, L: Named, T: Tape> {
    kept: Option<Kept<Call, Reply, S, L, T>>,
    synced: Synced<Call, Reply, L, T>,
    count: usize,
    ghost counted: { count ≡ length synced.front },
}

impl<S: Script<Call, Reply>, L: Named, T: Tape + Drop> Drop for Keeping<S, L, T> {
    fn drop(self) {
        let Keeping {
            kept: _,
            synced: _,
            count: _,
        } = self;
    }
}

impl<S: Script<Call, Reply>, L: Named, T: Tape + Drop> Keeping<S, L, T> {
    /// How many entries the disk has.
    fn count(&self) -> usize
        ensures { result ≡ length self.now.synced.front }
    {
        self.count
    }

    /// Whether somebody writes the journal.
    fn is_taken(&self) -> bool {
        self.kept.is_none()
    }

    /// What the disk has.
    fn synced(&self) -> Synced<Call, Reply, L, T>
        ensures { result ≡ self.now.synced }
    {
        self.synced.again()
    }

    /// Takes the file where nobody has it, and no write has failed.
    fn take(&mut self) -> Option<Kept<Call, Reply, S, L, T>>
        ensures { IfSome result (λ kept. kept.is_broken ≡ false) }
    {
        let kept = self.kept.take()?;
        if kept.is_broken() {
            self.kept = Some(kept);
            return None;
        }
        Some(kept)
    }

    /// Puts the file back. What it has now is what the disk has, where no write has failed.
    fn put_back(&mut self, kept: Kept<Call, Reply, S, L, T>) {
        if !kept.is_broken() {
            self.count = kept.count();
            self.synced = kept.synced();
        }
        self.kept = Some(kept);
    }

    /// As `keeps` of the journal.
    fn keeps(
        &mut self,
        synced: &Synced<Call, Reply, L, T>,
    ) -> Option<(Front<Call, Reply, L>, Snapshot<T>)>
        ensures { IfSome result (λ now. IsKeptFor S.Script T.Tape now.0 now.1.value synced.now) }
    {
        match &mut self.kept {
            Some(kept) => Some(kept.keeps(synced)),
            None => None,
        }
    }
}

/// Whose turn it is: what the disk has, so many entries; and, where that is too few and who asked is to write them, the file, of
/// which no write has failed.
struct Turn<S: Script<Call, Reply>, L: Named, T: Tape> {
    synced: Synced<Call, Reply, L, T>,
    count: usize,
    mine: Option<Kept<Call, Reply, S, L, T>>,
}

/// The journal of an engine, for the desks of all threads. Its lines are of the script S, its file is T, and L names the
/// engine's history, and the notes of what the file had of it, and when.
///
/// Each comes of `open`. A crash at any moment since a `Synced` was noted leaves a file that keeps all of it, whoever has it
/// and whoever wrote since, also where a write failed (`keeps`). Nothing is cut from the file: nobody gets the tape back.
pub struct SharedJournal<S: Script<Call, Reply>, L: Named, T: Tape> {
    keeping: Mutex<Keeping<S, L, T>>,
    changed: Condvar,
    script: S,
    alloc: Global,
    opening: Synced<Call, Reply, L, T>,
}

impl<S: Script<Call, Reply> + Drop, L: Named, T: Tape + Drop> Drop for SharedJournal<S, L, T> {
    fn drop(self) {
        let SharedJournal {
            keeping: _,
            changed: _,
            script: _,
            alloc: _,
            opening: _,
        } = self;
    }
}

impl<S: Script<Call, Reply> + Drop, L: EngineName, T: Tape + Drop> SharedJournal<S, L, T> {
    /// The journal in this file.
    pub(crate) fn of(alloc: Global, script: S, kept: Kept<Call, Reply, S, L, T>) -> Self
        requires { kept.is_broken ≡ false }
        ensures front { result.opening.front ≡ kept.front }
        ensures notes { result.opening.notes ≡ kept.notes }
    {
        let opening = kept.synced();
        let keeping = Keeping {
            synced: kept.synced(),
            count: kept.count(),
            kept: Some(kept),
        };
        SharedJournal {
            keeping: Mutex::new(keeping),
            changed: Condvar::new(),
            script,
            alloc,
            opening,
        }
    }

    /// What it had when it was opened.
    pub fn opening(&self) -> Synced<Call, Reply, L, T>
        ensures { result ≡ self.now.opening }
    {
        self.opening.again()
    }

    /// What the file has of the history, and the file as it stands; `None` while somebody writes it. A crash at any moment
    /// since it was noted that it has what was handed out here leaves a file that keeps all of that.
    pub fn keeps<R: Wait>(
        &self,
        rt: &R,
        synced: &Synced<Call, Reply, L, T>,
    ) -> Option<(Front<Call, Reply, L>, Snapshot<T>)>
        ensures { IfSome result (λ now. IsKeptFor S.Script T.Tape now.0 now.1.value synced.now) }
    {
        self.keeping.lock(rt).keeps(synced)
    }

    /// Waits until the disk has all entries that the engine has now, and writes them where nobody else does. What the disk
    /// has then, which is all that the front has seen, at least.
    ///
    /// Who finds the file idle takes it, and writes all entries of that moment with one write and one sync, with no lock held.
    /// Who comes meanwhile waits for that, and goes on if it was enough; else one of them writes the next. `Failed` where the
    /// file could not be written or synced, and from then on where the disk has less; `NoMemory` where there is no memory for
    /// the entries or their text, and a later call may write all.
    pub fn sync<K: Store, G: Gate<Board<K>>, R: Wait>(
        &self,
        rt: &R,
        engine: &Engine<K, L, G>,
        front: &Front<Call, Reply, L>,
    ) -> Result<Synced<Call, Reply, L, T>, Unkept>
        ensures { IfOk result (λ synced. IsPrefix front.now synced.front) }
    {
        let mut seen = front.again();
        let needed = engine.see(rt, &mut seen);
        let turn = self.turn(rt, needed)?;
        let (synced, count) = self.write_in_turn(rt, engine, turn)?;
        if count < needed {
            return Err(Unkept::Failed);
        }
        seen.agrees(&synced.front());
        Ok(synced)
    }

    /// Waits while somebody writes and the disk has fewer entries than these. `Failed` where a write has failed, and it has
    /// fewer.
    fn turn<R: Wait>(&self, rt: &R, needed: usize) -> Result<Turn<S, L, T>, Unkept>
        ensures count { IfOk result (λ turn. turn.count ≡ length turn.synced.front) }
        ensures mine { IfOk result (λ turn. IfSome turn.mine (λ kept. kept.is_broken ≡ false)) }
    {
        let keeping = self.keeping.lock(rt);
        let mut keeping = self
            .changed
            .wait_while(rt, keeping, |k: &mut Keeping<S, L, T>| -> bool {
                k.count() < needed && k.is_taken()
            });
        let count = keeping.count();
        let synced = keeping.synced();
        if count >= needed {
            return Ok(Turn {
                synced,
                count,
                mine: None,
            });
        }
        let Some(kept) = keeping.take() else {
            return Err(Unkept::Failed);
        };
        Ok(Turn {
            synced,
            count,
            mine: Some(kept),
        })
    }

    /// Writes, where it is the turn of who asks. What the disk has then, so many entries. Errors as of `write`.
    fn write_in_turn<K: Store, G: Gate<Board<K>>, R: Wait>(
        &self,
        rt: &R,
        engine: &Engine<K, L, G>,
        turn: Turn<S, L, T>,
    ) -> Result<(Synced<Call, Reply, L, T>, usize), Unkept>
        requires count { turn.count ≡ length turn.synced.front }
        requires mine { IfSome turn.mine (λ kept. kept.is_broken ≡ false) }
        ensures { IfOk result (λ r. r.1 ≡ length r.0.front) }
    {
        let Turn {
            synced,
            count,
            mine,
        } = turn;
        match mine {
            None => Ok((synced, count)),
            Some(kept) => self.write(rt, engine, kept),
        }
    }

    /// Writes the entries that the file lacks, and puts it back. What the disk has then, so many entries. `NoMemory` where
    /// there is none for the entries or their text, and `Failed` where the file could not be written or synced.
    fn write<K: Store, G: Gate<Board<K>>, R: Wait>(
        &self,
        rt: &R,
        engine: &Engine<K, L, G>,
        kept: Kept<Call, Reply, S, L, T>,
    ) -> Result<(Synced<Call, Reply, L, T>, usize), Unkept>
        requires { kept.is_broken ≡ false }
        ensures { IfOk result (λ r. r.1 ≡ length r.0.front) }
    {
        let mut kept = kept;
        let mut all = kept.synced().front();
        let Ok(behind) = engine.entries_behind(rt, &mut all, kept.count()) else {
            self.put_back(rt, kept);
            return Err(Unkept::NoMemory);
        };
        if let Err(fault) = kept.write(self.alloc, &self.script, &all, &behind) {
            self.put_back(rt, kept);
            return Err(fault);
        }
        let (synced, count) = (kept.synced(), kept.count());
        self.put_back(rt, kept);
        Ok((synced, count))
    }

    /// Puts the file back, and wakes who waits for it.
    fn put_back<R: Wait>(&self, rt: &R, kept: Kept<Call, Reply, S, L, T>) {
        self.keeping.lock(rt).put_back(kept);
        self.changed.notify_all();
    }
}

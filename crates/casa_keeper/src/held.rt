//! Replies that wait for the journal.

ghost use Rattle.std.specs.Prelude.{◌≡◌};

use crate::sealed::Sealed;
use crate::shared::SharedJournal;
use casa_commit::Gate;
use casa_day::Script;
use casa_engine::{Engine, EngineName};
use casa_flight::{Call, Reply};
use casa_kept::{Synced, Unkept};
use casa_tape::Tape;
use casa_view::{Board, Store};
use std::io;
use std::io::Write;
use std::sync::Wait;

/// What has to be so before replies go out.
pub trait Keeper {
    /// What shows that all was kept.
    type Kept: Drop;

    /// Waits until all that was answered is kept. `Failed` where it can't be, now or ever, and `NoMemory` where there is no
    /// memory for that now.
    fn settle(&self) -> Result<Self::Kept, Unkept>;
}

/// Keeps nothing, so that replies go out at once.
#[derive(Clone, Copy, Debug)]
pub struct NoKeeper;

impl Keeper for NoKeeper {
    type Kept = ();

    fn settle(&self) -> Result<(), Unkept> {
        Ok(())
    }
}

/// A journal that has what an engine answers.
pub trait Syncs<E> {
    /// What shows what the disk has.
    type Synced: Drop;

    /// Puts all that the engine has answered by now on the disk. Errors as of a keeper.
    fn sync_all<R: Wait>(&self, rt: &R, engine: &E) -> Result<Self::Synced, Unkept>;
}

/// By `SharedJournal::sync`, whose `Synced` has at least all that the engine had.
impl<
    K: Store,
    L: EngineName,
    G: Gate<Board<K>>,
    S: Script<Call, Reply> + Drop,
    T: Tape + Drop,
> Syncs<Engine<K, L, G>> for SharedJournal<S, L, T> {
    type Synced = Synced<Call, Reply, L, T>;

    fn sync_all<R: Wait>(
        &self,
        rt: &R,
        engine: &Engine<K, L, G>,
    ) -> Result<Synced<Call, Reply, L, T>, Unkept> {
        let front = engine.front(rt);
        self.sync(rt, engine, &front)
    }
}

/// Keeps all that an engine answers in its journal.
#[derive(Drop)]
pub struct JournalKeeper<'e, 'j, 'r, E, J, R> {
    /// The engine.
    pub engine: &'e E,
    /// Its journal.
    pub journal: &'j J,
    /// What waits for their locks.
    pub rt: &'r R,
}

impl<'e, 'j, 'r, E, J: Syncs<E>, R: Wait> Keeper for JournalKeeper<'e, 'j, 'r, E, J, R> {
    type Kept = J::Synced;

    fn settle(&self) -> Result<J::Synced, Unkept> {
        self.journal.sync_all(self.rt, self.engine)
    }
}

/// A writer that lets bytes go only with what its keeper gives, which it asks for before each write.
///
/// Who has gathered replies has answered their calls before: so the journal has these entries when the replies go out.
#[derive(Drop)]
pub struct Held<'a, O, P> {
    sealed: Sealed<O, P>,
    keeper: &'a P,
}

impl<'a, O, P> Held<'a, O, P> {
    /// A writer that is held back by this keeper.
    pub fn new(writer: O, keeper: &'a P) -> Held<'a, O, P>
        ensures { result.sealed.writer ≡ writer }
    {
        let sealed = Sealed::new(writer);
        Held { sealed, keeper }
    }

    /// Gives the writer back.
    pub fn into_writer(self) -> O
        ensures { result ≡ self.entry.sealed.writer }
    {
        self.sealed.into_writer()
    }
}

impl<'a, O: Write, P: Keeper> Write for Held<'a, O, P> {
    ghost contents = { λ held. O.contents held.sealed.writer };

    fn write(&mut self, bytes: &[u8]) -> io::Result<usize> {
        let Ok(kept) = self.keeper.settle() else {
            return Err(io::Error::from(io::ErrorKind::Other));
        };
        self.sealed.write(kept, bytes)
    }

    fn flush(&mut self) -> io::Result<()> {
        self.sealed.flush()
    }
}

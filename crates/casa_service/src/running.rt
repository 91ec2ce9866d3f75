//! A session over the standard streams, with a journal.

ghost use Rattle.std.specs.Prelude.{◌≡◌, IfErr};
ghost use Rattle.std.specs.Arc.{arc_value};
ghost use Rattle.casa_front.specs.Openings.{history_name};
ghost use Rattle.casa_engine.specs.Ledgers.{IsBlankOf};
ghost use Rattle.casa_service.specs.Faults.{IsOfJournal};
ghost use Rattle.casa_service.specs.Running.{HasRun, IsAnswered};

use crate::fault::{JournalFault, ServiceFault, Trouble};
use crate::journal::{BlankNotes, FileJournal, open_journal};
use crate::log::Log;
use casa_cli::Journal;
use casa_commit::Gate;
use casa_engine::{
    Blank, DeskPass, Engine, EngineDesk, EngineName, blank, legal_histories_are_sequential,
};
use casa_front::Opened;
use casa_keeper::{Held, JournalKeeper, Keeper, LastError, Unkept};
use casa_plan::RecallingShared;
use casa_session::{SessionFault, run};
use casa_shelf::{Seals, Shelf, Shelving};
use casa_view::{Board, Store};
use std::alloc::{AllocError, Global};
use std::fs::{File, Files};
use std::io::{Eprint, Read, Write};
use std::marker::Brand;
use std::sync::{Arc, Wait};
use std::time::Clock;

/// The number of the engine. There is no other from which it would have to be told.
const ENGINE: u32 = 0;

/// Answers the lines of the reader at the writer as a session does, by a desk that goes on where the journal ends (`open` of
/// casa_keeper). No reply is written before its call is in the journal, on the disk (`Held`). The writer is given back.
///
/// `NoMemory` where there is none for the board, or to open the journal; then `Journal` where the journal can't be had, and
/// nothing is read; then the session's fault, or `Journal` where the journal could not be written.
pub fn run_journaled<R: Files<File = File> + Wait + Clock + Eprint + Sync, I: Read, O: Write>(
    rt: &R,
    alloc: Global,
    file: &Journal,
    reader: &mut I,
    writer: O,
) -> (Result<(), ServiceFault>, O)
    ensures { HasRun (record {
      input = I.remaining reader.old;
      input_left = I.remaining reader.new;
      output = O.contents writer;
      output_now = O.contents result.1;
    }) result.0 }
{
    let shelf = match new_shelf(alloc) {
        Ok(shelf) => shelf,
        Err(_) => return (Err(ServiceFault::NoMemory), writer),
    };
    let notes = Opened::new();
    run_on::<Brand, Brand, R, I, O>(rt, alloc, &shelf, blank(), notes, file, reader, writer)
}

/// A shelf for the positions of versions. `AllocError` where there is no memory for it.
fn new_shelf(alloc: Global) -> Result<Arc<Seals>, AllocError> {
    match Arc::new(alloc, boxcar::Vec::new(alloc)?) {
        Ok(shelf) => Ok(shelf),
        Err(_) => Err(AllocError),
    }
}

/// Answers the lines by a desk of a new engine, whose ledger, history and notes are these, and whose versions have their
/// positions on this shelf.
fn run_on<
    V: Shelving + Send + Sync,
    L: EngineName + Send + Sync,
    R: Files<File = File> + Wait + Clock + Eprint + Sync,
    I: Read,
    O: Write,
>(
    rt: &R,
    alloc: Global,
    shelf: &Arc<Seals>,
    blank: Blank,
    notes: BlankNotes,
    file: &Journal,
    reader: &mut I,
    writer: O,
) -> (Result<(), ServiceFault>, O)
    requires shelf { arc_value shelf.now ≡ V.shelves }
    requires ledger { IsBlankOf L.name L.parts blank.ledger.name blank.ledger.parts }
    requires history { history_name blank.history ≡ L.history }
    requires notes { history_name notes ≡ L.notes }
    ensures { HasRun (record {
      input = I.remaining reader.old;
      input_left = I.remaining reader.new;
      output = O.contents writer;
      output_now = O.contents result.1;
    }) result.0 }
{
    let shelf: Shelf<V, R> = Shelf::new(shelf, rt);
    let gate = RecallingShared::new(alloc);
    match Engine::<Shelf<V, R>, L, RecallingShared>::new(alloc, shelf, blank, ENGINE, gate) {
        Ok(engine) => run_kept(rt, alloc, &engine, notes, file, reader, writer),
        Err(_) => (Err(ServiceFault::NoMemory), writer),
    }
}

/// Answers the lines by a desk of an engine that nobody has asked, and keeps its journal.
fn run_kept<
    K: Store,
    L: EngineName,
    R: Files<File = File> + Wait + Clock + Eprint + Sync,
    I: Read,
    O: Write,
>(
    rt: &R,
    alloc: Global,
    engine: &Engine<K, L, RecallingShared>,
    notes: BlankNotes,
    file: &Journal,
    reader: &mut I,
    writer: O,
) -> (Result<(), ServiceFault>, O)
    requires { history_name notes ≡ L.notes }
    ensures { HasRun (record {
      input = I.remaining reader.old;
      input_left = I.remaining reader.new;
      output = O.contents writer;
      output_now = O.contents result.1;
    }) result.0 }
{
    let (pass, kept) = match open_kept(rt, alloc, engine, notes, file) {
        Ok(opened) => opened,
        Err(fault) => return (Err(fault), writer),
    };
    let KeptJournal {
        journal,
        path,
        last,
    } = kept;
    let keeper = JournalKeeper {
        engine,
        journal: &journal,
        rt,
    };
    let mut held = Held::new(writer, &keeper);
    let ended = answer_lines(rt, alloc, engine, pass, reader, &mut held);
    let writer = held.into_writer();
    let told = match ended {
        Ok(_) => Ok(()),
        Err(SessionFault::WriteFailed(written)) => match keeper.settle() {
            Err(Unkept::Failed) => Err(ServiceFault::Journal(JournalFault {
                path,
                trouble: Trouble::NotWritten(last.error()),
            })),
            _ => Err(ServiceFault::Session(SessionFault::WriteFailed(written))),
        },
        Err(fault) => Err(ServiceFault::Session(fault)),
    };
    (told, writer)
}

/// The journal of an engine, its path, and what the system says where its file fails.
struct KeptJournal<L: EngineName> {
    journal: FileJournal<L>,
    path: String,
    last: LastError,
}

/// A desk of an engine that nobody has asked, which goes on where the journal ends, and the journal.
fn open_kept<
    K: Store,
    L: EngineName,
    G: Gate<Board<K>>,
    R: Files<File = File> + Wait + Clock + Eprint,
>(
    rt: &R,
    alloc: Global,
    engine: &Engine<K, L, G>,
    notes: BlankNotes,
    file: &Journal,
) -> Result<(DeskPass<K, L>, KeptJournal<L>), ServiceFault>
    requires { history_name notes ≡ L.notes }
    ensures { IfErr result IsOfJournal }
{
    let path = format!(in alloc; "{}", file.path)?;
    let last = LastError::new(alloc)?;
    let log = Log::new(rt, false);
    let Ok(mut pass) = engine.desk(rt) else {
        return Err(ServiceFault::NoMemory);
    };
    let journal = open_journal(rt, alloc, &log, engine, &mut pass, file, &last, notes)?;
    let kept = KeptJournal {
        journal,
        path,
        last,
    };
    Ok((pass, kept))
}

/// Answers the lines of a reader at a writer by the desk of this pass, as every session does.
fn answer_lines<K: Store, L: EngineName, G: Gate<Board<K>>, R: Wait, I: Read, O: Write>(
    rt: &R,
    alloc: Global,
    engine: &Engine<K, L, G>,
    pass: DeskPass<K, L>,
    reader: &mut I,
    writer: &mut O,
) -> Result<u64, SessionFault>
    ensures { IsAnswered (record {
      input = I.remaining reader.old;
      input_left = I.remaining reader.new;
      output = O.contents writer.old;
      output_now = O.contents writer.new;
    }) result }
{
    legal_histories_are_sequential::<K>();
    let mut desk = EngineDesk::new(engine, rt, pass);
    let ended = run(alloc, reader, writer, &mut desk);
    desk.front();
    ended
}

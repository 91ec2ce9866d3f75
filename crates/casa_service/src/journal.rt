//! The journal of a service's engine.

ghost use Rattle.std.specs.Prelude.{◌≡◌, IfErr};
ghost use Rattle.casa_front.specs.Openings.{history_name};
ghost use Rattle.casa_service.specs.Faults.{IsOfJournal};

use crate::fault::{ServiceFault, Trouble};
use crate::log::Log;
use crate::torn::TornFiles;
use casa_cli::Journal;
use casa_commit::Gate;
use casa_day::{OpenFault, Told};
use casa_engine::{DeskPass, Engine, EngineName};
use casa_front::Opened;
use casa_keeper::{FileTape, LastError, RecoveryFault, SharedJournal, open};
use casa_script::CallScript;
use casa_view::{Board, Store};
use std::alloc::Global;
use std::fs::{File, Files};
use std::io;
use std::io::{Eprint, ErrorKind};
use std::sync::Wait;
use std::time::{Clock, Instant};

/// The journal of an engine in a file of the system.
pub(crate) type FileJournal<L> = SharedJournal<CallScript, L, FileTape>;

/// The notes of what a journal's file has had, before a type names them.
pub(crate) type BlankNotes = Opened<Told<FileTape>, ()>;

/// Opens the journal of an engine that nobody has asked anything: the calls of its file are answered again, by this desk. How
/// many they were and how long it took is said, and so is what was set aside. Where the file fails later, that is noted.
///
/// `Journal` where the file can't be opened, where it is no journal of this program's, or where what is to be cut can't be set
/// aside; `NoMemory` where there is none.
pub(crate) fn open_journal<
    K: Store,
    L: EngineName,
    G: Gate<Board<K>>,
    R: Files<File = File> + Wait + Clock + Eprint,
>(
    rt: &R,
    alloc: Global,
    log: &Log<R>,
    engine: &Engine<K, L, G>,
    desk: &mut DeskPass<K, L>,
    file: &Journal,
    last: &LastError,
    notes: BlankNotes,
) -> Result<FileJournal<L>, ServiceFault>
    requires { history_name notes ≡ L.notes }
    ensures { IfErr result IsOfJournal }
{
    let path = file.path;
    let begun = Instant::now(rt).ok();
    let tape = match FileTape::open(rt, path, last.again()?) {
        Ok(tape) => tape,
        Err(fault) => {
            let trouble = Trouble::NotOpened(fault);
            return Err(ServiceFault::of_journal(alloc, path, trouble));
        }
    };
    let mut aside = TornFiles {
        rt,
        alloc,
        log,
        path,
        error: None,
    };
    match open(
        rt, alloc, engine, desk, CallScript, tape, &mut aside, file.force, notes,
    ) {
        Ok((journal, count)) => {
            tell_opened(rt, log, path, count, begun);
            Ok(journal)
        }
        Err((fault, _)) => Err(refusal_of(alloc, path, fault, aside.error, last)),
    }
}

/// Says how many calls a journal has, and how long it took to answer them again.
fn tell_opened<R: Clock + Eprint>(
    rt: &R,
    log: &Log<R>,
    path: &str,
    count: usize,
    begun: Option<Instant>,
) {
    let taken = begun.and_then(|begun: Instant| -> Option<u128> {
        let taken = begun.elapsed(rt).ok()?;
        Some(taken.as_millis())
    });
    match taken {
        Some(taken) if count > 0 => log.tell(format_args!(
            "{path}: calls answered again: {count}, in {taken} ms"
        )),
        _ => log.tell(format_args!("{path}: calls answered again: {count}")),
    }
}

/// Why a journal is refused, where it may be for what could not be set aside.
fn refusal_of(
    alloc: Global,
    path: &str,
    fault: RecoveryFault,
    error: Option<io::Error>,
    last: &LastError,
) -> ServiceFault
    ensures { IsOfJournal result }
{
    let trouble = match fault {
        RecoveryFault::Refused(OpenFault::NoMemory) => return ServiceFault::NoMemory,
        RecoveryFault::Refused(OpenFault::NotRead) => Trouble::NotRead(last.error()),
        RecoveryFault::NotAlone => Trouble::NotAlone,
        RecoveryFault::Refused(OpenFault::BadLine(line)) => Trouble::BadLine(line),
        RecoveryFault::Refused(OpenFault::ReplayDiffers(line)) => Trouble::ReplayDiffers(line),
        RecoveryFault::MoreThanTorn(lines, bytes) => {
            Trouble::MoreThanTorn(lines.saturating_add(1), bytes)
        }
        RecoveryFault::NotSetAside => {
            let error = error.unwrap_or(io::Error::from(ErrorKind::Other));
            if error.kind() == ErrorKind::OutOfMemory {
                return ServiceFault::NoMemory;
            }
            Trouble::NotSetAside(error)
        }
    };
    ServiceFault::of_journal(alloc, path, trouble)
}

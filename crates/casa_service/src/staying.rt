//! A server that stays until it is ended.

ghost use Rattle.std.specs.Prelude.{◌≡◌};
ghost use Rattle.std.specs.Arc.{arc_value};
ghost use Rattle.casa_front.specs.Openings.{history_name};
ghost use Rattle.casa_engine.specs.Ledgers.{IsBlankOf};

use crate::addresses::{Addresses, PageAddress};
use crate::browsers::{PageDoor, seat_browsers};
use crate::door::{Door, Entrance, Standing};
use crate::ending::EndingKeeper;
use crate::fault::{ServiceFault, Trouble};
use crate::journal::{BlankNotes, open_journal};
use crate::log::Log;
use crate::whole_day::WholeDay;
use casa_cli::{Journal, Service};
use casa_day::Script;
use casa_engine::{Blank, Engine, EngineName, blank};
use casa_flight::{Call, Reply};
use casa_front::Opened;
use casa_keeper::{JournalKeeper, Keeper, LastError, NoKeeper, SharedJournal, Syncs, Unkept};
use casa_plan::RecallingShared;
use casa_server::{Sat, SeatFault, ServeFault, Stayed, stay, stay_with_timer};
use casa_shelf::{Seals, Shelf, Shelving};
use casa_sockets::Patience;
use casa_tape::Tape;
use casa_view::Store;
use std::alloc::{AllocError, Global};
use std::fs::{File, Files};
use std::io::Eprint;
use std::marker::Brand;
use std::net::{Net, TcpListener, TcpStream};
use std::random::RandomSource;
use std::sync::{Arc, Wait};
use std::thread;
use std::thread::{Scope, Threads};
use std::time::Clock;

/// The number of the engine. There is no other from which it would have to be told.
const ENGINE: u32 = 0;

/// Listens as the service says, and answers the connections that come, by as many desks at a time as each address has seats,
/// until it is ended. Where the service has a page, browsers are served that beside the desks, over 64 connections at a time.
/// What goes on it says on standard error. With a journal it begins with what that has, and nothing is replied or shown before
/// the calls of which it tells are in the journal, on the disk.
///
/// `BindFailed` where an address can't be had; `NoMemory` where there is none for the board; `Journal` where the journal can't
/// be had; `SpawnFailed` or `NoMemory` where there is not even one seat. What keeps it from accepting a connection is said, and
/// tried again until it passes. `Journal` too where the journal could not be written, when all seats have ended for that.
pub fn stay_desks<
    R: Net<Listener = TcpListener, Stream = TcpStream>
        + Files<File = File>
        + Threads
        + Wait
        + Clock
        + Eprint
        + RandomSource
        + Sync,
>(rt: &R, alloc: Global, service: &Service) -> Result<(), ServiceFault> {
    let log = Log::new(rt, service.quiet);
    let addresses = Addresses::listen(rt, alloc, service, &log)?;
    let Ok(shelf) = Arc::new(alloc, boxcar::Vec::new(alloc)?) else {
        return Err(ServiceFault::NoMemory);
    };
    let notes = Opened::new();
    let sats = stay_on::<Brand, Brand, R>(
        rt,
        alloc,
        &log,
        &addresses,
        &shelf,
        blank(),
        notes,
        service,
    )?;
    tell_sum(&log, sats.as_slice());
    Ok(())
}

/// Answers the connections at these addresses on a new engine, whose ledger, history and notes are these, and whose
/// versions have their positions on this shelf.
fn stay_on<
    V: Shelving + Send + Sync,
    L: EngineName + Send + Sync,
    R: Files<File = File> + Threads + Wait + Clock + Eprint + RandomSource + Sync,
>(
    rt: &R,
    alloc: Global,
    log: &Log<R>,
    addresses: &Addresses,
    shelf: &Arc<Seals>,
    blank: Blank,
    notes: BlankNotes,
    service: &Service,
) -> Result<Vec<Sat>, ServiceFault>
    requires shelf { arc_value shelf.now ≡ V.shelves }
    requires ledger { IsBlankOf L.name L.parts blank.ledger.name blank.ledger.parts }
    requires history { history_name blank.history ≡ L.history }
    requires notes { history_name notes ≡ L.notes }
{
    let shelf: Shelf<V, R> = Shelf::new(shelf, rt);
    let gate = RecallingShared::new(alloc);
    let engine = Engine::<Shelf<V, R>, L, RecallingShared>::new(alloc, shelf, blank, ENGINE, gate)?;
    match &service.journal {
        Some(file) => stay_kept(rt, alloc, log, addresses, &engine, notes, service, file),
        None => stay_without(rt, alloc, log, addresses, &engine, service),
    }
}

/// Answers the connections at these addresses by the desks of an engine that nobody has asked, and keeps its journal.
fn stay_kept<
    K: Store<Version: Send + Sync> + Send,
    L: EngineName + Send + Sync,
    R: Files<File = File> + Threads + Wait + Clock + Eprint + RandomSource + Sync,
>(
    rt: &R,
    alloc: Global,
    log: &Log<R>,
    addresses: &Addresses,
    engine: &Engine<K, L, RecallingShared>,
    notes: BlankNotes,
    service: &Service,
    file: &Journal,
) -> Result<Vec<Sat>, ServiceFault>
    requires { history_name notes ≡ L.notes }
{
    let last = LastError::new(alloc)?;
    let Ok(mut desk) = engine.desk(rt) else {
        return Err(ServiceFault::NoMemory);
    };
    let journal = open_journal(rt, alloc, log, engine, &mut desk, file, &last, notes)?;
    let stayed = stay_written(rt, alloc, log, addresses, engine, service, &journal);
    // What the clock has done since the last reply.
    match journal.sync_all(rt, engine) {
        Err(Unkept::Failed) => {
            let trouble = Trouble::NotWritten(last.error());
            Err(ServiceFault::of_journal(alloc, file.path, trouble))
        }
        _ => stayed,
    }
}

/// Answers the connections at these addresses, while replies wait for this journal of the engine.
fn stay_written<
    K: Store<Version: Send + Sync> + Send,
    L: EngineName + Send + Sync,
    R: Threads + Wait + Clock + Eprint + RandomSource + Sync,
    S: Script<Call, Reply> + Send + Sync + Drop,
    T: Tape + Send + Sync + Drop,
>(
    rt: &R,
    alloc: Global,
    log: &Log<R>,
    addresses: &Addresses,
    engine: &Engine<K, L, RecallingShared>,
    service: &Service,
    journal: &SharedJournal<S, L, T>,
) -> Result<Vec<Sat>, ServiceFault> {
    stay_noting(rt, alloc, log, addresses, engine, service, engine, journal)
}

/// Answers the connections at these addresses, while replies wait for this journal of what is asked.
fn stay_noting<
    K: Store<Version: Send + Sync> + Send,
    L: EngineName + Send + Sync,
    R: Threads + Wait + Clock + Eprint + RandomSource + Sync,
    E: Send + Sync,
    J: Syncs<E, Synced: Send + Sync> + Send + Sync,
>(
    rt: &R,
    alloc: Global,
    log: &Log<R>,
    addresses: &Addresses,
    engine: &Engine<K, L, RecallingShared>,
    service: &Service,
    asked: &E,
    journal: &J,
) -> Result<Vec<Sat>, ServiceFault> {
    let keeper = JournalKeeper {
        engine: asked,
        journal,
        rt,
    };
    stay_keeping(rt, alloc, log, addresses, engine, service, &keeper)
}

/// Answers the connections at these addresses, while replies wait for this keeper; where that fails the server ends.
fn stay_keeping<
    K: Store<Version: Send + Sync> + Send,
    L: EngineName + Send + Sync,
    R: Threads + Wait + Clock + Eprint + RandomSource + Sync,
    P: Keeper<Kept: Send + Sync> + Send + Sync,
>(
    rt: &R,
    alloc: Global,
    log: &Log<R>,
    addresses: &Addresses,
    engine: &Engine<K, L, RecallingShared>,
    service: &Service,
    keeper: &P,
) -> Result<Vec<Sat>, ServiceFault> {
    let (standing, listeners) = (Standing::new(), addresses.listeners(alloc)?);
    let keeper = EndingKeeper {
        keeper,
        log,
        listeners: listeners.as_slice(),
        standing: &standing,
    };
    stay_at(
        rt, alloc, log, addresses, engine, service, &standing, &keeper,
    )
}

/// Answers the connections at these addresses, whose replies wait for nothing.
fn stay_without<
    K: Store<Version: Send + Sync> + Send,
    L: EngineName + Send + Sync,
    R: Threads + Wait + Clock + Eprint + RandomSource + Sync,
>(
    rt: &R,
    alloc: Global,
    log: &Log<R>,
    addresses: &Addresses,
    engine: &Engine<K, L, RecallingShared>,
    service: &Service,
) -> Result<Vec<Sat>, ServiceFault> {
    let standing = Standing::new();
    stay_at(
        rt, alloc, log, addresses, engine, service, &standing, &NoKeeper,
    )
}

/// Answers the connections at these addresses, whose replies wait for this keeper: those of desks, and those of browsers beside
/// them.
fn stay_at<
    K: Store<Version: Send + Sync> + Send,
    L: EngineName + Send + Sync,
    R: Threads + Wait + Clock + Eprint + RandomSource + Sync,
    P: Keeper<Kept: Send + Sync> + Send + Sync,
>(
    rt: &R,
    alloc: Global,
    log: &Log<R>,
    addresses: &Addresses,
    engine: &Engine<K, L, RecallingShared>,
    service: &Service,
    standing: &Standing,
    keeper: &P,
) -> Result<Vec<Sat>, ServiceFault> {
    let doors = doors(rt, alloc, log, addresses, standing, service, keeper)?;
    let Some(page) = &addresses.page else {
        return sats_of(stay_by(rt, alloc, log, doors, engine, service, standing));
    };
    let page = page_door(rt, log, page, standing, keeper)?;
    sats_of(stay_with_page(rt, alloc, doors, &page, engine, service))
}

/// What the seats have done; the fault where there was not even one.
fn sats_of(stayed: Stayed) -> Result<Vec<Sat>, ServiceFault> {
    let Stayed { sats, fault } = stayed;
    match fault {
        Some(SeatFault::NoMemory) if sats.is_empty() => Err(ServiceFault::NoMemory),
        Some(_) if sats.is_empty() => Err(ServiceFault::Serve(ServeFault::SpawnFailed)),
        _ => Ok(sats),
    }
}

/// A door for each seat: for each address as many as the service has seats, in turn. Replies wait for the keeper.
fn doors<'a, R: Clock + Eprint + Sync, P>(
    rt: &'a R,
    alloc: Global,
    log: &'a Log<'a, R>,
    addresses: &Addresses,
    standing: &'a Standing,
    service: &Service,
    keeper: &'a P,
) -> Result<Vec<Door<'a, R, P>>, AllocError> {
    let patience = Patience::new(service.idle, service.journal.is_some());
    let mut doors = Vec::new(alloc);
    let mut seat: u32 = 0;
    for _ in 0..service.seats {
        for listener in &addresses.desks {
            seat = seat.saturating_add(1);
            doors.push(Door(Entrance {
                rt,
                log,
                listener: listener.clone()?,
                standing,
                seat,
                patience,
                keeper,
            }))?;
        }
    }
    Ok(doors)
}

/// The door of browsers. Replies wait for the keeper.
fn page_door<'a, R, P>(
    rt: &'a R,
    log: &'a Log<'a, R>,
    page: &'a PageAddress,
    standing: &'a Standing,
    keeper: &'a P,
) -> Result<PageDoor<'a, R, P>, AllocError> {
    Ok(PageDoor {
        entrance: Entrance {
            rt,
            log,
            listener: page.listener.clone()?,
            standing,
            seat: 0,
            patience: PageDoor::<R, P>::patience(),
            keeper,
        },
        hosts: &page.hosts,
    })
}

/// Answers the connections of these doors as `stay_by` does, and meanwhile those of browsers that come to the page's door. Ends
/// when both have ended.
fn stay_with_page<
    K: Store<Version: Send + Sync> + Send,
    L: EngineName + Send + Sync,
    R: Threads + Wait + Clock + Eprint + RandomSource + Sync,
    P: Keeper<Kept: Send + Sync> + Send + Sync,
>(
    rt: &R,
    alloc: Global,
    doors: Vec<Door<R, P>>,
    page: &PageDoor<R, P>,
    engine: &Engine<K, L, RecallingShared>,
    service: &Service,
) -> Stayed {
    thread::scope(
        thread::scope_env(),
        rt,
        move |scope| stay_beside(scope, alloc, doors, page, engine, service),
    )
}

/// The same, with the browsers' threads in this scope.
fn stay_beside<
    's,
    'd,
    E,
    K: Store<Version: Send + Sync> + Send,
    L: EngineName + Send + Sync,
    R: Threads + Wait + Clock + Eprint + RandomSource + Sync,
    P: Keeper<Kept: Send + Sync> + Send + Sync,
>(
    scope: &'s Scope<'s, E>,
    alloc: Global,
    doors: Vec<Door<R, P>>,
    page: &'s PageDoor<'d, R, P>,
    engine: &'s Engine<K, L, RecallingShared>,
    service: &Service,
) -> Stayed {
    let (rt, log) = (page.entrance.rt, page.entrance.log);
    seat_browsers(scope, rt, alloc, engine, page);
    let standing = page.entrance.standing;
    let stayed = stay_by(rt, alloc, log, doors, engine, service, standing);
    page.close();
    stayed
}

/// Answers the connections of these doors by the desks of this engine, while its clock is moved, if it is to be moved.
fn stay_by<
    K: Store<Version: Send + Sync> + Send,
    L: EngineName + Send + Sync,
    R: Threads + Wait + Clock + Eprint + Sync,
    P: Keeper<Kept: Send + Sync> + Send + Sync,
>(
    rt: &R,
    alloc: Global,
    log: &Log<R>,
    doors: Vec<Door<R, P>>,
    engine: &Engine<K, L, RecallingShared>,
    service: &Service,
    standing: &Standing,
) -> Stayed {
    let Some(ticking) = service.clock else {
        return stay(rt, alloc, doors, engine, log);
    };
    let mut clock = WholeDay::new(rt, ticking.day, ticking.every, standing);
    let (stayed, _) = stay_with_timer(rt, alloc, doors, engine, log, &mut clock, u32::MAX);
    stayed
}

/// Says how many connections all seats have answered, and how many of these had a fault.
fn tell_sum<R: Clock + Eprint>(log: &Log<R>, sats: &[Sat]) {
    let (mut sessions, mut faulted): (u64, u64) = (0, 0);
    for sat in sats {
        sessions = sessions.saturating_add(sat.sessions);
        faulted = faulted.saturating_add(sat.faulted);
    }
    log.tell(format_args!("ended after {sessions} connections, {faulted} of them with a fault"));
}

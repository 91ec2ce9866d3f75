//! Desks over connections, and a timer beside them.

ghost use Rattle.std.specs.Prelude.{◌≡◌, IfOk};
ghost use Rattle.std.specs.Arc.{arc_value};
ghost use Rattle.casa_front.specs.Openings.{history_name};
ghost use Rattle.casa_engine.specs.Ledgers.{IsBlankOf};

use crate::door::{Entrance, OpenDoor, Standing};
use crate::ending::EndingKeeper;
use crate::fault::{ServiceFault, Trouble};
use crate::journal::{BlankNotes, open_journal};
use crate::log::Log;
use casa_cli::Journal;
use casa_day::Script;
use casa_engine::{Blank, Engine, EngineName, blank};
use casa_flight::{Call, Reply};
use casa_front::Opened;
use casa_keeper::{JournalKeeper, Keeper, LastError, NoKeeper, SharedJournal, Syncs, Unkept};
use casa_plan::RecallingShared;
use casa_server::{DayClock, ServeFault, Served, moment_at, serve, serve_with_timer};
use casa_shelf::{Seals, Shelf, Shelving};
use casa_sockets::{Listener, Patience};
use casa_tape::Tape;
use casa_time::Moment;
use casa_view::Store;
use jiff::Timestamp;
use jiff::civil::Date;
use std::alloc::Global;
use std::fs::{File, Files};
use std::io::Eprint;
use std::marker::Brand;
use std::net::{Net, TcpListener, TcpStream};
use std::sync::{Arc, Wait};
use std::thread;
use std::thread::Threads;
use std::time::{Clock, Duration};

/// The number of the engine. There is no other from which it would have to be told.
const ENGINE: u32 = 0;

/// How the clock of an engine is moved: so often, once a second, to the seconds from this day's midnight UTC.
#[derive(Clone, Copy)]
pub struct Timing {
    pub day: Date,
    pub turns: u32,
}

/// How many connections a server accepts before its end, and how its clock is moved meanwhile.
#[derive(Clone, Copy)]
struct Span {
    connections: u32,
    timing: Option<Timing>,
}

/// The system's clock, which tells the moment of the day once a second.
#[derive(Drop)]
struct EachSecond<'a, 's, R> {
    rt: &'a R,
    day: Date,
    standing: &'s Standing,
}

impl<'a, 's, R: Clock> DayClock for EachSecond<'a, 's, R> {
    ghost use Rattle.std.specs.Prelude.{IfSome, None};
    ghost use Rattle.jiff_core.specs.declared.timestamp.Timestamp.{Timestamp as Instant};
    ghost use Rattle.casa_server.specs.Moments.{IsInSecond};
    ghost use Rattle.casa_server.specs.Ticks.{ClockGives};

    /// The moment on the day of the instant that the system's clock tells a second later; `None` where that is none, and
    /// where the server ends.
    fn next(&mut self) -> Option<Moment>
        ensures gives { ClockGives None None result }
        ensures day { self.new.day ≡ self.old.day }
        ensures told { IfSome result (λ at. (now : Instant) × IsInSecond at self.old.day now) }
    {
        thread::sleep(self.rt, Duration::from_secs(1));
        if self.standing.is_ending() {
            return None;
        }
        let now = Timestamp::now(self.rt).ok()?;
        moment_at(self.day, now)
    }
}

/// Listens on this port of 127.0.0.1, accepts that many connections, and answers the lines of each by a desk of its own,
/// while the timer moves the clock. Ends when the sessions and the timer have ended, and says what became of them.
///
/// With a journal it begins with what that has, and no reply goes out before its call is in the journal, on the disk.
///
/// What keeps it from accepting a connection is said on standard error, and tried again until it passes. Once that many were
/// accepted, it listens no more.
///
/// `BindFailed` where the port cannot be had, as where another program listens on it; then `NoMemory` where there is none
/// for the board; then `Journal` where the journal can't be had; then the server's fault, or `Journal` where the journal could
/// not be written. A fault of the timer ends the timer alone.
pub fn serve_desks<
    R: Net<Listener = TcpListener, Stream = TcpStream>
        + Files<File = File>
        + Threads
        + Wait
        + Clock
        + Eprint
        + Sync,
>(
    rt: &R,
    alloc: Global,
    port: u16,
    connections: u32,
    timing: Option<Timing>,
    journal: Option<Journal>,
) -> Result<Served, ServiceFault>
    ensures { IfOk result (λ served. served.sessions ≡ connections) }
{
    let listener = Listener::on_port(rt, port)?;
    let Ok(shelf) = Arc::new(alloc, boxcar::Vec::new(alloc)?) else {
        return Err(ServiceFault::NoMemory);
    };
    let Ok(listener) = Arc::new(alloc, listener) else {
        return Err(ServiceFault::NoMemory);
    };
    let span = Span {
        connections,
        timing,
    };
    let notes = Opened::new();
    serve_on::<Brand, Brand, R>(rt, alloc, listener, &shelf, blank(), notes, span, journal)
}

/// Serves the connections of this listener on a new engine, whose ledger, history and notes are these, and whose versions
/// have their positions on this shelf.
fn serve_on<
    V: Shelving + Send + Sync,
    L: EngineName + Send + Sync,
    R: Files<File = File> + Threads + Wait + Clock + Eprint + Sync,
>(
    rt: &R,
    alloc: Global,
    listener: Arc<Listener>,
    shelf: &Arc<Seals>,
    blank: Blank,
    notes: BlankNotes,
    span: Span,
    journal: Option<Journal>,
) -> Result<Served, ServiceFault>
    requires shelf { arc_value shelf.now ≡ V.shelves }
    requires ledger { IsBlankOf L.name L.parts blank.ledger.name blank.ledger.parts }
    requires history { history_name blank.history ≡ L.history }
    requires notes { history_name notes ≡ L.notes }
    ensures { IfOk result (λ served. served.sessions ≡ span.connections) }
{
    let shelf: Shelf<V, R> = Shelf::new(shelf, rt);
    let gate = RecallingShared::new(alloc);
    let engine = Engine::<Shelf<V, R>, L, RecallingShared>::new(alloc, shelf, blank, ENGINE, gate)?;
    match journal {
        Some(file) => serve_kept(rt, alloc, listener, &engine, notes, span, &file),
        None => serve_without(rt, alloc, listener, &engine, span),
    }
}

/// Serves the connections of this listener by the desks of an engine that nobody has asked, and keeps its journal.
fn serve_kept<
    K: Store<Version: Send + Sync> + Send,
    L: EngineName + Send + Sync,
    R: Files<File = File> + Threads + Wait + Clock + Eprint + Sync,
>(
    rt: &R,
    alloc: Global,
    listener: Arc<Listener>,
    engine: &Engine<K, L, RecallingShared>,
    notes: BlankNotes,
    span: Span,
    file: &Journal,
) -> Result<Served, ServiceFault>
    requires { history_name notes ≡ L.notes }
    ensures { IfOk result (λ served. served.sessions ≡ span.connections) }
{
    let (log, last) = (Log::new(rt, false), LastError::new(alloc)?);
    let Ok(mut desk) = engine.desk(rt) else {
        return Err(ServiceFault::NoMemory);
    };
    let journal = open_journal(rt, alloc, &log, engine, &mut desk, file, &last, notes)?;
    let served = serve_written(rt, alloc, listener, engine, span, &log, &journal);
    // What the timer has done since the last reply.
    match journal.sync_all(rt, engine) {
        Err(Unkept::Failed) => {
            let trouble = Trouble::NotWritten(last.error());
            Err(ServiceFault::of_journal(alloc, file.path, trouble))
        }
        _ => served,
    }
}

/// Serves the connections of this listener, while replies wait for this journal of the engine.
fn serve_written<
    K: Store<Version: Send + Sync> + Send,
    L: EngineName + Send + Sync,
    R: Threads + Wait + Clock + Eprint + Sync,
    S: Script<Call, Reply> + Send + Sync + Drop,
    T: Tape + Send + Sync + Drop,
>(
    rt: &R,
    alloc: Global,
    listener: Arc<Listener>,
    engine: &Engine<K, L, RecallingShared>,
    span: Span,
    log: &Log<R>,
    journal: &SharedJournal<S, L, T>,
) -> Result<Served, ServiceFault>
    ensures { IfOk result (λ served. served.sessions ≡ span.connections) }
{
    serve_noting(rt, alloc, listener, engine, span, log, engine, journal)
}

/// Serves the connections of this listener, while replies wait for this journal of what is asked.
fn serve_noting<
    K: Store<Version: Send + Sync> + Send,
    L: EngineName + Send + Sync,
    R: Threads + Wait + Clock + Eprint + Sync,
    E: Send + Sync,
    J: Syncs<E, Synced: Send + Sync> + Send + Sync,
>(
    rt: &R,
    alloc: Global,
    listener: Arc<Listener>,
    engine: &Engine<K, L, RecallingShared>,
    span: Span,
    log: &Log<R>,
    asked: &E,
    journal: &J,
) -> Result<Served, ServiceFault>
    ensures { IfOk result (λ served. served.sessions ≡ span.connections) }
{
    let keeper = JournalKeeper {
        engine: asked,
        journal,
        rt,
    };
    serve_keeping(rt, alloc, listener, engine, span, log, &keeper)
}

/// Serves the connections of this listener, while replies wait for this keeper; where that fails the server ends, and the log
/// says so.
fn serve_keeping<
    K: Store<Version: Send + Sync> + Send,
    L: EngineName + Send + Sync,
    R: Threads + Wait + Clock + Eprint + Sync,
    P: Keeper<Kept: Send + Sync> + Send + Sync,
>(
    rt: &R,
    alloc: Global,
    listener: Arc<Listener>,
    engine: &Engine<K, L, RecallingShared>,
    span: Span,
    log: &Log<R>,
    keeper: &P,
) -> Result<Served, ServiceFault>
    ensures { IfOk result (λ served. served.sessions ≡ span.connections) }
{
    let standing = Standing::new();
    let listeners = [listener.clone()?];
    let keeper = EndingKeeper {
        keeper,
        log,
        listeners: &listeners,
        standing: &standing,
    };
    let quiet = Log::new(rt, true);
    let door = door(rt, &quiet, listener, &standing, true, &keeper);
    Ok(serve_by(rt, alloc, door, engine, span, &standing)?)
}

/// Serves the connections of this listener by the desks of an engine without a journal.
fn serve_without<
    K: Store<Version: Send + Sync> + Send,
    L: EngineName + Send + Sync,
    R: Threads + Wait + Clock + Eprint + Sync,
>(
    rt: &R,
    alloc: Global,
    listener: Arc<Listener>,
    engine: &Engine<K, L, RecallingShared>,
    span: Span,
) -> Result<Served, ServiceFault>
    ensures { IfOk result (λ served. served.sessions ≡ span.connections) }
{
    let (log, standing) = (Log::new(rt, true), Standing::new());
    let door = door(rt, &log, listener, &standing, false, &NoKeeper);
    Ok(serve_by(rt, alloc, door, engine, span, &standing)?)
}

/// The door of a server that ends, which may have to end before its connections do.
fn door<'a, R, P>(
    rt: &'a R,
    log: &'a Log<'a, R>,
    listener: Arc<Listener>,
    standing: &'a Standing,
    may_end: bool,
    keeper: &'a P,
) -> OpenDoor<'a, R, P> {
    OpenDoor(Entrance {
        rt,
        log,
        listener,
        standing,
        seat: 0,
        patience: Patience::new(None, may_end),
        keeper,
    })
}

/// Serves the connections of this door by the desks of this engine, while the timer moves its clock, if it is to be
/// moved.
fn serve_by<
    K: Store<Version: Send + Sync> + Send,
    L: EngineName + Send + Sync,
    R: Threads + Wait + Clock + Eprint + Sync,
    P: Keeper<Kept: Send + Sync> + Send + Sync,
>(
    rt: &R,
    alloc: Global,
    door: OpenDoor<R, P>,
    engine: &Engine<K, L, RecallingShared>,
    span: Span,
    standing: &Standing,
) -> Result<Served, ServeFault>
    ensures { IfOk result (λ served. served.sessions ≡ span.connections) }
{
    let Span {
        connections,
        timing,
    } = span;
    let Some(Timing { day, turns }) = timing else {
        return serve(rt, alloc, door, engine, connections);
    };
    let mut clock = EachSecond { rt, day, standing };
    // What the timer could not do is nobody's loss but the clock's, so the server goes on.
    let (served, _) = serve_with_timer(rt, alloc, door, engine, connections, &mut clock, turns);
    served
}

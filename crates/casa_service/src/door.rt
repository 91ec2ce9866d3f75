//! Where connections come in, and what is said of them.

use crate::log::Log;
use casa_keeper::{Held, Keeper};
use casa_live::{Gauges, Reading, Turn};
use casa_server::{Connections, Guarded, SeatFault, ServeFault, TimerFault, Watcher};
use casa_session::SessionFault;
use casa_sockets::{Counted, LineEnd, Listener, Patience, ReplyEnd, ends_of};
use std::alloc::{AllocError, Global};
use std::io::Eprint;
use std::sync::Arc;
use std::sync::atomic::{AtomicBool, AtomicU64, Ordering};
use std::time::{Clock, Duration};
use std::{io, thread};

/// How long a seat waits before it tries again to accept a connection, in milliseconds.
const PAUSE: u64 = 100;

/// How a server stands, as all its seats see it.
#[derive(Drop)]
pub(crate) struct Standing {
    /// Whether it was said that no connection can be accepted.
    pub(crate) is_put_off: AtomicBool,
    /// Whether it ends.
    pub(crate) is_ending: AtomicBool,
    /// Who is there.
    pub(crate) traffic: Traffic,
    /// Which browser tries lines.
    pub(crate) turn: Turn,
}

impl Standing {
    /// That of a server that goes on.
    pub(crate) fn new() -> Standing {
        Standing {
            is_put_off: AtomicBool::new(false),
            is_ending: AtomicBool::new(false),
            traffic: Traffic {
                desks: AtomicU64::new(0),
                connections: AtomicU64::new(0),
            },
            turn: Turn::new(),
        }
    }

    /// Ends the server; whether it had not ended before.
    pub(crate) fn end(&self) -> bool {
        !self.is_ending.swap(true, Ordering::SeqCst)
    }

    /// Whether the server ends.
    pub(crate) fn is_ending(&self) -> bool {
        self.is_ending.load(Ordering::SeqCst)
    }
}

/// Who is there.
#[derive(Drop)]
pub(crate) struct Traffic {
    /// How many desks have a connection.
    desks: AtomicU64,
    /// How many connections are open, those of browsers too.
    connections: AtomicU64,
}

impl Gauges for Traffic {
    fn read(&self) -> Reading {
        Reading {
            desks: self.desks.load(Ordering::SeqCst),
            connections: self.connections.load(Ordering::SeqCst),
        }
    }
}

/// Where connections come in from a listener, which others may share. What keeps it from accepting one is said once, and tried
/// again until it passes.
#[derive(Drop)]
pub(crate) struct Entrance<'a, R, P> {
    pub(crate) rt: &'a R,
    pub(crate) log: &'a Log<'a, R>,
    pub(crate) listener: Arc<Listener>,
    pub(crate) standing: &'a Standing,
    /// Which seat answers, for what is said of it.
    pub(crate) seat: u32,
    /// How long a read or a write waits.
    pub(crate) patience: Patience,
    /// What has to be so before replies go out.
    pub(crate) keeper: &'a P,
}

/// The two ends of a connection, of which the second waits for its keeper.
pub(crate) type Ends<'a, P> = (LineEnd<'a>, Held<'a, ReplyEnd<'a>, P>);

impl<'a, R, P> Entrance<'a, R, P> {
    /// The same entrance, for one seat more. `AllocError` where there are too many.
    pub(crate) fn again(&self) -> Result<Entrance<'a, R, P>, AllocError> {
        Ok(Entrance {
            rt: self.rt,
            log: self.log,
            listener: self.listener.clone()?,
            standing: self.standing,
            seat: self.seat,
            patience: self.patience,
            keeper: self.keeper,
        })
    }
}

impl<'a, R: Eprint + Clock, P> Entrance<'a, R, P> {
    /// Accepts the next connection, for which it waits. `AcceptFailed` where the server ends.
    pub(crate) fn wait(&self, alloc: Global) -> Result<Ends<'a, P>, ServeFault> {
        for _ in 0..u64::MAX {
            let accepted = self.accept(alloc);
            if self.standing.is_ending() {
                return Err(ServeFault::AcceptFailed);
            }
            match accepted {
                Ok((reader, writer)) => {
                    self.go_on();
                    return Ok((reader, Held::new(writer, self.keeper)));
                }
                Err(error) => self.put_off(&error),
            }
        }
        Err(ServeFault::AcceptFailed)
    }

    /// Accepts a connection. What went wrong, where it can't.
    fn accept(&self, alloc: Global) -> io::Result<(LineEnd<'a>, ReplyEnd<'a>)> {
        let (stream, peer) = self.listener.accept()?;
        let (patience, is_ending) = (self.patience, &self.standing.is_ending);
        let counted = Counted::new(&self.standing.traffic.connections);
        ends_of(alloc, stream, self.seat, peer, patience, is_ending, counted)
    }

    /// Says that no connection can be accepted, if it was not said yet, and waits.
    fn put_off(&self, error: &io::Error) {
        if !self.standing.is_put_off.swap(true, Ordering::SeqCst) {
            self.log.warn(format_args!(
                "no connection can be accepted, and it is tried again: {error}"
            ));
        }
        thread::sleep(self.rt, Duration::from_millis(PAUSE));
    }

    /// Says that connections are accepted again, if it was said that none can be.
    fn go_on(&self) {
        if self.standing.is_put_off.swap(false, Ordering::SeqCst) {
            self.log.warn("connections are accepted again");
        }
    }
}

/// Gives a server all connections that come.
#[derive(Drop)]
pub(crate) struct OpenDoor<'a, R, P>(pub(crate) Entrance<'a, R, P>);

impl<'a, R: Eprint + Clock + Sync, P: Keeper<Kept: Send + Sync> + Send + Sync> Connections
    for OpenDoor<'a, R, P> {
    type Reader = LineEnd<'a>;

    type Writer = Held<'a, ReplyEnd<'a>, P>;

    fn next(&mut self, alloc: Global) -> Result<Ends<'a, P>, ServeFault> {
        self.0.wait(alloc)
    }
}

/// Gives a seat the connections that come, but nothing of those that begin as a request of HTTP.
#[derive(Drop)]
pub(crate) struct Door<'a, R, P>(pub(crate) Entrance<'a, R, P>);

impl<'a, R: Eprint + Clock + Sync, P: Keeper<Kept: Send + Sync> + Send + Sync> Connections
    for Door<'a, R, P> {
    type Reader = Guarded<LineEnd<'a>>;

    type Writer = Held<'a, ReplyEnd<'a>, P>;

    fn next(
        &mut self,
        alloc: Global,
    ) -> Result<(Guarded<LineEnd<'a>>, Held<'a, ReplyEnd<'a>, P>), ServeFault> {
        let (log, standing) = (self.0.log, self.0.standing);
        let (mut reader, writer) = self.0.wait(alloc)?;
        reader.desk = Some(Counted::new(&standing.traffic.desks));
        log.tell(format_args!("seat {}: {} has connected", reader.seat, reader.peer));
        Ok((Guarded::new(reader), writer))
    }
}

/// The log says how connections ended.
impl<'a, 'b, R: Eprint + Clock, P> Watcher<Guarded<LineEnd<'b>>, Held<'b, ReplyEnd<'b>, P>>
    for Log<'a, R> {
    fn begun(&self, seats: usize, fault: Option<SeatFault>) {
        match fault {
            Some(fault) => self.warn(format_args!("there are {seats} seats, and no more: {fault}")),
            None => self.tell(format_args!("there are {seats} seats")),
        }
    }

    fn ended(
        &self,
        reader: Guarded<LineEnd<'b>>,
        _writer: Held<'b, ReplyEnd<'b>, P>,
        ended: Result<u64, SessionFault>,
    ) {
        let LineEnd {
            seat,
            peer,
            lines,
            is_idle,
            ..
        } = reader.source();
        match ended {
            Ok(lines) => self.tell(format_args!("seat {seat}: {peer} has left (lines: {lines})")),
            Err(_) if reader.is_turned() => {
                self.warn(format_args!(
                    "seat {seat}: {peer} was turned away, for it sent a request of HTTP"
                ));
            }
            Err(_) if *is_idle => {
                self.warn(format_args!(
                    "seat {seat}: {peer} was given up, for it sent nothing (lines: {lines})"
                ));
            }
            Err(fault) => self.warn(format_args!(
                "seat {seat}: {peer} was lost: {fault} (lines: {lines})"
            )),
        }
    }

    fn ticked(&self, accepted: Result<u32, TimerFault>) {
        match accepted {
            Ok(moves) => self.tell(format_args!(
                "the clock stands from now on, after {moves} moves"
            )),
            Err(fault) => self.warn(format_args!("the clock stands from now on: {fault}")),
        }
    }
}

//! Browsers, to which a server serves its page beside its desks.

use crate::door::Entrance;
use crate::log::Log;
use casa_engine::{Engine, EngineName};
use casa_html::live_page;
use casa_http::{Backend, Hosts, Site, browse};
use casa_keeper::Keeper;
use casa_live::Browser;
use casa_plan::RecallingShared;
use casa_sockets::{LineEnd, Patience};
use casa_view::Store;
use std::alloc::{AllocError, Global};
use std::hash::RandomState;
use std::io;
use std::io::{Eprint, Read, Write};
use std::random::RandomSource;
use std::sync::Wait;
use std::thread::{Scope, Threads};
use std::time::Clock;

/// How many connections of browsers are answered at a time, each by a thread of its own. Who comes while all are taken waits
/// in the system's queue.
const SEATS: u32 = 64;

/// After how many seconds a browser is given up that sends nothing.
const SILENCE: u32 = 60;

/// After how many seconds a browser is given up that takes nothing of what is sent.
const DEAFNESS: u32 = 20;

/// Where browsers come in, and the hosts under which they may ask.
#[derive(Drop)]
pub(crate) struct PageDoor<'a, R, P> {
    pub(crate) entrance: Entrance<'a, R, P>,
    pub(crate) hosts: &'a Hosts,
}

impl<'a, R, P> PageDoor<'a, R, P> {
    /// How long it waits for browsers that have connected.
    pub(crate) fn patience() -> Patience {
        Patience::looking(SILENCE, DEAFNESS)
    }

    /// The same door, for one thread more.
    fn again(&self) -> Result<PageDoor<'a, R, P>, AllocError> {
        Ok(PageDoor {
            entrance: self.entrance.again()?,
            hosts: self.hosts,
        })
    }

    /// Lets nobody in any more, and has those go who are there.
    pub(crate) fn close(&self) {
        self.entrance.standing.end();
        // One that can't be shut accepts one connection more.
        let _ = self.entrance.listener.shut();
    }
}

/// Has threads of this scope answer the browsers that come to this door, until the server ends. It is said where these are not
/// as many as there should be; where there are none, nobody can connect any more.
pub(crate) fn seat_browsers<
    's,
    'd,
    E,
    K: Store<Version: Send + Sync> + Send,
    L: EngineName + Send + Sync,
    R: Threads + Wait + Clock + Eprint + RandomSource + Sync,
    P: Keeper<Kept: Send + Sync> + Send + Sync,
>(
    scope: &'s Scope<'s, E>,
    rt: &'s R,
    alloc: Global,
    engine: &'s Engine<K, L, RecallingShared>,
    door: &'s PageDoor<'d, R, P>,
) {
    let log = door.entrance.log;
    let seats = begin_seats(scope, rt, alloc, engine, door);
    if seats == 0 {
        log.warn("the page is not served: no thread could be started");
        let _ = door.entrance.listener.shut();
    } else if seats < SEATS {
        log.warn(format_args!(
            "there are {seats} seats for browsers, and no more: no thread could be started"
        ));
    }
}

/// Begins threads of this scope for browsers, one after the other until one can't be had. How many there are.
fn begin_seats<
    's,
    'd,
    E,
    K: Store<Version: Send + Sync> + Send,
    L: EngineName + Send + Sync,
    R: Threads + Wait + Clock + Eprint + RandomSource + Sync,
    P: Keeper<Kept: Send + Sync> + Send + Sync,
>(
    scope: &'s Scope<'s, E>,
    rt: &'s R,
    alloc: Global,
    engine: &'s Engine<K, L, RecallingShared>,
    door: &'s PageDoor<'d, R, P>,
) -> u32 {
    for seats in 0..SEATS {
        let Ok(own) = door.again() else {
            return seats;
        };
        if scope
            .spawn(move || answer_browsers(rt, alloc, engine, own))
            .is_err()
        {
            return seats;
        }
    }
    SEATS
}

/// Answers the browsers that come to this door, one connection after the other, until the server ends.
fn answer_browsers<K: Store, L: EngineName, R: Wait + Clock + Eprint + RandomSource, P: Keeper>(
    rt: &R,
    alloc: Global,
    engine: &Engine<K, L, RecallingShared>,
    door: PageDoor<R, P>,
) {
    let PageDoor { entrance, hosts } = door;
    let (traffic, turn) = (&entrance.standing.traffic, &entrance.standing.turn);
    let mut site = Site {
        hosts,
        page: live_page().as_bytes(),
        backend: Browser::new(engine, rt, alloc, traffic, turn),
    };
    for _ in 0..u64::MAX {
        let Ok((mut reader, mut writer)) = entrance.wait(alloc) else {
            return;
        };
        if let Err(error) = answer(rt, alloc, &mut site, &mut reader, &mut writer) {
            tell_lost(entrance.log, &reader, &error);
        }
    }
}

/// Answers a browser's requests until its connection ends, by keys of its own.
fn answer<B: Backend, R: RandomSource, I: Read, O: Write>(
    rt: &R,
    alloc: Global,
    site: &mut Site<'_, B>,
    reader: &mut I,
    writer: &mut O,
) -> io::Result<()> {
    let keys = RandomState::new(rt)?;
    browse(alloc, keys, site, reader, writer)
}

/// Says that a browser's connection ended by a fault, but not where it sent nothing any more.
fn tell_lost<R: Eprint + Clock>(log: &Log<R>, reader: &LineEnd, error: &io::Error) {
    if !reader.is_idle {
        log.tell(format_args!("a browser at {} was lost: {error}", reader.peer));
    }
}

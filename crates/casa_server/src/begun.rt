ghost use Rattle.std.specs.Prelude.{◌≡◌, ◌<◌, ◌^◌, length, map};
ghost use mathlib.Core.List.{IsPrefix};
ghost use Rattle.casa_server.specs.Begun.{connection_of};
ghost use Rattle.casa_server.specs.Serving.{Ending, IsSession, HasEnded, HaveEnded, is_faulted};

use crate::connection::Ended;
use casa_commit::World;
use casa_engine::EngineName;
use casa_flight::{Call, Reply};
use casa_front::Front;
use std::io::{Read, Write};
use std::marker::PhantomData;
use std::snapshot::Snapshot;
use std::thread::{Promise, PromisedHandle, Threads};

/// What a thread promises of what it hands out: that the session over this connection ended so, in the history of which
/// the front is a beginning.
#[derive(Drop)]
pub(crate) struct SessionOf<I, O, W, L> {
    pub(crate) connection: Snapshot<(I, O)>,
    pub(crate) answered_by: PhantomData<(W, L)>,
}

impl<I: Read, O: Write, W: World<Call = Call, Reply = Reply>, L: EngineName> Promise<Ended<L>>
    for SessionOf<I, O, W, L> {
    ghost kept_by = { λ p ended. IsSession W.World L.Named I.remaining O.contents ended.1 p.connection.value ended.0 };
}

/// A connection that was accepted: refused a desk, or with a session in a thread.
#[derive(Drop)]
pub(crate) enum Begun<I: Read, O: Write, W: World<Call = Call, Reply = Reply>, L: EngineName> {
    Refused(Snapshot<(I, O)>),
    Session(PromisedHandle<Ended<L>, SessionOf<I, O, W, L>>),
}

impl<I: Read, O: Write, W: World<Call = Call, Reply = Reply>, L: EngineName> Begun<I, O, W, L> {
    /// Waits for the end of the connection's session, and sees what its pass has seen. Whether it was refused, or its
    /// session ended by a fault.
    fn end<R: Threads>(self, rt: &R, front: &mut Front<Call, Reply, L>) -> bool
        ensures longer { IsPrefix front.old front.new }
        ensures ended { (ending : Ending)
            × HasEnded W.World L.Named I.remaining O.contents front.new (connection_of self) ending
            × (result ≡ is_faulted ending) }
    {
        match self {
            Begun::Refused(_) => true,
            Begun::Session(thread) => {
                let (ended, seen) = thread.join(rt);
                *front = front.joined(&seen);
                ended.is_err()
            }
        }
    }
}

/// Waits for the end of all sessions, and sees what their passes have seen. How many connections were refused, or had a
/// session that ended by a fault.
pub(crate) fn end_all<
    I: Read,
    O: Write,
    W: World<Call = Call, Reply = Reply>,
    L: EngineName,
    R: Threads,
>(rt: &R, all: Vec<Begun<I, O, W, L>>, front: &mut Front<Call, Reply, L>) -> u32
    requires { length all.items < 2 ^ 32 }
    ensures { HaveEnded W.World L.Named I.remaining O.contents front.new
        (map connection_of all.items) result }
{
    let mut faulted = 0;
    'ending: for begun in all {
        faulted += u32::from(begun.end(rt, front));
    }
    faulted
}

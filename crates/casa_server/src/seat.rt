ghost use Rattle.std.specs.Prelude.{◌≡◌, ◌∷◌, [], IfOk, OnErr, is_err};
ghost use Rattle.casa_history.specs.Entries.{receipts};
ghost use Rattle.casa_engine.specs.Passes.{pass_of};
ghost use Rattle.casa_server.specs.Seats.{Answers, HasSat, Visit};
ghost use Rattle.casa_server.specs.Sources.{Gives, IsExhausted};

use crate::connection::session;
use crate::fault::ServeFault;
use crate::source::Connections;
use crate::watcher::Watcher;
use casa_commit::{Gate, World};
use casa_engine::{CountedPass, EngineName, Shareable, SharedRoom};
use casa_flight::{Call, Reply};
use casa_front::Front;
use casa_history::Holds;
use casa_plan::Direct;
use std::alloc::Global;
use std::marker::PhantomData;
use std::snapshot::Snapshot;
use std::sync::Wait;
use std::thread::Promise;

/// What a seat has done.
#[derive(Clone, Copy, PartialEq, Eq, Debug)]
pub struct Sat {
    /// How many connections it has answered.
    pub sessions: u64,
    /// How many of their sessions ended by a fault.
    pub faulted: u64,
}

/// A desk with the source of the connections that it is to answer.
///
/// Its type says that the pass has no receipt: nobody has made a call by it. Since a pass can't be cloned, nobody else
/// will.
#[derive(Drop)]
pub(crate) struct Seat<S, P: Holds<Call, Reply>> {
    pub(crate) source: S,
    pub(crate) pass: P,
    ghost unused: { receipts (P.held pass) ≡ [] },
}

/// What a seat's thread hands out: what the seat has done, and what its pass has seen.
pub(crate) type Left<L> = (Sat, Front<Call, Reply, L>);

/// What a thread promises of what it hands out: that a seat has answered connections of this source, in the history of which
/// the front is a beginning.
#[derive(Drop)]
pub(crate) struct SeatOf<S, W, L> {
    pub(crate) source: Snapshot<S>,
    pub(crate) answered_by: PhantomData<(W, L)>,
}

impl<S: Connections, W: World<Call = Call, Reply = Reply>, L: EngineName> Promise<Left<L>>
    for SeatOf<S, W, L> {
    ghost kept_by = { λ p left. HasSat W.World L.Named S.Reader.remaining S.Writer.contents left.1
        (S.coming p.source.value) left.0 };
}

/// Answers the connections of the seat's source by its desk, one after the other, until the source gives no more, or
/// `u64::MAX` were answered.
pub(crate) fn sit<
    S: Connections + Drop,
    W: Shareable<Call = Call, Reply = Reply>,
    L: EngineName,
    G: Gate<W>,
    T: Watcher<S::Reader, S::Writer>,
    R: Wait,
>(
    rt: &R,
    alloc: Global,
    room: &SharedRoom<W, L, G>,
    watcher: &T,
    seat: Seat<S, CountedPass<W, L>>,
) -> Left<L>
where
    Direct: Gate<W>,
    ensures { HasSat W.World L.Named S.Reader.remaining S.Writer.contents result.1
        (S.coming seat.source) result.0 }
{
    let Seat {
        mut source,
        mut pass,
    } = seat;
    let mut sat = Sat {
        sessions: 0,
        faulted: 0,
    };
    'sitting: for _ in 0..u64::MAX {
        let (answered, now) = answer_next(rt, alloc, room, watcher, &mut source, pass);
        pass = now;
        let Ok(is_faulted) = answered else {
            let front = pass.front();
            return (sat, front);
        };
        sat.sessions += 1;
        sat.faulted += u64::from(is_faulted);
    }
    let front = pass.front();
    (sat, front)
}

/// Takes the next connection of the source, answers its lines by the desk of this pass until it ends, and tells the watcher
/// how it did. Whether its session ended by a fault. Gives the pass back.
///
/// The source's fault where that gives no connection; nothing is answered then.
fn answer_next<
    S: Connections,
    W: Shareable<Call = Call, Reply = Reply>,
    L: EngineName,
    G: Gate<W>,
    T: Watcher<S::Reader, S::Writer>,
    R: Wait,
>(
    rt: &R,
    alloc: Global,
    room: &SharedRoom<W, L, G>,
    watcher: &T,
    source: &mut S,
    pass: CountedPass<W, L>,
) -> (Result<bool, ServeFault>, CountedPass<W, L>)
where
    Direct: Gate<W>,
    ensures answered { IfOk result.0 (λ is_faulted. (visit : Visit S.Reader S.Writer)
        × Gives (S.coming source.old) (S.coming source.new) (visit.0 ∷ [])
        × Answers S.Reader.remaining S.Writer.contents (receipts (pass_of pass))
        (receipts (pass_of result.1)) visit
        × (is_faulted ≡ is_err visit.1)) }
    ensures nothing { OnErr result.0 (IsExhausted (S.coming source.old)
        × (receipts (pass_of result.1) ≡ receipts (pass_of pass))) }
{
    let (mut reader, mut writer) = match source.next(alloc) {
        Ok(ends) => ends,
        Err(fault) => return (Err(fault), pass),
    };
    let (ended, pass) = session(rt, alloc, room, pass, &mut reader, &mut writer);
    let is_faulted = ended.is_err();
    watcher.ended(reader, writer, ended);
    (Ok(is_faulted), pass)
}

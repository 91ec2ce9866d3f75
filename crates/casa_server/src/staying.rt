ghost use Rattle.std.specs.Prelude.{◌≡◌, ◌≤◌, List, [], length, map, take, vec_capacity, IfOk, IfNone};
ghost use mathlib.Core.List.{IsPrefix};
ghost use Rattle.casa_flight.specs.declared.call.Call.{Call};
ghost use Rattle.casa_flight.specs.declared.reply.Reply.{Reply};
ghost use Rattle.casa_history.specs.declared.entry.Entry.{Entry};
ghost use Rattle.casa_server.specs.Begun.{source_of};
ghost use Rattle.casa_server.specs.Seats.{HasStayed, HaveSat};
ghost use Rattle.casa_server.specs.Ticks.{IsTicked};

use crate::day_clock::{DayClock, timer_seen};
use crate::fault::{SeatFault, TimerFault};
use crate::seat::{Left, Sat, Seat, SeatOf, sit};
use crate::source::Connections;
use crate::watcher::Watcher;
use casa_commit::{Gate, World};
use casa_engine::{Engine, EngineName, Shareable, SharedRoom};
use casa_flight::{Call, Reply};
use casa_front::Front;
use casa_plan::Direct;
use casa_view::{Board, Store};
use std::alloc::Global;
use std::marker::PhantomData;
use std::snapshot::Snapshot;
use std::sync::Wait;
use std::thread;
use std::thread::{PromisedHandle, Scope, Threads};

/// What became of a server that stayed.
#[derive(Drop)]
pub struct Stayed {
    /// What each seat has done, in the order of their sources.
    pub sats: Vec<Sat>,
    /// Why there were no more seats, where not every source had one.
    pub fault: Option<SeatFault>,
}

/// A seat's thread.
type Sitting<S, W, L> = PromisedHandle<Left<L>, SeatOf<S, W, L>>;

/// Gives each source a seat: a desk of its own, which answers the connections of the source, one after the other, in a thread
/// of its own until the source gives no more. Ends when all seats have ended, and says what each has done, in the order of
/// their sources. What all of them were told is of one history.
///
/// Seats are begun in the order of the sources, until one can't be had; then the others have none either. The watcher is told
/// how many there are and why there are no more, and how each connection's session ended.
///
/// The fault says why not every source has a seat: `NoDesk` where 1,024 desks are open, `NoThread` where the system gives no
/// thread, `NoMemory` where there is none.
pub fn stay<
    S: Connections + Send + Drop,
    K: Store<Version: Send + Sync> + Send,
    L: EngineName + Send + Sync,
    G: Gate<Board<K>> + Sync,
    T: Watcher<S::Reader, S::Writer> + Sync,
    R: Threads + Wait + Sync,
>(rt: &R, alloc: Global, sources: Vec<S>, engine: &Engine<K, L, G>, watcher: &T) -> Stayed
    ensures { (history : List (Entry Call Reply))
        × HasStayed ⟦<Board<K> as World>⟧ L.Named S.Reader.remaining S.Writer.contents history
        (map S.coming sources.items) result }
{
    let (stayed, _) = stay_seen(rt, alloc, sources, engine, watcher);
    stayed
}

/// The same, with the history as it is when all seats have ended.
fn stay_seen<
    S: Connections + Send + Drop,
    K: Store<Version: Send + Sync> + Send,
    L: EngineName + Send + Sync,
    G: Gate<Board<K>> + Sync,
    T: Watcher<S::Reader, S::Writer> + Sync,
    R: Threads + Wait + Sync,
>(
    rt: &R,
    alloc: Global,
    sources: Vec<S>,
    engine: &Engine<K, L, G>,
    watcher: &T,
) -> (Stayed, Front<Call, Reply, L>)
    ensures { HasStayed ⟦<Board<K> as World>⟧ L.Named S.Reader.remaining S.Writer.contents result.1
        (map S.coming sources.items) result.0 }
{
    thread::scope(
        thread::scope_env(),
        rt,
        move |scope| stay_all(scope, rt, alloc, sources, engine, watcher),
    )
}

/// Gives the sources seats in threads of this scope.
fn stay_all<
    's,
    E,
    S: Connections + Send + Drop + 's,
    K: Store<Version: Send + Sync> + Send,
    L: EngineName + Send + Sync,
    G: Gate<Board<K>> + Sync,
    T: Watcher<S::Reader, S::Writer> + Sync,
    R: Threads + Wait + Sync,
>(
    scope: &'s Scope<'s, E>,
    rt: &'s R,
    alloc: Global,
    sources: Vec<S>,
    engine: &'s Engine<K, L, G>,
    watcher: &'s T,
) -> (Stayed, Front<Call, Reply, L>)
    ensures { HasStayed ⟦<Board<K> as World>⟧ L.Named S.Reader.remaining S.Writer.contents result.1
        (map S.coming sources.items) result.0 }
{
    let mut front = engine.front(rt);
    let Ok(sats) = Vec::with_capacity(alloc, sources.len()) else {
        let fault = Some(SeatFault::NoMemory);
        watcher.begun(0, fault);
        let sats = Vec::new(alloc);
        return (Stayed { sats, fault }, front);
    };
    let (seats, fault) = begin_seats(scope, rt, alloc, sources, engine, watcher);
    watcher.begun(seats.len(), fault);
    let sats = end_seats(rt, seats, sats, &mut front);
    engine.see(rt, &mut front);
    (Stayed { sats, fault }, front)
}

/// Begins a seat with each source, in their order, until one can't be had, and says why it can't.
fn begin_seats<
    's,
    E,
    S: Connections + Send + Drop + 's,
    K: Store<Version: Send + Sync> + Send,
    L: EngineName + Send + Sync,
    G: Gate<Board<K>> + Sync,
    T: Watcher<S::Reader, S::Writer> + Sync,
    R: Threads + Wait + Sync,
>(
    scope: &'s Scope<'s, E>,
    rt: &'s R,
    alloc: Global,
    sources: Vec<S>,
    engine: &'s Engine<K, L, G>,
    watcher: &'s T,
) -> (Vec<Sitting<S, Board<K>, L>>, Option<SeatFault>)
    ensures first { map source_of result.0.items ≡ take (length result.0.items) sources.items }
    ensures all { IfNone result.1 (length result.0.items ≡ length sources.items) }
{
    let mut seats = Vec::new(alloc);
    'beginning: for source in sources {
        if seats.try_reserve(1).is_err() {
            return (seats, Some(SeatFault::NoMemory));
        }
        let seat = match begin_seat(scope, rt, alloc, source, engine, watcher) {
            Ok(seat) => seat,
            Err(fault) => return (seats, Some(fault)),
        };
        if seats.push(seat).is_err() {
            return (seats, Some(SeatFault::NoMemory));
        }
    }
    (seats, None)
}

/// Begins a seat with a source in a thread.
fn begin_seat<
    's,
    E,
    S: Connections + Send + Drop + 's,
    K: Store<Version: Send + Sync> + Send,
    L: EngineName + Send + Sync,
    G: Gate<Board<K>> + Sync,
    T: Watcher<S::Reader, S::Writer> + Sync,
    R: Threads + Wait + Sync,
>(
    scope: &'s Scope<'s, E>,
    rt: &'s R,
    alloc: Global,
    source: S,
    engine: &'s Engine<K, L, G>,
    watcher: &'s T,
) -> Result<Sitting<S, Board<K>, L>, SeatFault>
    ensures { IfOk result (λ seat. source_of seat ≡ source) }
{
    let pass = engine.desk(rt)?;
    let promise = SeatOf {
        source: Snapshot::of(&source),
        answered_by: PhantomData,
    };
    let seat = Seat { source, pass };
    let Ok(thread) = scope.spawn_with(promise, move || sit(rt, alloc, engine, watcher, seat)) else {
        return Err(SeatFault::NoThread);
    };
    Ok(thread)
}

/// Waits for the end of all seats, and sees what their passes have seen. What each seat has done, for which there is room.
fn end_seats<S: Connections, W: World<Call = Call, Reply = Reply>, L: EngineName, R: Threads>(
    rt: &R,
    seats: Vec<Sitting<S, W, L>>,
    mut sats: Vec<Sat>,
    front: &mut Front<Call, Reply, L>,
) -> Vec<Sat>
    requires none { sats.items ≡ [] }
    requires room { length seats.items ≤ vec_capacity sats }
    ensures longer { IsPrefix front.old front.new }
    ensures sat { HaveSat W.World L.Named S.Reader.remaining S.Writer.contents front.new
        (map S.coming (map source_of seats.items)) result.items }
{
    'ending: for seat in seats {
        let (sat, seen) = seat.join(rt);
        *front = front.joined(&seen);
        sats.push_reserved(sat);
    }
    sats
}

/// Gives each source a seat, as `stay` does, while a timer ticks, as `timer` does. The watcher is told when the timer ends, and
/// how. Ends when both have ended.
///
/// What the seats and the timer were told is of one history.
pub fn stay_with_timer<
    S: Connections + Send + Drop,
    K: Store<Version: Send + Sync> + Send,
    L: EngineName + Send + Sync,
    G: Gate<Board<K>> + Sync,
    T: Watcher<S::Reader, S::Writer> + Sync,
    C: DayClock,
    R: Threads + Wait + Sync,
>(
    rt: &R,
    alloc: Global,
    sources: Vec<S>,
    engine: &Engine<K, L, G>,
    watcher: &T,
    clock: &mut C,
    turns: u32,
) -> (Stayed, Result<u32, TimerFault>)
    ensures { (history : List (Entry Call Reply))
        × HasStayed ⟦<Board<K> as World>⟧ L.Named S.Reader.remaining S.Writer.contents history
        (map S.coming sources.items) result.0
        × IfOk result.1 (IsTicked ⟦<Board<K> as World>⟧ L.Named history
        (C.coming clock.old) turns) }
{
    let ((stayed, answered), (accepted, seen)) = thread::join(
        rt,
        || stay_seen(rt, alloc, sources, engine, watcher),
        || timer_told::<S::Reader, S::Writer, Board<K>, L, G, T, C, R>(
            rt, alloc, clock, engine, watcher, turns,
        ),
    );
    let mut front = answered.joined(&seen);
    engine.see(rt, &mut front);
    (stayed, accepted)
}

/// Ticks as a timer does, and then tells how it ended.
fn timer_told<
    I,
    O,
    W: Shareable<Call = Call, Reply = Reply>,
    L: EngineName,
    G: Gate<W>,
    T: Watcher<I, O>,
    C: DayClock,
    R: Wait,
>(
    rt: &R,
    alloc: Global,
    clock: &mut C,
    room: &SharedRoom<W, L, G>,
    watcher: &T,
    turns: u32,
) -> (Result<u32, TimerFault>, Front<Call, Reply, L>)
where
    Direct: Gate<W>,
    ensures { IfOk result.0 (IsTicked W.World L.Named result.1
        (C.coming clock.old) turns) }
{
    let (accepted, seen) = timer_seen(rt, alloc, clock, room, turns);
    watcher.ticked(accepted);
    (accepted, seen)
}

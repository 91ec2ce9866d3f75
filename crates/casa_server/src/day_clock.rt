ghost use Rattle.std.specs.Prelude.{ℕ, List, Option, None, IfOk};
ghost use Rattle.casa_flight.specs.declared.call.Call.{Call};
ghost use Rattle.casa_flight.specs.declared.reply.Reply.{Reply};
ghost use Rattle.casa_history.specs.declared.entry.Entry.{Entry};
ghost use Rattle.casa_server.specs.Ticks.{IsTicked, ClockGives, Ticked, TicksTo};

use crate::fault::TimerFault;
use casa_commit::{Desk, Gate, World};
use casa_engine::{Engine, EngineName, Shareable, SharedDesk, SharedRoom};
use casa_flight::{Call, Reply};
use casa_front::Front;
use casa_plan::Direct;
use casa_time::Moment;
use casa_view::{Board, Store};
use std::alloc::Global;
use std::sync::Wait;

/// A clock of an engine's day, which tells one moment after the other.
pub trait DayClock {
    // The moments that it will tell from here on, where they are known.
    ghost coming: { Self → Option (List ℕ) } = { λ _. None };

    /// The next moment, or `None` where it tells no more. It may wait for its time to come.
    fn next(&mut self) -> Option<Moment>
        ensures { ClockGives (coming self.old) (coming self.new) result };
}

/// Opens a desk of the engine, and ticks with it to each moment that the clock tells, at most this many times. Says how many
/// ticks were accepted; one that would set the engine's clock back is refused, and is not counted.
///
/// `NoDesk` where 1,024 desks are open, or the engine does not know its desk; `NoMemory` where there is none for the desk or
/// a tick. The ticks that were accepted before a fault stand.
pub fn timer<K: Store, L: EngineName, G: Gate<Board<K>>, C: DayClock, R: Wait>(
    rt: &R,
    alloc: Global,
    clock: &mut C,
    engine: &Engine<K, L, G>,
    turns: u32,
) -> Result<u32, TimerFault>
    ensures { IfOk result (λ accepted. (history : List (Entry Call Reply))
        × IsTicked ⟦<Board<K> as World>⟧ L.Named history (C.coming clock.old) turns accepted) }
{
    let (accepted, _) = timer_seen(rt, alloc, clock, engine, turns);
    accepted
}

/// The same, with what the timer's pass has seen.
pub(crate) fn timer_seen<
    W: Shareable<Call = Call, Reply = Reply>,
    L: EngineName,
    G: Gate<W>,
    C: DayClock,
    R: Wait,
>(
    rt: &R,
    alloc: Global,
    clock: &mut C,
    room: &SharedRoom<W, L, G>,
    turns: u32,
) -> (Result<u32, TimerFault>, Front<Call, Reply, L>)
where
    Direct: Gate<W>,
    ensures { IfOk result.0 (IsTicked W.World L.Named result.1
        (C.coming clock.old) turns) }
{
    let pass = match room.desk(rt) {
        Ok(pass) => pass,
        Err(fault) => return (Err(TimerFault::from(fault)), room.front(rt)),
    };
    let mut desk = SharedDesk::new(room, rt, pass);
    let accepted = keep_time(alloc, clock, &mut desk, turns);
    (accepted, desk.front())
}

/// Ticks with a desk to each moment that the clock tells, at most this many times. Says how many ticks were accepted; one
/// that would set the desk's clock back is refused, and is not counted.
///
/// `NoDesk` where the desk is none of its allocator's, `NoMemory` where there is none for a tick. The ticks that were
/// accepted before a fault stand.
pub fn keep_time<C: DayClock, D: Desk<Call = Call, Reply = Reply>>(
    alloc: Global,
    clock: &mut C,
    desk: &mut D,
    turns: u32,
) -> Result<u32, TimerFault>
    ensures ticked { IfOk result (λ accepted.
        Ticked (C.coming clock.old) turns (D.answered desk.old) (D.answered desk.new) accepted) }
    ensures lawful { D.lawful (D.answered desk.new) }
{
    let mut accepted = 0;
    'turns: for _ in 0..turns {
        let Some(at) = clock.next() else {
            break;
        };
        accepted += u32::from(tick(alloc, desk, at)?);
    }
    Ok(accepted)
}

/// Ticks to a moment. Whether the tick was accepted.
fn tick<D: Desk<Call = Call, Reply = Reply>>(
    alloc: Global,
    desk: &mut D,
    at: Moment,
) -> Result<bool, TimerFault>
    ensures { IfOk result (λ is_accepted. TicksTo at (D.answered desk.old)
        (D.answered desk.new) is_accepted) }
{
    let receipt = desk.answer(alloc, &Call::Tick(at))?;
    Ok(matches!(&receipt.entry.reply, Reply::Answered(_, _)))
}

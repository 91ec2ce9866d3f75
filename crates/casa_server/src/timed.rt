ghost use Rattle.std.specs.Prelude.{◌≡◌, List, IfOk};
ghost use Rattle.casa_flight.specs.declared.call.Call.{Call};
ghost use Rattle.casa_flight.specs.declared.reply.Reply.{Reply};
ghost use Rattle.casa_history.specs.declared.entry.Entry.{Entry};
ghost use Rattle.casa_server.specs.Serving.{Serves};
ghost use Rattle.casa_server.specs.Ticks.{IsTicked};

use crate::day_clock::{DayClock, timer_seen};
use crate::fault::{ServeFault, TimerFault};
use crate::server::{Served, serve_seen};
use crate::source::Connections;
use casa_commit::{Gate, World};
use casa_engine::{Engine, EngineName};
use casa_view::{Board, Store};
use std::alloc::Global;
use std::sync::Wait;
use std::thread;
use std::thread::Threads;

/// Serves connections, as `serve` does, while a timer ticks, as `timer` does. Ends when both have ended, and says how each
/// ended: a fault of one is none of the other.
///
/// What the sessions and the timer were told is of one history.
pub fn serve_with_timer<
    S: Connections + Drop + Send,
    K: Store<Version: Send + Sync> + Send,
    L: EngineName + Send + Sync,
    G: Gate<Board<K>> + Sync,
    C: DayClock,
    R: Threads + Wait + Sync,
>(
    rt: &R,
    alloc: Global,
    source: S,
    engine: &Engine<K, L, G>,
    connections: u32,
    clock: &mut C,
    turns: u32,
) -> (Result<Served, ServeFault>, Result<u32, TimerFault>)
    ensures sessions { IfOk result.0 (λ served. served.sessions ≡ connections) }
    ensures told { (history : List (Entry Call Reply))
        × IfOk result.0 (Serves ⟦<Board<K> as World>⟧ L.Named S.Reader.remaining
        S.Writer.contents history (S.coming source))
        × IfOk result.1 (IsTicked ⟦<Board<K> as World>⟧ L.Named history
        (C.coming clock.old) turns) }
{
    let ((served, answered), (ticked, seen)) = thread::join(
        rt,
        || serve_seen(rt, alloc, source, engine, connections),
        || timer_seen(rt, alloc, clock, engine, turns),
    );
    let mut front = answered.joined(&seen);
    engine.see(rt, &mut front);
    (served, ticked)
}

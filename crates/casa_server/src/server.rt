ghost use Rattle.std.specs.Prelude.{◌≡◌, List, length, map, take, IfOk, IfSome};
ghost use Rattle.casa_flight.specs.declared.call.Call.{Call};
ghost use Rattle.casa_flight.specs.declared.reply.Reply.{Reply};
ghost use Rattle.casa_history.specs.declared.entry.Entry.{Entry};
ghost use Rattle.casa_server.specs.Begun.{connection_of};
ghost use Rattle.casa_server.specs.Serving.{Serves};

use crate::begun::{Begun, SessionOf, end_all};
use crate::connection::{Connection, answer};
use crate::fault::ServeFault;
use crate::source::Connections;
use casa_commit::{Gate, World};
use casa_engine::{Engine, EngineName};
use casa_flight::{Call, Reply};
use casa_front::Front;
use casa_view::{Board, Store};
use std::alloc::Global;
use std::io::{Read, Write};
use std::marker::PhantomData;
use std::snapshot::Snapshot;
use std::sync::Wait;
use std::thread;
use std::thread::{Scope, Threads};

/// What became of a server's connections.
#[derive(Clone, Copy, PartialEq, Eq, Debug)]
pub struct Served {
    /// How many were accepted.
    pub sessions: u32,
    /// How many of these were refused a desk, or had a session that ended by a fault.
    pub faulted: u32,
}

/// Accepts that many connections of the source, and answers the lines of each by a desk of its own, in a thread of its own.
/// Ends when all sessions have ended, and says how many there were.
///
/// A session's fault, or a desk that is refused since 1,024 are open or there is no memory for it, closes its connection
/// alone, and counts as faulted. What all sessions were told is of one history.
///
/// `AcceptFailed` where the source gives no connection, `SpawnFailed` where the system gives no thread, `NoMemory` where
/// there is none to keep one connection more; each after the sessions that were begun have ended.
pub fn serve<
    S: Connections + Drop,
    K: Store<Version: Send + Sync> + Send,
    L: EngineName + Send + Sync,
    G: Gate<Board<K>> + Sync,
    R: Threads + Wait + Sync,
>(
    rt: &R,
    alloc: Global,
    source: S,
    engine: &Engine<K, L, G>,
    connections: u32,
) -> Result<Served, ServeFault>
    ensures sessions { IfOk result (λ served. served.sessions ≡ connections) }
    ensures served { IfOk result (λ served. (history : List (Entry Call Reply))
        × Serves ⟦<Board<K> as World>⟧ L.Named S.Reader.remaining S.Writer.contents history
        (S.coming source) served) }
{
    let (served, _) = serve_seen(rt, alloc, source, engine, connections);
    served
}

/// The same, with the history as it is when all sessions have ended.
pub(crate) fn serve_seen<
    S: Connections + Drop,
    K: Store<Version: Send + Sync> + Send,
    L: EngineName + Send + Sync,
    G: Gate<Board<K>> + Sync,
    R: Threads + Wait + Sync,
>(
    rt: &R,
    alloc: Global,
    source: S,
    engine: &Engine<K, L, G>,
    connections: u32,
) -> (Result<Served, ServeFault>, Front<Call, Reply, L>)
    ensures sessions { IfOk result.0 (λ served. served.sessions ≡ connections) }
    ensures served { IfOk result.0 (Serves ⟦<Board<K> as World>⟧ L.Named
        S.Reader.remaining S.Writer.contents result.1 (S.coming source)) }
{
    thread::scope(
        thread::scope_env(),
        rt,
        move |scope| serve_all(scope, rt, alloc, source, engine, connections),
    )
}

/// Serves that many connections by threads of this scope.
fn serve_all<
    's,
    E,
    S: Connections + Drop,
    K: Store<Version: Send + Sync> + Send,
    L: EngineName + Send + Sync,
    G: Gate<Board<K>> + Sync,
    R: Threads + Wait + Sync,
>(
    scope: &'s Scope<'s, E>,
    rt: &'s R,
    alloc: Global,
    source: S,
    engine: &'s Engine<K, L, G>,
    connections: u32,
) -> (Result<Served, ServeFault>, Front<Call, Reply, L>)
where
    S::Reader: 's,
    S::Writer: 's,
    ensures sessions { IfOk result.0 (λ served. served.sessions ≡ connections) }
    ensures served { IfOk result.0 (Serves ⟦<Board<K> as World>⟧ L.Named
        S.Reader.remaining S.Writer.contents result.1 (S.coming source)) }
{
    let mut front = engine.front(rt);
    let begun = match begin_all(scope, rt, alloc, source, engine, connections) {
        Ok(begun) => begun,
        Err(fault) => return (Err(fault), front),
    };
    let faulted = end_all(rt, begun, &mut front);
    engine.see(rt, &mut front);
    let served = Served {
        sessions: connections,
        faulted,
    };
    (Ok(served), front)
}

/// Accepts that many connections, and begins a session with each that is given a desk.
fn begin_all<
    's,
    E,
    S: Connections + Drop,
    K: Store<Version: Send + Sync> + Send,
    L: EngineName + Send + Sync,
    G: Gate<Board<K>> + Sync,
    R: Threads + Wait + Sync,
>(
    scope: &'s Scope<'s, E>,
    rt: &'s R,
    alloc: Global,
    mut source: S,
    engine: &'s Engine<K, L, G>,
    connections: u32,
) -> Result<Vec<Begun<S::Reader, S::Writer, Board<K>, L>>, ServeFault>
where
    S::Reader: 's,
    S::Writer: 's,
    ensures number { IfOk result (λ all. length all.items ≡ connections) }
    ensures first { IfOk result (λ all. IfSome (S.coming source) (λ known.
        map connection_of all.items ≡ take connections known)) }
{
    let mut all = Vec::new(alloc);
    'accepting: for _ in 0..connections {
        let ends = source.next(alloc)?;
        let begun = begin(scope, rt, alloc, ends, engine)?;
        if all.push(begun).is_err() {
            return Err(ServeFault::NoMemory);
        }
    }
    Ok(all)
}

/// Begins a session with a connection in a thread, if it is given a desk; else it is closed.
fn begin<
    's,
    E,
    I: Read + Send + Drop + 's,
    O: Write + Send + Drop + 's,
    K: Store<Version: Send + Sync> + Send,
    L: EngineName + Send + Sync,
    G: Gate<Board<K>> + Sync,
    R: Threads + Wait + Sync,
>(
    scope: &'s Scope<'s, E>,
    rt: &'s R,
    alloc: Global,
    ends: (I, O),
    engine: &'s Engine<K, L, G>,
) -> Result<Begun<I, O, Board<K>, L>, ServeFault>
    ensures { IfOk result (λ begun. connection_of begun ≡ ends) }
{
    let connection = Snapshot::of(&ends);
    let Ok(pass) = engine.desk(rt) else {
        return Ok(Begun::Refused(connection));
    };
    let promise = SessionOf {
        connection,
        answered_by: PhantomData,
    };
    let connection = Connection { ends, pass };
    let Ok(thread) = scope.spawn_with(promise, move || answer(rt, alloc, engine, connection)) else {
        return Err(ServeFault::SpawnFailed);
    };
    Ok(Begun::Session(thread))
}

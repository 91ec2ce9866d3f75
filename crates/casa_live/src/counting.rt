//! Counting the calls of a history.

ghost use Rattle.std.specs.Prelude.{◌≡◌, length, take, IfOk};
ghost use Rattle.casa_live.specs.Tallies.{IsTallyOf};

use crate::tally::Tally;
use casa_commit::Gate;
use casa_engine::{Engine, EngineName};
use casa_flight::{Call, Reply};
use casa_front::Front;
use casa_view::{Board, Store};
use std::alloc::AllocError;
use std::sync::Wait;

/// The most entries that are shared at once, under the engine's lock.
const CHUNK: usize = 4096;

/// The tally of the history that the front has seen, which has so many entries, by that of its first entries. The others are
/// shared and counted chunk by chunk. `AllocError` where there is no memory for that, or an entry is shared too often to be
/// counted.
pub(crate) fn count_all<K: Store, L: EngineName, G: Gate<Board<K>> + Drop, R: Wait>(
    rt: &R,
    engine: &Engine<K, L, G>,
    front: &Front<Call, Reply, L>,
    entries: usize,
    counted: Tally,
) -> Result<Tally, AllocError>
    requires all { entries ≡ length front.now }
    requires first { IsTallyOf (take counted.position front.now) counted }
    ensures { IfOk result (IsTallyOf front.now) }
{
    let mut later = front.again();
    let mut tally = counted;
    while tally.position < entries {
        let most = CHUNK.min(entries - tally.position);
        let Some(chunk) = engine.behind(rt, &mut later, tally.position, most)? else {
            return Err(AllocError);
        };
        tally.add_all(chunk.as_slice());
    }
    Ok(tally)
}

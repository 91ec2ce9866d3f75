//! The desks of all workers, and what events do there.

ghost use Rattle.std.specs.Prelude.{◌≡◌, ◌≢◌, ◌+◌, ◌∷◌, [], ◌++◌, ◌⊎◌, ℕ, length, vec_len, IfOk, OnOk, Some};
ghost use Rattle.casa_commit.specs.Rooms.{world_of, history_of, entries_of, open_desks as opened};
ghost use Rattle.casa_interleavings.specs.Scenes.{Scene, opening_scene, Happens, most_workers};
ghost use Rattle.casa_interleavings.specs.Rooms.{reply_after, IsRoomScene, AreOfRoom};

use crate::desk::{Desk, Held};
use crate::event::Event;
use crate::stamped::Stamped;
use crate::worker::act;
use casa_commit::{DeskFault, Gate, Prepared, Room};
use casa_plan::Direct;
use std::alloc::{AllocError, Global};

/// The most workers.
const MAX_WORKERS: usize = 1024;

/// Opens the desks of all workers, which hold nothing.
pub(crate) fn open_desks<W: Stamped>(
    alloc: Global,
    room: &mut Room<W>,
) -> Result<Vec<Desk<W::Call, W::Reply, W::View, Prepared<W>>>, AllocError>
    requires closed { opened room.old ≡ 0 }
    requires empty { entries_of room.old ≡ [] }
    ensures same_world { world_of room.new ≡ world_of room.old }
    ensures same_history { history_of room.new ≡ history_of room.old }
    ensures all { IfOk result (λ ds. vec_len ds ≡ most_workers) }
    ensures scene { IfOk result (λ ds. IsRoomScene W.World W.Stamped.own room.new ds.items
        opening_scene) }
{
    let mut desks = Vec::new(alloc);
    for _ in 0..MAX_WORKERS {
        let pass = match room.open_desk() {
            Ok(pass) => pass,
            Err(DeskFault::NoMemory) => return Err(AllocError),
            Err(DeskFault::TooManyDesks) => unreachable!(),
        };
        desks.push(Desk {
            pass,
            held: Held::Nothing,
            outcome: None,
        })?;
    }
    Ok(desks)
}

/// What one event does: nothing where its worker has no desk.
pub(crate) fn happen<W: Stamped>(
    alloc: Global,
    room: &mut Room<W>,
    desks: &mut [Desk<W::Call, W::Reply, W::View, Prepared<W>>],
    event: &Event<W::Call>,
) -> Result<(), AllocError>
where
    Direct: Gate<W>,
    requires seated { AreOfRoom W.World room.old desks.old }
    requires all { length desks.old ≡ most_workers }
    ensures happens { OnOk result ((m : Scene W.Call W.Reply)
        → IsRoomScene W.World W.Stamped.own room.old desks.old m →
        (n : Scene W.Call W.Reply) × Happens (reply_after W.World) W.is_unmoved event.now m n
        × IsRoomScene W.World W.Stamped.own room.new desks.new n) }
{
    let at = event.worker() as usize;
    if at >= desks.len() {
        return Ok(());
    }
    act(alloc, room, &mut desks[at], event)?;
    Ok(())
}

//! Rooms of boards.

ghost use Rattle.std.specs.Prelude.{◌≡◌};
ghost use Rattle.casa_commit.specs.Rooms.{entries_of, world_of};
ghost use Rattle.casa_footprint.specs.Stamps.{state_after};
ghost use Rattle.casa_plan.specs.Rooms.{IsSequential, IsBoardAfter, IsServedAs};

use casa_commit::{Room, World};
use casa_flight::{Assigned, RegId};
use casa_view::{Board, Store};

/// The board of a room. The room's history is one of a single thread, and the board stands as after that history.
pub fn board_of<K: Store>(room: &Room<Board<K>>) -> &Board<K>
    ensures board { result.now ≡ world_of room.now }
    ensures sequential { IsSequential (entries_of room.now) }
    ensures stands { IsBoardAfter (entries_of room.now) (⟦<Board<K> as World>⟧.state result.now) }
{
    let _history = room.history();
    room.world()
}

/// Number `n` of the flights that compete for the slots of a regulation after the room's history, in their order, with its
/// place: the slot that first planned, first served gives it around the issued flights, or that it is over. `None` from the
/// number of competitors on, and where the regulation is not open.
pub fn competitor_of<K: Store>(room: &Room<Board<K>>, id: &RegId, n: usize) -> Option<Assigned>
    ensures { IsServedAs (state_after (entries_of room.now)) id.now n result }
{
    let list = board_of(room).list(id)?;
    list.competitor(n)
}

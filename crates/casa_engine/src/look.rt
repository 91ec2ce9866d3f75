//! What an engine shows of its state, with no call.
//!
//! Under the lock references are shared, and nothing is entered; texts and figures are made of them outside. Each method
//! lets a front see the history of which it tells, and at `AllocError` the front is as it was.

ghost use Rattle.std.specs.Prelude.{◌≡◌, ◌<◌, ◌≤◌, List, length, take, drop, IfOk, OnOk, OnErr, MatchOption};
ghost use mathlib.Core.List.{IsPrefix};
ghost use Rattle.casa_commit.specs.Rooms.{entries_of};
ghost use Rattle.casa_flight.specs.declared.call.Call.{Call};
ghost use Rattle.casa_flight.specs.declared.reply.Reply.{Reply};
ghost use Rattle.casa_flight.specs.Good.{IsGood};
ghost use Rattle.casa_flight.specs.Replies.{reply};
ghost use Rattle.casa_footprint.specs.Stamps.{state_after};
ghost use Rattle.casa_history.specs.declared.entry.Entry.{Entry};
ghost use Rattle.casa_plan.specs.Rooms.{IsBoardAfter, IsSequential};
ghost use Rattle.casa_view.specs.View.{IsFor, Shows};
ghost use Rattle.casa_engine.specs.Looks.{HasAll, IsLookBehind};

use crate::counted::{CountedRoom, shared_all};
use crate::lists::shared_lists;
use crate::name::EngineName;
use crate::shared::SharedRoom;
use casa_commit::{Gate, Room, World};
use casa_flight::{Call, Regulation, Reply};
use casa_front::Front;
use casa_history::SharedEntry;
use casa_list::SharedList;
use casa_plan::{board_of, plan};
use casa_time::Moment;
use casa_view::{Board, Store, View};
use std::alloc::{AllocError, Global};
use std::sync::Wait;

/// What an engine shows of its state after some calls.
#[derive(Drop, Debug)]
pub struct Look {
    /// How many calls there were.
    pub calls: usize,
    pub clock: Moment,
    /// The open regulations, in the order of their identifiers.
    pub regulations: Vec<Regulation>,
    /// Their lists, which the engine's board shares.
    pub lists: Vec<SharedList>,
}

/// The first so many entries behind a position; `None` where there is no such position.
type Behind = Option<Vec<SharedEntry<Call, Reply>>>;

impl<K: Store, L: EngineName, G: Gate<Board<K>> + Drop> SharedRoom<Board<K>, L, G> {
    /// What there is to look at, which the history shows that the front sees from then on, and which begins with what it had
    /// seen. `AllocError` where there is no memory for it; the front is then as it was.
    ///
    /// The lists are shared, the open regulations copied.
    pub fn look<R: Wait>(
        &self,
        rt: &R,
        front: &mut Front<Call, Reply, L>,
    ) -> Result<Look, AllocError>
        ensures look { IfOk result (IsLookBehind front.new) }
        ensures sequential { OnOk result (IsSequential front.new) }
        ensures longer { OnOk result (IsPrefix front.old front.new) }
        ensures same_front { OnErr result (front.new ≡ front.old) }
    {
        let alloc = self.alloc;
        self.hold(rt).look(alloc, front)
    }

    /// A view of all items behind the history that the front sees from then on, and how many entries that has. `AllocError`
    /// where there is no memory for it; the front is then as it was.
    ///
    /// This takes some counts, whatever the number of items, and what is asked of the view is looked up without the lock.
    pub fn view_all<R: Wait>(
        &self,
        rt: &R,
        front: &mut Front<Call, Reply, L>,
    ) -> Result<(usize, View<K::Version>), AllocError>
        ensures count { IfOk result (λ taken. taken.0 ≡ length front.new) }
        ensures good { OnOk result (IsGood (state_after front.new)) }
        ensures all { IfOk result (λ taken.
            HasAll K.Version.item_of (state_after front.new) taken.1) }
        ensures sequential { OnOk result (IsSequential front.new) }
        ensures longer { OnOk result (IsPrefix front.old front.new) }
        ensures same_front { OnErr result (front.new ≡ front.old) }
    {
        // A move of the clock reads all items.
        let call = Call::Tick(Moment::new(0).unwrap());
        let taken = self.hold(rt).view_behind(front, &call)?;
        Ok(taken)
    }

    /// What would be replied to a call behind the history that the front sees from then on, and how many entries that has.
    /// Nothing is entered. `AllocError` where there is no memory for it; the front is then as it was.
    ///
    /// What the call reads is shared under the lock, and the reply worked out without it, as for a desk.
    pub fn would_reply<R: Wait>(
        &self,
        rt: &R,
        front: &mut Front<Call, Reply, L>,
        call: &Call,
    ) -> Result<(usize, Reply), AllocError>
        ensures count { IfOk result (λ told. told.0 ≡ length front.new) }
        ensures reply { IfOk result (λ told. told.1 ≡ reply (state_after front.new) call.now) }
        ensures sequential { OnOk result (IsSequential front.new) }
        ensures longer { OnOk result (IsPrefix front.old front.new) }
        ensures same_front { OnErr result (front.new ≡ front.old) }
    {
        let mut now = front.again();
        let taken = self.hold(rt).view_behind(&mut now, call);
        let (calls, view) = taken?;
        let (reply, _change) = plan(self.alloc, &view, call)?;
        *front = now;
        Ok((calls, reply))
    }

    /// The entries behind a position of the history that the front sees from then on, the first `most` of them, shared;
    /// `None` where the history has no such position: it has those from 0 to the number of its entries. `AllocError` where
    /// there is no memory for that, or an entry is shared too often to be counted; the front is then as it was.
    pub fn behind<R: Wait>(
        &self,
        rt: &R,
        front: &mut Front<Call, Reply, L>,
        position: usize,
        most: usize,
    ) -> Result<Option<Vec<SharedEntry<Call, Reply>>>, AllocError>
        ensures behind { IfOk result (λ found. MatchOption found (length front.new < position)
            (λ es. (position ≤ length front.new)
            × (es.items ≡ take most (drop position front.new)))) }
        ensures sequential { OnOk result (IsSequential front.new) }
        ensures longer { OnOk result (IsPrefix front.old front.new) }
        ensures same_front { OnErr result (front.new ≡ front.old) }
    {
        let alloc = self.alloc;
        self.hold(rt).behind(alloc, front, position, most)
    }
}

impl<K: Store, L: EngineName> CountedRoom<Board<K>, L> {
    /// What there is to look at, as `look` of the engine.
    fn look(&mut self, alloc: Global, front: &mut Front<Call, Reply, L>) -> Result<Look, AllocError>
        ensures look { IfOk result (IsLookBehind front.new) }
        ensures sequential { OnOk result (IsSequential front.new) }
        ensures longer { OnOk result (IsPrefix front.old front.new) }
        ensures same_front { OnErr result (front.new ≡ front.old) }
        ensures same { self.new.room ≡ self.old.room }
    {
        let look = look_of(alloc, self.room())?;
        self.see(front);
        Ok(look)
    }

    /// A view for a call, which shows the state behind the history that the front sees from then on, and how many entries
    /// that has. Nothing is moved in for it, so that the board stays as it is.
    fn view_behind(
        &mut self,
        front: &mut Front<Call, Reply, L>,
        call: &Call,
    ) -> Result<(usize, View<K::Version>), AllocError>
        ensures count { IfOk result (λ taken. taken.0 ≡ length front.new) }
        ensures for_call { IfOk result (λ taken. IsFor K.Version.item_of taken.1 call.now) }
        ensures good { OnOk result (IsGood (state_after front.new)) }
        ensures shown { IfOk result (λ taken.
            Shows K.Version.item_of (state_after front.new) taken.1) }
        ensures sequential { OnOk result (IsSequential front.new) }
        ensures longer { OnOk result (IsPrefix front.old front.new) }
        ensures same_front { OnErr result (front.new ≡ front.old) }
        ensures same { self.new.room ≡ self.old.room }
    {
        let view = view_of(self.room(), call)?;
        let calls = self.see(front);
        Ok((calls, view))
    }

    /// The entries behind a position, as `behind` of the engine.
    fn behind(
        &mut self,
        alloc: Global,
        front: &mut Front<Call, Reply, L>,
        position: usize,
        most: usize,
    ) -> Result<Behind, AllocError>
        ensures behind { IfOk result (λ found. MatchOption found (length front.new < position)
            (λ es. (position ≤ length front.new)
            × (es.items ≡ take most (drop position front.new)))) }
        ensures sequential { OnOk result (IsSequential front.new) }
        ensures longer { OnOk result (IsPrefix front.old front.new) }
        ensures same_front { OnErr result (front.new ≡ front.old) }
        ensures same { self.new.room ≡ self.old.room }
    {
        let _board = board_of(self.room());
        let found = shared_behind(alloc, self.room().history().entries(), position, most)?;
        self.see(front);
        Ok(found)
    }
}

/// What a room has to look at behind its history. `AllocError` where there is no memory for it.
fn look_of<K: Store>(alloc: Global, room: &Room<Board<K>>) -> Result<Look, AllocError>
    ensures sequential { IsSequential (entries_of room.now) }
    ensures look { IfOk result (IsLookBehind (entries_of room.now)) }
{
    let board = board_of(room);
    look_on(alloc, room.history().len(), board)
}

/// What there is to look at on a board: what a history of so many calls shows, after which the board stands. `AllocError`
/// where there is no memory for it.
///
/// The lists are shared, the open regulations copied.
pub fn look_on<K: Store>(alloc: Global, calls: usize, board: &Board<K>) -> Result<Look, AllocError>
    ensures { IfOk result (λ look. (history : List (Entry Call Reply)) →
        IsBoardAfter history (⟦<Board<K> as World>⟧.state board.now) →
        calls ≡ length history → IsLookBehind history look) }
{
    let lists = shared_lists(alloc, board)?;
    let regulations = Vec::from_slice(alloc, board.catalogue())?;
    Ok(Look {
        calls,
        clock: board.clock(),
        regulations,
        lists,
    })
}

/// What a call reads behind a room's history. `AllocError` where there is no memory for it.
fn view_of<K: Store>(room: &Room<Board<K>>, call: &Call) -> Result<View<K::Version>, AllocError>
    ensures sequential { IsSequential (entries_of room.now) }
    ensures good { IsGood (state_after (entries_of room.now)) }
    ensures for_call { IfOk result (λ view. IsFor K.Version.item_of view call.now) }
    ensures shown { IfOk result (λ view.
        Shows K.Version.item_of (state_after (entries_of room.now)) view) }
{
    let _board = board_of(room);
    let view = room.world().view(call)?;
    Ok(view)
}

/// Of these entries the first `most` behind a position, shared; `None` where there are not so many. `AllocError` as of
/// `behind`.
fn shared_behind(
    alloc: Global,
    entries: &[SharedEntry<Call, Reply>],
    position: usize,
    most: usize,
) -> Result<Behind, AllocError>
    ensures { IfOk result (λ found. MatchOption found (length entries.now < position)
        (λ es. (position ≤ length entries.now)
        × (es.items ≡ take most (drop position entries.now)))) }
{
    if entries.len() < position {
        return Ok(None);
    }
    let behind = &entries[position..];
    let count = most.min(behind.len());
    Ok(Some(shared_all(alloc, &behind[..count])?))
}

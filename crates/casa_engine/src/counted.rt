ghost use Rattle.std.specs.Prelude.{◌≡◌, ◌+◌, ◌<◌, ◌≤◌, ◌^◌, ◌↔◌, ℕ, [], ◌∷◌, ◌++◌, length, Err, IfOk, IfErr, OnOk, OnErr};
ghost use mathlib.Core.List.{IsPrefix};
ghost use Rattle.casa_history.specs.Entries.{entries, receipts, number_of, desk_of};
ghost use Rattle.casa_history.specs.Settlement.{IsSettled};
ghost use Rattle.casa_commit.specs.Desks.{most_desks};
ghost use Rattle.casa_commit.specs.Legal.{IsLegal};
ghost use Rattle.casa_commit.specs.Passes.{SamePass};
ghost use Rattle.casa_commit.specs.Prepared.{call_of, view_of};
ghost use Rattle.casa_commit.specs.Rooms.{world_of, history_of, entries_of, room_number, open_desks};
ghost use Rattle.casa_front.specs.Openings.{history_name};
ghost use Rattle.casa_footprint.specs.Stamps.{state_after};
ghost use Rattle.casa_plan.specs.Rooms.{IsSequential};
ghost use Rattle.casa_engine.specs.Delays.{lists_in};
ghost use Rattle.casa_engine.specs.Fronts.{front_of, fronts_in, AllBegin, IsSeenIn};
ghost use Rattle.casa_engine.specs.Ledgers.{all_parts, IsBlankOf};
ghost use Rattle.casa_engine.specs.Passes.{pass_of, passes_in, calls_in};
ghost use Rattle.casa_engine.specs.Receipts.{IsReceiptOf};

use crate::lists::shared_lists;
use crate::name::EngineName;
use crate::pass::CountedPass;
use crate::shared::Shareable;
use casa_commit::{CallFault, CommitFault, DeskFault, Gate, Prepared, Room, World, commit};
use casa_flight::{Call, Reply};
use casa_front::{Front, Keeper, Opened};
use casa_history::{History, Receipt, Settled, SharedEntry, Torn, settle};
use casa_list::SharedList;
use casa_plan::board_of;
use casa_view::{Board, Store};
use std::alloc::{AllocError, Global};
use std::sync::ledger::{Blank, Book, Share};

/// What the lock holds: the room, the ledger in which its entries are counted, and the keeper of the history that they are.
///
/// Of the ledger's parts each open desk has one; the others are spare.
#[derive(Drop)]
pub(crate) struct CountedRoom<W: World, L: EngineName> {
    room: Room<W>,
    book: Book<L>,
    spare: Share<L>,
    keeper: Keeper<W::Call, W::Reply, L>,
    ghost kept: { keeper ≡ entries_of room },
    ghost counted: { book.total ≡ length (entries_of room) },
    ghost nothing: { spare.amount ≡ 0 },
    ghost parts: { spare.parts + open_desks room ≡ all_parts },
}

impl<W: World, L: EngineName> CountedRoom<W, L> {
    /// The room with this number over a world in the opening state, with no desk and no entry.
    pub(crate) fn new(
        alloc: Global,
        world: W,
        number: u32,
        ledger: Blank,
        history: Opened<W::Call, W::Reply>,
    ) -> CountedRoom<W, L>
        requires opening { W.state world ≡ W.opening }
        requires ledger { IsBlankOf L.name L.parts ledger.name ledger.parts }
        requires history { history_name history ≡ L.history }
        ensures number { room_number result.room ≡ number }
        ensures desks { open_desks result.room ≡ 0 }
        ensures history { entries_of result.room ≡ [] }
        ensures world { world_of result.room ≡ world }
    {
        let (book, spare) = ledger.open::<L>();
        let keeper = history.named::<L>();
        CountedRoom {
            room: Room::new(alloc, world, number),
            book,
            spare,
            keeper,
        }
    }

    /// The room.
    pub(crate) fn room(&self) -> &Room<W>
        ensures { result.now ≡ self.now.room }
    {
        &self.room
    }

    /// What a call reads, with the present versions, once what was kept apart for views that are gone is moved in.
    /// `AllocError` where there is no memory for it.
    pub(crate) fn view(&mut self, call: &W::Call) -> Result<W::View, AllocError>
        ensures { IfOk result (λ view. W.is_for view call.now) }
    {
        self.room.consolidate(call)?;
        self.room.world().view(call)
    }

    /// A front that has seen all of the history, which is legal.
    pub(crate) fn front(&self) -> Front<W::Call, W::Reply, L>
        ensures all { result ≡ entries_of self.now.room }
        ensures legal { IsLegal W.after W.reply W.opening result }
    {
        self.keeper.front()
    }

    /// Lets a front see all of the history, which is legal. How many entries there are.
    pub(crate) fn see(&mut self, front: &mut Front<W::Call, W::Reply, L>) -> usize
        ensures count { result ≡ length front.new }
        ensures longer { IsPrefix front.old front.new }
        ensures legal { IsLegal W.after W.reply W.opening front.new }
        ensures all { front.new ≡ entries_of self.old.room }
        ensures same { self.new.room ≡ self.old.room }
    {
        self.keeper.knows(front);
        *front = self.keeper.front();
        self.room.history().len()
    }

    /// The entries behind those that a front has seen, so many, and lets it see all of the history, which is legal.
    /// `AllocError` where there is no memory for that, or an entry is shared too often to be counted; the front is then as it
    /// was.
    pub(crate) fn entries_behind(
        &mut self,
        alloc: Global,
        front: &mut Front<W::Call, W::Reply, L>,
        count: usize,
    ) -> Result<Vec<SharedEntry<W::Call, W::Reply>>, AllocError>
        requires { count ≡ length front.old }
        ensures behind { IfOk result (λ es. front.new ≡ front.old ++ es.items) }
        ensures fits { OnOk result (length front.new < 2 ^ 64) }
        ensures legal { OnOk result (IsLegal W.after W.reply W.opening front.new) }
        ensures same_front { OnErr result (front.new ≡ front.old) }
        ensures same { self.new.room ≡ self.old.room }
    {
        self.keeper.knows(front);
        let behind = shared_all(alloc, &self.room.history().entries()[count..])?;
        *front = self.keeper.front();
        Ok(behind)
    }

    /// Opens the next desk and gives its pass; `TooManyDesks` where 1,024 are open, else `NoMemory` where there is no
    /// memory for it.
    pub(crate) fn open_desk(&mut self) -> Result<CountedPass<W, L>, DeskFault>
        ensures full { (result ≡ Err DeskFault.TooManyDesks)
            ↔ (open_desks self.old.room ≡ most_desks) }
        ensures number { IfOk result (λ desk. number_of (pass_of desk)
            ≡ room_number self.old.room) }
        ensures desk { IfOk result (λ desk. desk_of (pass_of desk) ≡ open_desks self.old.room) }
        ensures empty { IfOk result (λ desk. receipts (pass_of desk) ≡ []) }
        ensures seen { IfOk result (λ desk. front_of desk ≡ entries_of self.old.room) }
        ensures opened { OnOk result (open_desks self.new.room ≡ open_desks self.old.room + 1) }
        ensures closed { OnErr result (open_desks self.new.room ≡ open_desks self.old.room) }
        ensures same_history { history_of self.new.room ≡ history_of self.old.room }
        ensures same_world { world_of self.new.room ≡ world_of self.old.room }
    {
        let pass = self.room.open_desk()?;
        let share = self.spare.split_off(1, 0);
        let front = self.keeper.front();
        Ok(CountedPass { pass, share, front })
    }

    /// Accepts a prepared answer to a call, and counts it. What it wrote is then moved in, where there is memory for that: the
    /// next desk would do it before it takes its view, and on another processor.
    pub(crate) fn commit(
        &mut self,
        desk: &mut CountedPass<W, L>,
        prepared: Prepared<W>,
        call: &W::Call,
    ) -> Result<Receipt<W::Call, W::Reply>, (CommitFault, Prepared<W>)>
        requires { W.is_of (view_of prepared) (world_of self.old.room) }
        ensures stands { IfOk result (λ r. IsReceiptOf W.World (pass_of desk.old)
            (call_of prepared) r (pass_of desk.new)) }
        ensures same_pass { OnErr result (SamePass (pass_of desk.old) (pass_of desk.new)) }
        ensures seen { IfOk result (λ r. IsSeenIn W.World (front_of desk.old) r (front_of desk.new)) }
        ensures same_front { OnErr result (front_of desk.new ≡ front_of desk.old) }
    {
        let CountedRoom {
            room,
            book,
            spare: _,
            keeper,
        } = self;
        let CountedPass { pass, share, front } = desk;
        let receipt = commit(room, pass, prepared)?;
        enter(keeper, book, front, share, &receipt);
        let _moved_in = room.consolidate(call);
        Ok(receipt)
    }

    /// Answers a call in one section, and counts it.
    pub(crate) fn locked<G: Gate<W>>(
        &mut self,
        alloc: Global,
        desk: &mut CountedPass<W, L>,
        call: &W::Call,
        gate: &G,
    ) -> Result<Receipt<W::Call, W::Reply>, CallFault>
        ensures stands { IfOk result (λ r. IsReceiptOf W.World (pass_of desk.old) call.now r
            (pass_of desk.new)) }
        ensures same_pass { OnErr result (SamePass (pass_of desk.old) (pass_of desk.new)) }
        ensures seen { IfOk result (λ r. IsSeenIn W.World (front_of desk.old) r (front_of desk.new)) }
        ensures same_front { OnErr result (front_of desk.new ≡ front_of desk.old) }
    {
        let CountedRoom {
            room,
            book,
            spare: _,
            keeper,
        } = self;
        let CountedPass { pass, share, front } = desk;
        let receipt = room.locked(alloc, pass, call, gate)?;
        enter(keeper, book, front, share, &receipt);
        Ok(receipt)
    }
}

impl<K: Store, L: EngineName> CountedRoom<Board<K>, L> {
    /// The lists of all open regulations, shared, as the room's history leads to them, which is one of a single thread.
    /// `AllocError` where there is no memory for that.
    pub(crate) fn lists(&self, alloc: Global) -> Result<Vec<SharedList>, AllocError>
        ensures sequential { IsSequential (entries_of self.now.room) }
        ensures lists { IfOk result (λ lists. lists.items
            ≡ lists_in (state_after (entries_of self.now.room))) }
    {
        shared_lists(alloc, board_of(&self.room))
    }

    /// The same, and lets a front see the history that leads to them. At `AllocError` the front is as it was.
    pub(crate) fn lists_seen(
        &mut self,
        alloc: Global,
        front: &mut Front<Call, Reply, L>,
    ) -> Result<Vec<SharedList>, AllocError>
        ensures lists { IfOk result (λ lists. lists.items ≡ lists_in (state_after front.new)) }
        ensures sequential { OnOk result (IsSequential front.new) }
        ensures longer { OnOk result (IsPrefix front.old front.new) }
        ensures same_front { OnErr result (front.new ≡ front.old) }
        ensures same { self.new.room ≡ self.old.room }
    {
        let lists = self.lists(alloc)?;
        self.see(front);
        Ok(lists)
    }
}

impl<W: Shareable + Drop, L: EngineName> CountedRoom<W, L> {
    /// The history, how many desks were opened, and whether these passes and the history tell the same story.
    pub(crate) fn close(
        self,
        passes: Vec<CountedPass<W, L>>,
    ) -> (History<W::Call, W::Reply>, u32, Result<Settled, Torn>)
        requires parts { L.parts ≡ all_parts }
        ensures history { result.0 ≡ history_of self.room }
        ensures desks { result.1 ≡ open_desks self.room }
        ensures opened { length passes.items ≤ result.1 }
        ensures legal { IsLegal W.after W.reply W.opening (entries result.0) }
        ensures settled { IfOk result.2 (λ s. (s.desks ≡ length passes.items)
            × (s.entries ≡ length (entries result.0))
            × ((d : ℕ) → IsSettled d (entries result.0) (passes_in passes.items))) }
        ensures torn { IfErr result.2 (λ t.
            (¬ (IsSettled t.0 (entries result.0) (passes_in passes.items)))
            × ((d : ℕ) → d < t.0 → IsSettled d (entries result.0) (passes_in passes.items))) }
        ensures all_calls { length passes.items ≡ result.1 →
            calls_in passes.items ≡ length (entries result.0) }
        ensures known { AllBegin (fronts_in passes.items) (entries result.0) }
    {
        let CountedRoom {
            room,
            mut book,
            spare,
            mut keeper,
        } = self;
        know_all(&mut keeper, passes.as_slice());
        let desks = room.desks();
        let history = room.into_history();
        let settled = settle(&history, passes.as_slice());
        let mut all = gather(spare, passes);
        book.audit(&mut all);
        (history, desks, settled)
    }
}

/// Adds the entry of a receipt to the history, all of which the pass's front then sees, and counts it.
fn enter<C, R, L: EngineName>(
    keeper: &mut Keeper<C, R, L>,
    book: &mut Book<L>,
    front: &mut Front<C, R, L>,
    share: &mut Share<L>,
    receipt: &Receipt<C, R>,
)
    requires { 0 < share.old.parts }
    ensures pushed { keeper.new ≡ keeper.old ++ receipt.now.entry ∷ [] }
    ensures seen { front.new ≡ keeper.new }
    ensures known { IsPrefix front.old keeper.old }
    ensures total { book.new.total ≡ book.old.total + 1 }
    ensures amount { share.new.amount ≡ share.old.amount + 1 }
    ensures parts { share.new.parts ≡ share.old.parts }
{
    keeper.push(front, &receipt.entry);
    book.add(share, 1);
}

/// These entries, shared. `AllocError` as of `entries_behind`.
pub(crate) fn shared_all<C: Drop, R: Drop>(
    alloc: Global,
    entries: &[SharedEntry<C, R>],
) -> Result<Vec<SharedEntry<C, R>>, AllocError>
    ensures { IfOk result (λ all. all.items ≡ entries.now) }
{
    let mut all = Vec::with_capacity(alloc, entries.len())?;
    for entry in entries {
        all.push(entry.share()?)?;
    }
    Ok(all)
}

/// What these passes have seen is each a beginning of what the keeper has.
fn know_all<W: World, L: EngineName>(
    keeper: &mut Keeper<W::Call, W::Reply, L>,
    passes: &[CountedPass<W, L>],
)
    ensures same { keeper.new ≡ keeper.old }
    ensures known { AllBegin (fronts_in passes.now) keeper.old }
{
    for desk in passes {
        keeper.knows(&desk.front);
    }
}

/// The share with those of all these passes.
fn gather<W: World, L: EngineName>(spare: Share<L>, passes: Vec<CountedPass<W, L>>) -> Share<L>
    requires { spare.parts ≤ L.parts }
    ensures parts { result.parts ≡ spare.parts + length passes.items }
    ensures within { result.parts ≤ L.parts }
    ensures amount { result.amount ≡ spare.amount + calls_in passes.items }
{
    let mut all = spare;
    for desk in passes {
        let CountedPass {
            pass: _,
            share,
            front: _,
        } = desk;
        all.merge(share);
    }
    all
}

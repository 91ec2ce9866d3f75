ghost use Rattle.std.specs.Prelude.{◌≡◌, ◌+◌, ◌<◌, ◌≤◌, ◌↔◌, [], length, vec_len, IfOk, IfErr, OnOk, OnErr, IsTrue};
ghost use Rattle.casa_history.specs.Entries.{entries, receipts, receipt, last_position, number_of, desk_of, HasRoomForEntry, HasRoomForReceipt};
ghost use Rattle.casa_commit.specs.Legal.{entry, replay, IsLegal};
ghost use Rattle.casa_commit.specs.Desks.{most_desks, AreTallies};
ghost use Rattle.casa_commit.specs.Passes.{SamePass};

use crate::fault::{CallFault, DeskFault};
use crate::gate::Gate;
use crate::planning::{answered_now, entry_of};
use crate::prepared::Prepared;
use crate::tally::Tally;
use crate::world::World;
use casa_history::{History, Pass, Receipt, SharedEntry};
use std::alloc::{AllocError, Global};

/// The most desks that may be open.
const MAX_DESKS: usize = 1024;

/// A world with the history that led to it, and the desks that may make calls.
///
/// Its type keeps that the history is legal, that the world is its replay, and that the tally of each open desk is that
/// of the history, in which no other desk has an entry.
#[derive_where(Debug; W, W::Call, W::Reply)]
pub struct Room<W: World> {
    world: W,
    history: History<W::Call, W::Reply>,
    number: u32,
    desks: Vec<Tally>,
    ghost few: { vec_len desks ≤ most_desks },
    ghost replayed: { W.state world ≡ replay W.after W.opening (entries history) } by { W.state_set (W.state world) (replay W.after W.opening (entries history)) },
    ghost legal: { IsLegal W.after W.reply W.opening (entries history) },
    ghost tallied: { AreTallies desks.items (entries history) },
}

impl<W: World + Drop> Drop for Room<W> {
    fn drop(self) {
        let Room {
            world: _,
            history: _,
            number: _,
            desks: _,
        } = self;
    }
}

/// An entry, and its receipt for a pass.
type EntryWithReceipt<C, R> = (SharedEntry<C, R>, Receipt<C, R>);

impl<W: World> Room<W> {
    ghost use Rattle.casa_commit.specs.Prepared.{call_of, view_of, reply_of, change_of};
    ghost use Rattle.casa_commit.specs.Rooms.{world_of, history_of, entries_of, room_number, open_desks, next_position, Admits, Accepts, Extends, AreUnchanged, IsUnchanged};

    /// The room with this number over a world in the opening state: no desk is open and the history is empty.
    pub fn new(alloc: Global, world: W, number: u32) -> Room<W>
        requires { W.state world ≡ W.opening }
        ensures world { world_of result ≡ world }
        ensures number { room_number result ≡ number }
        ensures history { entries_of result ≡ [] }
        ensures desks { open_desks result ≡ 0 }
    {
        Room {
            world,
            history: History::new(alloc),
            number,
            desks: Vec::new(alloc),
        }
    }

    /// The world: the replay of the history, and in order.
    pub fn world(&self) -> &W
        ensures same { result.now ≡ world_of self.now }
        ensures replay { W.state result.now ≡ replay W.after W.opening (entries_of self.now) }
        ensures good { W.good (W.state result.now) }
    {
        &self.world
    }

    /// The history, which is legal.
    pub fn history(&self) -> &History<W::Call, W::Reply>
        ensures same { result.now ≡ history_of self.now }
        ensures legal { IsLegal W.after W.reply W.opening (entries result.now) }
    {
        &self.history
    }

    /// How many desks are open; they are numbered from 0.
    pub fn desks(&self) -> u32
        ensures { result ≡ open_desks self.now }
    {
        self.desks.len() as u32
    }

    /// Opens the next desk and gives its pass; `TooManyDesks` where 1,024 are open, else `NoMemory` where there is no
    /// memory for it.
    pub fn open_desk(&mut self) -> Result<Pass<W::Call, W::Reply>, DeskFault>
        ensures full { (result ≡ Err DeskFault.TooManyDesks) ↔ (open_desks self.old ≡ most_desks) }
        ensures pass { IfOk result (λ p. (number_of p ≡ room_number self.old)
            × (desk_of p ≡ open_desks self.old) × (receipts p ≡ [])) }
        ensures opened { OnOk result (open_desks self.new ≡ open_desks self.old + 1) }
        ensures closed { OnErr result (open_desks self.new ≡ open_desks self.old) }
        ensures same_number { room_number self.new ≡ room_number self.old }
        ensures same_history { history_of self.new ≡ history_of self.old }
        ensures same_world { world_of self.new ≡ world_of self.old }
    {
        let desk = self.desks.len();
        if desk >= MAX_DESKS {
            return Err(DeskFault::TooManyDesks);
        }
        let alloc = *self.desks.allocator();
        if self.desks.push(Tally { calls: 0, last: 0 }).is_err() {
            return Err(DeskFault::NoMemory);
        }
        Ok(Pass::new(alloc, self.number, desk as u32))
    }

    /// Lets the world move in what it kept apart for views that are gone, and make ready for a view of this call.
    /// `AllocError` where there is no memory for it; the room says what it said at each end.
    pub fn consolidate(&mut self, call: &W::Call) -> Result<(), AllocError>
        ensures world { W.same_but_capacity (world_of self.old) (world_of self.new) }
        ensures history { history_of self.new ≡ history_of self.old }
        ensures number { room_number self.new ≡ room_number self.old }
        ensures desks { open_desks self.new ≡ open_desks self.old }
    {
        self.world.consolidate(call)
    }

    /// Takes a view for the desk's call, works the answer out by the gate and accepts it, all in one section, and gives the
    /// receipt.
    ///
    /// A refusal changes nothing: `ForeignPass` where the room does not admit the pass, else `NoMemory` where memory was
    /// refused.
    pub fn locked<G: Gate<W>>(
        &mut self,
        alloc: Global,
        pass: &mut Pass<W::Call, W::Reply>,
        call: &W::Call,
        gate: &G,
    ) -> Result<Receipt<W::Call, W::Reply>, CallFault>
        ensures foreign { (result ≡ Err CallFault.ForeignPass) ↔ ¬ (Admits self.old pass.old) }
        ensures no_memory { result ≡ Err CallFault.NoMemory → Admits self.old pass.old }
        ensures accepted { IfOk result (λ receipt.
            (change : W.Change) × Accepts self.old pass.old call.now change receipt self.new
            pass.new) }
        ensures refused { OnErr result (AreUnchanged self.old pass.old self.new pass.new) }
    {
        if !self.admits(pass) {
            return Err(CallFault::ForeignPass);
        }
        let Ok((entry, change)) = answered_now(alloc, gate, self.world(), pass.desk(), call) else {
            return Err(CallFault::NoMemory);
        };
        match self.append(pass, entry, change) {
            Ok(receipt) => Ok(receipt),
            Err(_) => Err(CallFault::NoMemory),
        }
    }

    /// Answers a call of an open desk whose receipts nobody keeps: takes a view for it, works the answer out by the gate
    /// and accepts it, all in one section, and gives the receipt. A pass of that desk is not admitted from then on.
    ///
    /// `AllocError` where memory was refused; then nothing has changed.
    pub fn answer<G: Gate<W>>(
        &mut self,
        alloc: Global,
        desk: u32,
        call: &W::Call,
        gate: &G,
    ) -> Result<Receipt<W::Call, W::Reply>, AllocError>
        requires { desk < open_desks self.old }
        ensures accepted { IfOk result (λ receipt.
            (change : W.Change) × Extends self.old desk call.now change receipt self.new) }
        ensures refused { OnErr result (IsUnchanged self.old self.new) }
    {
        let (entry, change) = answered_now(alloc, gate, self.world(), desk, call)?;
        match self.extend(entry, change) {
            Ok(receipt) => Ok(receipt),
            Err(_) => Err(AllocError),
        }
    }

    /// Whether the pass is this room's: its number, an open desk, and that desk's number of entries and last position.
    pub(crate) fn admits(&self, pass: &Pass<W::Call, W::Reply>) -> bool
        ensures { IsTrue result ↔ Admits self.now pass.now }
    {
        let desk = pass.desk() as usize;
        pass.number() == self.number
            && desk < self.desks.len()
            && pass.calls() == self.desks[desk].calls
            && last_position(pass) == self.desks[desk].last
    }

    /// Appends the entry of a call with its reply, as one of the pass's desk, and applies its change, or hands both back
    /// where memory is refused.
    pub(crate) fn append(
        &mut self,
        pass: &mut Pass<W::Call, W::Reply>,
        answered: SharedEntry<W::Call, W::Reply>,
        change: W::Change,
    ) -> Result<Receipt<W::Call, W::Reply>, (SharedEntry<W::Call, W::Reply>, W::Change)>
        requires admitted { Admits self.old pass.old }
        requires right { W.good (W.state (world_of self.old)) →
            (answered.reply ≡ W.reply (W.state (world_of self.old)) answered.call)
            × ∥ W.changes (W.state (world_of self.old)) answered.call change ∥₁ }
        ensures accepted { IfOk result (λ receipt.
            Accepts self.old pass.old answered.call change receipt self.new pass.new) }
        ensures refused { OnErr result (AreUnchanged self.old pass.old self.new pass.new) }
        ensures back { IfErr result (λ answer. answer ≡ (answered, change)) }
    {
        let Ok((entry, kept)) = self.entry_with_receipt(pass, &answered) else {
            return Err((answered, change));
        };
        match self.extend(entry, change) {
            Ok(given) => {
                pass.push(kept);
                Ok(given)
            }
            Err((_, change)) => Err((answered, change)),
        }
    }

    /// The entry of an answered call for the pass's desk, with the receipt that the pass has room for from now on.
    fn entry_with_receipt(
        &self,
        pass: &mut Pass<W::Call, W::Reply>,
        answered: &SharedEntry<W::Call, W::Reply>,
    ) -> Result<EntryWithReceipt<W::Call, W::Reply>, AllocError>
        ensures pass { SamePass pass.old pass.new }
        ensures room { OnOk result (HasRoomForReceipt pass.new) }
        ensures entry { IfOk result (λ r. r.0
            ≡ entry (desk_of pass.old) answered.now.call answered.now.reply) }
        ensures receipt { IfOk result (λ r. r.1 ≡ receipt (next_position self.now)
            (entry (desk_of pass.old) answered.now.call answered.now.reply)) }
    {
        pass.reserve()?;
        let alloc = *self.desks.allocator();
        let entry = entry_for::<W>(alloc, pass.desk(), answered)?;
        let kept = receipt(self.history.len() + 1, &entry)?;
        Ok((entry, kept))
    }

    /// Appends an entry of an open desk and applies its change, or hands both back where memory is refused. The receipt
    /// of the entry.
    fn extend(
        &mut self,
        answered: SharedEntry<W::Call, W::Reply>,
        change: W::Change,
    ) -> Result<Receipt<W::Call, W::Reply>, (SharedEntry<W::Call, W::Reply>, W::Change)>
        requires desk { answered.desk < open_desks self.old }
        requires right { W.good (W.state (world_of self.old)) →
            (answered.reply ≡ W.reply (W.state (world_of self.old)) answered.call)
            × ∥ W.changes (W.state (world_of self.old)) answered.call change ∥₁ }
        ensures accepted { IfOk result (λ receipt.
            Extends self.old answered.desk answered.call change receipt self.new) }
        ensures refused { OnErr result (IsUnchanged self.old self.new) }
        ensures back { IfErr result (λ answer. answer ≡ (answered, change)) }
    {
        let Ok(given) = self.grow(&answered) else {
            return Err((answered, change));
        };
        let position = given.position;
        if let Err(change) = self.world.write(position, change) {
            return Err((answered, change));
        }
        let desk = answered.desk;
        self.history.push(answered);
        let tally = &mut self.desks[desk as usize];
        tally.calls += 1;
        tally.last = position;
        Ok(given)
    }

    /// Makes the growth of the history for an entry, and the entry's receipt. `AllocError` where there is no memory for
    /// one of them; nothing but spare memory has changed in either case.
    fn grow(
        &mut self,
        answered: &SharedEntry<W::Call, W::Reply>,
    ) -> Result<Receipt<W::Call, W::Reply>, AllocError>
        ensures world { world_of self.new ≡ world_of self.old }
        ensures history { entries_of self.new ≡ entries_of self.old }
        ensures number { room_number self.new ≡ room_number self.old }
        ensures desks { self.new.desks ≡ self.old.desks }
        ensures history_room { OnOk result (HasRoomForEntry (history_of self.new)) }
        ensures given { IfOk result (λ r. r ≡ receipt (next_position self.old) answered.now) }
    {
        self.history.reserve()?;
        receipt(self.history.len() + 1, answered)
    }
}

impl<W: World + Drop> Room<W> {
    ghost use Rattle.casa_commit.specs.Rooms.{history_of};

    /// The history, which is legal.
    pub fn into_history(self) -> History<W::Call, W::Reply>
        ensures same { result ≡ history_of self }
        ensures legal { IsLegal W.after W.reply W.opening (entries result) }
    {
        let Room {
            world: _,
            history,
            number: _,
            desks: _,
        } = self;
        history
    }
}

/// The entry of an answered call for this desk: the same where it was answered for this desk, else one of copies.
fn entry_for<W: World>(
    alloc: Global,
    desk: u32,
    answered: &SharedEntry<W::Call, W::Reply>,
) -> Result<SharedEntry<W::Call, W::Reply>, AllocError>
    ensures { IfOk result (λ e. e ≡ entry desk answered.now.call answered.now.reply) }
{
    if answered.desk == desk {
        return answered.share();
    }
    let reply = W::copy_reply(&answered.reply)?;
    entry_of::<W>(alloc, desk, &answered.call, reply)
}

/// A receipt of an entry at this position.
fn receipt<C: Drop, R: Drop>(
    position: usize,
    entry: &SharedEntry<C, R>,
) -> Result<Receipt<C, R>, AllocError>
    ensures { IfOk result (λ r. r ≡ receipt position entry.now) }
{
    Ok(Receipt {
        position,
        entry: entry.share()?,
    })
}

/// The position of the pass's latest receipt, 0 if it has none.
fn last_position<C, R>(pass: &Pass<C, R>) -> usize
    ensures { result ≡ last_position (receipts pass.now) }
{
    match pass.last() {
        Some(receipt) => receipt.position,
        None => 0,
    }
}

ghost use Rattle.std.specs.Prelude.{◌≡◌, ◌+◌, [], ◌∷◌, ◌++◌, length, All, IfOk, OnErr};
ghost use Rattle.casa_history.specs.Entries.{entries, receipt, receipts_from};
ghost use Rattle.casa_commit.specs.Legal.{entry, replay, IsLegal};
ghost use Rattle.casa_branch.specs.Behind.{entries_in, AreOwn, only_desk};

use casa_commit::{Gate, Room, World};
use casa_history::{Entry, History, Receipt, SharedEntry};
use std::alloc::{AllocError, Global};
use std::snapshot::Snapshot;

/// The number of the desk whose calls a branch answers. There is no other.
const DESK: u32 = 0;

/// A world as it stands after a room's history and the calls that were answered on it since, which are in no history.
///
/// Of the history only the number of its entries is kept. Contracts see it whole, and the type keeps that the world is the
/// replay of it and of the entries that were given, which are legal behind it.
pub struct Branch<W: World> {
    world: W,
    before: usize,
    earlier: Snapshot<History<W::Call, W::Reply>>,
    given: Vec<Receipt<W::Call, W::Reply>>,
    ghost counted: { before ≡ length (entries earlier.value) },
    ghost own: { AreOwn given.items },
    ghost positions: { given.items ≡ receipts_from (length (entries earlier.value) + 1) (entries_in given.items) },
    ghost replayed: { W.state world ≡ replay W.after W.opening (entries earlier.value ++ entries_in given.items) } by { W.state_set (W.state world) (replay W.after W.opening (entries earlier.value ++ entries_in given.items)) },
    ghost legal: { IsLegal W.after W.reply W.opening (entries earlier.value ++ entries_in given.items) },
}

impl<W: World + Drop> Drop for Branch<W> {
    fn drop(self) {
        let Branch {
            world: _,
            before: _,
            earlier: _,
            given: _,
        } = self;
    }
}

impl<W: World> Branch<W> {
    ghost use Rattle.casa_commit.specs.Rooms.{world_of, entries_of};
    ghost use Rattle.casa_branch.specs.Branches.{earlier_of, given_of, world_in};

    /// The branch of a room over a world that stands as the room's does. The room stays as it is.
    pub fn of(alloc: Global, room: &Room<W>, world: W) -> Branch<W>
        requires { W.state world ≡ W.state (world_of room.now) }
        ensures earlier { earlier_of result ≡ entries_of room.now }
        ensures none { given_of result ≡ [] }
        ensures world { world_in result ≡ world }
    {
        let _world = room.world();
        let history = room.history();
        Branch {
            world,
            before: history.len(),
            earlier: Snapshot::of(history),
            given: Vec::new(alloc),
        }
    }

    /// How many entries there are: those of the history behind which it answers, and those that it gave since. `AllocError`
    /// where no memory could have so many.
    pub fn entries(&self) -> Result<usize, AllocError>
        ensures { IfOk result (λ entries. entries
            ≡ length (earlier_of self.now ++ entries_in (given_of self.now))) }
    {
        self.before.checked_add(self.given.len()).ok_or(AllocError)
    }

    /// The world: the replay of the history and of what was answered since, and in order.
    pub fn world(&self) -> &W
        ensures same { result.now ≡ world_in self.now }
        ensures stands { W.state (world_in self.now) ≡ replay W.after W.opening
            (earlier_of self.now ++ entries_in (given_of self.now)) }
        ensures replay { W.state result.now ≡ replay W.after W.opening
            (earlier_of self.now ++ entries_in (given_of self.now)) }
        ensures good { W.good (W.state result.now) }
    {
        &self.world
    }

    /// Answers a call and gives its receipt, as the next one behind the history and what was answered since. `AllocError`
    /// where memory was refused; then nothing was answered.
    pub fn answer<G: Gate<W>>(
        &mut self,
        alloc: Global,
        call: &W::Call,
        gate: &G,
    ) -> Result<Receipt<W::Call, W::Reply>, AllocError>
        ensures given { IfOk result (λ given. given_of self.new ≡ given_of self.old ++ given ∷ []) }
        ensures answered { IfOk result (λ given. given
            ≡ receipt (length (earlier_of self.old ++ entries_in (given_of self.old)) + 1)
            (entry only_desk call.now (W.reply (W.state (world_in self.old)) call.now))) }
        ensures refused { OnErr result (given_of self.new ≡ given_of self.old) }
        ensures earlier { earlier_of self.new ≡ earlier_of self.old }
    {
        let (entry, change) = answered(alloc, gate, self.world(), call)?;
        self.extend(entry, change)
    }

    /// The position of the entry of the next call. `AllocError` as of `entries`.
    fn next_position(&self) -> Result<usize, AllocError>
        ensures { IfOk result (λ position. position
            ≡ length (earlier_of self.now ++ entries_in (given_of self.now)) + 1) }
    {
        self.entries()?.checked_add(1).ok_or(AllocError)
    }

    /// Gives the receipt of an answered call, and applies its change. `AllocError` where memory is refused.
    fn extend(
        &mut self,
        answered: SharedEntry<W::Call, W::Reply>,
        change: W::Change,
    ) -> Result<Receipt<W::Call, W::Reply>, AllocError>
        requires own { answered.desk ≡ only_desk }
        requires reply { answered.reply ≡ W.reply (W.state (world_in self.old)) answered.call }
        requires right { ∥ W.changes (W.state (world_in self.old)) answered.call change ∥₁ }
        ensures given { IfOk result (λ given. given_of self.new ≡ given_of self.old ++ given ∷ []) }
        ensures answered { IfOk result (λ given. given
            ≡ receipt (length (earlier_of self.old ++ entries_in (given_of self.old)) + 1)
            answered) }
        ensures refused { OnErr result (given_of self.new ≡ given_of self.old) }
        ensures earlier { earlier_of self.new ≡ earlier_of self.old }
    {
        let position = self.next_position()?;
        self.given.reserve(1)?;
        let entry = answered.share()?;
        self.world.fits(position, &change)?;
        self.world.apply(position, change);
        self.given.push_reserved(Receipt { position, entry });
        Ok(Receipt {
            position,
            entry: answered,
        })
    }
}

/// The entry of a call with its change, worked out on a view of the world as it is. The view is let go with that, so that
/// the change can be written where nothing is shared. `AllocError` where the gate answers it, or where there is no memory
/// for the view or the entry.
fn answered<W: World, G: Gate<W>>(
    alloc: Global,
    gate: &G,
    world: &W,
    call: &W::Call,
) -> Result<(SharedEntry<W::Call, W::Reply>, W::Change), AllocError>
    requires good { W.good (W.state world.now) }
    ensures entry { IfOk result (λ answer. answer.0
        ≡ entry only_desk call.now (W.reply (W.state world.now) call.now)) }
    ensures right { IfOk result (λ answer. ∥ W.changes (W.state world.now) call.now answer.1 ∥₁) }
{
    let view = world.view(call)?;
    let (reply, change) = gate.plan(alloc, DESK, 0, &view, call)?;
    let call = W::copy_call(call)?;
    let entry = SharedEntry::new(
        alloc,
        Entry {
            desk: DESK,
            call,
            reply,
        },
    )?;
    Ok((entry, change))
}

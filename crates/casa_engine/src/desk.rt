ghost use Rattle.std.specs.Prelude.{◌≡◌, ℕ, ⊤, IfOk, OnErr};
ghost use Rattle.std.proofs.Math.Logic.{∥∥₁_map};
ghost use Rattle.casa_history.specs.Entries.{receipts, receipts_of, desk_of};
ghost use Rattle.casa_commit.specs.Legal.{IsLegal};
ghost use Rattle.casa_commit.specs.Passes.{SamePass};
ghost use Rattle.casa_engine.specs.Fronts.{front_of, IsSeenIn};
ghost use Rattle.casa_engine.specs.Passes.{pass_of};
ghost use Rattle.casa_engine.specs.Receipts.{IsReceiptOf, AreReceiptsOf};

use crate::name::EngineName;
use crate::pass::CountedPass;
use crate::shared::{Shareable, SharedRoom};
use casa_commit::{CallFault, Desk, Gate};
use casa_front::Front;
use casa_history::Receipt;
use casa_plan::Direct;
use std::alloc::Global;
use std::sync::Wait;

/// A desk of a shared room, which answers by its pass.
#[derive(Drop)]
pub struct SharedDesk<'a, W: Shareable, L: EngineName, G, R> {
    room: &'a SharedRoom<W, L, G>,
    rt: &'a R,
    pass: CountedPass<W, L>,
}

impl<'a, W: Shareable, L: EngineName, G, R> SharedDesk<'a, W, L, G, R> {
    /// The desk of this pass.
    pub fn new(
        room: &'a SharedRoom<W, L, G>,
        rt: &'a R,
        pass: CountedPass<W, L>,
    ) -> SharedDesk<'a, W, L, G, R>
        ensures { result.pass ≡ pass }
    {
        SharedDesk { room, rt, pass }
    }

    /// What its pass has seen of the engine's history, as `front` of the pass gives it.
    pub fn front(&self) -> Front<W::Call, W::Reply, L>
        ensures same { result ≡ front_of self.now.pass }
        ensures legal { IsLegal W.after W.reply W.opening result }
        ensures told { receipts (pass_of self.now.pass)
            ≡ receipts_of (desk_of (pass_of self.now.pass)) result }
    {
        self.pass.front()
    }

    /// The pass.
    pub fn into_pass(self) -> CountedPass<W, L>
        ensures { result ≡ self.entry.pass }
    {
        let SharedDesk {
            room: _,
            rt: _,
            pass,
        } = self;
        pass
    }
}

impl<'a, W: Shareable, L: EngineName, G: Gate<W>, R: Wait> SharedDesk<'a, W, L, G, R>
where
    Direct: Gate<W>,
{
    /// Answers a call and gives its receipt, as `call` of the room does.
    pub fn answer(&mut self, call: &W::Call) -> Result<Receipt<W::Call, W::Reply>, CallFault>
        ensures stands { IfOk result (λ r. IsReceiptOf W.World (pass_of self.old.pass) call.now r
            (pass_of self.new.pass)) }
        ensures same_pass { OnErr result (SamePass (pass_of self.old.pass)
            (pass_of self.new.pass)) }
        ensures seen { IfOk result (λ r. IsSeenIn W.World (front_of self.old.pass) r
            (front_of self.new.pass)) }
        ensures same_front { OnErr result (front_of self.new.pass ≡ front_of self.old.pass) }
    {
        self.room.call(self.rt, &mut self.pass, call)
    }
}

/// A desk of a shared room has answered what its pass has receipts of: all of one desk, and each next after those before it
/// in a legal history. Memory comes from the room's allocator.
impl<'a, W: Shareable, L: EngineName, G: Gate<W>, R: Wait> Desk for SharedDesk<'a, W, L, G, R>
where
    Direct: Gate<W>,
{
    type Call = W::Call;

    type Reply = W::Reply;

    ghost answered = { λ desk. receipts (pass_of desk.pass) };

    ghost lawful = { λ given. ∥ ((desk : ℕ) × AreReceiptsOf W.World desk given) ∥₁ };

    ghost may_be_foreign = { ⊤ };

    ghost always = { λ desk. ∥∥₁_map desk.pass.stand (λ stand. (desk_of (pass_of desk.pass), stand)) };

    fn answer(
        &mut self,
        _alloc: Global,
        call: &W::Call,
    ) -> Result<Receipt<W::Call, W::Reply>, CallFault> {
        SharedDesk::answer(self, call)
    }
}

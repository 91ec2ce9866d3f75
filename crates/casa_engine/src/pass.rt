ghost use Rattle.std.specs.Prelude.{◌≡◌, ◌⊎◌, List, length};
ghost use mathlib.Core.List.{IsPrefix};
ghost use Rattle.casa_history.specs.declared.entry.Entry.{Entry};
ghost use Rattle.casa_history.specs.Entries.{receipts, receipts_of, desk_of};
ghost use Rattle.casa_commit.specs.Legal.{IsLegal};
ghost use Rattle.casa_engine.specs.Receipts.{AreReceiptsOf};

use crate::name::EngineName;
use casa_commit::World;
use casa_front::Front;
use casa_history::{Holds, Pass};
use std::sync::ledger::Share;

/// The pass of a desk, with its part of the engine's ledger, in which each receipt counts, and with what it has seen of the
/// engine's history.
///
/// It can't be cloned. Its type names the engine, so that it is no pass of another one. And it says that what the pass has
/// seen is legal, and that its receipts are those of its desk's entries there.
#[derive(Drop)]
pub struct CountedPass<W: World, L: EngineName> {
    pub(crate) pass: Pass<W::Call, W::Reply>,
    pub(crate) share: Share<L>,
    pub(crate) front: Front<W::Call, W::Reply, L>,
    ghost part: { share.parts ≡ 1 },
    ghost counted: { share.amount ≡ length (receipts pass) },
    ghost legal: { IsLegal W.after W.reply W.opening front },
    ghost told: { receipts pass ≡ receipts_of (desk_of pass) front },
    ghost stand: { ∥ AreReceiptsOf W.World (desk_of pass) (receipts pass) ∥₁ },
}

impl<W: World, L: EngineName> CountedPass<W, L> {
    ghost use Rattle.casa_engine.specs.Passes.{pass_of};
    ghost use Rattle.casa_engine.specs.Fronts.{front_of, IsToldIn};

    /// What the pass has seen of the engine's history: a legal one, in which its desk's entries are those of its receipts.
    pub fn front(&self) -> Front<W::Call, W::Reply, L>
        ensures same { result ≡ front_of self.now }
        ensures legal { IsLegal W.after W.reply W.opening result }
        ensures told { receipts (pass_of self.now)
            ≡ receipts_of (desk_of (pass_of self.now)) result }
    {
        self.front.again()
    }

    /// Of two passes of one engine, one has seen a beginning of what the other has: so both were told of one legal history.
    /// It does nothing when it runs.
    pub fn agrees(&self, other: &CountedPass<W, L>)
        ensures either { IsPrefix (front_of self.now) (front_of other.now)
            ⊎ IsPrefix (front_of other.now) (front_of self.now) }
        ensures history { (history : List (Entry W.Call W.Reply))
            × IsLegal W.after W.reply W.opening history
            × IsToldIn history self.now × IsToldIn history other.now }
    {
        self.front.agrees(&other.front);
    }
}

impl<W: World, L: EngineName> Holds<W::Call, W::Reply> for CountedPass<W, L> {
    ghost held = { λ desk. desk.pass };

    fn pass(&self) -> &Pass<W::Call, W::Reply> {
        &self.pass
    }
}

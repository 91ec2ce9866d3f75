//! What would come of calls, of which the engine has nothing.

ghost use Rattle.std.specs.Prelude.{◌≡◌, [], IfOk, OnOk, OnErr};
ghost use mathlib.Core.List.{IsPrefix};
ghost use Rattle.casa_branch.specs.Branches.{earlier_of, given_of};
ghost use Rattle.casa_commit.specs.Rooms.{entries_of};
ghost use Rattle.casa_plan.specs.Rooms.{IsSequential};

use crate::counted::CountedRoom;
use crate::name::EngineName;
use crate::shared::SharedRoom;
use casa_branch::Branch;
use casa_commit::Gate;
use casa_flight::{Call, Reply};
use casa_front::Front;
use casa_plan::board_of;
use casa_view::{Board, Store};
use std::alloc::{AllocError, Global};
use std::sync::Wait;

impl<K: Store, L: EngineName, G: Gate<Board<K>> + Drop> SharedRoom<Board<K>, L, G> {
    /// A branch behind the history that the front sees from then on: it answers calls as the engine would then, and nothing of
    /// them comes to the engine. `AllocError` where there is no memory for it; the front is then as it was.
    ///
    /// Under the lock what stands then is shared, whatever its size. While the branch is there, what desks write lies beside
    /// what it shares, and each further call of theirs costs more: so let it go soon.
    pub fn branch<R: Wait>(
        &self,
        rt: &R,
        front: &mut Front<Call, Reply, L>,
    ) -> Result<Branch<Board<K>>, AllocError>
        ensures earlier { IfOk result (λ branch. earlier_of branch ≡ front.new) }
        ensures none { IfOk result (λ branch. given_of branch ≡ []) }
        ensures sequential { OnOk result (IsSequential front.new) }
        ensures longer { OnOk result (IsPrefix front.old front.new) }
        ensures same_front { OnErr result (front.new ≡ front.old) }
    {
        let alloc = self.alloc;
        self.hold(rt).branch(alloc, front)
    }
}

impl<K: Store, L: EngineName> CountedRoom<Board<K>, L> {
    /// A branch, as `branch` of the engine. The room stays as it is.
    fn branch(
        &mut self,
        alloc: Global,
        front: &mut Front<Call, Reply, L>,
    ) -> Result<Branch<Board<K>>, AllocError>
        ensures earlier { IfOk result (λ branch. earlier_of branch ≡ front.new) }
        ensures none { IfOk result (λ branch. given_of branch ≡ []) }
        ensures sequential { OnOk result (IsSequential front.new) }
        ensures longer { OnOk result (IsPrefix front.old front.new) }
        ensures same_front { OnErr result (front.new ≡ front.old) }
        ensures same { self.new.room ≡ self.old.room }
    {
        let board = board_of(self.room()).fork()?;
        let branch = Branch::of(alloc, self.room(), board);
        self.see(front);
        Ok(branch)
    }
}

//! A desk that answers behind a history, and alone from there on.

ghost use Rattle.std.specs.Prelude.{◌≡◌, ◌≢◌, ◌∷◌, [], ◌++◌, Err, IfOk, OnErr};
ghost use Rattle.casa_branch.specs.Branches.{earlier_of, given_of};
ghost use Rattle.casa_session.specs.Alone.{lone_sides};
ghost use Rattle.casa_session.specs.Played.{calls_in, receipts_played};
ghost use Rattle.casa_session.specs.Transcript.{Ends};
ghost use Rattle.casa_trial.specs.Tried.{IsLookAfter};

use casa_branch::Branch;
use casa_commit::{CallFault, Desk, World};
use casa_engine::{Look, look_on};
use casa_flight::{Call, Reply};
use casa_history::Receipt;
use casa_plan::Direct;
use casa_session::{SessionFault, run};
use casa_view::{Board, Store};
use std::alloc::{AllocError, Global};
use std::io::{Read, Write};
use std::marker::Model;

/// A desk on a branch: each call is answered as the sequential allocator does after the calls of the history behind which
/// the branch stands, and after the calls that were answered on it since.
///
/// Contracts see it as all these calls.
pub struct Trial<W: World> {
    branch: Branch<W>,
}

impl<W: World> Model for Trial<W> {
    ghost use Rattle.std.specs.Prelude.{◌++◌, List, map};
    ghost use Rattle.casa_history.specs.declared.entry.Entry.{Entry};
    ghost use Rattle.casa_branch.specs.Behind.{entries_in};
    ghost use Rattle.casa_branch.specs.Branches.{earlier_of, given_of};

    ghost Value = { List W.Call };

    ghost view = { λ t. map (λ (e : Entry W.Call W.Reply). e.call)
        (earlier_of t.branch ++ entries_in (given_of t.branch)) };
}

impl<W: World + Drop> Drop for Trial<W> {
    fn drop(self) {
        let Trial { branch: _ } = self;
    }
}

impl<K: Store> Trial<Board<K>> {
    /// A desk on this branch, on which nothing was answered.
    pub fn on(branch: Branch<Board<K>>) -> Trial<Board<K>>
        requires { given_of branch ≡ [] }
        ensures { result ≡ calls_in (earlier_of branch) }
    {
        Trial { branch }
    }

    /// Answers each line of the reader at the writer, and says how many there were, as a desk that is alone does after the
    /// calls so far.
    pub fn run<R: Read, W: Write>(
        &mut self,
        alloc: Global,
        reader: &mut R,
        writer: &mut W,
    ) -> Result<u64, SessionFault>
        ensures { Ends ⊥ result (lone_sides self.old self.new (R.remaining reader.old)
            (R.remaining reader.new)
            (W.contents writer.old) (W.contents writer.new)) }
    {
        run(alloc, reader, writer, self)
    }

    /// What there is to look at after the calls. `AllocError` where there is no memory for it.
    pub fn look(&self, alloc: Global) -> Result<Look, AllocError>
        ensures { IfOk result (IsLookAfter self.now) }
    {
        let calls = self.branch.entries()?;
        look_on(alloc, calls, self.branch.world())
    }

    /// The receipt of the call; where memory is refused, nothing was answered.
    fn receipt(&mut self, alloc: Global, call: &Call) -> Result<Receipt<Call, Reply>, CallFault>
        ensures ok { IfOk result (λ receipt. receipts_played self.new
            ≡ receipts_played self.old ++ receipt ∷ []) }
        ensures called { IfOk result (λ receipt. receipt.entry.call ≡ call.now) }
        ensures err { OnErr result (self.new ≡ self.old) }
        ensures foreign { result ≢ Err CallFault.ForeignPass }
    {
        let _world = self.branch.world();
        let Ok(receipt) = self.branch.answer(alloc, call, &Direct) else {
            return Err(CallFault::NoMemory);
        };
        Ok(receipt)
    }
}

/// Its receipts are those that the sequential allocator gives to some calls.
impl<K: Store> Desk for Trial<Board<K>> {
    type Call = Call;

    type Reply = Reply;

    ghost use Rattle.std.specs.Prelude.{List, refl};
    ghost use Rattle.casa_flight.specs.declared.call.Call.{Call};

    ghost answered = { λ calls. receipts_played calls };

    ghost lawful = { λ given. (calls : List Call) × (given ≡ receipts_played calls) };

    ghost may_be_foreign = { ⊥ };

    ghost always = { λ calls. (calls, refl) };

    fn answer(&mut self, alloc: Global, call: &Call) -> Result<Receipt<Call, Reply>, CallFault> {
        self.receipt(alloc, call)
    }
}

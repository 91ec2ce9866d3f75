ghost use Rattle.std.specs.Prelude.{◌≡◌, ◌<◌, ◌≤◌, ◌^◌, ◌↔◌, ◌++◌, ℕ, true, [], length, IfOk, IfErr, OnErr, OnOk};
ghost use mathlib.Core.List.{IsPrefix};
ghost use Rattle.casa_history.specs.Entries.{entries, receipts};
ghost use Rattle.casa_history.specs.Settlement.{IsSettled};
ghost use Rattle.casa_commit.specs.Legal.{IsLegal};
ghost use Rattle.casa_commit.specs.Passes.{SamePass};
ghost use Rattle.casa_front.specs.Openings.{history_name};
ghost use Rattle.casa_engine.specs.Fronts.{front_of, fronts_in, AllBegin, IsSeenIn};
ghost use Rattle.casa_engine.specs.Ledgers.{IsBlankOf};
ghost use Rattle.casa_engine.specs.Passes.{pass_of, passes_in, calls_in};
ghost use Rattle.casa_engine.specs.Receipts.{IsReceiptOf};

use crate::counted::CountedRoom;
use crate::name::EngineName;
use crate::parts::AllParts;
use crate::pass::CountedPass;
use casa_commit::{CallFault, CommitFault, DeskFault, Gate, World, prepare};
use casa_front::{Front, Opened};
use casa_history::{History, Receipt, Settled, SharedEntry, Torn};
use casa_plan::Direct;
use std::alloc::{AllocError, Global};
use std::hint::spin_loop;
use std::sync::ledger::Blank;
use std::sync::{Mutex, MutexGuard, Wait};

/// How often a call's answer is worked out outside the lock before it is worked out under it.
const TRIES: u32 = 3;

/// How often a desk asks for the lock before it sleeps until it is woken. What runs under the lock is shorter than a sleep
/// and a wake, so that the next desk mostly has it before it would sleep.
const LOOKS: u32 = 2000;

/// A world that desks in many threads may share: each of its views is of the one world that there is.
///
/// Where there are several worlds of one kind, its type names the one, and so do those of its views.
pub trait Shareable: World<Call: PartialEq, Reply: PartialEq> {
    /// Each view is of each world of this type.
    ghost one_world: { (v : Self.View) (w : Self) → Self.is_of v w };

    /// `==` of calls and of replies is equality.
    ghost equal_calls: { (x y : Self.Call) → Self.Call.eq x y ≡ true ↔ x ≡ y };

    ghost equal_replies: { (x y : Self.Reply) → Self.Reply.eq x y ≡ true ↔ x ≡ y };
}

/// A room behind a lock, for the desks of many threads.
pub struct SharedRoom<W: Shareable, L: EngineName, G> {
    pub(crate) room: Mutex<CountedRoom<W, L>>,
    gate: G,
    pub(crate) alloc: Global,
    parts: AllParts<L>,
}

impl<W: Shareable + Drop, L: EngineName, G: Drop> Drop for SharedRoom<W, L, G> {
    fn drop(self) {
        let SharedRoom {
            room: _,
            gate: _,
            alloc: _,
            parts: _,
        } = self;
    }
}

impl<W: Shareable, L: EngineName, G: Gate<W>> SharedRoom<W, L, G>
where
    Direct: Gate<W>,
{
    /// The room with this number over a world in the opening state; no desk is open.
    pub(crate) fn over(
        alloc: Global,
        world: W,
        ledger: Blank,
        history: Opened<W::Call, W::Reply>,
        number: u32,
        gate: G,
    ) -> SharedRoom<W, L, G>
        requires opening { W.state world ≡ W.opening }
        requires ledger { IsBlankOf L.name L.parts ledger.name ledger.parts }
        requires history { history_name history ≡ L.history }
    {
        SharedRoom {
            room: Mutex::new(CountedRoom::new(alloc, world, number, ledger, history)),
            gate,
            alloc,
            parts: AllParts::new(),
        }
    }

    /// The room, which nobody else has until this is let go.
    pub(crate) fn hold<R: Wait>(&self, rt: &R) -> MutexGuard<'_, CountedRoom<W, L>> {
        for _ in 0..LOOKS {
            if let Some(room) = self.room.try_lock() {
                return room;
            }
            spin_loop();
        }
        self.room.lock(rt)
    }

    /// Opens the next desk and gives its pass, which has no receipt; `TooManyDesks` where 1,024 are open, else `NoMemory`
    /// where there is no memory for it.
    pub fn desk<R: Wait>(&self, rt: &R) -> Result<CountedPass<W, L>, DeskFault>
        ensures { IfOk result (λ desk. receipts (pass_of desk) ≡ []) }
    {
        self.hold(rt).open_desk()
    }

    /// A front that sees the history as it is now, which is legal.
    pub fn front<R: Wait>(&self, rt: &R) -> Front<W::Call, W::Reply, L>
        ensures { IsLegal W.after W.reply W.opening result }
    {
        self.hold(rt).front()
    }

    /// Lets a front see the history as it is now, which is legal, and begins with what the front had seen. How many entries
    /// there are.
    pub fn see<R: Wait>(&self, rt: &R, front: &mut Front<W::Call, W::Reply, L>) -> usize
        ensures count { result ≡ length front.new }
        ensures longer { IsPrefix front.old front.new }
        ensures legal { IsLegal W.after W.reply W.opening front.new }
    {
        self.hold(rt).see(front)
    }

    /// Lets a front that has seen so many entries see the history as it is now, as `see` does, and shares those that it had
    /// not seen. `AllocError` where there is no memory for that, or where an entry is shared too often to be counted; the
    /// front is then as it was.
    pub fn entries_behind<R: Wait>(
        &self,
        rt: &R,
        front: &mut Front<W::Call, W::Reply, L>,
        count: usize,
    ) -> Result<Vec<SharedEntry<W::Call, W::Reply>>, AllocError>
        requires { count ≡ length front.old }
        ensures behind { IfOk result (λ es. front.new ≡ front.old ++ es.items) }
        ensures fits { OnOk result (length front.new < 2 ^ 64) }
        ensures legal { OnOk result (IsLegal W.after W.reply W.opening front.new) }
        ensures same_front { OnErr result (front.new ≡ front.old) }
    {
        self.hold(rt).entries_behind(self.alloc, front, count)
    }

    /// The history as it is now, which is legal, and begins with what each of these fronts has seen.
    pub fn history_of<R: Wait>(
        &self,
        rt: &R,
        fronts: &Vec<Front<W::Call, W::Reply, L>>,
    ) -> Front<W::Call, W::Reply, L>
        ensures legal { IsLegal W.after W.reply W.opening result }
        ensures all { AllBegin fronts.now.items result }
    {
        let mut all = self.front(rt);
        for k in 0..fronts.len() {
            all = all.joined(&fronts[k]);
        }
        self.see(rt, &mut all);
        all
    }

    /// Answers a call and gives its receipt.
    ///
    /// A view is taken under the lock, the answer is worked out by the gate with the lock free, and accepted under it.
    /// Where it is stale this is done again; after the third time all of it is done in one section, without the gate.
    /// `NoMemory` or `ForeignPass` of a try is answered at once, and the pass is then as it was: `ForeignPass` where the
    /// pass is not this room's, `NoMemory` where memory was refused.
    ///
    /// With a receipt the pass has seen all of the history up to its entry.
    pub fn call<R: Wait>(
        &self,
        rt: &R,
        desk: &mut CountedPass<W, L>,
        call: &W::Call,
    ) -> Result<Receipt<W::Call, W::Reply>, CallFault>
        ensures stands { IfOk result (λ r. IsReceiptOf W.World (pass_of desk.old) call.now r
            (pass_of desk.new)) }
        ensures same_pass { OnErr result (SamePass (pass_of desk.old) (pass_of desk.new)) }
        ensures seen { IfOk result (λ r. IsSeenIn W.World (front_of desk.old) r (front_of desk.new)) }
        ensures same_front { OnErr result (front_of desk.new ≡ front_of desk.old) }
    {
        for attempt in 0..TRIES {
            match self.attempt(rt, desk, call, attempt) {
                Ok(receipt) => return Ok(receipt),
                Err(CommitFault::Stale) => {}
                Err(CommitFault::ForeignPass) => return Err(CallFault::ForeignPass),
                Err(CommitFault::NoMemory) => return Err(CallFault::NoMemory),
            }
        }
        self.in_one_section(rt, desk, call)
    }

    /// One try of a call: takes a view under the lock, works the answer out by the gate, and hands it in.
    fn attempt<R: Wait>(
        &self,
        rt: &R,
        desk: &mut CountedPass<W, L>,
        call: &W::Call,
        attempt: u32,
    ) -> Result<Receipt<W::Call, W::Reply>, CommitFault>
        ensures stands { IfOk result (λ r. IsReceiptOf W.World (pass_of desk.old) call.now r
            (pass_of desk.new)) }
        ensures same_pass { OnErr result (SamePass (pass_of desk.old) (pass_of desk.new)) }
        ensures seen { IfOk result (λ r. IsSeenIn W.World (front_of desk.old) r (front_of desk.new)) }
        ensures same_front { OnErr result (front_of desk.new ≡ front_of desk.old) }
    {
        let Ok(copy) = W::copy_call(call) else {
            return Err(CommitFault::NoMemory);
        };
        let seen = self.hold(rt).view(call);
        let Ok(view) = seen else {
            return Err(CommitFault::NoMemory);
        };
        let number = desk.pass.desk();
        let Ok(prepared) = prepare(self.alloc, &self.gate, number, attempt, view, copy) else {
            return Err(CommitFault::NoMemory);
        };
        // The lock is free again before a stale answer is dropped.
        let committed = self.hold(rt).commit(desk, prepared, call);
        committed.map_err(|(fault, _)| fault)
    }

    /// Answers a call under the lock, so that nothing can come in between.
    fn in_one_section<R: Wait>(
        &self,
        rt: &R,
        desk: &mut CountedPass<W, L>,
        call: &W::Call,
    ) -> Result<Receipt<W::Call, W::Reply>, CallFault>
        ensures stands { IfOk result (λ r. IsReceiptOf W.World (pass_of desk.old) call.now r
            (pass_of desk.new)) }
        ensures same_pass { OnErr result (SamePass (pass_of desk.old) (pass_of desk.new)) }
        ensures seen { IfOk result (λ r. IsSeenIn W.World (front_of desk.old) r (front_of desk.new)) }
        ensures same_front { OnErr result (front_of desk.new ≡ front_of desk.old) }
    {
        self.hold(rt).locked(self.alloc, desk, call, &Direct)
    }
}

impl<W: Shareable + Drop, L: EngineName, G: Drop> SharedRoom<W, L, G> {
    /// Ends the room. Gives the history, which is legal and begins with what each pass has seen, how many desks were opened,
    /// no fewer than the passes, and whether these passes tell the same story.
    pub fn close(
        self,
        passes: Vec<CountedPass<W, L>>,
    ) -> (History<W::Call, W::Reply>, u32, Result<Settled, Torn>)
        ensures opened { length passes.items ≤ result.1 }
        ensures legal { IsLegal W.after W.reply W.opening (entries result.0) }
        ensures settled { IfOk result.2 (λ s. (d : ℕ)
            → IsSettled d (entries result.0) (passes_in passes.items)) }
        ensures counts { IfOk result.2 (λ s. (s.desks ≡ length passes.items)
            × (s.entries ≡ length (entries result.0))) }
        ensures torn { IfErr result.2 (λ t. ¬
            (IsSettled t.0 (entries result.0) (passes_in passes.items))) }
        ensures least { IfErr result.2 (λ t. (d : ℕ) → d < t.0 →
            IsSettled d (entries result.0) (passes_in passes.items)) }
        ensures all_calls { length passes.items ≡ result.1 →
            calls_in passes.items ≡ length (entries result.0) }
        ensures known { AllBegin (fronts_in passes.items) (entries result.0) }
    {
        let SharedRoom {
            room,
            gate: _,
            alloc: _,
            parts,
        } = self;
        parts.tell();
        room.into_inner().close(passes)
    }
}

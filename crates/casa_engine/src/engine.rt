//! Engines: shared rooms of boards.

ghost use Rattle.std.specs.Prelude.{◌≡◌, List, IfOk, OnOk, OnErr};
ghost use mathlib.Core.List.{IsPrefix};
ghost use Rattle.casa_flight.specs.declared.call.Call.{Call};
ghost use Rattle.casa_flight.specs.declared.reply.Reply.{Reply};
ghost use Rattle.casa_history.specs.declared.entry.Entry.{Entry};
ghost use Rattle.casa_front.specs.Openings.{history_name};
ghost use Rattle.casa_footprint.specs.Stamps.{state_after};
ghost use Rattle.casa_plan.specs.Rooms.{IsSequential};
ghost use Rattle.casa_engine.specs.Delays.{lists_in, IsAuditOf};
ghost use Rattle.casa_engine.specs.Equality.{call_equality, reply_equality};
ghost use Rattle.casa_engine.specs.Ledgers.{IsBlankOf};

use crate::audit::{Audit, audit_shared};
use crate::desk::SharedDesk;
use crate::name::{Blank, EngineName};
use crate::pass::CountedPass;
use crate::shared::{Shareable, SharedRoom};
use casa_commit::Gate;
use casa_flight::{Call, Reply};
use casa_front::Front;
use casa_view::{Board, Store};
use std::alloc::{AllocError, Global};
use std::sync::Wait;
use std::thread::Threads;

/// A room of a board, shared by the desks of many threads. K is the store of its versions, L names its ledger and its
/// history, and G is its gate.
pub type Engine<K, L, G> = SharedRoom<Board<K>, L, G>;

/// The pass of an engine's desk.
pub type DeskPass<K, L> = CountedPass<Board<K>, L>;

/// A desk of an engine, which answers by its pass.
pub type EngineDesk<'a, K, L, G, R> = SharedDesk<'a, Board<K>, L, G, R>;

impl<K: Store> Shareable for Board<K> {
    ghost one_world = { λ v w. tt };

    ghost equal_calls = { call_equality };

    ghost equal_replies = { reply_equality };
}

impl<K: Store, L: EngineName, G: Gate<Board<K>> + Drop> SharedRoom<Board<K>, L, G> {
    /// The engine with this number over an empty board, whose versions this store keeps; no desk is open. `AllocError` where
    /// there is no memory for it.
    pub fn new(
        alloc: Global,
        store: K,
        blank: Blank,
        number: u32,
        gate: G,
    ) -> Result<Engine<K, L, G>, AllocError>
        requires ledger { IsBlankOf L.name L.parts blank.ledger.name blank.ledger.parts }
        requires history { history_name blank.history ≡ L.history }
    {
        let board = Board::new(alloc, store)?;
        let Blank { ledger, history } = blank;
        Ok(SharedRoom::over(alloc, board, ledger, history, number, gate))
    }

    /// How many regulations are open, and the sum of the delays of the flights that they govern, after some history of a
    /// single thread. `AllocError` where there is no memory for it.
    ///
    /// It is the engine's own history as it is then, which a front of its own sees: `audit_seen` says so of any front.
    pub fn audit<R: Threads + Wait + Sync>(&self, rt: &R) -> Result<Audit, AllocError>
        ensures { IfOk result (λ audit. (history : List (Entry Call Reply)) × IsSequential history
            × IsAuditOf (lists_in (state_after history)) audit) }
    {
        let mut front = self.front(rt);
        self.audit_seen(rt, &mut front)
    }

    /// The same after the engine's own history as it is then, which the front sees from then on, and which begins with what
    /// it had seen. So who looks after a reply sees that reply's call. At `AllocError` the front is as it was.
    ///
    /// The lists are shared under the lock and their delays added without it, by several threads.
    pub fn audit_seen<R: Threads + Wait + Sync>(
        &self,
        rt: &R,
        front: &mut Front<Call, Reply, L>,
    ) -> Result<Audit, AllocError>
        ensures audit { IfOk result (IsAuditOf (lists_in (state_after front.new))) }
        ensures sequential { OnOk result (IsSequential front.new) }
        ensures longer { OnOk result (IsPrefix front.old front.new) }
        ensures same_front { OnErr result (front.new ≡ front.old) }
    {
        let alloc = self.alloc;
        let mut now = front.again();
        let shared = self.hold(rt).lists_seen(alloc, &mut now);
        let lists = shared?;
        let audit = audit_shared(rt, alloc, lists.as_slice())?;
        *front = now;
        Ok(audit)
    }
}

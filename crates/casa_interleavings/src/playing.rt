//! Playing a list of events on a board.

ghost use Rattle.std.specs.Prelude.{◌≡◌, [], ◌∷◌, ◌++◌, IfOk};
ghost use Rattle.casa_history.specs.Entries.{entries};
ghost use Rattle.casa_footprint.specs.Stamps.{state_after};
ghost use Rattle.casa_plan.specs.Rooms.{IsSequential, IsBoardAfter, IsServedAs};
ghost use Rattle.casa_interleavings.specs.Scenes.{IsRun};
ghost use Rattle.casa_interleavings.specs.Board.{sequential_reply, HasSameStamps};
ghost use Rattle.casa_interleavings.specs.Runs.{run_events, run_history, run_world, run_outcomes};

use crate::event::{Event, Outcome};
use crate::run::{Run, begin, go_on};
use casa_commit::World;
use casa_flight::{Assigned, Call, RegId, Reply};
use casa_history::History;
use casa_plan::{board_of, competitor_of};
use casa_view::{Board, Store};
use std::alloc::{AllocError, Global};

impl<K: Store> Run<Board<K>> {
    /// A run of no event, on the empty board over this store. `AllocError` where there is no memory for it.
    pub fn open(alloc: Global, store: K) -> Result<Run<Board<K>>, AllocError>
        ensures events { IfOk result (λ run. run_events run ≡ []) }
        ensures run { IfOk result (λ run. IsRun sequential_reply HasSameStamps (run_events run)
            (run_history run) (run_outcomes run)) }
        ensures stands { IfOk result (λ run. IsBoardAfter (run_history run)
            (⟦<Board<K> as World>⟧.state (run_world run))) }
    {
        let board = Board::new(alloc, store)?;
        let begun = begin(alloc, board)?;
        Ok(begun)
    }

    /// The run with one event more. Workers are numbered from 0 to 1,023; an event of another worker, or out of its place,
    /// changes nothing. `AllocError` where there is no memory for it, and then the run is given up.
    pub fn next(self, alloc: Global, event: &Event<Call>) -> Result<Run<Board<K>>, AllocError>
        ensures events { IfOk result (λ run. run_events run ≡ run_events self ++ event.now ∷ []) }
        ensures run { IfOk result (λ run. IsRun sequential_reply HasSameStamps (run_events run)
            (run_history run) (run_outcomes run)) }
        ensures stands { IfOk result (λ run. IsBoardAfter (run_history run)
            (⟦<Board<K> as World>⟧.state (run_world run))) }
    {
        let next = go_on(alloc, self, event)?;
        Ok(next)
    }

    /// The history: one of a single thread.
    pub fn history(&self) -> &History<Call, Reply>
        ensures same { entries result.now ≡ run_history self.now }
        ensures sequential { IsSequential (entries result.now) }
    {
        let _board = board_of(&self.room);
        self.room.history()
    }

    /// The board, as it stands after the history.
    pub fn state(&self) -> &Board<K>
        ensures same { result.now ≡ run_world self.now }
        ensures stands { IsBoardAfter (run_history self.now)
            (⟦<Board<K> as World>⟧.state result.now) }
    {
        board_of(&self.room)
    }

    /// Number `n` of the flights that compete for the slots of a regulation after the history, in their order, with its
    /// place: the slot that first planned, first served gives it around the issued flights, or that it is over. `None` from
    /// the number of competitors on, and where the regulation is not open.
    pub fn competitor(&self, id: &RegId, n: usize) -> Option<Assigned>
        ensures { IsServedAs (state_after (run_history self.now)) id.now n result }
    {
        competitor_of(&self.room, id, n)
    }

    /// The outcome of the worker's last commit; `None` where it made none.
    pub fn done_of(&self, worker: u32) -> Option<Outcome>
        ensures { result ≡ run_outcomes self.now worker }
    {
        match self.desks.get(worker as usize) {
            Some(desk) => desk.outcome,
            None => None,
        }
    }
}

/// Plays the events, one after the other, from the empty board over this store. Workers are numbered from 0 to 1,023; an
/// event of another worker, or out of its place, changes nothing. `AllocError` where there is no memory for an event.
///
/// What every run is, the law `runs_are_of_one_thread` says, and why a commit is refused, `refused_commits_have_causes`.
pub fn play<K: Store>(
    alloc: Global,
    store: K,
    events: &[Event<Call>],
) -> Result<Run<Board<K>>, AllocError>
    ensures run { IfOk result (λ run. IsRun sequential_reply HasSameStamps events.now
        (run_history run) (run_outcomes run)) }
    ensures stands { IfOk result (λ run. IsBoardAfter (run_history run)
        (⟦<Board<K> as World>⟧.state (run_world run))) }
{
    let mut run = Run::open(alloc, store)?;
    for event in events {
        run = run.next(alloc, event)?;
    }
    Ok(run)
}

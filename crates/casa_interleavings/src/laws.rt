//! Laws of the definitions, each on a function that does nothing: what every run is.

ghost use Rattle.std.specs.Prelude.{◌≡◌, ◌<◌, ℕ, List, Option};
ghost use Rattle.casa_flight.specs.declared.call.Call.{Call};
ghost use Rattle.casa_flight.specs.declared.reply.Reply.{Reply};
ghost use Rattle.casa_history.specs.declared.entry.Entry.{Entry};
ghost use Rattle.casa_plan.specs.Rooms.{IsSequential};
ghost use Rattle.casa_interleavings.specs.declared.event.Event.{Event};
ghost use Rattle.casa_interleavings.specs.declared.event.Outcome.{Outcome};
ghost use Rattle.casa_interleavings.specs.Board.{sequential_reply, HasSameStamps, RefusalsHaveCauses};
ghost use Rattle.casa_interleavings.specs.Causes.{AreCommitted, AreAtTheirPositions, AreOfRefusals};
ghost use Rattle.casa_interleavings.specs.Scenes.{Scene, nothing, most_workers, accepted_scene, turn, Leads, IsRun};

/// The history of every run is one of a single thread. Each of its entries stands there by one commit. Where a worker was
/// told a position, the entry there is its own; and where it was told that it is refused, one of its commits was.
pub fn runs_are_of_one_thread()
    ensures sequential { (events : List (Event Call)) (history : List (Entry Call Reply))
        (outcomes : ℕ → Option Outcome) →
        IsRun sequential_reply HasSameStamps events history outcomes → IsSequential history }
    ensures committed { (events : List (Event Call)) (history : List (Entry Call Reply))
        (outcomes : ℕ → Option Outcome) →
        IsRun sequential_reply HasSameStamps events history outcomes →
        AreCommitted sequential_reply HasSameStamps events history }
    ensures accepted { (events : List (Event Call)) (history : List (Entry Call Reply))
        (outcomes : ℕ → Option Outcome) →
        IsRun sequential_reply HasSameStamps events history outcomes →
        AreAtTheirPositions history outcomes }
    ensures refused { (events : List (Event Call)) (history : List (Entry Call Reply))
        (outcomes : ℕ → Option Outcome) →
        IsRun sequential_reply HasSameStamps events history outcomes →
        AreOfRefusals sequential_reply HasSameStamps events outcomes }
{}

/// Each commit of a list of events that is refused has its cause: of the items of that very view not none was written since.
pub fn refused_commits_have_causes()
    ensures { (events : List (Event Call)) → RefusalsHaveCauses events }
{}

/// A list of events leads from a scene to one scene alone, so that one run comes of it.
pub fn events_lead_to_one_scene()
    ensures { (events : List (Event Call)) (m n k : Scene Call Reply) →
        Leads sequential_reply HasSameStamps events m n
        → Leads sequential_reply HasSameStamps events m k → n ≡ k }
{}

/// A worker that holds nothing, and reads, computes and commits a call with no event between, is accepted: the call stands
/// behind the history with the reply of the sequential allocator, the worker is told its position, and nothing else changes.
pub fn turns_are_accepted()
    ensures { (w : ℕ) (call : Call) (m n : Scene Call Reply) → w < most_workers
        → (m.workers w).hand ≡ nothing → Leads sequential_reply HasSameStamps (turn w call) m n
        → n ≡ accepted_scene sequential_reply w call m.history m }
{}

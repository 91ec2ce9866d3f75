//! A law of the definitions, on a function that does nothing.

ghost use Rattle.std.specs.Prelude.{List};
ghost use Rattle.casa_flight.specs.declared.call.Call.{Call};
ghost use Rattle.casa_flight.specs.declared.reply.Reply.{Reply};
ghost use Rattle.casa_history.specs.declared.entry.Entry.{Entry};
ghost use Rattle.casa_commit.specs.Legal.{IsLegal};
ghost use Rattle.casa_plan.specs.Rooms.{IsSequential};

use casa_commit::World;
use casa_view::{Board, Store};

/// A history that is legal by an engine's world is one of a single thread: each reply is what the sequential allocator
/// replies after the entries before it.
pub fn legal_histories_are_sequential<K: Store>()
    ensures { (es : List (Entry Call Reply)) →
        IsLegal ⟦<Board<K> as World>⟧.after ⟦<Board<K> as World>⟧.reply
        ⟦<Board<K> as World>⟧.opening es →
        IsSequential es }
{}

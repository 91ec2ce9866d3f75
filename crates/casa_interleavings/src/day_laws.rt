//! Laws of the definitions, each on a function that does nothing.

ghost use Rattle.std.specs.Prelude.{◌≡◌, ◌≤◌, ℕ, List, Result, length, take};
ghost use Rattle.casa_flight.specs.declared.call.Call.{Call};
ghost use Rattle.casa_flight.specs.declared.reply.Reply.{Reply};
ghost use Rattle.casa_history.specs.declared.entry.Entry.{Entry};
ghost use Rattle.casa_tape.specs.Lines.{whole_lines};
ghost use Rattle.casa_plan.specs.Rooms.{IsSequential};
ghost use Rattle.casa_day.specs.Scripts.{answers_in, Say};
ghost use Rattle.casa_day.specs.Journals.{Keeps};

use casa_day::Script;
use casa_flight::{Call, Reply};

/// Who reads a file that keeps a history of one thread, and answers its calls again one after the other, has the calls up to
/// each one that was told, at their positions, with their replies.
pub fn told_replies_come_back<S: Script<Call, Reply>>()
    ensures { (history read : List (Entry Call Reply)) (least : ℕ) (file : List ℕ) → IsSequential history
        → IsSequential read → Keeps S.Script history least file
        → Say S.Script 1 (whole_lines file) read
        → (count : ℕ) × (least ≤ count) × (count ≤ length history)
        × (answers_in read ≡ take count (answers_in history)) }
{}

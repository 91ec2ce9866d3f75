//! What definitions mean. The functions do nothing: the contract of each is the law.

ghost use Rattle.std.specs.Prelude.{◌≡◌, ◌≤◌, ◌∷◌, List, ℕ, length, take};
ghost use Rattle.casa_history.specs.declared.entry.Entry.{Entry};
ghost use Rattle.casa_commit.specs.Legal.{IsLegal};
ghost use Rattle.casa_tape.specs.Lines.{whole_lines};
ghost use Rattle.casa_day.specs.Scripts.{answers_in, calls_in, Say};
ghost use Rattle.casa_day.specs.Journals.{Keeps};
ghost use Rattle.casa_day.specs.Lives.{AreLived, Life, NothingIsLost};

use crate::script::Script;
use casa_commit::World;

/// Who reads a file that keeps a history as lines of a legal history, reads the first calls and replies of it, and so many
/// at least.
pub fn what_is_kept_is_read<W: World, S: Script<W::Call, W::Reply>>()
    ensures { (history read : List (Entry W.Call W.Reply)) (least : ℕ) (file : List ℕ)
        → IsLegal W.after W.reply W.opening history → IsLegal W.after W.reply W.opening read
        → Keeps S.Script history least file → Say S.Script 1 (whole_lines file) read
        → (count : ℕ) × (least ≤ count) × (count ≤ length history)
        × (answers_in read ≡ take count (answers_in history)) }
{}

/// The calls of a legal history have one list of replies: to the first of the calls come the first of the replies.
pub fn replies_follow_from_calls<W: World>()
    ensures { (es fs : List (Entry W.Call W.Reply)) (count : ℕ)
        → IsLegal W.after W.reply W.opening es → IsLegal W.after W.reply W.opening fs
        → calls_in fs ≡ take count (calls_in es)
        → answers_in fs ≡ take count (answers_in es) }
{}

/// However often the program is cut short, in one life or more: the file that is left at the end says one legal history, which
/// has each call whose reply was told in any life, and all before it, with their replies, at their positions.
pub fn nothing_told_is_lost<W: World, S: Script<W::Call, W::Reply>>()
    ensures { (found left : List ℕ) (life : Life W.Call W.Reply) (lives : List (Life W.Call W.Reply))
        → AreLived S.Script W.World found (life ∷ lives) left
        → NothingIsLost S.Script W.World left (life ∷ lives) }
{}

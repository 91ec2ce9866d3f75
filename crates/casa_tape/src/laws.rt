//! What the definition of whole lines means. The function does nothing: its contract is the law.

ghost use Rattle.std.specs.Prelude.{◌≡◌, ◌++◌, List, ℕ};
ghost use Rattle.casa_tape.specs.Lines.{journal_of, whole_lines, AreLines, HasNoLine};

/// The whole lines of bytes are the one list of lines with which these begin, and behind which no line begins.
pub fn whole_lines_are()
    ensures there { (bytes : List ℕ) → AreLines (whole_lines bytes)
        × ((end : List ℕ) × (bytes ≡ journal_of (whole_lines bytes) ++ end) × HasNoLine end) }
    ensures alone { (bytes end : List ℕ) (lines : List (List ℕ)) → AreLines lines
        → bytes ≡ journal_of lines ++ end → HasNoLine end → lines ≡ whole_lines bytes }
{}

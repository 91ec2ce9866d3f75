ghost use Rattle.std.specs.Prelude.{◌≡◌, ◌↔◌, ◌+◌, ◌++◌, ℕ, List, length};
ghost use Rattle.casa_history.specs.declared.entry.Entry.{Entry};
ghost use Rattle.casa_commit.specs.Legal.{replay};

use casa_commit::World;

/// A world whose marks follow the stamps of its items.
pub trait Stamped: World {
    /// What the call reads after the first history has the same stamps after the second.
    ghost is_unmoved: { List (Entry Self.Call Self.Reply) → Self.Call → List (Entry Self.Call Self.Reply) → Type 0 };

    /// The view shows what the call reads after the history, with its stamps.
    ghost is_view_of: { List (Entry Self.Call Self.Reply) → Self.Call → Self.View → Type 0 };

    /// Where a stamp of the view is the present one, so is its mark.
    ghost is_tied: { Self.View → Self → Type 0 };

    /// A view whose marks are the present ones shows what the call reads after the history.
    ghost present_view: { (w : Self) (c : Self.Call) (v : Self.View) (es : List (Entry Self.Call Self.Reply)) →
        Self.state w ≡ replay Self.after Self.opening es →
        Self.is_for v c → Self.is_of v w → Self.is_current w v → Self.shows (Self.state w) v → is_view_of es c v };

    /// A view whose marks are the present ones is tied.
    ghost present_tied: { (w : Self) (v : Self.View) → Self.is_of v w → Self.is_current w v → is_tied v w };

    /// A view stays tied to a world that differs in spare memory.
    ghost alike_tied: { (w w' : Self) (v : Self.View) → Self.same_but_capacity w w' → is_tied v w → is_tied v w' };

    /// A view stays tied when the next entry's change is applied, since the number of this entry is new.
    ghost applied_tied: { (w : Self) (n : ℕ) (d : Self.Change) (w' : Self) (c : Self.Call) (v : Self.View)
        (before later : List (Entry Self.Call Self.Reply)) →
        Self.state w ≡ replay Self.after Self.opening (before ++ later) → n ≡ length (before ++ later) + 1 →
        Self.is_of v w → is_view_of before c v → Self.applied w n d w' → is_tied v w → is_tied v w' };

    /// The marks of a view are the present ones exactly where the stamps are.
    ghost current_unmoved: { (w : Self) (c : Self.Call) (v : Self.View) (before later : List (Entry Self.Call Self.Reply)) →
        Self.state w ≡ replay Self.after Self.opening (before ++ later) →
        Self.is_of v w → is_tied v w → is_view_of before c v →
        (Self.is_current w v ↔ is_unmoved before c (before ++ later)) };
}

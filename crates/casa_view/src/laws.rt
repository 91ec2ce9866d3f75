//! Laws of the definitions, each on a function that does nothing: what the contracts of this crate mean.

ghost use Rattle.std.specs.Prelude.{◌≡◌};
ghost use Rattle.casa_filing.specs.Text.{Text, at_name};
ghost use Rattle.casa_flight.specs.Good.{AreInOrder};
ghost use Rattle.casa_view.specs.declared.view.View.{View};
ghost use Rattle.casa_view.specs.Shown.{row_shown, rows_shown, HasRowsInOrder};

use casa_table::Version;

/// The rows of a view, as `rows` and `nth_row` give them, are in the order of their keys, each once; and they are those
/// that `row` gives, key by key.
pub fn rows_are_those_shown<V: Version>()
    ensures ordered { (v : View V) → HasRowsInOrder v → AreInOrder (rows_shown V.item_of v) }
    ensures shown { (v : View V) (key : Text) → HasRowsInOrder v →
        at_name (rows_shown V.item_of v) key ≡ row_shown V.item_of v key }
{}

//! The rows of a view, in the order of their keys.

ghost use Rattle.std.specs.Prelude.{◌≡◌, ◌∷◌, [], MatchOption};
ghost use Rattle.std.specs.Iterator.{YieldsFirstBy, item_count};
ghost use Rattle.std.specs.List.{slice_get};
ghost use Rattle.std.specs.Map.{values_of};
ghost use Rattle.std.specs.Option.{option_copied};
ghost use Rattle.casa_table.specs.Flights.{row_named, rows_named};
ghost use Rattle.casa_view.specs.Shown.{rows_in, rows_shown, HasRowsInOrder};

use crate::view::{Part, View};
use casa_flight::{Key, OfFlight, Row};
use casa_named::Overlaid;
use casa_table::{Index, Version, row_in};
use std::marker::Model;

impl<Kind, V: Version, I: Index<Kind, V>> Part<Kind, V, I> {
    /// The names that are held, in order, each with its version if it has one.
    fn held(&self) -> Overlaid<'_, Kind, V>
        ensures { rows_named V.item_of result ≡ rows_in V.item_of self.now }
    {
        match self {
            Part::All(shared) => {
                let (values, changes) = shared.layers();
                Overlaid::over(values, changes)
            }
            Part::Named(noted) => Overlaid::alone(noted),
        }
    }
}

/// The row of a version, if there is one.
pub(crate) fn row_of<'a, V: Version>(version: Option<&'a V>) -> Option<&'a Row>
    ensures { option_copied result ≡ row_named V.item_of (option_copied version.entry) }
{
    row_in(version?.item())
}

/// The rows of a view, in the order of their keys.
///
/// Contracts see those that are left.
#[derive(Drop)]
pub struct Rows<'a, V: Version> {
    held: Overlaid<'a, OfFlight, V>,
}

impl<'a, V: Version> Model for Rows<'a, V> {
    ghost use Rattle.std.specs.Prelude.{List};
    ghost use Rattle.casa_flight.specs.declared.row.Row.{Row};
    ghost use Rattle.casa_filing.specs.Text.{Text};
    ghost use Rattle.casa_table.specs.Flights.{rows_named};

    ghost Value = { List (Text × Row) };

    ghost view = { λ r. rows_named V.item_of r.held };
}

impl<'a, V: Version> Rows<'a, V> {
    /// Takes the first row that is left.
    fn take(&mut self) -> Option<(&'a Key, &'a Row)>
        ensures { MatchOption result ((self.old ≡ []) × (self.new ≡ []))
            (λ item. self.old ≡ (item.0.now, item.1.now) ∷ self.new) }
    {
        while let Some((key, version)) = self.held.next() {
            if let Some(row) = row_of(version) {
                return Some((key, row));
            }
        }
        None
    }
}

impl<'a, V: Version> Iterator for Rows<'a, V> {
    type Item = (&'a Key, &'a Row);

    ghost next_gives = { YieldsFirstBy (λ item. (item.0.now, item.1.now)) (λ rest. rest) };

    ghost remaining = { item_count (λ rest. rest) };

    fn next(&mut self) -> Option<(&'a Key, &'a Row)> {
        self.take()
    }
}

impl<V: Version> View<V> {
    /// The rows that the view holds and that are there, in the order of their keys.
    pub fn rows(&self) -> Rows<'_, V>
        ensures rows { result ≡ rows_shown V.item_of self.now }
        ensures ordered { HasRowsInOrder self.now }
    {
        self.rows.in_order();
        Rows {
            held: self.rows.held(),
        }
    }

    /// The row with this number among the rows of the view, which are numbered from 0 in the order of their keys. It goes
    /// through those before it.
    pub fn nth_row(&self, number: usize) -> Option<&Row>
        ensures row { option_copied result
            ≡ slice_get (values_of (rows_shown V.item_of self.now)) number }
        ensures ordered { HasRowsInOrder self.now }
    {
        let (_, row) = self.rows().nth(number)?;
        Some(row)
    }
}

//! What is asked of the rows of a view at once: which flights are to be issued, and which are subject to a regulation.

ghost use Rattle.std.specs.Prelude.{◌≡◌, true, IfOk};
ghost use Rattle.casa_flight.specs.declared.row.Row.{Row};
ghost use Rattle.casa_flight.specs.Steps.{flights_over};
ghost use Rattle.casa_footprint.specs.Finding.{due_keys};
ghost use Rattle.casa_table.specs.Asking.{HaveRows, comps_of};
ghost use Rattle.casa_view.specs.Shown.{rows_shown, HasRowsInOrder};

use crate::view::{Part, View};
use casa_flight::{Key, Regulation};
use casa_table::{FlightOver, Version, due_named, flights_over_named};
use casa_time::Moment;
use std::alloc::{AllocError, Global};

impl<V: Version> View<V> {
    /// The keys of the flights that are governed, due at this time and not issued, in their order, among the rows that the
    /// view holds. Of a view of all rows it looks at those alone that wait and are due, or that changed of late.
    /// `AllocError` where there is no memory for the keys.
    pub fn due(&self, alloc: Global, at: Moment) -> Result<Vec<Key>, AllocError>
        ensures due { IfOk result (λ keys. keys.items
            ≡ due_keys at (rows_shown V.item_of self.now)) }
        ensures ordered { HasRowsInOrder self.now }
    {
        self.rows.in_order();
        match &self.rows {
            Part::All(shared) => shared.due(alloc, at),
            Part::Named(rows) => due_named(alloc, rows, at),
        }
    }

    /// The flights that are subject to a regulation, by time over and key, with their rows, among the rows that the view
    /// holds. Of a view of all rows it looks at those alone that pass the location in the regulation's span,
    /// or that changed of late. `AllocError` where there is no memory for the flights.
    pub fn flights_over(
        &self,
        alloc: Global,
        regulation: &Regulation,
    ) -> Result<Vec<FlightOver<'_>>, AllocError>
        ensures over { IfOk result (λ flights. comps_of flights.items ≡
            flights_over (λ (row : Row). true) regulation.now (rows_shown V.item_of self.now)) }
        ensures rows { IfOk result (λ flights.
            HaveRows (rows_shown V.item_of self.now) flights.items) }
        ensures ordered { HasRowsInOrder self.now }
    {
        self.rows.in_order();
        match &self.rows {
            Part::All(shared) => shared.flights_over(alloc, regulation),
            Part::Named(rows) => flights_over_named(alloc, rows, regulation),
        }
    }
}

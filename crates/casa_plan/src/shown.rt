//! What a view shows to a planner, alone or with a change laid over it.

ghost use Rattle.std.specs.Prelude.{◌≡◌, [], true, IfOk, unwrap_or};
ghost use Rattle.std.specs.Option.{option_copied};
ghost use Rattle.casa_flight.specs.declared.row.Row.{Row};
ghost use Rattle.casa_flight.specs.Good.{AreInOrder};
ghost use Rattle.casa_flight.specs.Steps.{flights_over};
ghost use Rattle.casa_filing.specs.Text.{at_name};
ghost use Rattle.casa_footprint.specs.Finding.{by_id, crossed, due_keys};
ghost use Rattle.casa_table.specs.Asking.{HaveRows, comps_of};
ghost use Rattle.casa_view.specs.Shown.{HasRowsInOrder};
ghost use Rattle.casa_plan_spec.specs.Sight.{clock_in, regulations_in, row_in, list_in, list_with};
ghost use Rattle.casa_plan.specs.Seen.{sight};

use casa_flight::{Key, Plan, RegId, Regulation, Row};
use casa_list::{SharedList, SlotList};
use casa_named::Few;
use casa_time::Moment;
use casa_view::{Catalogue, Change, Crossings, FlightOver, Version, View};
use std::alloc::{AllocError, Global};
use std::marker::Model;

/// What the view of a call shows to its planner.
///
/// Contracts see the `Sight`: what is shown, and no versions.
pub(crate) struct Shown<'a, V: Version> {
    view: &'a View<V>,
}

impl<'a, V: Version> Model for Shown<'a, V> {
    ghost use Rattle.casa_view.specs.Shown.{HasRowsInOrder};
    ghost use Rattle.casa_plan_spec.specs.Sight.{Sight};
    ghost use Rattle.casa_plan.specs.Seen.{sight};

    ghost Value = { Sight };

    ghost view = { λ s. sight V.item_of s.view.now };

    ghost invariant = { λ s. HasRowsInOrder s.view.now };
}

impl<'a, V: Version> Drop for Shown<'a, V> {
    fn drop(self) {
        let Shown { view: _ } = self;
    }
}

impl<'a, V: Version> Shown<'a, V> {
    /// What a view shows.
    pub(crate) fn by(view: &'a View<V>) -> Shown<'a, V>
        ensures shown { result ≡ sight V.item_of view.now }
        ensures ordered { HasRowsInOrder view.now }
    {
        let _rows = view.rows();
        Shown { view }
    }

    /// The clock: midnight where the view does not hold it.
    pub(crate) fn clock(&self) -> Moment
        ensures { result ≡ clock_in self.now }
    {
        match self.view.clock() {
            Some(clock) => clock,
            None => Moment::new(0).unwrap(),
        }
    }

    /// The catalogue of the open regulations, if the view holds it.
    pub(crate) fn catalogue(&self) -> Option<&Catalogue>
        ensures { unwrap_or (option_copied result) [] ≡ regulations_in self.now }
    {
        self.view.catalogue()
    }

    /// The open regulations: none where the view does not hold the catalogue.
    pub(crate) fn regulations(&self) -> &[Regulation]
        ensures { result.now ≡ regulations_in self.now }
    {
        match self.view.catalogue() {
            Some(catalogue) => catalogue.as_slice(),
            None => &[],
        }
    }

    /// The open regulation with this identifier, as the catalogue has it.
    pub(crate) fn regulation(&self, id: &RegId) -> Option<&Regulation>
        ensures { option_copied result ≡ at_name (by_id (regulations_in self.now)) id.now }
    {
        self.view.catalogue()?.get(id)
    }

    /// The regulations to which a flight with this plan is subject, by identifiers, with the plan's time over. `AllocError`
    /// where there is no memory for them.
    pub(crate) fn crossed(&self, alloc: Global, plan: &Plan) -> Result<Crossings, AllocError>
        ensures { IfOk result (λ found. found ≡ crossed plan.now (regulations_in self.now)) }
    {
        match self.view.catalogue_seen() {
            Some(catalogue) => catalogue.crossed(alloc, plan),
            None => Ok(Crossings::new(alloc)),
        }
    }

    /// The row of the flight with this key, if it is shown.
    pub(crate) fn row(&self, key: &Key) -> Option<&Row>
        ensures { option_copied result ≡ row_in self.now key.now }
    {
        self.view.row(key)
    }

    /// The list of the regulation with this identifier, if it is shown.
    pub(crate) fn list(&self, id: &RegId) -> Option<&SlotList>
        ensures { option_copied result ≡ list_in self.now id.now }
    {
        self.view.list(id)
    }

    /// The same list as it is shared, so that a change may have it too.
    pub(crate) fn shared_list(&self, id: &RegId) -> Option<&SharedList>
        ensures { option_copied result ≡ list_in self.now id.now }
    {
        self.view.shared_list(id)
    }

    /// The list of a regulation as it is written, or else as it is shown.
    pub(crate) fn list_with<'b>(&'b self, draft: &'b Change, id: &RegId) -> Option<&'b SlotList>
        ensures { option_copied result ≡ list_with self.now draft.now id.now }
    {
        match draft.lists().get(id) {
            Some(list) => Some(list.as_ref()?.list()),
            None => self.list(id),
        }
    }

    /// The keys of the flights that are governed, due at this time and not issued, in their order. `AllocError` where there
    /// is no memory for them.
    pub(crate) fn due(&self, alloc: Global, at: Moment) -> Result<Vec<Key>, AllocError>
        ensures { IfOk result (λ keys. keys.items ≡ due_keys at self.now.rows) }
    {
        self.view.due(alloc, at)
    }

    /// The flights that are subject to a regulation, by time over and key, with their rows. `AllocError` where there is no
    /// memory for them.
    pub(crate) fn flights_over(
        &self,
        alloc: Global,
        regulation: &Regulation,
    ) -> Result<Vec<FlightOver<'a>>, AllocError>
        ensures over { IfOk result (λ flights. comps_of flights.items ≡
            flights_over (λ (row : Row). true) regulation.now self.now.rows) }
        ensures rows { IfOk result (λ flights. HaveRows self.now.rows flights.items) }
        ensures ordered { AreInOrder self.now.rows }
    {
        self.view.flights_over(alloc, regulation)
    }
}

/// The row of a flight as it is written, or else this one, as which it is shown.
pub(crate) fn row_with<'a>(draft: &'a Change, key: &Key, shown: Option<&'a Row>) -> Option<&'a Row>
    ensures { option_copied result
        ≡ unwrap_or (at_name draft.now.rows key.now) (option_copied shown.entry) }
{
    match draft.rows().get(key) {
        Some(row) => row.as_ref(),
        None => shown,
    }
}

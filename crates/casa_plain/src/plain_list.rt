//! The slot allocation list of one regulation.

ghost use Rattle.std.specs.Prelude.{◌≡◌, ◌-◌, ◌≤◌, IfOk, OnOk, length};
ghost use Rattle.std.specs.List.{filter_map};
ghost use Rattle.std.specs.Option.{option_map_or};
ghost use Rattle.casa_time.specs.Moment.{last_moment};
ghost use Rattle.casa_grid.specs.Slots.{slots, window_of};
ghost use Rattle.casa_flight.specs.declared.row.Stance.{Stance};
ghost use Rattle.casa_filing.specs.Text.{Text};
ghost use Rattle.casa_flight.specs.Listing.{listing, filter_map_values, stance_in, competitor, issued_cto, sorted_by, is_before};
ghost use Rattle.casa_flight.specs.Listing.{places, place_of, stance_of, cto_as, cto_of, eto_as, delay_in};
ghost use Rattle.casa_flight.specs.Entry.{with_competitor};

use crate::assignment::{assignment, place_among};
use casa_flight::{Assigned, Comp, Key, Measure, RegId, Row, Stance, sort_comps};
use casa_grid::{Grid, Place};
use casa_time::Moment;
use std::alloc::{AllocError, Global};
use std::collections::BTreeMap;
use std::marker::Model;

/// A regulation's slots, and how each flight that is subject to it stands there.
///
/// It is made anew each time that one is asked for, and keeps no place: these are worked out competitor by competitor.
#[derive(Drop)]
pub struct PlainList {
    grid: Grid,
    flights: BTreeMap<Key, Stance>,
}

impl Model for PlainList {
    ghost use Rattle.casa_flight.specs.Listing.{Listing};

    ghost Value = { Listing };

    ghost view = { λ l. record { profile = l.grid; flights = l.flights.entries } };
}

/// How each of these flights stands that is subject to the regulation.
fn stances(
    alloc: Global,
    rows: &BTreeMap<Key, Row>,
    id: RegId,
    measure: &Measure,
) -> Result<BTreeMap<Key, Stance>, AllocError>
    ensures { IfOk result (λ flights. flights.entries
        ≡ filter_map_values (stance_in id measure.now) rows.now.entries) }
{
    let mut flights = BTreeMap::new(alloc);
    for (key, row) in rows.iter() {
        if let Some(stance) = row.stance_in(id, measure) {
            flights.insert(*key, stance)?;
        }
    }
    Ok(flights)
}

/// The competitors among these flights, by key.
fn competing(alloc: Global, flights: &BTreeMap<Key, Stance>) -> Result<Vec<Comp>, AllocError>
    ensures { IfOk result (λ comps. comps.items ≡
        filter_map (λ (e : Text × Stance). competitor e.0 e.1) flights.now.entries) }
{
    flights
        .iter()
        .filter_map(|(key, stance)| stance.competitor(*key))
        .collect(alloc)
}

/// The competitors among these flights, in their order.
fn competitors(alloc: Global, flights: &BTreeMap<Key, Stance>) -> Result<Vec<Comp>, AllocError>
    ensures { IfOk result (λ comps. comps.items ≡ sorted_by is_before
        (filter_map (λ (e : Text × Stance). competitor e.0 e.1) flights.now.entries)) }
{
    let mut comps = competing(alloc, flights)?;
    sort_comps(&mut comps);
    Ok(comps)
}

/// The times of the issued flights among these.
fn issued_times(alloc: Global, flights: &BTreeMap<Key, Stance>) -> Result<Vec<Moment>, AllocError>
    ensures { IfOk result (λ times. times.items ≡
        filter_map (λ (e : Text × Stance). issued_cto e.1) flights.now.entries) }
{
    flights
        .iter()
        .filter_map(|(_, stance)| stance.issued_cto())
        .collect(alloc)
}

impl PlainList {
    /// The list of a regulation, among these flights.
    pub fn of(
        alloc: Global,
        rows: &BTreeMap<Key, Row>,
        id: RegId,
        measure: &Measure,
    ) -> Result<PlainList, AllocError>
        ensures { IfOk result (λ list. list ≡ listing rows.now.entries id measure.now) }
    {
        let grid = Grid::of(alloc, &measure.profile)?;
        let flights = stances(alloc, rows, id, measure)?;
        Ok(PlainList { grid, flights })
    }

    /// How many slots the list has.
    pub fn len(&self) -> usize
        ensures { result ≡ length (slots self.now.profile) }
    {
        self.grid.len()
    }

    /// The slot whose window holds this moment.
    pub fn window_of(&self, at: Moment) -> Option<usize>
        ensures { result ≡ window_of (slots self.now.profile) at }
    {
        self.grid.window_of(at)
    }

    /// How each flight stands.
    pub fn flights(&self) -> &BTreeMap<Key, Stance>
        ensures { result.now.entries ≡ self.now.flights }
    {
        &self.flights
    }

    /// Makes the flight a competitor.
    pub fn add_competitor(&mut self, key: Key, eto: Moment) -> Result<(), AllocError>
        ensures { OnOk result (self.new ≡ with_competitor self.old key eto) }
    {
        self.flights.insert(key, Stance::Competing { eto })?;
        Ok(())
    }

    /// The places of the competitors.
    fn places(&self, alloc: Global) -> Result<Vec<Assigned>, AllocError>
        ensures { IfOk result (λ all. all.items ≡ places self.now) }
    {
        let issued = issued_times(alloc, &self.flights)?;
        let comps = competitors(alloc, &self.flights)?;
        assignment(alloc, &self.grid, issued.as_slice(), comps.as_slice())
    }

    /// The flight's place.
    pub fn place_of(&self, alloc: Global, key: Key) -> Result<Place, AllocError>
        ensures { IfOk result (λ place. place ≡ place_of self.now key) }
    {
        let all = self.places(alloc)?;
        Ok(place_among(all.as_slice(), key))
    }

    /// How the flight stands, if it is subject to the regulation.
    fn stance_of(&self, key: Key) -> Option<Stance>
        ensures { result ≡ stance_of self.now key }
    {
        self.flights.get(&key).copied()
    }

    /// The flight's estimated time over, in seconds; 0 where it is not subject to the regulation.
    pub fn eto_of(&self, key: Key) -> u32
        ensures value { result ≡ option_map_or eto_as (stance_of self.now key) 0 }
        ensures in_range { result ≤ last_moment }
    {
        match self.stance_of(key) {
            Some(stance) => stance.eto().secs(),
            None => 0,
        }
    }

    /// The calculated time over of the flight where it stands so.
    pub fn cto_as(&self, alloc: Global, key: Key, stance: &Stance) -> Result<Moment, AllocError>
        ensures { IfOk result (λ cto. cto ≡ cto_as self.now key stance.now) }
    {
        match stance {
            Stance::Competing { eto } => Ok(self.grid.cto(*eto, self.place_of(alloc, key)?)),
            Stance::Issued { cto, .. } => Ok(*cto),
            Stance::Forced { eto } => Ok(*eto),
        }
    }

    /// The flight's calculated time over, if it is subject to the regulation.
    pub fn cto_of(&self, alloc: Global, key: Key) -> Result<Option<Moment>, AllocError>
        ensures { IfOk result (λ cto. cto ≡ cto_of self.now key) }
    {
        match self.stance_of(key) {
            Some(stance) => Ok(Some(self.cto_as(alloc, key, &stance)?)),
            None => Ok(None),
        }
    }

    /// The delay of the flight where it stands so, in seconds.
    fn delay_as(&self, alloc: Global, key: Key, stance: &Stance) -> Result<u32, AllocError>
        ensures value { IfOk result (λ delay. delay
            ≡ cto_as self.now key stance.now - eto_as stance.now) }
        ensures in_range { IfOk result (λ delay. delay ≤ last_moment) }
    {
        let eto = stance.eto();
        let cto = self.cto_as(alloc, key, stance)?;
        Ok(cto.secs().saturating_sub(eto.secs()))
    }

    /// The flight's delay in the list, in seconds.
    pub fn delay_in(&self, alloc: Global, key: Key) -> Result<u32, AllocError>
        ensures value { IfOk result (λ delay. delay ≡ delay_in self.now key) }
        ensures in_range { IfOk result (λ delay. delay ≤ last_moment) }
    {
        match self.stance_of(key) {
            Some(stance) => self.delay_as(alloc, key, &stance),
            None => Ok(0),
        }
    }
}

//! What planners ask of all flights at once: which are to be issued, and which are subject to a regulation.

ghost use Rattle.std.specs.Prelude.{◌≡◌, ◌≤◌, ◌↔◌, [], ◌∷◌, List, true, IfOk, OnOk};
ghost use Rattle.std.specs.Option.{option_and_then, option_copied};
ghost use Rattle.std.specs.List.{Contains};
ghost use Rattle.std.specs.List.Sorted.{IsStrictlySortedBy};
ghost use Rattle.std.specs.Map.{keys_of};
ghost use Rattle.casa_flight.specs.contracts.comp.CompOrd.TheImpl.{ghosts as sequence};
ghost use Rattle.casa_flight.specs.contracts.comp.CompPartialEq.TheImpl.{ghosts as comps};
ghost use Rattle.casa_flight.specs.declared.comp.Comp.{Comp};
ghost use Rattle.casa_flight.specs.declared.row.Row.{Row};
ghost use Rattle.casa_filing.specs.Text.{Text, at_name};
ghost use Rattle.casa_flight.specs.Good.{AreInOrder};
ghost use Rattle.casa_flight.specs.Listing.{filter_map_values};
ghost use Rattle.casa_flight.specs.Steps.{flights_over};
ghost use Rattle.casa_item.specs.Gathered.{put_if_some, HasGathered};
ghost use Rattle.casa_footprint.specs.Finding.{due_keys};
ghost use Rattle.casa_table.specs.Waiting.{due_row, due_names, HaveWaiting};
ghost use Rattle.casa_table.specs.Passing.{passings_at, HavePassings, in_span, names};
ghost use Rattle.casa_table.specs.Flights.{rows_of, row_named, rows_named, row_where};
ghost use Rattle.casa_table.specs.Asking.{due_version, HaveRows, comps_of, AreBehind};

use crate::flights::{Departure, FlightIndex, Passing, Passings, is_waiting};
use crate::table::{Base, Changes, Shared};
use casa_flight::{Comp, Key, OfFlight, Regulation, Row, subject};
use casa_item::{Version, row_in};
use casa_named::Few;
use casa_time::{Moment, due};
use std::alloc::{AllocError, Global};
use std::cmp::Ordering;
use std::collections::{BTreeMap, BTreeSet};

/// The off-block time of a flight, if it is governed, due at this time and not issued.
fn due_row(at: Moment, row: &Row) -> Option<Moment>
    ensures { result ≡ due_row at row.now }
{
    let eobt = row.plan.eobt();
    if is_waiting(row) && due(at, eobt) {
        Some(eobt)
    } else {
        None
    }
}

/// The off-block time of the flight of a version, if there is a row and the flight is to be issued at this time.
fn due_version<V: Version>(at: Moment, version: &V) -> Option<Moment>
    ensures { result ≡ due_version V.item_of at version.now }
{
    due_row(at, row_in(version.item())?)
}

/// The off-block times of flights that are to be issued, by their keys.
type Found = BTreeMap<Key, Moment>;

/// Notes the off-block time of a flight, if there is one.
fn note(found: &mut Found, key: Key, eobt: Option<Moment>) -> Result<(), AllocError>
    ensures { OnOk result (found.new.entries ≡ put_if_some found.old.entries key eobt) }
{
    if let Some(eobt) = eobt {
        found.insert(key, eobt)?;
    }
    Ok(())
}

/// A flight that is subject to a regulation: its time over there and its key, and its row.
#[derive(Clone, Copy)]
pub struct FlightOver<'a> {
    pub comp: Comp,
    pub row: &'a Row,
}

/// Puts the flight with this key and row behind the others, if there is one and it is subject to the regulation.
fn put_behind<'a>(
    flights: &mut Vec<FlightOver<'a>>,
    regulation: &Regulation,
    key: Key,
    row: Option<&'a Row>,
) -> Result<(), AllocError>
    ensures { OnOk result ((rows : List (Text × Row)) →
        at_name rows key ≡ option_copied row.entry →
        AreBehind regulation.now rows (key ∷ []) flights.old.items flights.new.items) }
{
    if let Some(row) = row {
        if let Some(eto) = subject(row, regulation) {
            let comp = Comp { eto, key };
            let over = FlightOver { comp, row };
            if flights.push(over).is_err() {
                return Err(AllocError);
            }
        }
    }
    Ok(())
}

/// How flights compare: by time over, and by key among equal times.
fn compare(a: &FlightOver, b: &FlightOver) -> Ordering
    ensures { result ≡ sequence.cmp a.now.comp b.now.comp }
{
    a.comp.cmp(&b.comp)
}

/// Puts flights in their order, each once.
fn put_in_order(flights: &mut Vec<FlightOver>)
    ensures ordered { IsStrictlySortedBy sequence.cmp (comps_of flights.new.items) }
    ensures same { (c : Comp) → Contains (comps_of flights.new.items) c
        ↔ Contains (comps_of flights.old.items) c }
    ensures rows { (rows : List (Text × Row)) →
        HaveRows rows flights.old.items → HaveRows rows flights.new.items }
{
    flights.sort_unstable_by(|a, b| compare(a, b));
    flights.dedup_by_key(|over| over.comp);
}

/// The later of two times.
fn later(a: Moment, b: Moment) -> Moment
    ensures no_earlier { a ≤ result }
    ensures other { b ≤ result }
{
    if a < b { b } else { a }
}

impl<V: Version> Base<OfFlight, V, FlightIndex> {
    /// The departures of all flights that wait for their issue.
    fn departures(&self) -> &BTreeSet<Departure>
        ensures waiting { HaveWaiting (row_where V.item_of (at_name self.now)) result.now.keys }
        ensures ordered { AreInOrder self.now }
    {
        &self.index.departures
    }

    /// The passings of all flights.
    fn passings(&self) -> &Passings
        ensures passings { HavePassings (row_where V.item_of (at_name self.now))
            (passings_at result.now.entries) }
        ensures ordered { AreInOrder self.now }
    {
        &self.index.passings
    }
}

impl<V: Version> Shared<OfFlight, V, FlightIndex> {
    /// The off-block time of the flight under a key, if there is one and it is to be issued at this time.
    fn due_under(&self, at: Moment, key: &Key) -> Option<Moment>
        ensures { result ≡ option_and_then (due_version V.item_of at) (at_name self.now key.now) }
    {
        due_version(at, self.get(key)?)
    }

    /// Notes the flights to issue among those whose rows changed.
    fn note_changed(
        &self,
        found: &mut Found,
        at: Moment,
        changes: &Changes<OfFlight, V>,
    ) -> Result<(), AllocError>
        ensures { OnOk result (HasGathered (due_version V.item_of at) self.now
            (keys_of changes.now.entries) found.old.entries found.new.entries) }
    {
        for (key, _) in changes {
            note(found, *key, self.due_under(at, key))?;
        }
        Ok(())
    }

    /// Notes the flights to issue among these departures. It looks at them up to the first that is not due.
    fn note_waiting(
        &self,
        found: &mut Found,
        at: Moment,
        departures: &BTreeSet<Departure>,
    ) -> Result<(), AllocError>
        ensures { OnOk result (HasGathered (due_version V.item_of at) self.now
            (due_names at departures.now.keys) found.old.entries found.new.entries) }
    {
        for departure in departures {
            if !due(at, departure.eobt) {
                return Ok(());
            }
            note(found, departure.key, self.due_under(at, &departure.key))?;
        }
        Ok(())
    }

    /// The flights to issue at this time, with their off-block times.
    fn found_due(&self, alloc: Global, at: Moment) -> Result<Found, AllocError>
        ensures { IfOk result (λ found. found.entries
            ≡ filter_map_values (due_version V.item_of at) self.now) }
    {
        let mut found = BTreeMap::new(alloc);
        self.note_changed(&mut found, at, &self.recent)?;
        self.note_waiting(&mut found, at, self.base.departures())?;
        Ok(found)
    }

    /// The keys of the flights that are governed, due at this time and not issued, in their order. It looks at those
    /// that wait and are due, and at those that changed of late. `AllocError` where there is no memory for the keys.
    pub fn due(&self, alloc: Global, at: Moment) -> Result<Vec<Key>, AllocError>
        ensures { IfOk result (λ keys. keys.items ≡ due_keys at (rows_of V.item_of self.now)) }
    {
        let found = self.found_due(alloc, at)?;
        let mut keys = Vec::new(alloc);
        for (key, _) in &found {
            keys.push(*key)?;
        }
        Ok(keys)
    }

    /// The row of the flight under a key.
    fn row(&self, key: &Key) -> Option<&Row>
        ensures { option_copied result ≡ at_name (rows_of V.item_of self.now) key.now }
    {
        row_in(self.get(key)?.item())
    }

    /// Puts the flights that are subject to a regulation behind the others, of those whose rows changed.
    fn put_changed<'a>(
        &'a self,
        flights: &mut Vec<FlightOver<'a>>,
        regulation: &Regulation,
        changes: &Changes<OfFlight, V>,
    ) -> Result<(), AllocError>
        ensures { OnOk result (AreBehind regulation.now (rows_of V.item_of self.now)
            (keys_of changes.now.entries) flights.old.items flights.new.items) }
    {
        for (key, _) in changes {
            put_behind(flights, regulation, *key, self.row(key))?;
        }
        Ok(())
    }

    /// Puts the flights that are subject to a regulation behind the others, of those with these passings from its start
    /// to before this time.
    fn put_span<'a>(
        &'a self,
        flights: &mut Vec<FlightOver<'a>>,
        regulation: &Regulation,
        end: Moment,
        there: &BTreeSet<Passing>,
    ) -> Result<(), AllocError>
        requires { regulation.now.start ≤ end }
        ensures { OnOk result (AreBehind regulation.now (rows_of V.item_of self.now)
            (names (in_span regulation.now end there.now.keys))
            flights.old.items flights.new.items) }
    {
        let start = Passing {
            eto: regulation.start,
            key: None,
        };
        let end = Passing {
            eto: end,
            key: None,
        };
        for passing in there.range(start..end) {
            let Some(key) = passing.key else {
                continue;
            };
            put_behind(flights, regulation, key, self.row(&key))?;
        }
        Ok(())
    }

    /// Puts the flights that are subject to a regulation behind the others, of those that pass its location from its start
    /// to before this time.
    fn put_passing<'a>(
        &'a self,
        flights: &mut Vec<FlightOver<'a>>,
        regulation: &Regulation,
        end: Moment,
        passings: &Passings,
    ) -> Result<(), AllocError>
        requires { regulation.now.start ≤ end }
        ensures { OnOk result (AreBehind regulation.now (rows_of V.item_of self.now)
            (names (in_span regulation.now end
            (passings_at passings.now.entries regulation.now.loc)))
            flights.old.items flights.new.items) }
    {
        match passings.get(&regulation.loc) {
            Some(there) => self.put_span(flights, regulation, end, there),
            None => Ok(()),
        }
    }

    /// The flights that are subject to a regulation, by time over and key, with their rows. It looks at those that pass
    /// the location in the regulation's span, and at those that changed of late. `AllocError` where there is no memory for
    /// the flights.
    pub fn flights_over(
        &self,
        alloc: Global,
        regulation: &Regulation,
    ) -> Result<Vec<FlightOver<'_>>, AllocError>
        ensures over { IfOk result (λ flights. comps_of flights.items ≡
            flights_over (λ (row : Row). true) regulation.now (rows_of V.item_of self.now)) }
        ensures rows { IfOk result (λ flights.
            HaveRows (rows_of V.item_of self.now) flights.items) }
    {
        let end = later(regulation.start, regulation.end);
        let mut flights = Vec::new(alloc);
        self.put_changed(&mut flights, regulation, &self.recent)?;
        self.put_passing(&mut flights, regulation, end, self.base.passings())?;
        put_in_order(&mut flights);
        Ok(flights)
    }
}

/// The row of the flight whose version this is, if there is one.
fn row_named<V: Version>(version: &Option<V>) -> Option<&Row>
    ensures { option_copied result ≡ row_named V.item_of version.now }
{
    row_in(version.as_ref()?.item())
}

/// The keys of the flights among these that are governed, due at this time and not issued, in their order. `AllocError`
/// where there is no memory for the keys.
pub fn due_named<V: Version>(
    alloc: Global,
    rows: &Few<OfFlight, Option<V>>,
    at: Moment,
) -> Result<Vec<Key>, AllocError>
    ensures { IfOk result (λ keys. keys.items ≡ due_keys at (rows_named V.item_of rows.now)) }
{
    let mut keys = Vec::new(alloc);
    for (key, version) in rows.iter() {
        if let Some(row) = row_named(version) {
            if due_row(at, row).is_some() {
                keys.push(*key)?;
            }
        }
    }
    Ok(keys)
}

/// The flights among these that are subject to a regulation, by time over and key, with their rows. `AllocError` where
/// there is no memory for the flights.
pub fn flights_over_named<'a, V: Version>(
    alloc: Global,
    rows: &'a Few<OfFlight, Option<V>>,
    regulation: &Regulation,
) -> Result<Vec<FlightOver<'a>>, AllocError>
    ensures over { IfOk result (λ flights. comps_of flights.items ≡
        flights_over (λ (row : Row). true) regulation.now (rows_named V.item_of rows.now)) }
    ensures rows { IfOk result (λ flights.
        HaveRows (rows_named V.item_of rows.now) flights.items) }
{
    let mut flights = Vec::new(alloc);
    for (key, version) in rows.iter() {
        put_behind(&mut flights, regulation, *key, row_named(version))?;
    }
    put_in_order(&mut flights);
    Ok(flights)
}

//! An index of the flights: those that wait for their issue by off-block time, and all by the locations that they cross.

ghost use Rattle.std.specs.Prelude.{◌≡◌, List, Option, Some, None, true, false, OnOk};
ghost use Rattle.std.specs.Option.{option_copied, option_map_or};
ghost use Rattle.casa_filing.specs.Text.{Text};
ghost use Rattle.casa_filing.specs.PlanEquality.{plan_eq};
ghost use Rattle.casa_flight.specs.declared.row.Row.{Row};
ghost use Rattle.casa_item.specs.Versions.{row_of};
ghost use Rattle.casa_table.specs.Laid.{where_put};
ghost use Rattle.casa_filing.specs.declared.plan.Crossing.{Crossing};
ghost use Rattle.casa_table.specs.Waiting.{is_waiting, is_waiting_at, departure, has_departure, HaveWaiting};
ghost use Rattle.casa_table.specs.Passing.{passing, has_passing, passings_at, HaveMore, HaveVia};
ghost use Rattle.casa_table.specs.Flights.{IsIndexed, row_named};

use crate::index::Index;
use casa_flight::{Crossing, Key, Loc, Name, OfFlight, Plan, Row};
use casa_item::{Version, row_in};
use casa_time::Moment;
use std::alloc::{AllocError, Global};
use std::collections::{BTreeMap, BTreeSet};

/// A flight that waits for its issue, with its off-block time. The earliest comes first and, among equal times, by key.
#[derive(Clone, Copy, PartialEq, Eq, PartialOrd, Ord, Debug)]
pub(crate) struct Departure {
    pub(crate) eobt: Moment,
    pub(crate) key: Key,
}

/// A flight over a location, of which the passings stand together. They come by time over and key; `None` comes before all
/// flights, as the ends of a range do.
#[derive(Clone, Copy, PartialEq, Eq, PartialOrd, Ord, Debug)]
pub(crate) struct Passing {
    pub(crate) eto: Moment,
    pub(crate) key: Option<Key>,
}

/// The passings at each location.
pub(crate) type Passings = BTreeMap<Loc, BTreeSet<Passing>>;

/// An index of the flights: the departures of those that wait for their issue, and the passings of all, by location.
#[derive(Drop)]
pub struct FlightIndex {
    alloc: Global,
    pub(crate) departures: BTreeSet<Departure>,
    pub(crate) passings: Passings,
}

impl<V: Version> Index<OfFlight, V> for FlightIndex {
    ghost use Rattle.casa_table.specs.Passing.{passings_at};
    ghost use Rattle.casa_table.specs.Flights.{row_where, fewer_indexed};

    ghost covers = { λ index at.
        IsIndexed (row_where V.item_of at) index.departures.keys (passings_at index.passings.entries) };

    fn new(alloc: Global) -> FlightIndex {
        FlightIndex {
            alloc,
            departures: BTreeSet::new(alloc),
            passings: BTreeMap::new(alloc),
        }
    }

    fn note(
        &mut self,
        name: &Name<OfFlight>,
        value: &V,
        earlier: Option<&V>,
    ) -> Result<(), AllocError> {
        if let Some(row) = row_in(value.item()) {
            self.add(*name, row, row_named(earlier))?;
        }
        Ok(())
    }

    fn forget(&mut self, name: &Name<OfFlight>, gone: &V, present: Option<&V>) {
        if let Some(gone) = row_in(gone.item()) {
            self.take_out(*name, gone, row_named(present));
        }
    }

    ghost fewer = { λ index at name covers.
        fewer_indexed V.item_of at index.departures.keys (passings_at index.passings.entries) name covers };
}

/// The row that a version is of, if there is one.
fn row_named<V: Version>(version: Option<&V>) -> Option<&Row>
    ensures { option_copied result ≡ row_named V.item_of (option_copied version.entry) }
{
    match version {
        Some(version) => row_in(version.item()),
        None => None,
    }
}

/// Whether a flight waits for its issue: it is governed and not issued.
pub(crate) fn is_waiting(row: &Row) -> bool
    ensures { result ≡ is_waiting row.now }
{
    row.governing.is_some() && !row.issued.is_some()
}

impl FlightIndex {
    /// Puts a flight into the index; the crossings of the plan that it had so far are there. `AllocError` where there is
    /// no memory for it; all others are then still there.
    fn add(&mut self, key: Key, row: &Row, earlier: Option<&Row>) -> Result<(), AllocError>
        ensures stays { (at : Text → Option Row) →
            IsIndexed at self.old.departures.keys (passings_at self.old.passings.entries) →
            IsIndexed at self.new.departures.keys (passings_at self.new.passings.entries) }
        ensures added { OnOk result ((at : Text → Option Row)
            → at key ≡ option_copied earlier.entry →
            IsIndexed at self.old.departures.keys (passings_at self.old.passings.entries) →
            IsIndexed (where_put at key (Some row.now)) self.new.departures.keys
            (passings_at self.new.passings.entries)) }
    {
        add_departure(&mut self.departures, key, row)?;
        if !stands_with(earlier, &row.plan) {
            add_passings(self.alloc, &mut self.passings, key, row.plan.via())?;
        }
        Ok(())
    }

    /// Takes out what a flight needed, and does not need as it stands now, if it is there.
    fn take_out(&mut self, key: Key, gone: &Row, present: Option<&Row>)
        ensures { (at : Text → Option Row) → at key ≡ option_copied present.entry →
            IsIndexed at self.old.departures.keys (passings_at self.old.passings.entries) →
            IsIndexed at self.new.departures.keys (passings_at self.new.passings.entries) }
    {
        take_departure(&mut self.departures, key, gone.plan.eobt(), present);
        match present {
            Some(row) => {
                if row.plan != gone.plan {
                    take_passings(&mut self.passings, key, gone.plan.via(), row.plan.via());
                }
            }
            None => take_passings(&mut self.passings, key, gone.plan.via(), &[]),
        }
    }
}

/// Whether a flight stands with this plan.
fn stands_with(row: Option<&Row>, plan: &Plan) -> bool
    ensures { result ≡ option_map_or (λ r. plan_eq r.plan plan.now)
        (option_copied row.entry) false }
{
    match row {
        Some(row) => row.plan == *plan,
        None => false,
    }
}

/// Puts a flight among the departures, if it waits.
fn add_departure(
    departures: &mut BTreeSet<Departure>,
    key: Key,
    row: &Row,
) -> Result<(), AllocError>
    ensures stays { (d : _) → has_departure departures.old.keys d ≡ true →
        has_departure departures.new.keys d ≡ true }
    ensures added { OnOk result (is_waiting row.now ≡ true →
        has_departure departures.new.keys (departure key row.now) ≡ true) }
{
    if is_waiting(row) {
        departures.insert(Departure {
            eobt: row.plan.eobt(),
            key,
        })?;
    }
    Ok(())
}

/// Whether the flight as it stands now waits, and with this off-block time.
fn needs_departure(present: Option<&Row>, eobt: Moment) -> bool
    ensures { result ≡ option_map_or (is_waiting_at eobt) (option_copied present.entry) false }
{
    match present {
        Some(row) => is_waiting(row) && row.plan.eobt() == eobt,
        None => false,
    }
}

/// Takes out the departure of a flight, unless the flight as it stands now needs it.
fn take_departure(
    departures: &mut BTreeSet<Departure>,
    key: Key,
    eobt: Moment,
    present: Option<&Row>,
)
    ensures { (at : Text → Option Row) → at key ≡ option_copied present.entry →
        HaveWaiting at departures.old.keys → HaveWaiting at departures.new.keys }
{
    if !needs_departure(present, eobt) {
        departures.remove(&Departure { eobt, key });
    }
}

/// Puts a crossing of a flight among the passings at its location. `AllocError` where there is no memory for it.
fn add_passing(
    alloc: Global,
    passings: &mut Passings,
    key: Key,
    crossing: &Crossing,
) -> Result<(), AllocError>
    ensures stays { HaveMore (passings_at passings.old.entries) (passings_at passings.new.entries) }
    ensures added { OnOk result
        (has_passing (passings_at passings.new.entries crossing.now.loc) (passing key crossing.now)
        ≡ true) }
{
    let passing = Passing {
        eto: crossing.eto,
        key: Some(key),
    };
    match passings.get_mut(&crossing.loc) {
        Some(there) => {
            there.insert(passing)?;
            Ok(())
        }
        None => {
            let mut first = BTreeSet::new(alloc);
            first.insert(passing)?;
            passings.insert(crossing.loc, first)?;
            Ok(())
        }
    }
}

/// Puts the crossings of a flight among the passings.
fn add_passings(
    alloc: Global,
    passings: &mut Passings,
    key: Key,
    via: &[Crossing],
) -> Result<(), AllocError>
    ensures stays { HaveMore (passings_at passings.old.entries) (passings_at passings.new.entries) }
    ensures added { OnOk result (HaveVia (passings_at passings.new.entries) key via.now) }
{
    for crossing in via {
        add_passing(alloc, passings, key, crossing)?;
    }
    Ok(())
}

/// Takes out the passing at a crossing of a flight, unless the flight crosses there and then now too.
fn take_passing(passings: &mut Passings, key: Key, crossing: &Crossing, present: &[Crossing])
    ensures { (other : Text) (via : List Crossing) → (other ≡ key → via ≡ present.now) →
        HaveVia (passings_at passings.old.entries) other via
        → HaveVia (passings_at passings.new.entries) other via }
{
    if present.contains(crossing) {
        return;
    }
    if let Some(there) = passings.get_mut(&crossing.loc) {
        there.remove(&Passing {
            eto: crossing.eto,
            key: Some(key),
        });
    }
}

/// Takes out the passings at these crossings of a flight, unless the flight has them now too.
fn take_passings(passings: &mut Passings, key: Key, gone: &[Crossing], present: &[Crossing])
    ensures { (other : Text) (via : List Crossing) → (other ≡ key → via ≡ present.now) →
        HaveVia (passings_at passings.old.entries) other via
        → HaveVia (passings_at passings.new.entries) other via }
{
    for crossing in gone {
        take_passing(passings, key, crossing, present);
    }
}

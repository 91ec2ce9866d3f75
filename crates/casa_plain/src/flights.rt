//! Which regulations there are, and which flights they concern.

ghost use Rattle.std.specs.Prelude.{◌≡◌, IfOk, map};
ghost use Rattle.std.specs.List.{filter_map};
ghost use Rattle.casa_filing.specs.declared.regulation.Measure.{Measure};
ghost use Rattle.casa_flight.specs.declared.row.Row.{Row};
ghost use Rattle.casa_filing.specs.Text.{Text};
ghost use Rattle.casa_filing.specs.Subject.{regulation};
ghost use Rattle.casa_flight.specs.State.{is_governed_by};
ghost use Rattle.casa_flight.specs.Steps.{flights_over, ungoverned_if, may_compete};
ghost use Rattle.casa_plain.specs.Flights.{flight_if};

use casa_flight::{Comp, Key, Measure, RegId, Regulation, Row, sort_comps, subject};
use casa_time::Moment;
use std::alloc::{AllocError, Global};
use std::collections::BTreeMap;

/// The open regulations, in the order of their identifiers.
pub fn catalogue(
    alloc: Global,
    regs: &BTreeMap<RegId, Measure>,
) -> Result<Vec<Regulation>, AllocError>
    ensures { IfOk result (λ all. all.items
        ≡ map (λ (e : Text × Measure). regulation e.0 e.1) regs.now.entries) }
{
    regs.iter()
        .map(|(id, measure)| Regulation::of(*id, measure))
        .collect(alloc)
}

/// The flight over a regulation, if it is meant and subject to that.
fn flight_if(is_meant: bool, regulation: &Regulation, key: Key, row: &Row) -> Option<Comp>
    ensures { result ≡ flight_if is_meant regulation.now key row.now }
{
    if !is_meant {
        return None;
    }
    let eto = subject(row, regulation)?;
    Some(Comp { eto, key })
}

/// The flights that may compete at a regulation, by key.
fn found_newcomers(
    alloc: Global,
    rows: &BTreeMap<Key, Row>,
    clock: Moment,
    regulation: &Regulation,
) -> Result<Vec<Comp>, AllocError>
    ensures { IfOk result (λ comps. comps.items ≡
        filter_map (λ (e : Text × Row). flight_if
        (may_compete clock e.1) regulation.now e.0 e.1) rows.now.entries) }
{
    rows.iter()
        .filter_map(|(key, row)| flight_if(row.may_compete(clock), regulation, *key, row))
        .collect(alloc)
}

/// The flights that may compete at a regulation, in their order.
pub fn newcomers(
    alloc: Global,
    rows: &BTreeMap<Key, Row>,
    clock: Moment,
    regulation: &Regulation,
) -> Result<Vec<Comp>, AllocError>
    ensures { IfOk result (λ comps. comps.items ≡
        flights_over (may_compete clock) regulation.now rows.now.entries) }
{
    let mut comps = found_newcomers(alloc, rows, clock, regulation)?;
    sort_comps(&mut comps);
    Ok(comps)
}

/// The flights that a regulation governs, by key.
fn find_governed(
    alloc: Global,
    rows: &BTreeMap<Key, Row>,
    regulation: &Regulation,
) -> Result<Vec<Comp>, AllocError>
    ensures { IfOk result (λ comps. comps.items ≡
        filter_map (λ (e : Text × Row). flight_if
        (is_governed_by regulation.now.id e.1) regulation.now e.0 e.1)
        rows.now.entries) }
{
    let id = regulation.id;
    rows.iter()
        .filter_map(|(key, row)| flight_if(row.is_governed_by(id), regulation, *key, row))
        .collect(alloc)
}

/// The flights that a regulation governs, in their order.
pub fn governed_flights(
    alloc: Global,
    rows: &BTreeMap<Key, Row>,
    regulation: &Regulation,
) -> Result<Vec<Comp>, AllocError>
    ensures { IfOk result (λ comps. comps.items ≡
        flights_over (is_governed_by regulation.now.id) regulation.now rows.now.entries) }
{
    let mut comps = find_governed(alloc, rows, regulation)?;
    sort_comps(&mut comps);
    Ok(comps)
}

/// The flight free of its regulation, if it is to be freed.
fn ungoverned_if(is_freed: bool, row: &Row) -> Result<Row, AllocError>
    ensures { IfOk result (λ free. free ≡ ungoverned_if is_freed row.now) }
{
    if is_freed {
        return row.ungoverned();
    }
    row.clone()
}

/// The flights, those free that the regulation governed.
pub fn freed_rows(
    alloc: Global,
    rows: &BTreeMap<Key, Row>,
    id: RegId,
) -> Result<BTreeMap<Key, Row>, AllocError>
    ensures { IfOk result (λ all. all.entries ≡
        map (λ (e : Text × Row).
        (e.0, ungoverned_if (is_governed_by id e.1) e.1)) rows.now.entries) }
{
    let mut all = BTreeMap::new(alloc);
    for (key, row) in rows.iter() {
        all.insert(*key, ungoverned_if(row.is_governed_by(id), row)?)?;
    }
    Ok(all)
}

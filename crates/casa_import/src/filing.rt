//! The filing that a row of flights makes.

ghost use Rattle.std.specs.Prelude.{◌≡◌, ◌+◌, ◌<◌, IfOk, IfSome, OnOk, length, min, option_to_list, position};
ghost use Rattle.std.specs.Result.{result_map_both};
ghost use Rattle.casa_filing.specs.PlanFaults.{has_early};
ghost use Rattle.casa_filing.specs.Text.{same_text};
ghost use Rattle.casa_filing.specs.declared.plan.Crossing.{Crossing as Flown};
ghost use Rattle.casa_import.specs.Filing.{departure_in, earliest, enter, filed, filing_of, is_empty_entry, kept, own_entries, own_entry, planned, shortest, stated_in, taxi_of, with_departure};
ghost use Rattle.casa_import.specs.Gives.{Gives, GivesAs};
ghost use Rattle.casa_import.specs.Keyed.{flown};
ghost use Rattle.casa_import.specs.Taking.{and_entered};

use crate::columns::{EntryColumns, FlightColumns, ImportOptions};
use crate::crossings::Crossings;
use crate::fields::{entry_in, even, key_in, location_in, moment_in, sts_in, taxi_in};
use crate::reason::{Reason, RowFault};
use casa_filing::{Crossing, Key, Loc, Plan, PlanFault, Sts};
use casa_rows::Row;
use casa_time::Moment;
use jiff::civil::Date;
use std::alloc::{AllocError, Global};

/// The most crossings of a plan.
const MAX_CROSSINGS: usize = 32;

/// What a row says of the flight itself.
#[derive(Clone, Copy)]
struct Stated {
    key: Key,
    eobt: Moment,
    taxi: Option<u32>,
    sts: Sts,
}

/// The filing of a row of flights, with the crossings of its key, or why the row is left out.
#[tactic(auto, unfolding(crate::specs::Filing::filing_of))]
pub fn filing_of(
    alloc: Global,
    options: &ImportOptions,
    columns: &FlightColumns,
    crossings: &Crossings,
    row: &Row,
) -> Result<Plan, RowFault>
    ensures { Gives result (filing_of options.now columns.now (flown crossings.now) row.now) }
{
    let stated = stated_in(options.day, columns, row)?;
    let via = earliest(alloc, crossings.of(&stated.key))?;
    let via = with_own(via, options.day, &columns.entries, row)?;
    let departure = departure_in(columns.departure, row)?;
    planned(options, &stated, departure, via)
}

#[tactic(auto, unfolding(crate::specs::Filing::stated_in))]
fn stated_in(day: Date, columns: &FlightColumns, row: &Row) -> Result<Stated, Reason>
    ensures { result ≡ stated_in day columns.now row.now }
{
    even(columns.width, row)?;
    let key = key_in(columns.key, row)?;
    let eobt = moment_in(day, columns.eobt, row)?;
    let taxi = taxi_in(columns.taxi, row)?;
    let sts = sts_in(columns.sts, row)?;
    Ok(Stated {
        key,
        eobt,
        taxi,
        sts,
    })
}

/// The crossings, and behind them the entries of a row itself; each location once, at the earliest of its times.
fn with_own(
    via: Vec<Crossing>,
    day: Date,
    columns: &[EntryColumns],
    row: &Row,
) -> Result<Vec<Crossing>, RowFault>
    ensures { GivesAs (λ via. via.items) result
        (and_entered via.items (own_entries day columns.now row.now)) }
{
    let Some((first, more)) = columns.split_first() else {
        return Ok(via);
    };
    let mut via = via;
    if let Some(entry) = own_entry(day, *first, row)? {
        enter(&mut via, entry)?;
    }
    with_own(via, day, more, row)
}

/// The entry of a row in these columns, if it has one there.
fn own_entry(day: Date, columns: EntryColumns, row: &Row) -> Result<Option<Crossing>, Reason>
    ensures { result_map_both option_to_list (λ reason. reason) result ≡ own_entry day columns row.now }
{
    if is_empty_entry(columns, row) {
        return Ok(None);
    }
    let entry = entry_in(day, columns.loc, columns.eto, row)?;
    Ok(Some(entry))
}

fn is_empty_entry(columns: EntryColumns, row: &Row) -> bool
    ensures { result ≡ is_empty_entry columns row.now }
{
    columns.may_be_empty && row.text(columns.loc).is_empty() && row.text(columns.eto).is_empty()
}

/// The location in a column from which the flight takes off.
fn departure_in(column: Option<usize>, row: &Row) -> Result<Option<Loc>, Reason>
    ensures { result ≡ departure_in column row.now }
{
    let Some(column) = column else {
        return Ok(None);
    };
    let loc = location_in(column, row)?;
    Ok(Some(loc))
}

/// Each location of these crossings once, at the earliest of its times.
fn earliest(alloc: Global, crossings: &[Crossing]) -> Result<Vec<Crossing>, AllocError>
    ensures { IfOk result (λ via. via.items ≡ earliest crossings.now) }
{
    let mut via = Vec::new(alloc);
    for crossing in crossings {
        enter(&mut via, *crossing)?;
    }
    Ok(via)
}

/// Enters a location: where it is entered already, the earlier of the two times counts.
fn enter(via: &mut Vec<Crossing>, entry: Crossing) -> Result<(), AllocError>
    ensures { OnOk result (via.new.items ≡ enter via.old.items entry) }
{
    match place_of(entry.loc, via) {
        Some(place) => {
            let crossing = &mut via[place];
            crossing.eto = earlier(crossing.eto, entry.eto);
            Ok(())
        }
        None => {
            via.push(entry)?;
            Ok(())
        }
    }
}

/// The earlier of two moments.
fn earlier(one: Moment, other: Moment) -> Moment
    ensures { result ≡ min one other }
{
    if other < one { other } else { one }
}

/// The first place at which a location stands.
fn place_of(loc: Loc, via: &[Crossing]) -> Option<usize>
    ensures value { result ≡ position (λ (c : Flown). same_text c.loc loc) via.now }
    ensures in_range { IfSome result (λ place. place < length via.now) }
{
    via.iter().position(|crossing| crossing.loc == loc)
}

/// The plan of a flight that enters these locations, or why there is none.
#[tactic(auto, unfolding(crate::specs::Filing::planned))]
fn planned(
    options: &ImportOptions,
    stated: &Stated,
    departure: Option<Loc>,
    via: Vec<Crossing>,
) -> Result<Plan, RowFault>
    ensures { Gives result (planned options.now stated.now departure via.items) }
{
    if has_early(stated.eobt, &via) {
        return Err(RowFault::LeftOut(Reason::EntersBefore));
    }
    let taxi = taxi_of(options.taxi, stated, &via);
    let via = with_departure(departure, stated.eobt, taxi, via)?;
    filed(stated, taxi, kept(&options.locations, via))
}

/// Whether a location is entered before the off-block time.
fn has_early(eobt: Moment, via: &[Crossing]) -> bool
    ensures { result ≡ has_early eobt via.now }
{
    via.iter().any(|crossing| crossing.eto < eobt)
}

/// The taxi time: what the row says; else this one, or as much as there is before the earliest entry.
fn taxi_of(taxi: u32, stated: &Stated, via: &[Crossing]) -> u32
    ensures { result ≡ taxi_of taxi stated.now via.now }
{
    match stated.taxi {
        Some(taxi) => taxi,
        None => shortest(taxi, stated.eobt, via),
    }
}

fn shortest(taxi: u32, eobt: Moment, via: &[Crossing]) -> u32
    ensures { result ≡ shortest taxi eobt via.now }
{
    let mut least = taxi;
    for crossing in via {
        least = least.min(crossing.eto.secs().saturating_sub(eobt.secs()));
    }
    least
}

/// The crossings, and the location from which the flight takes off at its take-off, where that is a moment.
fn with_departure(
    departure: Option<Loc>,
    eobt: Moment,
    taxi: u32,
    via: Vec<Crossing>,
) -> Result<Vec<Crossing>, AllocError>
    ensures { IfOk result (λ all. all.items ≡ with_departure departure (eobt + taxi) via.items) }
{
    let (Some(loc), Some(etot)) = (departure, eobt.secs().checked_add(taxi)) else {
        return Ok(via);
    };
    let Ok(eto) = Moment::new(etot) else {
        return Ok(via);
    };
    let mut via = via;
    enter(&mut via, Crossing { loc, eto })?;
    Ok(via)
}

/// Of more than 32 crossings those at these locations, where there are any.
fn kept(locations: &[Loc], via: Vec<Crossing>) -> Vec<Crossing>
    ensures { result.items ≡ kept locations.now via.items }
{
    let mut via = via;
    if via.len() > MAX_CROSSINGS && !locations.is_empty() {
        via.retain(|crossing| locations.contains(&crossing.loc));
    }
    via
}

/// The plan of these, or its fault.
fn filed(stated: &Stated, taxi: u32, via: Vec<Crossing>) -> Result<Plan, RowFault>
    ensures { Gives result (filed stated.now taxi via.items) }
{
    match Plan::of(stated.key.as_bytes(), stated.eobt, taxi, via, stated.sts) {
        Ok(plan) => Ok(plan),
        Err(PlanFault::NoMemory) => Err(RowFault::NoMemory),
        Err(fault) => Err(RowFault::LeftOut(Reason::Plan(fault))),
    }
}

//! What the options of `casa import` ask for, and which of them do not go together.

ghost use Rattle.std.specs.Prelude.{◌≡◌, IfOk, codes, map, option_map};
ghost use Rattle.clap.specs.Words.{found_of, rows_of};
ghost use Rattle.casa_cli.specs.Tasks.{IsNumber, IsOutcome, clash_found};
ghost use Rattle.casa_cli.specs.Words.{are_locations, between_commas, clash_of_import, import_at, import_of, locations_named, locations_of, name_of, taxi_of};

use crate::choices::{order_in, word_fault};
use crate::clashes::{Clash, clash_fault};
use crate::tasks::{Import, Task, TaskFault};
use crate::values::{day_in, is_given, number_in, value_of};
use casa_flight::Loc;
use casa_usage::import_command;
use clap::ArgMatches;
use std::alloc::{AllocError, Global};

/// The task of `casa import` with the values of its options.
pub fn import_task<'a>(alloc: Global, values: &ArgMatches<'a>) -> Result<Task<'a>, TaskFault>
    requires { IsNumber 0 3600 (codes "taxi") (rows_of (found_of values.now)) }
    ensures { IsOutcome (import_of (rows_of (found_of values.now))) result }
{
    if let Some(found) = import_clash(values) {
        return Err(clash_fault(alloc, import_command(alloc), found));
    }
    tables_task(alloc, values)
}

/// The task of lines that are made of tables, whose options go together.
fn tables_task<'a>(alloc: Global, values: &ArgMatches<'a>) -> Result<Task<'a>, TaskFault>
    requires { IsNumber 0 3600 (codes "taxi") (rows_of (found_of values.now)) }
    ensures { IsOutcome (import_at (rows_of (found_of values.now))) result }
{
    let order = match order_in(values) {
        Ok(order) => order,
        Err(word) => {
            let command = import_command(alloc);
            return Err(word_fault(alloc, command, "by", "file, eobt", word));
        }
    };
    let locations = match locations_in(alloc, values) {
        Ok(Some(locations)) => locations,
        Ok(None) => return Err(TaskFault::BadLocation),
        Err(refused) => return Err(TaskFault::Words(clap::Error::from(refused))),
    };
    let day = day_in(values).ok_or(TaskFault::BadDay)?;
    Ok(Task::Import(Import {
        flights: value_of(values, "flights"),
        crossings: value_of(values, "crossings"),
        regs: value_of(values, "regs"),
        day,
        taxi: taxi_in(values),
        locations,
        order,
        strict: is_given(values, "strict"),
    }))
}

/// The taxi time for flights whose row gives none, in seconds.
fn taxi_in(values: &ArgMatches<'_>) -> u64
    requires { IsNumber 0 3600 (codes "taxi") (rows_of (found_of values.now)) }
    ensures { result ≡ taxi_of (rows_of (found_of values.now)) }
{
    u64::from(number_in(values, "taxi").unwrap_or(600))
}

/// The locations after `--locations`, where these are names with commas between: none where the option is not given.
fn locations_in(alloc: Global, values: &ArgMatches<'_>) -> Result<Option<Vec<Loc>>, AllocError>
    ensures { IfOk result (λ named. option_map (λ locations. locations.items) named
        ≡ locations_of (rows_of (found_of values.now))) }
{
    match value_of(values, "locations") {
        Some(text) => locations_named(alloc, text),
        None => Ok(Some(Vec::new(alloc))),
    }
}

/// The locations that a text names, where all that stands between its commas are names.
fn locations_named(alloc: Global, text: &str) -> Result<Option<Vec<Loc>>, AllocError>
    ensures { IfOk result (λ named. option_map (λ locations. locations.items) named ≡ locations_named text.now) }
{
    let parts = between_commas(alloc, text)?;
    all_named(alloc, &parts)
}

/// What stands between the commas of a text.
fn between_commas<'a>(alloc: Global, text: &'a str) -> Result<Vec<&'a str>, AllocError>
    ensures { IfOk result (λ parts. map (λ part. part.now) parts.items ≡ between_commas text.now) }
{
    text.split(',').collect(alloc)
}

/// The locations that these name, where all of them are names.
fn all_named(alloc: Global, parts: &[&str]) -> Result<Option<Vec<Loc>>, AllocError>
    ensures { IfOk result (λ named. option_map (λ locations. locations.items) named
        ≡ are_locations (map (λ part. part.now) parts.now)) }
{
    let mut locations = Vec::with_capacity(alloc, parts.len())?;
    for part in parts {
        match location_named(*part) {
            Some(location) => locations.push(location)?,
            None => return Ok(None),
        }
    }
    Ok(Some(locations))
}

/// The location that a text names.
fn location_named(text: &str) -> Option<Loc>
    ensures { result ≡ name_of text.now }
{
    Loc::new(text.as_bytes())
}

/// The clash of its options: crossings are those of flights, and flights or regulations are given.
fn import_clash(values: &ArgMatches<'_>) -> Option<Clash>
    ensures { option_map clash_found result ≡ clash_of_import (rows_of (found_of values.now)) }
{
    let has_flights = is_given(values, "flights");
    if is_given(values, "crossings") && !has_flights {
        Some(Clash::Needs("crossings", "flights"))
    } else if !has_flights && !is_given(values, "regs") {
        Some(Clash::NoTable)
    } else {
        None
    }
}

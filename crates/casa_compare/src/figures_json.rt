//! What differs between two days, as JSON.

ghost use Rattle.std.specs.Prelude.{◌≡◌, ◌∷◌, ◌++◌, IfOk, OnOk};
ghost use Rattle.serde_json.specs.Data.{string};
ghost use Rattle.serde_json.specs.Written.{compact_text};
ghost use Rattle.casa_wire.specs.LineTexts.{count, list_of, or_null};
ghost use Rattle.casa_wire.specs.Parts.{more_text, part_text};
ghost use Rattle.casa_compare.specs.CompareJson.{compare_json, difference_data, standing_data, totals_data};

use casa_difference::{Comparison, Difference, Standing, Totals};
use casa_flight::RegId;
use casa_json::push_figure;
use casa_report::{date_text, push_mean};
use casa_wire::{Part, push_parts, push_text};
use jiff::civil::Date;
use std::alloc::{AllocError, Global};

/// What differs between two days, as JSON, in one line: an object with `base` and `variant`, what all regulations of either
/// day cost together; `day`, as `"2025-06-01"`; and `flights`, an object for each flight that does not stand alike on both, in
/// the order of their keys: its `key`, and how it stands on each (`base`, `variant`), null where that has no such flight.
///
/// Of a day there are the number of its regulations (`regs`), and as in a summary `slots`, `governed`, `issued`, `forced`,
/// `over`, and in seconds `delay`, `mean`, null where no flight is governed, and `longest`. Of how a flight stands there are
/// `reg`, `ctot`, in seconds from midnight UTC, both null where nothing governs it, and `delay`, in seconds.
///
/// `AllocError` where there is no memory for it.
pub fn compare_json(alloc: Global, day: Date, found: &Comparison) -> Result<Vec<u8>, AllocError>
    ensures { IfOk result (λ text. text.items ≡ compare_json day found.now) }
{
    let mut text = Vec::new(alloc);
    let date = date_text(alloc, day)?;
    push_text(&mut text, b"{\"base\":")?;
    push_totals(&mut text, &found.base)?;
    push_parts(
        &mut text,
        &[
            Part::Text(b",\"day\":"),
            Part::Name(date.as_bytes()),
            Part::Text(b",\"flights\":"),
        ],
    )?;
    push_flights(&mut text, found.flights.as_slice())?;
    push_text(&mut text, b",\"variant\":")?;
    push_totals(&mut text, &found.variant)?;
    push_text(&mut text, b"}\n")?;
    Ok(text)
}

/// Appends what all regulations of a day cost together. `AllocError` where there is no memory for it; some of it may then stand
/// there.
fn push_totals(out: &mut Vec<u8>, totals: &Totals) -> Result<(), AllocError>
    ensures { OnOk result (out.new.items ≡ out.old.items ++ compact_text (totals_data totals.now)) }
{
    let cost = &totals.cost;
    push_figure(out, b"{\"delay\":", cost.delay)?;
    push_figure(out, b",\"forced\":", cost.forced)?;
    push_figure(out, b",\"governed\":", cost.governed)?;
    push_figure(out, b",\"issued\":", cost.issued)?;
    push_figure(out, b",\"longest\":", cost.longest as u128)?;
    push_mean(out, cost.mean())?;
    push_figure(out, b",\"over\":", cost.over)?;
    push_figure(out, b",\"regs\":", totals.regulations as u128)?;
    push_figure(out, b",\"slots\":", cost.slots)?;
    push_text(out, b"}")?;
    Ok(())
}

/// Appends the array of these flights. `AllocError` where there is no memory for it; some of it may then stand there.
fn push_flights(out: &mut Vec<u8>, flights: &[Difference]) -> Result<(), AllocError>
    ensures { OnOk result (out.new.items
        ≡ out.old.items ++ compact_text (list_of difference_data flights.now)) }
{
    let Some((first, rest)) = flights.split_first() else {
        push_text(out, b"[]")?;
        return Ok(());
    };
    push_text(out, b"[")?;
    push_flight(out, first)?;
    push_more(out, rest)?;
    push_text(out, b"]")?;
    Ok(())
}

/// Appends these flights, each behind a comma.
fn push_more(out: &mut Vec<u8>, flights: &[Difference]) -> Result<(), AllocError>
    ensures { OnOk result (out.new.items ≡ out.old.items ++ more_text difference_data flights.now) }
{
    for flight in flights {
        push_behind_comma(out, flight)?;
    }
    Ok(())
}

fn push_behind_comma(out: &mut Vec<u8>, flight: &Difference) -> Result<(), AllocError>
    ensures { OnOk result (out.new.items
        ≡ out.old.items ++ (44 ∷ compact_text (difference_data flight.now))) }
{
    push_text(out, b",")?;
    push_flight(out, flight)
}

/// Appends a flight.
fn push_flight(out: &mut Vec<u8>, flight: &Difference) -> Result<(), AllocError>
    ensures { OnOk result (out.new.items ≡ out.old.items ++ compact_text (difference_data flight.now)) }
{
    push_text(out, b"{\"base\":")?;
    push_standing(out, &flight.base)?;
    push_parts(
        out,
        &[
            Part::Text(b",\"key\":"),
            Part::Name(flight.key.as_bytes()),
            Part::Text(b",\"variant\":"),
        ],
    )?;
    push_standing(out, &flight.variant)?;
    push_text(out, b"}")?;
    Ok(())
}

/// Appends how a flight stands on a day; null where that has no such flight. `AllocError` where there is no memory for it;
/// some of it may then stand there.
fn push_standing(out: &mut Vec<u8>, standing: &Option<Standing>) -> Result<(), AllocError>
    ensures { OnOk result (out.new.items
        ≡ out.old.items ++ compact_text (or_null standing_data standing.now)) }
{
    let Some(standing) = standing else {
        push_text(out, b"null")?;
        return Ok(());
    };
    push_parts(
        out,
        &[
            Part::Text(b"{\"ctot\":"),
            time_or_null(standing.ctot),
            Part::Text(b",\"delay\":"),
            Part::Number(standing.delay as u64),
            Part::Text(b",\"reg\":"),
            name_or_null(&standing.reg),
            Part::Text(b"}"),
        ],
    )?;
    Ok(())
}

/// A time in seconds, or `null` where there is none.
fn time_or_null(secs: Option<u32>) -> Part<'static>
    ensures { part_text result ≡ compact_text (or_null count secs) }
{
    match secs {
        Some(secs) => Part::Number(secs as u64),
        None => Part::Text(b"null"),
    }
}

/// A name in quotation marks, or `null` where there is none.
fn name_or_null(name: &Option<RegId>) -> Part<'_>
    ensures { part_text result ≡ compact_text (or_null string name.now) }
{
    match name {
        Some(name) => Part::Name(name.as_bytes()),
        None => Part::Text(b"null"),
    }
}

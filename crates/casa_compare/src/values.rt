//! The flights that do not stand alike on two days, as comma-separated values.

ghost use Rattle.std.specs.Prelude.{◌≡◌, ◌++◌, IfOk, OnOk};
ghost use Rattle.jiff_core.specs.declared.civil.date.Date.{Date as Plain};
ghost use Rattle.casa_report.specs.Csv.{or_empty, record_line};
ghost use Rattle.casa_report.specs.Moments.{moment_text};
ghost use Rattle.casa_report.specs.Values.{value_text};
ghost use Rattle.casa_compare.specs.CompareCsv.{compare_csv, difference_fields};

use crate::standings::{ctot_in, delay_in, reg_in};
use casa_difference::{Comparison, Difference};
use casa_flight::RegId;
use casa_report::{Value, number_or_absent, push_values};
use jiff::civil::Date;
use std::alloc::{AllocError, Global};

/// The titles of the fields.
const TITLES: &[u8] = b"KEY,BASE_REG,BASE_CTOT,BASE_DELAY,VARIANT_REG,VARIANT_CTOT,VARIANT_DELAY\n";

/// The flights that do not stand alike on two days, as comma-separated values: a line of titles, and a line for each flight,
/// in the order of their keys. Times are dates with times of day in UTC, as `2025-06-01T10:00:05`, delays seconds, and a value
/// that is not there is empty.
///
/// `AllocError` where there is no memory for it.
pub fn compare_csv(alloc: Global, day: Date, found: &Comparison) -> Result<Vec<u8>, AllocError>
    ensures { IfOk result (λ text. text.items ≡ compare_csv day found.now) }
{
    let mut text = Vec::from_slice(alloc, TITLES)?;
    for flight in found.flights.as_slice() {
        push_flight(alloc, &mut text, day, flight)?;
    }
    Ok(text)
}

/// Appends the record of a flight.
fn push_flight(
    alloc: Global,
    out: &mut Vec<u8>,
    day: Date,
    flight: &Difference,
) -> Result<(), AllocError>
    ensures { OnOk result (out.new.items ≡ out.old.items ++ record_line (difference_fields day) flight.now) }
{
    let (base, variant) = (reg_in(&flight.base), reg_in(&flight.variant));
    push_values(
        alloc,
        out,
        day,
        &[
            Value::Plain(flight.key.as_bytes()),
            name_or_absent(&base),
            moment_or_absent(ctot_in(&flight.base)),
            number_or_absent(delay_in(&flight.base)),
            name_or_absent(&variant),
            moment_or_absent(ctot_in(&flight.variant)),
            number_or_absent(delay_in(&flight.variant)),
        ],
    )
}

/// A name, if there is one.
fn name_or_absent(name: &Option<RegId>) -> Value<'_>
    ensures { (day : Plain) → value_text day result ≡ or_empty (λ text. text) name.now }
{
    match name {
        Some(name) => Value::Plain(name.as_bytes()),
        None => Value::Absent,
    }
}

/// A time in seconds from midnight UTC, if there is one.
fn moment_or_absent(secs: Option<u32>) -> Value<'static>
    ensures { (day : Plain) → value_text day result ≡ or_empty (moment_text day) secs }
{
    match secs {
        Some(secs) => Value::Moment(secs),
        None => Value::Absent,
    }
}

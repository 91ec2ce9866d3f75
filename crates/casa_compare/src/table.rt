//! What differs between two days, as tables.

ghost use Rattle.std.specs.Prelude.{◌≡◌, ◌+◌, ◌≤◌, ◌++◌, IfOk, OnOk, length};
ghost use Rattle.arrayvec.specs.ArrayVec.{array_vec_len};
ghost use Rattle.casa_report.specs.Columns.{shown_line};
ghost use Rattle.casa_report.specs.WhyText.{section};
ghost use Rattle.casa_compare.specs.CompareTable.{changes, compare_text, ctot_column, figures, flight_columns, reg_column, standing_columns, totals_columns, totals_table};

use crate::changes::{push_change, push_change_or_hyphen};
use crate::standings::{ctot_in, delay_in, reg_in};
use arrayvec::ArrayVec;
use casa_difference::{Comparison, Difference, Standing, Totals};
use casa_flight::RegId;
use casa_report::{day_line, push_left, push_name, push_number, push_number_or_hyphen, push_time};
use jiff::civil::Date;
use std::alloc::{AllocError, Global};

/// The titles above the totals.
const TOTALS: &[u8] = b"DAY        REGS SLOTS GOVERNED ISSUED FORCED OVER    DELAY  MEAN LONGEST\n";

/// The titles above the flights.
const FLIGHTS: &[u8] = b"\nKEY        BASE       CTOT  DELAY VARIANT    CTOT  DELAY\n";

/// There is room for ten characters of the day, 40 of each number, and ten that end the columns.
type TotalsLine = ArrayVec<u8, 400>;

/// There is room for ten characters of the key, and for 10 of a regulation, 4 of a time and 40 of a delay on either day, and
/// for seven that end the columns.
type FlightLine = ArrayVec<u8, 128>;

/// What differs between two days, as a text: a heading with the date, as `CASA 2025-06-01`; a table with a line for what all
/// regulations of each day cost together, and a line for the differences, which are those of the second day less those of
/// the first; and a table with a line for each flight that does not stand alike on both, if there are any. Times are hours
/// and minutes, delays seconds.
///
/// `AllocError` where there is no memory for it.
pub fn compare_text(alloc: Global, day: Date, found: &Comparison) -> Result<Vec<u8>, AllocError>
    ensures { IfOk result (λ text. text.items ≡ compare_text day found.now) }
{
    let mut text = Vec::new(alloc);
    let heading = day_line(alloc, day)?;
    text.extend_from_slice(heading.as_bytes())?;
    push_totals(&mut text, &found.base, &found.variant)?;
    push_flights(&mut text, found.flights.as_slice())?;
    Ok(text)
}

/// Appends the table of the totals.
fn push_totals(text: &mut Vec<u8>, base: &Totals, variant: &Totals) -> Result<(), AllocError>
    ensures { OnOk result (text.new.items ≡ text.old.items ++ totals_table base.now variant.now) }
{
    text.extend_from_slice(TOTALS)?;
    text.extend_from_slice(figures_line(b"base", base).as_slice())?;
    text.extend_from_slice(figures_line(b"variant", variant).as_slice())?;
    text.extend_from_slice(changes_line(base, variant).as_slice())?;
    Ok(())
}

/// The line of what the regulations of a day cost together, behind what the day is called.
fn figures_line(day: &[u8], totals: &Totals) -> TotalsLine
    requires { length day.now ≤ 10 }
    ensures { result.items ≡ shown_line totals_columns (figures day.now totals.now) }
{
    let cost = &totals.cost;
    let mut line = TotalsLine::new();
    push_left(&mut line, day, 10, b' ');
    push_number(&mut line, totals.regulations as u128, 4, b' ');
    push_number(&mut line, cost.slots, 5, b' ');
    push_number(&mut line, cost.governed, 8, b' ');
    push_number(&mut line, cost.issued, 6, b' ');
    push_number(&mut line, cost.forced, 6, b' ');
    push_number(&mut line, cost.over, 4, b' ');
    push_number(&mut line, cost.delay, 8, b' ');
    push_number_or_hyphen(&mut line, cost.mean(), 5, b' ');
    push_number(&mut line, cost.longest as u128, 7, b'\n');
    line
}

/// The line of the differences between what the regulations of two days cost.
fn changes_line(base: &Totals, variant: &Totals) -> TotalsLine
    ensures { result.items ≡ shown_line totals_columns (changes base.now variant.now) }
{
    let (from, to) = (&base.cost, &variant.cost);
    let (open, opened) = (base.regulations as u128, variant.regulations as u128);
    let mut line = TotalsLine::new();
    push_left(&mut line, b"difference", 10, b' ');
    push_change(&mut line, open, opened, 4, b' ');
    push_change(&mut line, from.slots, to.slots, 5, b' ');
    push_change(&mut line, from.governed, to.governed, 8, b' ');
    push_change(&mut line, from.issued, to.issued, 6, b' ');
    push_change(&mut line, from.forced, to.forced, 6, b' ');
    push_change(&mut line, from.over, to.over, 4, b' ');
    push_change(&mut line, from.delay, to.delay, 8, b' ');
    push_change_or_hyphen(&mut line, from.mean(), to.mean(), 5, b' ');
    push_change(
        &mut line,
        from.longest as u128,
        to.longest as u128,
        7,
        b'\n',
    );
    line
}

/// Appends the table of the flights, if there are any.
fn push_flights(text: &mut Vec<u8>, flights: &[Difference]) -> Result<(), AllocError>
    ensures { OnOk result (text.new.items ≡ text.old.items ++ section flight_columns flights.now) }
{
    if flights.is_empty() {
        return Ok(());
    }
    text.extend_from_slice(FLIGHTS)?;
    for flight in flights {
        text.extend_from_slice(flight_line(flight).as_slice())?;
    }
    Ok(())
}

/// The line of a flight.
fn flight_line(flight: &Difference) -> FlightLine
    ensures { result.items ≡ shown_line flight_columns flight.now }
{
    let mut line = FlightLine::new();
    push_name(&mut line, &flight.key);
    push_standing(&mut line, &flight.base, b' ');
    push_standing(&mut line, &flight.variant, b'\n');
    line
}

/// Appends how a flight stands on a day, and what ends the last column.
fn push_standing(line: &mut FlightLine, standing: &Option<Standing>, end: u8)
    requires { array_vec_len line.old + 57 ≤ 128 }
    ensures text { line.new.items ≡ line.old.items ++ standing_columns standing.now end }
    ensures len { array_vec_len line.new ≤ array_vec_len line.old + 57 }
{
    push_reg(line, &reg_in(standing));
    push_ctot(line, ctot_in(standing));
    push_number_or_hyphen(line, delay_in(standing), 6, end);
}

/// Appends a regulation in its column, or a hyphen where there is none.
fn push_reg(line: &mut FlightLine, reg: &Option<RegId>)
    requires { array_vec_len line.old + 11 ≤ 128 }
    ensures text { line.new.items ≡ line.old.items ++ reg_column reg.now }
    ensures len { array_vec_len line.new ≤ array_vec_len line.old + 11 }
{
    match reg {
        Some(reg) => push_name(line, reg),
        None => push_left(line, b"-", 10, b' '),
    }
}

/// Appends a calculated take-off time in its column, or a hyphen where there is none.
fn push_ctot(line: &mut FlightLine, ctot: Option<u32>)
    requires { array_vec_len line.old + 5 ≤ 128 }
    ensures text { line.new.items ≡ line.old.items ++ ctot_column ctot }
    ensures len { array_vec_len line.new ≤ array_vec_len line.old + 5 }
{
    match ctot {
        Some(ctot) => push_time(line, ctot),
        None => push_left(line, b"-", 4, b' '),
    }
}

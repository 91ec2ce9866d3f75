//! Demand and capacity of a regulation as a table with bars.

ghost use Rattle.std.specs.Prelude.{◌≡◌, ◌+◌, ◌*◌, ◌<◌, ◌≤◌, [], ◌∷◌, ◌++◌, IfOk, OnOk};
ghost use Rattle.std.specs.Int.{div_ceil};
ghost use Rattle.arrayvec.specs.ArrayVec.{array_vec_len};
ghost use Rattle.casa_report.specs.Columns.{left, titles};
ghost use Rattle.casa_report.specs.LoadTable.{bar, calculated_line, columns, each_of, greatest, IsShort, load_table, load_text, longest_bar, planned_line, step_lines, sums_line, time_text};

use crate::columns::{push_left, push_number, push_repeated, push_text, push_time};
use crate::heading_line::heading_line;
use arrayvec::ArrayVec;
use casa_flight::RegId;
use casa_inquiry::{Load, Step};
use casa_time::Moment;
use jiff::civil::Date;
use std::alloc::{AllocError, Global};

/// The most characters of a bar beside its line for the slots.
const LONGEST_BAR: usize = 44;

/// There is room for two lines, each with 35 characters and a bar, and for what three numbers of at most 40 characters
/// are wider than their columns.
type Lines = ArrayVec<u8, 320>;

/// Demand and capacity of a regulation as a text: a heading with the regulation and the day, a line of titles, two lines for
/// each step with the figures and their bars, and the sums.
///
/// `AllocError` where there is no memory for it.
pub fn load_text(alloc: Global, day: Date, reg: &RegId, load: &Load) -> Result<Vec<u8>, AllocError>
    ensures { IfOk result (λ text. text.items
        ≡ load_text reg.now day load.now.steps.items load.now.flights load.now.slots) }
{
    let mut text = Vec::new(alloc);
    let heading = heading_line(alloc, day, reg)?;
    text.extend_from_slice(heading.as_bytes())?;
    push_table(load, &mut text)?;
    Ok(text)
}

/// Appends the table.
fn push_table(load: &Load, text: &mut Vec<u8>) -> Result<(), AllocError>
    ensures { OnOk result (text.new.items ≡ text.old.items
        ++ load_table load.now.steps.items load.now.flights load.now.slots) }
{
    let steps = load.steps.as_slice();
    let each = each_of(steps);
    text.extend_from_slice(header(each).as_slice())?;
    'steps: for step in steps {
        text.extend_from_slice(step_lines(each, step).as_slice())?;
    }
    text.extend_from_slice(sums_line(load.flights, load.slots).as_slice())
}

/// For how many flights a character stands in the bars of these steps.
fn each_of(steps: &[Step]) -> usize
    ensures { result ≡ each_of steps.now }
{
    greatest(steps).div_ceil(LONGEST_BAR).max(1)
}

/// The greatest number of these steps.
fn greatest(steps: &[Step]) -> usize
    ensures { result ≡ greatest steps.now }
{
    let mut greatest = 0;
    'steps: for step in steps {
        greatest = greatest.max(step.planned.max(step.slots.max(step.calculated)));
    }
    greatest
}

/// The line of titles.
fn header(each: usize) -> Lines
    ensures { result.items ≡ titles (columns each) }
{
    let mut line = Lines::new();
    push_text(
        &mut line,
        b"FROM TO   PLANNED SLOTS CALCULATED FLIGHTS A CHARACTER: ",
    );
    push_number(&mut line, each as u128, 0, b'\n');
    line
}

/// The lines of a step whose bars are not too long.
fn step_lines(each: usize, step: &Step) -> Lines
    requires some { 0 < each }
    requires short { IsShort each step.now }
    ensures { result.items ≡ step_lines each step.now }
{
    let mut lines = planned_line(each, step);
    push_calculated_line(&mut lines, each, step);
    lines
}

/// The line with the figures of a step and the bar of what is planned.
fn planned_line(each: usize, step: &Step) -> Lines
    requires some { 0 < each }
    requires short { IsShort each step.now }
    ensures text { result.items ≡ planned_line each step.now }
    ensures len { array_vec_len result ≤ 180 }
{
    let mut line = Lines::new();
    push_time(&mut line, step.span.from.secs());
    push_until(&mut line, step.span.until);
    push_number(&mut line, step.planned as u128, 7, b' ');
    push_number(&mut line, step.slots as u128, 5, b' ');
    push_number(&mut line, step.calculated as u128, 10, b' ');
    let (long, mark) = (length_of(each, step.planned), length_of(each, step.slots));
    push_bar(&mut line, b'o', long, mark);
    line
}

/// Appends the bar of what is calculated.
fn push_calculated_line(lines: &mut Lines, each: usize, step: &Step)
    requires room { array_vec_len lines.old + 81 ≤ 320 }
    requires some { 0 < each }
    requires short { IsShort each step.now }
    ensures text { lines.new.items ≡ lines.old.items ++ calculated_line each step.now }
{
    push_repeated(lines, b' ', 35);
    push_bar(
        lines,
        b'*',
        length_of(each, step.calculated),
        length_of(each, step.slots),
    );
}

/// How long the bar for so many flights is, if it is not too long.
fn length_of(each: usize, flights: usize) -> usize
    requires some { 0 < each }
    requires short { flights ≤ longest_bar * each }
    ensures value { result ≡ div_ceil flights each }
    ensures short { result ≤ longest_bar }
{
    flights.div_ceil(each)
}

/// Appends the end of a span in its column, or a hyphen where there is none.
fn push_until(line: &mut Lines, until: Option<Moment>)
    requires { array_vec_len line.old + 5 ≤ 320 }
    ensures text { line.new.items ≡ line.old.items ++ (left 4 (time_text until) ++ 32 ∷ []) }
    ensures len { array_vec_len line.new ≤ array_vec_len line.old + 5 }
{
    match until {
        Some(until) => push_time(line, until.secs()),
        None => push_left(line, b"-", 4, b' '),
    }
}

/// Appends a bar and ends the line.
fn push_bar(line: &mut Lines, character: u8, long: usize, mark: usize)
    requires room { array_vec_len line.old + 46 ≤ 320 }
    requires long { long ≤ longest_bar }
    requires mark { mark ≤ longest_bar }
    ensures text { line.new.items ≡ line.old.items ++ (bar character long mark ++ 10 ∷ []) }
    ensures len { array_vec_len line.new ≤ array_vec_len line.old + 46 }
{
    push_repeated(line, character, long.min(mark));
    push_repeated(line, b' ', mark.saturating_sub(long));
    line.push(b'|');
    push_repeated(line, character, long.saturating_sub(mark));
    line.push(b'\n');
}

/// The line of the sums.
fn sums_line(flights: usize, slots: usize) -> Lines
    ensures { result.items ≡ sums_line flights slots }
{
    let mut line = Lines::new();
    push_left(&mut line, b"all", 4, b' ');
    push_left(&mut line, b"-", 4, b' ');
    push_number(&mut line, flights as u128, 7, b' ');
    push_number(&mut line, slots as u128, 5, b' ');
    push_number(&mut line, flights as u128, 10, b'\n');
    line
}

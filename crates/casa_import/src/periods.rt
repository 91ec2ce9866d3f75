//! Rows of regulations, each with the period that it says.

ghost use Rattle.std.specs.Prelude.{◌≡◌, IfOk, map};
ghost use Rattle.casa_import.specs.Periods.{period_of, rate_in, reg_in, said_row};

use crate::columns::RegulationColumns;
use crate::fields::{even, location_in, moment_in, number_of};
use crate::reason::Reason;
use casa_filing::{Loc, RegId};
use casa_grid::Period;
use casa_rows::Row;
use jiff::civil::Date;
use std::alloc::{AllocError, Global};

/// A period of a regulation, as a row says it.
#[derive(Clone, Copy, Debug)]
pub(crate) struct RegulationPeriod {
    pub(crate) reg: RegId,
    pub(crate) loc: Loc,
    pub(crate) period: Period,
}

/// A row of regulations.
#[derive(Clone, Copy, Debug)]
pub(crate) struct RegulationRow {
    pub(crate) line: u64,
    /// The identifier that stands in it, also where the row is left out.
    pub(crate) reg: Result<RegId, Reason>,
    pub(crate) said: Result<RegulationPeriod, Reason>,
}

/// The identifier in a column.
fn reg_in(column: usize, row: &Row) -> Result<RegId, Reason>
    ensures { result ≡ reg_in column row.now }
{
    match RegId::new(row.text(column)) {
        Some(reg) => Ok(reg),
        None => Err(Reason::BadReg(column)),
    }
}

/// The rate in a column.
fn rate_in(column: usize, row: &Row) -> Result<u32, Reason>
    ensures { result ≡ rate_in column row.now }
{
    match number_of(row.text(column)) {
        Some(rate) => Ok(rate),
        None => Err(Reason::BadRate(column)),
    }
}

/// The period that a row says.
fn period_of(day: Date, columns: &RegulationColumns, row: &Row) -> Result<RegulationPeriod, Reason>
    ensures { result ≡ period_of day columns.now row.now }
{
    even(columns.width, row)?;
    let reg = reg_in(columns.reg, row)?;
    let loc = location_in(columns.loc, row)?;
    let begin = moment_in(day, columns.from, row)?;
    let until = moment_in(day, columns.to, row)?;
    let rate = rate_in(columns.rate, row)?;
    let period = Period { begin, until, rate };
    Ok(RegulationPeriod { reg, loc, period })
}

fn said_row(day: Date, columns: &RegulationColumns, row: &Row) -> RegulationRow
    ensures { result ≡ said_row day columns.now row.now }
{
    RegulationRow {
        line: row.line,
        reg: reg_in(columns.reg, row),
        said: period_of(day, columns, row),
    }
}

/// What rows say, each by itself.
pub(crate) fn said_rows(
    alloc: Global,
    day: Date,
    columns: &RegulationColumns,
    rows: &[Row],
) -> Result<Vec<RegulationRow>, AllocError>
    ensures { IfOk result (λ said. said.items ≡ map (said_row day columns.now) rows.now) }
{
    rows.iter()
        .map(|row| said_row(day, columns, row))
        .collect(alloc)
}

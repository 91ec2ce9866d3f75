//! A report as comma-separated values.

ghost use Rattle.std.specs.Prelude.{◌≡◌, ◌++◌, IfOk, OnOk};
ghost use Rattle.jiff_core.specs.declared.civil.date.Date.{Date as Plain};
ghost use Rattle.casa_report.specs.Csv.{record_line, titles_line};
ghost use Rattle.casa_report.specs.ReportCsv.{report_csv, report_fields};
ghost use Rattle.casa_report.specs.Table.{kind_text};

use crate::csv::{Value, number_or_absent, push_values};
use casa_flight::{Kind, RegId};
use casa_selection::{ReportRow, delay_in_list};
use jiff::civil::Date;
use std::alloc::{AllocError, Global};

/// The titles of a report on one regulation.
const TITLES: &[u8] = b"KEY,ETO,CTO,DELAY,KIND,SLOT\n";

/// The titles of a report on all regulations.
const TITLES_OF_ALL: &[u8] = b"REG,KEY,ETO,CTO,DELAY,KIND,SLOT\n";

/// A report as comma-separated values: a line of titles, and a line for each row, in their order. On all regulations (`None`)
/// each line begins with the row's regulation. Times are dates with times of day in UTC, as `2025-06-01T10:00:05`, delays
/// seconds, and a value that is not there is empty.
///
/// `AllocError` where there is no memory for it.
pub fn report_csv(
    alloc: Global,
    day: Date,
    reg: &Option<RegId>,
    rows: &[ReportRow],
) -> Result<Vec<u8>, AllocError>
    ensures { IfOk result (λ text. text.items ≡ report_csv reg.now day rows.now) }
{
    let mut text = Vec::from_slice(alloc, titles(reg))?;
    for row in rows {
        push_row(alloc, &mut text, day, reg, row)?;
    }
    Ok(text)
}

/// The line of titles.
fn titles(reg: &Option<RegId>) -> &'static [u8]
    ensures { (day : Plain) → result.now ≡ titles_line (report_fields reg.now day) }
{
    match reg {
        Some(_) => TITLES,
        None => TITLES_OF_ALL,
    }
}

/// Appends the line of a row.
fn push_row(
    alloc: Global,
    out: &mut Vec<u8>,
    day: Date,
    reg: &Option<RegId>,
    row: &ReportRow,
) -> Result<(), AllocError>
    ensures { OnOk result (out.new.items
        ≡ out.old.items ++ record_line (report_fields reg.now day) row.now) }
{
    let listed = &row.row;
    let values = [
        Value::Plain(row.reg.as_bytes()),
        Value::Plain(listed.key.as_bytes()),
        Value::Moment(listed.eto.secs()),
        Value::Moment(listed.cto),
        Value::Number(delay_in_list(listed) as u128),
        Value::Plain(kind_text(listed.kind)),
        number_or_absent(listed.slot.get().map(|slot| slot as u128)),
    ];
    match reg {
        Some(_) => push_values(alloc, out, day, &values[1..]),
        None => push_values(alloc, out, day, &values),
    }
}

/// How a flight stands.
pub(crate) fn kind_text(kind: Kind) -> &'static [u8]
    ensures { result.now ≡ kind_text kind }
{
    match kind {
        Kind::Pre => b"pre",
        Kind::Issued => b"issued",
        Kind::Forced => b"forced",
    }
}

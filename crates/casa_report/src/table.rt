//! A report as a table.

ghost use Rattle.std.specs.Prelude.{◌≡◌, ◌+◌, ◌≤◌, [], ◌∷◌, ◌++◌, IfOk, OnOk, string_bytes};
ghost use Rattle.arrayvec.specs.ArrayVec.{array_vec_len};
ghost use Rattle.casa_report.specs.Columns.{left, shown_line, titles};
ghost use Rattle.casa_report.specs.Table.{kind_text, report_columns, report_heading, report_table, report_text, row_columns, row_line};

use crate::columns::{push_left, push_name, push_number, push_number_or_hyphen, push_time};
use crate::heading_line::heading_line;
use crate::summary::day_line;
use arrayvec::ArrayVec;
use casa_flight::{Kind, RegId};
use casa_selection::{ReportRow, delay_in_list};
use jiff::civil::Date;
use std::alloc::{AllocError, Global};

/// The line above the rows of a regulation.
const TITLES: &[u8] = b"KEY        ETO  CTO   DELAY KIND    SLOT\n";

/// The line above the rows of all regulations.
const TITLES_OF_ALL: &[u8] = b"REG        KEY        ETO  CTO   DELAY KIND    SLOT\n";

/// There is room for 20 characters of the regulation and the key, 8 of the times, 6 of the kind, 40 each of the delay and the
/// slot, and seven that end the columns.
type Line = ArrayVec<u8, 123>;

/// A report as a text: a heading with the regulation and the day, as `CASA R1 2025-06-01`, a line of titles, and a line for
/// each row, in their order. On all regulations (`None`) the heading has the day alone, and each line begins with the row's
/// regulation. Times are hours and minutes, delays seconds.
///
/// `AllocError` where there is no memory for it.
pub fn report_text(
    alloc: Global,
    day: Date,
    reg: &Option<RegId>,
    rows: &[ReportRow],
) -> Result<Vec<u8>, AllocError>
    ensures { IfOk result (λ text. text.items ≡ report_text reg.now day rows.now) }
{
    let mut text = Vec::new(alloc);
    let heading = report_heading(alloc, day, reg)?;
    text.extend_from_slice(heading.as_bytes())?;
    report_table(reg, rows, &mut text)?;
    Ok(text)
}

/// The line above the table.
fn report_heading(alloc: Global, day: Date, reg: &Option<RegId>) -> Result<String, AllocError>
    ensures { IfOk result (λ line. string_bytes line ≡ report_heading reg.now day) }
{
    match reg {
        Some(reg) => heading_line(alloc, day, reg),
        None => day_line(alloc, day),
    }
}

/// Appends a line of titles and a line for each row, in their order; on all regulations (`None`) each line begins with the
/// row's regulation.
///
/// `AllocError` where the text has no room for them and there is no memory for more.
pub fn report_table(
    reg: &Option<RegId>,
    rows: &[ReportRow],
    text: &mut Vec<u8>,
) -> Result<(), AllocError>
    ensures { OnOk result (text.new.items ≡ text.old.items ++ report_table reg.now rows.now) }
{
    text.extend_from_slice(titles(reg))?;
    for row in rows {
        text.extend_from_slice(row_line(reg, row).as_slice())?;
    }
    Ok(())
}

/// The line above the rows.
fn titles(reg: &Option<RegId>) -> &'static [u8]
    ensures { result.now ≡ titles (report_columns reg.now) }
{
    match reg {
        Some(_) => TITLES,
        None => TITLES_OF_ALL,
    }
}

/// The line of a row.
fn row_line(reg: &Option<RegId>, row: &ReportRow) -> Line
    ensures { result.items ≡ row_line reg.now row.now }
{
    let mut line = Line::new();
    if reg.is_none() {
        push_name(&mut line, &row.reg);
    }
    push_row(&mut line, row);
    line
}

/// Appends what a row has in its list.
fn push_row(line: &mut Line, row: &ReportRow)
    requires { array_vec_len line.old ≤ 11 }
    ensures { line.new.items ≡ line.old.items ++ shown_line row_columns row.now }
{
    let listed = &row.row;
    push_name(line, &listed.key);
    push_time(line, listed.eto.secs());
    push_time(line, listed.cto);
    push_number(line, delay_in_list(listed) as u128, 6, b' ');
    push_kind(line, listed.kind);
    push_number_or_hyphen(line, listed.slot.get().map(|slot| slot as u128), 5, b'\n');
}

/// Appends how a flight stands in its column.
fn push_kind(line: &mut Line, kind: Kind)
    requires { array_vec_len line.old + 7 ≤ 123 }
    ensures text { line.new.items ≡ line.old.items ++ (left 6 (kind_text kind) ++ 32 ∷ []) }
    ensures len { array_vec_len line.new ≤ array_vec_len line.old + 7 }
{
    match kind {
        Kind::Pre => push_left(line, b"pre", 6, b' '),
        Kind::Issued => push_left(line, b"issued", 6, b' '),
        Kind::Forced => push_left(line, b"forced", 6, b' '),
    }
}

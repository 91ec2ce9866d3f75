//! The rows of a report.

ghost use Rattle.std.specs.Prelude.{◌≡◌, ◌++◌, IfOk, OnErr, OnOk};
ghost use Rattle.std.specs.Ordering.{is_lt};
ghost use Rattle.casa_selection.specs.Rows.{by_delay, delay_in_list, rows_in, rows_in_all, waits_longer};

use casa_flight::{ListReply, ListRow, RegId};
use std::alloc::{AllocError, Global};
use std::cmp::Ordering;

/// A row of a list, with the list's regulation.
#[derive(Clone, Copy, PartialEq, Eq, Debug)]
pub struct ReportRow {
    pub reg: RegId,
    pub row: ListRow,
}

/// For how long a flight is delayed in its list, in seconds.
pub fn delay_in_list(row: &ListRow) -> u32
    ensures { result ≡ delay_in_list row.now }
{
    row.cto.saturating_sub(row.eto.secs())
}

/// The rows of a list, in its order.
///
/// `AllocError` where there is no memory for them.
pub fn rows_in(alloc: Global, list: &ListReply) -> Result<Vec<ReportRow>, AllocError>
    ensures { IfOk result (λ rows. rows.items ≡ rows_in list.now) }
{
    let mut rows = Vec::with_capacity(alloc, list.rows.as_slice().len())?;
    push_rows(&mut rows, list)?;
    Ok(rows)
}

/// The rows of several lists, one list behind the other.
///
/// `AllocError` where there is no memory for them.
pub fn rows_in_all(alloc: Global, lists: &[ListReply]) -> Result<Vec<ReportRow>, AllocError>
    ensures { IfOk result (λ rows. rows.items ≡ rows_in_all lists.now) }
{
    let mut rows = Vec::new(alloc);
    for list in lists {
        push_rows(&mut rows, list)?;
    }
    Ok(rows)
}

/// Appends the rows of a list.
fn push_rows(rows: &mut Vec<ReportRow>, list: &ListReply) -> Result<(), AllocError>
    ensures { OnOk result (rows.new.items ≡ rows.old.items ++ rows_in list.now) }
{
    for row in list.rows.as_slice() {
        rows.push(ReportRow {
            reg: list.reg,
            row: *row,
        })?;
    }
    Ok(())
}

/// Puts the rows with the longest delay first; rows of equal delay stay as they stood.
///
/// `AllocError` where there is no memory for that; the rows are then as they were.
pub fn sort_by_delay(rows: &mut Vec<ReportRow>) -> Result<(), AllocError>
    ensures sorted { OnOk result (rows.new.items ≡ by_delay rows.old.items) }
    ensures unchanged { OnErr result (rows.new.items ≡ rows.old.items) }
{
    rows.sort_by(|a, b| compare_delays(a, b))?;
    Ok(())
}

/// How rows compare by delay: the longer one comes first.
fn compare_delays(a: &ReportRow, b: &ReportRow) -> Ordering
    ensures { is_lt result ≡ waits_longer a.now b.now }
{
    delay_in_list(&b.row).cmp(&delay_in_list(&a.row))
}

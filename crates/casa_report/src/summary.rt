//! What each regulation costs, as a table, and what all cost together.

ghost use Rattle.std.specs.Prelude.{◌≡◌, ◌+◌, ◌≤◌, ◌++◌, IfOk, OnOk, length, string_bytes};
ghost use Rattle.arrayvec.specs.ArrayVec.{array_vec_len};
ghost use Rattle.casa_report.specs.SummaryTable.{cost_header, cost_line, day_line, regulation_line, summary_table, summary_text, totals_line};

use crate::columns::{push_left, push_number, push_number_or_hyphen};
use arrayvec::ArrayVec;
use casa_flight::ListReply;
use casa_inquiry::Cost;
use casa_time::hhmm;
use jiff::civil::Date;
use std::alloc::{AllocError, Global};

/// The line above the regulations.
const HEADER: &[u8] =
    b"REG        LOC        FROM TO   SLOTS GOVERNED ISSUED FORCED OVER    DELAY  MEAN LONGEST\n";

/// There is room for ten characters each of a regulation and its location, 8 of its times, 40 of each number, and twelve that
/// end the columns.
type Line = ArrayVec<u8, 360>;

/// What regulations cost, by their lists, as a text: a heading with the day, as `CASA 2025-06-01`, a line of titles, a line
/// for each regulation, and a line for all together.
///
/// `AllocError` where there is no memory for it, or where the delays of all flights, added up, do not fit in 128 bits.
pub fn summary_text(alloc: Global, day: Date, lists: &[ListReply]) -> Result<Vec<u8>, AllocError>
    ensures { IfOk result (λ text. text.items ≡ summary_text day lists.now) }
{
    let mut text = Vec::new(alloc);
    let heading = day_line(alloc, day)?;
    text.extend_from_slice(heading.as_bytes())?;
    push_table(lists, &mut text)?;
    Ok(text)
}

/// The line above what is told of a day, as `CASA 2025-06-01`. `AllocError` where there is no memory for it.
pub fn day_line(alloc: Global, day: Date) -> Result<String, AllocError>
    ensures { IfOk result (λ line. string_bytes line ≡ day_line day) }
{
    format!(in alloc; "CASA {day}\n")
}

/// Appends the table.
fn push_table(lists: &[ListReply], text: &mut Vec<u8>) -> Result<(), AllocError>
    ensures { OnOk result (text.new.items ≡ text.old.items ++ summary_table lists.now) }
{
    text.extend_from_slice(HEADER)?;
    for list in lists {
        text.extend_from_slice(regulation_line(list).as_slice())?;
    }
    let Some(cost) = Cost::of_all(lists) else {
        return Err(AllocError);
    };
    text.extend_from_slice(totals_line(&cost).as_slice())?;
    Ok(())
}

/// The line of a regulation, by its list.
fn regulation_line(list: &ListReply) -> Line
    ensures { result.items ≡ regulation_line list.now }
{
    let (start, end) = (hhmm(list.start.secs()), hhmm(list.end.secs()));
    let _short = (list.reg.len(), list.loc.len());
    cost_line(
        list.reg.as_bytes(),
        list.loc.as_bytes(),
        &start,
        &end,
        &Cost::of(list),
    )
}

/// The line of all regulations together, by what they cost.
fn totals_line(cost: &Cost) -> Line
    ensures { result.items ≡ totals_line cost.now }
{
    cost_line(b"all", b"-", b"-", b"-", cost)
}

/// The line with these texts in its first columns, and a cost in the others.
fn cost_line(reg: &[u8], loc: &[u8], start: &[u8], end: &[u8], cost: &Cost) -> Line
    requires reg { length reg.now ≤ 10 }
    requires loc { length loc.now ≤ 10 }
    requires start { length start.now ≤ 4 }
    requires end { length end.now ≤ 4 }
    ensures { result.items ≡ cost_line
        (record {
          reg = reg.now;
          loc = loc.now;
          start = start.now;
          end = end.now;
          cost = cost.now;
        }) }
{
    let mut line = Line::new();
    push_left(&mut line, reg, 10, b' ');
    push_left(&mut line, loc, 10, b' ');
    push_left(&mut line, start, 4, b' ');
    push_left(&mut line, end, 4, b' ');
    push_number(&mut line, cost.slots, 5, b' ');
    push_number(&mut line, cost.governed, 8, b' ');
    push_number(&mut line, cost.issued, 6, b' ');
    push_number(&mut line, cost.forced, 6, b' ');
    push_number(&mut line, cost.over, 4, b' ');
    push_number(&mut line, cost.delay, 8, b' ');
    push_number_or_hyphen(&mut line, cost.mean(), 5, b' ');
    push_number(&mut line, cost.longest as u128, 7, b'\n');
    line
}

//! Reports, and a regulation's demand and capacity, as JSON.

ghost use Rattle.std.specs.Prelude.{◌≡◌, IfOk};
ghost use Rattle.casa_report.specs.Json.{load_json, report_json, reports_json, rows_json};

use crate::json::push_day;
use casa_flight::{ListReply, RegId};
use casa_inquiry::Load;
use casa_json::push_array;
use casa_selection::ReportRow;
use casa_wire::{Part, push_list, push_parts, push_text};
use jiff::civil::Date;
use std::alloc::{AllocError, Global};

/// A regulation's list as JSON, in one line: an object with `day`, as `"2025-06-01"`; `list`, as the reply to the call `list`
/// has it; and `reg`, the regulation. Times are in seconds from midnight UTC.
///
/// `AllocError` where there is no memory for it.
pub fn report_json(
    alloc: Global,
    day: Date,
    reg: &RegId,
    list: &ListReply,
) -> Result<Vec<u8>, AllocError>
    ensures { IfOk result (λ text. text.items ≡ report_json day reg.now list.now) }
{
    let mut text = Vec::new(alloc);
    push_day(alloc, &mut text, day)?;
    push_text(&mut text, b",\"list\":")?;
    push_list(&mut text, list)?;
    push_parts(
        &mut text,
        &[
            Part::Text(b",\"reg\":"),
            Part::Name(reg.as_bytes()),
            Part::Text(b"}\n"),
        ],
    )?;
    Ok(text)
}

/// The lists of all regulations as JSON, in one line: an object with `day`, as `"2025-06-01"`, and `lists`, each list as the
/// reply to the call `list` has it. Times are in seconds from midnight UTC.
///
/// `AllocError` where there is no memory for it.
pub fn reports_json(alloc: Global, day: Date, lists: &[ListReply]) -> Result<Vec<u8>, AllocError>
    ensures { IfOk result (λ text. text.items ≡ reports_json day lists.now) }
{
    let mut text = Vec::new(alloc);
    push_day(alloc, &mut text, day)?;
    push_text(&mut text, b",\"lists\":")?;
    push_array(&mut text, lists)?;
    push_text(&mut text, b"}\n")?;
    Ok(text)
}

/// Rows of whichever lists as JSON, in one line: an object with `day`, as `"2025-06-01"`, and `rows`, an object for each row, in
/// their order: what it has in the reply to the call `list`, its `delay` in seconds, and its regulation (`reg`). Times are in
/// seconds from midnight UTC.
///
/// `AllocError` where there is no memory for it.
pub fn rows_json(alloc: Global, day: Date, rows: &[ReportRow]) -> Result<Vec<u8>, AllocError>
    ensures { IfOk result (λ text. text.items ≡ rows_json day rows.now) }
{
    let mut text = Vec::new(alloc);
    push_day(alloc, &mut text, day)?;
    push_text(&mut text, b",\"rows\":")?;
    push_array(&mut text, rows)?;
    push_text(&mut text, b"}\n")?;
    Ok(text)
}

/// Demand and capacity of a regulation as JSON, in one line: an object with `day`, as `"2025-06-01"`; `reg`, the regulation;
/// and `steps`, an object for each step: when it is (`from`, and `to`, null for what is behind the end), in seconds from
/// midnight UTC, and how many flights are `planned` in it, how many `slots` begin, and how many flights are `calculated`.
///
/// `AllocError` where there is no memory for it.
pub fn load_json(alloc: Global, day: Date, reg: &RegId, load: &Load) -> Result<Vec<u8>, AllocError>
    ensures { IfOk result (λ text. text.items ≡ load_json day reg.now load.now.steps.items) }
{
    let mut text = Vec::new(alloc);
    push_day(alloc, &mut text, day)?;
    push_parts(
        &mut text,
        &[
            Part::Text(b",\"reg\":"),
            Part::Name(reg.as_bytes()),
            Part::Text(b",\"steps\":"),
        ],
    )?;
    push_array(&mut text, load.steps.as_slice())?;
    push_text(&mut text, b"}\n")?;
    Ok(text)
}

//! What each regulation costs, as JSON.

ghost use Rattle.std.specs.Prelude.{◌≡◌, ◌++◌, IfOk, OnOk, codes};
ghost use Rattle.serde_json.specs.Written.{compact_text};
ghost use Rattle.casa_wire.specs.LineTexts.{count, list_of, or_null};
ghost use Rattle.casa_wire.specs.Parts.{more_text};
ghost use Rattle.casa_report.specs.Json.{cost_data, summary_json};

use crate::json::push_day;
use casa_flight::ListReply;
use casa_inquiry::Cost;
use casa_json::{push_figure, push_name};
use casa_wire::push_text;
use jiff::civil::Date;
use std::alloc::{AllocError, Global};

/// What regulations cost, by their lists, as JSON, in one line: an object with `day`, as `"2025-06-01"`, and `regs`, an object
/// for each regulation: `reg` and `loc`; where its span starts (`from`) and ends (`to`), in seconds from midnight UTC; and
/// what it costs, as in a summary: `slots`, `governed`, `issued`, `forced`, `over`, and in seconds `delay`, `mean` and
/// `longest`. `mean` is null where it governs no flight.
///
/// `AllocError` where there is no memory for it.
pub fn summary_json(alloc: Global, day: Date, lists: &[ListReply]) -> Result<Vec<u8>, AllocError>
    ensures { IfOk result (λ text. text.items ≡ summary_json day lists.now) }
{
    let mut text = Vec::new(alloc);
    push_day(alloc, &mut text, day)?;
    push_text(&mut text, b",\"regs\":")?;
    push_costs(&mut text, lists)?;
    push_text(&mut text, b"}\n")?;
    Ok(text)
}

/// Appends an array of what these regulations cost.
fn push_costs(out: &mut Vec<u8>, lists: &[ListReply]) -> Result<(), AllocError>
    ensures { OnOk result (out.new.items
        ≡ out.old.items ++ compact_text (list_of cost_data lists.now)) }
{
    let Some((first, rest)) = lists.split_first() else {
        push_text(out, b"[]")?;
        return Ok(());
    };
    push_text(out, b"[")?;
    push_cost(out, first)?;
    push_more_costs(out, rest)?;
    push_text(out, b"]")?;
    Ok(())
}

/// Appends what these cost, each behind a comma.
fn push_more_costs(out: &mut Vec<u8>, lists: &[ListReply]) -> Result<(), AllocError>
    ensures { OnOk result (out.new.items ≡ out.old.items ++ more_text cost_data lists.now) }
{
    for list in lists {
        push_text(out, b",")?;
        push_cost(out, list)?;
    }
    Ok(())
}

/// Appends what a regulation costs.
fn push_cost(out: &mut Vec<u8>, list: &ListReply) -> Result<(), AllocError>
    ensures { OnOk result (out.new.items ≡ out.old.items ++ compact_text (cost_data list.now)) }
{
    let cost = Cost::of(list);
    push_figure(out, b"{\"delay\":", cost.delay)?;
    push_figure(out, b",\"forced\":", cost.forced)?;
    push_figure(out, b",\"from\":", list.start.secs() as u128)?;
    push_figure(out, b",\"governed\":", cost.governed)?;
    push_figure(out, b",\"issued\":", cost.issued)?;
    push_name(out, b",\"loc\":", list.loc.as_bytes())?;
    push_figure(out, b",\"longest\":", cost.longest as u128)?;
    push_mean(out, cost.mean())?;
    push_figure(out, b",\"over\":", cost.over)?;
    push_name(out, b",\"reg\":", list.reg.as_bytes())?;
    push_figure(out, b",\"slots\":", cost.slots)?;
    push_figure(out, b",\"to\":", list.end.secs() as u128)?;
    push_text(out, b"}")?;
    Ok(())
}

/// Appends the mean delay as a member, null where there is none. `AllocError` where there is no memory for it; some of it may
/// then stand there.
pub fn push_mean(out: &mut Vec<u8>, mean: Option<u128>) -> Result<(), AllocError>
    ensures { OnOk result (out.new.items
        ≡ out.old.items ++ (codes ",\"mean\":" ++ compact_text (or_null count mean))) }
{
    match mean {
        Some(mean) => push_figure(out, b",\"mean\":", mean)?,
        None => push_text(out, b",\"mean\":null")?,
    }
    Ok(())
}

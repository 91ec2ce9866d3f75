//! Why a flight waits, and with which flights it could exchange its slot, as JSON.

ghost use Rattle.std.specs.Prelude.{◌≡◌, ◌++◌, IfOk, OnOk};
ghost use Rattle.serde_json.specs.Written.{compact_text};
ghost use Rattle.casa_report.specs.WhyJson.{why_data, why_json};

use crate::json::push_day;
use casa_inquiry::{PossibleExchange, Reasons};
use casa_json::{push_array, rule_name};
use casa_wire::{Part, push_flight, push_parts, push_text};
use jiff::civil::Date;
use std::alloc::{AllocError, Global};

/// Why a flight waits, and the exchanges of its slot that are possible, as JSON, in one line: an object with
/// - `day`, as `"2025-06-01"`;
/// - `exchanges`, an object for each flight with which it could exchange its slot: the calculated take-off time that the
///   flight itself would then have (`ctot`), the key of the other one (`other`), and the time that the other would then have
///   (`other_ctot`);
/// - `flight`, the flight as a reply has it;
/// - `holdings`, an object for each slot that it waits for and each flight that has it: where the slot begins (`begin`), the
///   flight's estimated time over (`eto`), its `key`, how it stands (`kind`, as in a list), and the slot's number (`slot`).
///   `eto`, `key` and `kind` are null where nobody has it;
/// - `offers`, an object for each regulation to which it is subject: the calculated time over (`cto`) and the `delay` that it
///   would have there if it entered now, and the regulation (`reg`);
/// - `rule`, the name of the rule by which it is governed, or not, as `"GreatestDelay"`.
///
/// Times are in seconds from midnight UTC, delays in seconds. `AllocError` where there is no memory for it.
pub fn why_json(
    alloc: Global,
    day: Date,
    why: &Reasons,
    exchanges: &[PossibleExchange],
) -> Result<Vec<u8>, AllocError>
    ensures { IfOk result (λ text. text.items ≡ why_json day why.now exchanges.now) }
{
    let mut text = Vec::new(alloc);
    push_reasons(alloc, &mut text, day, why, exchanges)?;
    push_text(&mut text, b"\n")?;
    Ok(text)
}

/// Appends the object.
fn push_reasons(
    alloc: Global,
    out: &mut Vec<u8>,
    day: Date,
    why: &Reasons,
    exchanges: &[PossibleExchange],
) -> Result<(), AllocError>
    ensures { OnOk result (out.new.items
        ≡ out.old.items ++ compact_text (why_data day why.now exchanges.now)) }
{
    push_day(alloc, out, day)?;
    push_text(out, b",\"exchanges\":")?;
    push_array(out, exchanges)?;
    push_text(out, b",\"flight\":")?;
    push_flight(out, &why.flight)?;
    push_text(out, b",\"holdings\":")?;
    push_array(out, why.holdings.as_slice())?;
    push_text(out, b",\"offers\":")?;
    push_array(out, why.offers.as_slice())?;
    push_parts(
        out,
        &[
            Part::Text(b",\"rule\":"),
            Part::Name(rule_name(why.rule).as_bytes()),
            Part::Text(b"}"),
        ],
    )?;
    Ok(())
}

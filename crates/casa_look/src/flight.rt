//! A flight: its plan, how it stands, why it waits, and with which flights it could exchange its slot.

ghost use Rattle.std.specs.Prelude.{◌≡◌, ◌++◌, IfOk, OnOk};
ghost use Rattle.serde_json.specs.Data.{string};
ghost use Rattle.serde_json.specs.Written.{compact_text};
ghost use Rattle.casa_wire.specs.LineTexts.{or_null};
ghost use Rattle.casa_wire.specs.Parts.{part_text};
ghost use Rattle.casa_look.specs.FlightText.{flight_text, plan_data, status_name};

use casa_flight::{Key, Plan, Sts};
use casa_inquiry::{PossibleExchange, Reasons};
use casa_json::{push_array, rule_name};
use casa_wire::{Part, push_flight, push_parts, push_text};
use std::alloc::{AllocError, Global};

/// A flight with this plan after so many calls, why it stands as it does, and the exchanges of its slot that are possible then.
///
/// An object with
/// - `exchanges`, an object for each flight with which it could exchange its slot: the calculated take-off time that the
///   flight itself would then have (`ctot`), the key of the other one (`other`), and the time that the other would then have
///   (`other_ctot`);
/// - `flight`, the flight as a reply has it;
/// - `holdings`, an object for each slot that it waits for and each flight that has it: where the slot begins (`begin`), the
///   flight's estimated time over (`eto`), its `key`, how it stands (`kind`, as in a list), and the slot's number (`slot`).
///   `eto`, `key` and `kind` are null where nobody has it;
/// - `n`, the number of the calls;
/// - `offers`, an object for each regulation to which it is subject: the calculated time over (`cto`) and the `delay` that it
///   would have there if it entered now, and the regulation (`reg`);
/// - `plan`, an object with the members of a filing: `eobt`, `key`, `sts`, `taxi` and `via`;
/// - `rule`, the name of the rule by which it is governed, or not, as `"GreatestDelay"`.
///
/// Times are seconds from midnight UTC, delays and taxi times seconds. `AllocError` where there is no memory for it.
pub fn flight_text(
    alloc: Global,
    calls: usize,
    plan: &Plan,
    why: &Reasons,
    exchanges: &[PossibleExchange],
) -> Result<Vec<u8>, AllocError>
    ensures { IfOk result (λ text. text.items
        ≡ flight_text calls plan.now why.now exchanges.now) }
{
    let mut text = Vec::new(alloc);
    push_text(&mut text, b"{\"exchanges\":")?;
    push_array(&mut text, exchanges)?;
    push_text(&mut text, b",\"flight\":")?;
    push_flight(&mut text, &why.flight)?;
    push_text(&mut text, b",\"holdings\":")?;
    push_array(&mut text, why.holdings.as_slice())?;
    push_parts(
        &mut text,
        &[
            Part::Text(b",\"n\":"),
            Part::Number(calls as u64),
            Part::Text(b",\"offers\":"),
        ],
    )?;
    push_array(&mut text, why.offers.as_slice())?;
    push_text(&mut text, b",\"plan\":")?;
    push_plan(&mut text, &plan.key(), plan)?;
    push_parts(
        &mut text,
        &[
            Part::Text(b",\"rule\":"),
            Part::Name(rule_name(why.rule).as_bytes()),
            Part::Text(b"}"),
        ],
    )?;
    Ok(text)
}

/// Writes a plan, which has this key, behind the bytes that stand there. `AllocError` where there is no memory for it; some of
/// it may then stand there.
pub(crate) fn push_plan(out: &mut Vec<u8>, key: &Key, plan: &Plan) -> Result<(), AllocError>
    requires { key.now ≡ plan.now.key }
    ensures { OnOk result (out.new.items ≡ out.old.items ++ compact_text (plan_data plan.now)) }
{
    push_parts(
        out,
        &[
            Part::Text(b"{\"eobt\":"),
            Part::Number(plan.eobt().secs() as u64),
            Part::Text(b",\"key\":"),
            Part::Name(key.as_bytes()),
            Part::Text(b",\"sts\":"),
            status_or_null(plan.sts()),
            Part::Text(b",\"taxi\":"),
            Part::Number(plan.taxi() as u64),
            Part::Text(b",\"via\":"),
        ],
    )?;
    push_array(out, plan.via())?;
    push_text(out, b"}")?;
    Ok(())
}

/// The status in quotation marks, or `null` for the plain one.
fn status_or_null(status: Sts) -> Part<'static>
    ensures { part_text result ≡ compact_text (or_null string (status_name status)) }
{
    match status {
        Sts::Plain => Part::Text(b"null"),
        Sts::Head => Part::Name(b"HEAD"),
        Sts::Sar => Part::Name(b"SAR"),
        Sts::Medevac => Part::Name(b"MEDEVAC"),
        Sts::Ffr => Part::Name(b"FFR"),
        Sts::Atfmx => Part::Name(b"ATFMX"),
    }
}

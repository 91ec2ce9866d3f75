//! Command lines, written behind the bytes of a vector.

ghost use Rattle.std.specs.Prelude.{◌≡◌, [], ◌∷◌, ◌++◌, ◌≤◌, ℕ, All, codes, map, Ok, OnOk, OnErr};
ghost use Rattle.serde_json.specs.Data.{string};
ghost use Rattle.serde_json.specs.Written.{compact_text};
ghost use Rattle.casa_wire.specs.declared.fault.Field.TheVariants.{Periods, Sts as Status};
ghost use Rattle.casa_wire.specs.Commands.{line_call};
ghost use Rattle.casa_wire.specs.LineTexts.{count, list_of, object_of, or_null};
ghost use Rattle.casa_wire.specs.Parts.{Writes};
ghost use Rattle.casa_lines.specs.Lines.{call_text, field, period_data, status_name};
ghost use Rattle.casa_lines.specs.Texts.{filed, keyed, member_of, merged, named, text_beside, value_data};

use crate::calls::sayable;
use crate::object::{Member, Value, push_object};
use casa_flight::{Call, Key, Loc, Plan, RegId, Sts};
use casa_grid::Profile;
use casa_time::Moment;
use std::alloc::AllocError;

/// Room for a line without its crossings and periods, in bytes.
const LINE_ROOM: usize = 192;

/// Room for a crossing, in bytes.
const CROSSING_ROOM: usize = 36;

/// Room for a period, in bytes.
const PERIOD_ROOM: usize = 48;

/// Writes the command line of a call, without a line end, behind the bytes that stand there. It is read as this call, and has
/// characters from the space to the tilde.
///
/// `AllocError` where there is no memory for it, and where a plan or a profile is shared too often to be counted; then the
/// bytes are as they were.
pub fn push_call(out: &mut Vec<u8>, call: &Call) -> Result<(), AllocError>
    ensures ok { OnOk result (out.new.items ≡ out.old.items ++ call_text call.now) }
    ensures err { OnErr result (out.new.items ≡ out.old.items) }
    ensures characters { OnOk result (All (λ (byte : ℕ). (32 ≤ byte) × (byte ≤ 126))
        (call_text call.now)) }
    ensures again { OnOk result (line_call (call_text call.now) ≡ Ok call.now) }
{
    let call = sayable(call.try_clone()?);
    push_call_beside(out, &call, &[])
}

/// Writes a JSON object behind the bytes that stand there: the members of a call's command line, and these, which are in the
/// order of their names.
///
/// `AllocError` where there is no memory for it; then the bytes are as they were.
pub fn push_call_beside(
    out: &mut Vec<u8>,
    call: &Call,
    beside: &[Member<'_>],
) -> Result<(), AllocError>
    ensures ok { OnOk result (out.new.items
        ≡ out.old.items ++ text_beside call.now beside.now) }
    ensures err { OnErr result (out.new.items ≡ out.old.items) }
{
    let before = out.len();
    match push_text(out, call, beside) {
        Ok(()) => Ok(()),
        Err(error) => {
            out.truncate(before);
            Err(error)
        }
    }
}

fn push_text(out: &mut Vec<u8>, call: &Call, beside: &[Member<'_>]) -> Result<(), AllocError>
    ensures { Writes result out.old.items out.new.items (text_beside call.now beside.now) }
{
    out.reserve(room_for(call))?;
    match call {
        Call::File(plan) => push_filing(out, "file", &plan.key(), plan, beside),
        Call::Amend(plan) => push_filing(out, "amend", &plan.key(), plan, beside),
        Call::Cancel(key) => push_keyed(out, "cancel", key, beside),
        Call::Revise(key) => push_keyed(out, "revise", key, beside),
        Call::Exempt(key) => push_keyed(out, "exempt", key, beside),
        Call::OpenReg(reg, loc, profile) => push_opening(out, reg, loc, profile, beside),
        Call::CloseReg(reg) => push_named(out, "close", reg, beside),
        Call::Rates(reg, profile) => push_rates(out, reg, profile, beside),
        Call::Tick(at) => push_tick(out, *at, beside),
        Call::Show(key) => push_keyed(out, "show", key, beside),
        Call::List(reg) => push_named(out, "list", reg, beside),
        Call::Swap(key, other) => push_swap(out, key, other, beside),
    }
}

/// About how many bytes the line of a call takes, at most.
fn room_for(call: &Call) -> usize {
    match call {
        Call::File(plan) | Call::Amend(plan) => {
            LINE_ROOM.saturating_add(plan.via().len().saturating_mul(CROSSING_ROOM))
        }
        Call::OpenReg(_, _, profile) | Call::Rates(_, profile) => {
            LINE_ROOM.saturating_add(profile.periods().len().saturating_mul(PERIOD_ROOM))
        }
        _ => LINE_ROOM,
    }
}

/// Writes the line of a call that has a plan, with the plan's key.
fn push_filing(
    out: &mut Vec<u8>,
    name: &'static str,
    key: &Key,
    plan: &Plan,
    beside: &[Member<'_>],
) -> Result<(), AllocError>
    requires { key.now ≡ plan.now.key }
    ensures { Writes result out.old.items out.new.items
        (compact_text (object_of (merged (filed name.now plan.now) (map member_of beside.now)))) }
{
    push_object(
        out,
        &[
            text("cmd", name.as_bytes()),
            Member::number("eobt", plan.eobt().secs() as u64),
            text("key", key.as_bytes()),
            status(plan.sts()),
            Member::number("taxi", plan.taxi() as u64),
            Member {
                name: "via",
                value: Value::Crossings(plan.via()),
            },
        ],
        beside,
    )
}

/// Writes the line of a call that has a flight's key alone.
fn push_keyed(
    out: &mut Vec<u8>,
    name: &'static str,
    key: &Key,
    beside: &[Member<'_>],
) -> Result<(), AllocError>
    ensures { Writes result out.old.items out.new.items
        (compact_text (object_of (merged (keyed name.now key.now) (map member_of beside.now)))) }
{
    push_object(
        out,
        &[text("cmd", name.as_bytes()), text("key", key.as_bytes())],
        beside,
    )
}

/// Writes the line of a call that has a regulation's identifier alone.
fn push_named(
    out: &mut Vec<u8>,
    name: &'static str,
    reg: &RegId,
    beside: &[Member<'_>],
) -> Result<(), AllocError>
    ensures { Writes result out.old.items out.new.items
        (compact_text (object_of (merged (named name.now reg.now) (map member_of beside.now)))) }
{
    push_object(
        out,
        &[text("cmd", name.as_bytes()), text("reg", reg.as_bytes())],
        beside,
    )
}

fn push_opening(
    out: &mut Vec<u8>,
    reg: &RegId,
    loc: &Loc,
    profile: &Profile,
    beside: &[Member<'_>],
) -> Result<(), AllocError>
    ensures { Writes result out.old.items out.new.items
        (text_beside (Call.OpenReg reg.now loc.now profile.now) beside.now) }
{
    push_object(
        out,
        &[
            text("cmd", b"open"),
            text("loc", loc.as_bytes()),
            periods(profile),
            text("reg", reg.as_bytes()),
        ],
        beside,
    )
}

fn push_rates(
    out: &mut Vec<u8>,
    reg: &RegId,
    profile: &Profile,
    beside: &[Member<'_>],
) -> Result<(), AllocError>
    ensures { Writes result out.old.items out.new.items
        (text_beside (Call.Rates reg.now profile.now) beside.now) }
{
    push_object(
        out,
        &[
            text("cmd", b"rates"),
            periods(profile),
            text("reg", reg.as_bytes()),
        ],
        beside,
    )
}

fn push_tick(out: &mut Vec<u8>, at: Moment, beside: &[Member<'_>]) -> Result<(), AllocError>
    ensures { Writes result out.old.items out.new.items
        (text_beside (Call.Tick at) beside.now) }
{
    push_object(
        out,
        &[Member::number("at", at.secs() as u64), text("cmd", b"tick")],
        beside,
    )
}

fn push_swap(
    out: &mut Vec<u8>,
    key: &Key,
    other: &Key,
    beside: &[Member<'_>],
) -> Result<(), AllocError>
    ensures { Writes result out.old.items out.new.items
        (text_beside (Call.Swap key.now other.now) beside.now) }
{
    push_object(
        out,
        &[
            text("cmd", b"swap"),
            text("key", key.as_bytes()),
            text("other", other.as_bytes()),
        ],
        beside,
    )
}

fn text<'a>(name: &'static str, text: &'a [u8]) -> Member<'a>
    ensures { member_of result ≡ (name.now, string text.now) }
{
    Member {
        name,
        value: Value::Name(text),
    }
}

fn periods(profile: &Profile) -> Member<'_>
    ensures { member_of result ≡ field Periods (list_of period_data profile.now) }
{
    Member {
        name: "periods",
        value: Value::Periods(profile.periods()),
    }
}

/// The status, by its name; null for the plain one.
fn status(status: Sts) -> Member<'static>
    ensures { member_of result ≡ field Status (or_null string (status_name status)) }
{
    let value = match status {
        Sts::Plain => Value::Null,
        Sts::Head => Value::Name(b"HEAD"),
        Sts::Sar => Value::Name(b"SAR"),
        Sts::Medevac => Value::Name(b"MEDEVAC"),
        Sts::Ffr => Value::Name(b"FFR"),
        Sts::Atfmx => Value::Name(b"ATFMX"),
    };
    Member { name: "sts", value }
}

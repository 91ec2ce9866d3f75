//! The members of a command, by their kinds.

ghost use Rattle.std.specs.Prelude.{◌≡◌, IfOk, option_map};
ghost use Rattle.serde_json.specs.View.{view, items_view};
ghost use Rattle.serde_json.specs.Find.{as_str};
ghost use Rattle.casa_wire.specs.Commands.{Gives, GivesAs, member, status_member};
ghost use Rattle.casa_wire.specs.Members.{all_of, crossing_of, moment_of, name_of, number_of, period_of, periods_of, status_named, status_of, via_of};

use crate::fault::{Field, WireFault};
use casa_flight::{Crossing, Key, Loc, RegId, Sts};
use casa_grid::Period;
use casa_time::Moment;
use serde_json::Value;
use std::alloc::{AllocError, Global};

/// The last second that is a moment.
const LAST_MOMENT: u64 = 172_799;

/// The greatest number that a member may be.
const MAX_NUMBER: u64 = 4_294_967_295;

/// The member as a text.
pub fn text_member<'v>(value: &'v Value, field: Field) -> Result<&'v str, WireFault>
    ensures { GivesAs (λ text. text.now) result (member field as_str (view value.now)) }
{
    match value.get(field.name()).and_then(Value::as_str) {
        Some(text) => Ok(text),
        None => Err(WireFault::BadField(field)),
    }
}

/// The member as a moment.
pub fn moment_member(value: &Value, field: Field) -> Result<Moment, WireFault>
    ensures { Gives result (member field moment_of (view value.now)) }
{
    match value.get(field.name()).and_then(moment_of) {
        Some(moment) => Ok(moment),
        None => Err(WireFault::BadField(field)),
    }
}

/// The member as a whole number.
pub fn number_member(value: &Value, field: Field) -> Result<u32, WireFault>
    ensures { Gives result (member field number_of (view value.now)) }
{
    match value.get(field.name()).and_then(number_of) {
        Some(number) => Ok(number),
        None => Err(WireFault::BadField(field)),
    }
}

/// The member as a flight's key.
pub fn key_member(value: &Value, field: Field) -> Result<Key, WireFault>
    ensures { Gives result (member field name_of (view value.now)) }
{
    match value.get(field.name()).and_then(key_of) {
        Some(key) => Ok(key),
        None => Err(WireFault::BadField(field)),
    }
}

/// The member as a regulation's identifier.
pub fn reg_id_member(value: &Value, field: Field) -> Result<RegId, WireFault>
    ensures { Gives result (member field name_of (view value.now)) }
{
    match value.get(field.name()).and_then(reg_id_of) {
        Some(id) => Ok(id),
        None => Err(WireFault::BadField(field)),
    }
}

/// The member as a location.
pub fn location_member(value: &Value, field: Field) -> Result<Loc, WireFault>
    ensures { Gives result (member field name_of (view value.now)) }
{
    match value.get(field.name()).and_then(location_of) {
        Some(location) => Ok(location),
        None => Err(WireFault::BadField(field)),
    }
}

/// The special status, `Plain` where the member is absent or null.
pub fn status_member(value: &Value) -> Result<Sts, WireFault>
    ensures { Gives result (status_member (view value.now)) }
{
    match status_of(value.get(Field::Sts.name())) {
        Some(status) => Ok(status),
        None => Err(WireFault::BadField(Field::Sts)),
    }
}

/// The member as a list of crossings.
pub fn via_member(alloc: Global, value: &Value, field: Field) -> Result<Vec<Crossing>, WireFault>
    ensures { GivesAs (λ via. via.items) result (member field via_of (view value.now)) }
{
    let Some(list) = value.get(field.name()).and_then(Value::as_array) else {
        return Err(WireFault::BadField(field));
    };
    match crossings_of(alloc, list) {
        Ok(Some(via)) => Ok(via),
        Ok(None) => Err(WireFault::BadField(field)),
        Err(_) => Err(WireFault::NoMemory),
    }
}

/// The member as a list of periods.
pub fn periods_member(alloc: Global, value: &Value, field: Field) -> Result<Vec<Period>, WireFault>
    ensures { GivesAs (λ periods. periods.items) result (member field periods_of (view value.now)) }
{
    let Some(list) = value.get(field.name()).and_then(Value::as_array) else {
        return Err(WireFault::BadField(field));
    };
    match periods_of(alloc, list) {
        Ok(Some(periods)) => Ok(periods),
        Ok(None) => Err(WireFault::BadField(field)),
        Err(_) => Err(WireFault::NoMemory),
    }
}

fn moment_of(value: &Value) -> Option<Moment>
    ensures { result ≡ moment_of (view value.now) }
{
    match value.as_u64() {
        Some(number) if number <= LAST_MOMENT => Moment::new(number as u32).ok(),
        _ => None,
    }
}

fn number_of(value: &Value) -> Option<u32>
    ensures { result ≡ number_of (view value.now) }
{
    match value.as_u64() {
        Some(number) if number <= MAX_NUMBER => Some(number as u32),
        _ => None,
    }
}

fn key_of(value: &Value) -> Option<Key>
    ensures { result ≡ name_of (view value.now) }
{
    let text = value.as_str()?;
    Key::new(text.as_bytes())
}

fn reg_id_of(value: &Value) -> Option<RegId>
    ensures { result ≡ name_of (view value.now) }
{
    let text = value.as_str()?;
    RegId::new(text.as_bytes())
}

fn location_of(value: &Value) -> Option<Loc>
    ensures { result ≡ name_of (view value.now) }
{
    let text = value.as_str()?;
    Loc::new(text.as_bytes())
}

fn status_of(member: Option<&Value>) -> Option<Sts>
    ensures { result ≡ status_of (option_map (λ value. view value.now) member.entry) }
{
    let Some(value) = member else {
        return Some(Sts::Plain);
    };
    if value.is_null() {
        return Some(Sts::Plain);
    }
    status_named(value.as_str()?)
}

fn status_named(text: &str) -> Option<Sts>
    ensures { result ≡ status_named text.now }
{
    if text == "HEAD" {
        Some(Sts::Head)
    } else if text == "SAR" {
        Some(Sts::Sar)
    } else if text == "MEDEVAC" {
        Some(Sts::Medevac)
    } else if text == "FFR" {
        Some(Sts::Ffr)
    } else if text == "ATFMX" {
        Some(Sts::Atfmx)
    } else {
        None
    }
}

fn crossing_of(value: &Value) -> Option<Crossing>
    ensures { result ≡ crossing_of (view value.now) }
{
    let loc = value.get("loc").and_then(location_of)?;
    let eto = value.get("eto").and_then(moment_of)?;
    Some(Crossing { loc, eto })
}

/// `None` where one of the values is no crossing.
fn crossings_of(alloc: Global, list: &Vec<Value>) -> Result<Option<Vec<Crossing>>, AllocError>
    ensures { IfOk result (λ found.
        option_map (λ via. via.items) found ≡ all_of crossing_of (items_view list.now.items)) }
{
    let mut found = Vec::with_capacity(alloc, list.len())?;
    for value in list {
        let Some(crossing) = crossing_of(value) else {
            return Ok(None);
        };
        found.push(crossing)?;
    }
    Ok(Some(found))
}

fn period_of(value: &Value) -> Option<Period>
    ensures { result ≡ period_of (view value.now) }
{
    let begin = value.get("from").and_then(moment_of)?;
    let until = value.get("to").and_then(moment_of)?;
    let rate = value.get("rate").and_then(number_of)?;
    Some(Period { begin, until, rate })
}

/// `None` where one of the values is no period.
fn periods_of(alloc: Global, list: &Vec<Value>) -> Result<Option<Vec<Period>>, AllocError>
    ensures { IfOk result (λ found.
        option_map (λ periods. periods.items) found
        ≡ all_of period_of (items_view list.now.items)) }
{
    let mut found = Vec::with_capacity(alloc, list.len())?;
    for value in list {
        let Some(period) = period_of(value) else {
            return Ok(None);
        };
        found.push(period)?;
    }
    Ok(Some(found))
}

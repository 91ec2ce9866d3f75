//! Replies as JSON, and the texts of faults.

ghost use Rattle.std.specs.Prelude.{◌≡◌, ◌++◌, List, false, IfOk, OnOk, OnErr, string_bytes};
ghost use Rattle.casa_flight.specs.declared.reply.Message.{Message};
ghost use Rattle.serde_json.specs.Data.{string};
ghost use Rattle.serde_json.specs.View.{view};
ghost use Rattle.serde_json.specs.Written.{has_float};
ghost use Rattle.casa_wire.specs.LineTexts.{answer_data, count, fault_data, fault_line, fault_text, fixed_text, flight_data, kind_name, line_of, list_data, list_of, message_data, messages_data, or_null, reply_data, reply_line, row_data, slot_data, too_long_line};

use crate::fault::{Field, WireFault};
use casa_flight::{
    Answer, Call, FlightReply, Key, Kind, ListReply, ListRow, Message, RegId, Reply,
};
use casa_history::Receipt;
use serde_json::{Value, json};
use std::alloc::{AllocError, Global};
use std::str;

/// The text of `NotJson` or `NoCommand`, without line end. It is empty for `BadField`, whose text `field_text`
/// makes, and for `NoMemory`, for which nothing is written.
pub fn fault_text(fault: &WireFault) -> &'static str
    ensures { result.now ≡ fixed_text fault.now }
{
    match fault {
        WireFault::NotJson => "{\"fault\":\"NotJson\"}",
        WireFault::NoCommand => "{\"fault\":\"NoCommand\"}",
        WireFault::BadField(_) | WireFault::NoMemory => "",
    }
}

/// The text of `BadField` of this member, without line end.
///
/// `AllocError` where there is no memory for it.
pub fn field_text(alloc: Global, field: Field) -> Result<String, AllocError>
    ensures { IfOk result (λ text. string_bytes text ≡ fault_text (WireFault.BadField field)) }
{
    let mut text = String::from_str(alloc, "{\"fault\":\"BadField\",\"field\":\"")?;
    text.push_str(field.name())?;
    text.push_str("\"}")?;
    Ok(text)
}

/// The line for a line that is too long, its line end included.
pub fn too_long_line() -> &'static [u8]
    ensures { result.now ≡ too_long_line }
{
    b"{\"fault\":\"LineTooLong\"}\n"
}

/// A receipt's reply as JSON, with the position of its entry in the history (from 1).
///
/// `AllocError` where there is no memory for it.
pub fn reply_value(alloc: Global, receipt: &Receipt<Call, Reply>) -> Result<Value, AllocError>
    ensures { IfOk result (λ value. view value
        ≡ reply_data receipt.now.entry.reply receipt.now.position) }
{
    let position = receipt.position;
    match &receipt.entry.reply {
        Reply::Refused(refusal) => {
            let code = refusal.code();
            let name = refusal.name();
            json!(in alloc; {"code": code, "n": position, "refused": name})
        }
        Reply::Answered(answer, messages) => {
            answer_value(alloc, answer, messages.as_slice(), position)
        }
    }
}

fn answer_value(
    alloc: Global,
    answer: &Answer,
    messages: &[Message],
    position: usize,
) -> Result<Value, AllocError>
    ensures { IfOk result (λ value. view value ≡ answer_data answer.now messages.now position) }
{
    match answer {
        Answer::Done => json!(in alloc; {
            "done": true, "msgs": messages_value(alloc, messages)?, "n": position
        }),
        Answer::Flight(flight) => json!(in alloc; {
            "flight": flight_value(alloc, flight)?, "msgs": messages_value(alloc, messages)?,
            "n": position
        }),
        Answer::List(list) => json!(in alloc; {
            "list": list_value(alloc, list)?, "msgs": messages_value(alloc, messages)?,
            "n": position
        }),
    }
}

fn messages_value(alloc: Global, messages: &[Message]) -> Result<Value, AllocError>
    ensures { IfOk result (λ value. view value ≡ messages_data messages.now) }
{
    let mut items = Vec::with_capacity(alloc, messages.len())?;
    for message in messages {
        items.push(message_value(alloc, message)?)?;
    }
    Ok(Value::Array(items))
}

fn message_value(alloc: Global, message: &Message) -> Result<Value, AllocError>
    ensures { IfOk result (λ value. view value ≡ message_data message.now) }
{
    match message {
        Message::Sam(key, ctot, reg) => slot_value(alloc, "SAM", key, *ctot, reg),
        Message::Srm(key, ctot, reg) => slot_value(alloc, "SRM", key, *ctot, reg),
        Message::Slc(key) => json!(in alloc; {
            "key": name_value(alloc, key.as_bytes())?, "kind": "SLC"
        }),
    }
}

fn slot_value(
    alloc: Global,
    kind: &str,
    key: &Key,
    ctot: u32,
    reg: &RegId,
) -> Result<Value, AllocError>
    ensures { IfOk result (λ value. view value ≡ slot_data kind.now key.now ctot reg.now) }
{
    json!(in alloc; {
        "ctot": ctot, "key": name_value(alloc, key.as_bytes())?, "kind": kind,
        "reg": name_value(alloc, reg.as_bytes())?
    })
}

fn flight_value(alloc: Global, flight: &FlightReply) -> Result<Value, AllocError>
    ensures { IfOk result (λ value. view value ≡ flight_data flight.now) }
{
    let (eobt, etot, ctot) = (flight.eobt.secs(), flight.etot, flight.ctot);
    let (delay, exempt, issued) = (flight.delay, flight.exempt, flight.issued);
    json!(in alloc; {
        "ctot": ctot, "delay": delay, "eobt": eobt, "etot": etot,
        "exempt": exempt, "issued": issued, "key": name_value(alloc, flight.key.as_bytes())?,
        "reg": optional_name_value(alloc, &flight.reg)?
    })
}

fn list_value(alloc: Global, list: &ListReply) -> Result<Value, AllocError>
    ensures { IfOk result (λ value. view value ≡ list_data list.now) }
{
    let (start, end, slots) = (list.start.secs(), list.end.secs(), list.slots);
    json!(in alloc; {
        "end": end, "loc": name_value(alloc, list.loc.as_bytes())?,
        "reg": name_value(alloc, list.reg.as_bytes())?,
        "rows": rows_value(alloc, list.rows.as_slice())?, "slots": slots, "start": start
    })
}

fn rows_value(alloc: Global, rows: &[ListRow]) -> Result<Value, AllocError>
    ensures { IfOk result (λ value. view value ≡ list_of row_data rows.now) }
{
    let mut items = Vec::with_capacity(alloc, rows.len())?;
    for row in rows {
        items.push(row_value(alloc, row)?)?;
    }
    Ok(Value::Array(items))
}

fn row_value(alloc: Global, row: &ListRow) -> Result<Value, AllocError>
    ensures { IfOk result (λ value. view value ≡ row_data row.now) }
{
    let (eto, cto) = (row.eto.secs(), row.cto);
    json!(in alloc; {
        "cto": cto, "eto": eto, "key": name_value(alloc, row.key.as_bytes())?,
        "kind": kind_name(row.kind), "slot": optional_number_value(row.slot.get())
    })
}

/// The kind's name, as in `"pre"`.
pub fn kind_name(kind: Kind) -> &'static str
    ensures { result.now ≡ kind_name kind }
{
    match kind {
        Kind::Pre => "pre",
        Kind::Issued => "issued",
        Kind::Forced => "forced",
    }
}

fn optional_number_value(number: Option<usize>) -> Value
    ensures { view result ≡ or_null count number }
{
    match number {
        None => Value::Null,
        Some(number) => Value::from(number),
    }
}

fn optional_name_value(alloc: Global, name: &Option<RegId>) -> Result<Value, AllocError>
    ensures { IfOk result (λ value. view value ≡ or_null string name.now) }
{
    match name {
        None => Ok(Value::Null),
        Some(name) => name_value(alloc, name.as_bytes()),
    }
}

/// The text of a name, whose bytes are characters of A to Z and 0 to 9.
fn name_value(alloc: Global, name: &[u8]) -> Result<Value, AllocError>
    ensures { IfOk result (λ value. view value ≡ string name.now) }
{
    match str::from_utf8(name) {
        Ok(text) => Value::try_from_str(alloc, text),
        Err(_) => Err(AllocError),
    }
}

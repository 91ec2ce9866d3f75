//! Slot messages, each with the call that caused it, as comma-separated values and as JSON.

ghost use Rattle.std.specs.Prelude.{◌≡◌, ◌++◌, IfOk, OnOk};
ghost use Rattle.casa_wire.specs.LineTexts.{line_of};
ghost use Rattle.casa_report.specs.Messages.{message_fields, message_line, messages_csv, messages_json};
ghost use Rattle.casa_report.specs.Messages.{cancellation_data, slot_message_data};

use crate::csv::{Record, Value, csv, push_values};
use casa_flight::{Key, Message, RegId};
use casa_selection::CausedMessage;
use casa_wire::{Part, push_parts};
use jiff::civil::Date;
use std::alloc::{AllocError, Global};

/// Messages as comma-separated values: a line of titles, and a line for each message, in their order. A calculated take-off
/// time is a date with a time of day in UTC, as `2025-06-01T10:00:05`. A cancellation has neither it nor a regulation; they are
/// empty then.
///
/// `AllocError` where there is no memory for it.
pub fn messages_csv(
    alloc: Global,
    day: Date,
    messages: &[CausedMessage],
) -> Result<Vec<u8>, AllocError>
    ensures { IfOk result (λ text. text.items ≡ messages_csv day messages.now) }
{
    csv(alloc, day, b"N,MESSAGE,KEY,CTOT,REG\n", messages)
}

impl Record for CausedMessage {
    ghost fields = { message_fields };

    fn push(&self, alloc: Global, out: &mut Vec<u8>, day: Date) -> Result<(), AllocError> {
        let number = Value::Number(self.call as u128);
        match &self.message {
            Message::Sam(key, ctot, reg) => push_values(
                alloc,
                out,
                day,
                &[
                    number,
                    Value::Plain(b"SAM"),
                    Value::Plain(key.as_bytes()),
                    Value::Moment(*ctot),
                    Value::Plain(reg.as_bytes()),
                ],
            ),
            Message::Srm(key, ctot, reg) => push_values(
                alloc,
                out,
                day,
                &[
                    number,
                    Value::Plain(b"SRM"),
                    Value::Plain(key.as_bytes()),
                    Value::Moment(*ctot),
                    Value::Plain(reg.as_bytes()),
                ],
            ),
            Message::Slc(key) => push_values(
                alloc,
                out,
                day,
                &[
                    number,
                    Value::Plain(b"SLC"),
                    Value::Plain(key.as_bytes()),
                    Value::Absent,
                    Value::Absent,
                ],
            ),
        }
    }
}

/// Messages as JSON, a line for each, in their order: an object with the members that it has in a reply, and the number of its
/// call (`n`). Times are in seconds from midnight UTC.
///
/// `AllocError` where there is no memory for it.
pub fn messages_json(alloc: Global, messages: &[CausedMessage]) -> Result<Vec<u8>, AllocError>
    ensures { IfOk result (λ text. text.items ≡ messages_json messages.now) }
{
    let mut text = Vec::new(alloc);
    for message in messages {
        push_line(&mut text, message)?;
    }
    Ok(text)
}

/// Appends the line of a message.
fn push_line(out: &mut Vec<u8>, caused: &CausedMessage) -> Result<(), AllocError>
    ensures { OnOk result (out.new.items ≡ out.old.items ++ message_line caused.now) }
{
    let number = caused.call as u64;
    match &caused.message {
        Message::Sam(key, ctot, reg) => push_slot(out, "SAM", key, *ctot, reg, number),
        Message::Srm(key, ctot, reg) => push_slot(out, "SRM", key, *ctot, reg, number),
        Message::Slc(key) => push_cancellation(out, key, number),
    }
}

/// Appends the line of a message of this kind, with the calculated take-off time in seconds from midnight UTC.
fn push_slot<'n>(
    out: &mut Vec<u8>,
    kind: &'static str,
    key: &'n Key,
    ctot: u32,
    reg: &'n RegId,
    number: u64,
) -> Result<(), AllocError>
    ensures { OnOk result (out.new.items ≡ out.old.items
        ++ line_of (slot_message_data kind.now key.now ctot reg.now number)) }
{
    push_parts(
        out,
        &[
            Part::Text(b"{\"ctot\":"),
            Part::Number(ctot as u64),
            Part::Text(b",\"key\":"),
            Part::Name(key.as_bytes()),
            Part::Text(b",\"kind\":"),
            Part::Name(kind.as_bytes()),
            Part::Text(b",\"n\":"),
            Part::Number(number),
            Part::Text(b",\"reg\":"),
            Part::Name(reg.as_bytes()),
            Part::Text(b"}\n"),
        ],
    )?;
    Ok(())
}

/// Appends the line of a cancellation.
fn push_cancellation(out: &mut Vec<u8>, key: &Key, number: u64) -> Result<(), AllocError>
    ensures { OnOk result (out.new.items ≡ out.old.items ++ line_of (cancellation_data key.now number)) }
{
    push_parts(
        out,
        &[
            Part::Text(b"{\"key\":"),
            Part::Name(key.as_bytes()),
            Part::Text(b",\"kind\":\"SLC\",\"n\":"),
            Part::Number(number),
            Part::Text(b"}\n"),
        ],
    )?;
    Ok(())
}

//! The lines of replies and faults, written behind the bytes of a vector.

ghost use Rattle.std.specs.Prelude.{◌≡◌, ◌∷◌, ◌++◌, if◌then◌else◌, codes, IfOk, OnOk, OnErr};
ghost use Rattle.serde_json.specs.Data.{boolean, string};
ghost use Rattle.serde_json.specs.Written.{compact_text};
ghost use Rattle.casa_wire.specs.LineTexts.{count, fault_line, fault_text, flight_data, kind_name, list_data, list_of, message_data, messages_data, or_null, reply_data, reply_line, row_data, slot_data};
ghost use Rattle.casa_wire.specs.Parts.{Writes, answer_opening, list_opening, more_text, part_text};

use crate::fault::WireFault;
use crate::parts::{Part, push_parts, push_text};
use crate::reply_values::fault_text;
use casa_flight::{
    Answer, Call, FlightReply, Key, Kind, ListReply, ListRow, Message, Refusal, RegId, Reply,
};
use casa_history::Receipt;
use std::alloc::{AllocError, Global};

/// Room for a reply without its rows and messages, in bytes.
const REPLY_ROOM: usize = 256;

/// Room for a row, in bytes.
const ROW_ROOM: usize = 112;

/// Room for a message, in bytes.
const MESSAGE_ROOM: usize = 80;

/// The line of a receipt's reply, its line end included.
///
/// `AllocError` where there is no memory for it.
pub fn reply_line(alloc: Global, receipt: &Receipt<Call, Reply>) -> Result<Vec<u8>, AllocError>
    ensures { IfOk result (λ line. line.items
        ≡ reply_line receipt.now.entry.reply receipt.now.position) }
{
    let mut line = Vec::new(alloc);
    push_reply(&mut line, receipt)?;
    Ok(line)
}

/// Writes the line of a receipt's reply, its line end included, behind the bytes that stand there.
///
/// `AllocError` where there is no memory for it; then the bytes are as they were.
pub fn push_reply(out: &mut Vec<u8>, receipt: &Receipt<Call, Reply>) -> Result<(), AllocError>
    ensures ok { OnOk result
        (out.new.items ≡ out.old.items ++ reply_line receipt.now.entry.reply receipt.now.position) }
    ensures err { OnErr result (out.new.items ≡ out.old.items) }
{
    push_reply_at(out, &receipt.entry.reply, receipt.position)
}

/// Writes the line of a reply, its line end included, behind the bytes that stand there: of the reply to the call at this
/// position in the history, counted from 1.
///
/// `AllocError` where there is no memory for it; then the bytes are as they were.
pub fn push_reply_at(out: &mut Vec<u8>, reply: &Reply, position: usize) -> Result<(), AllocError>
    ensures ok { OnOk result (out.new.items ≡ out.old.items ++ reply_line reply.now position) }
    ensures err { OnErr result (out.new.items ≡ out.old.items) }
{
    let before = out.len();
    match push_reply_line(out, reply, position) {
        Ok(()) => Ok(()),
        Err(error) => {
            out.truncate(before);
            Err(error)
        }
    }
}

/// Writes the line of a fault, its line end included, behind the bytes that stand there; `null` for `NoMemory`.
///
/// `AllocError` where there is no memory for it; then the bytes are as they were.
pub fn push_fault(out: &mut Vec<u8>, fault: WireFault) -> Result<(), AllocError>
    ensures ok { OnOk result (out.new.items ≡ out.old.items ++ fault_line fault) }
    ensures err { OnErr result (out.new.items ≡ out.old.items) }
{
    let before = out.len();
    match push_fault_line(out, fault) {
        Ok(()) => Ok(()),
        Err(error) => {
            out.truncate(before);
            Err(error)
        }
    }
}

fn push_fault_line(out: &mut Vec<u8>, fault: WireFault) -> Result<(), AllocError>
    ensures { Writes result out.old.items out.new.items (fault_line fault) }
{
    push_fault_text(out, fault)?;
    push_text(out, b"\n")
}

fn push_fault_text(out: &mut Vec<u8>, fault: WireFault) -> Result<(), AllocError>
    ensures { Writes result out.old.items out.new.items (fault_text fault) }
{
    match fault {
        WireFault::NotJson | WireFault::NoCommand => {
            push_text(out, fault_text(&fault).as_bytes())
        }
        WireFault::BadField(field) => push_parts(
            out,
            &[
                Part::Text(b"{\"fault\":\"BadField\",\"field\":"),
                Part::Name(field.name().as_bytes()),
                Part::Text(b"}"),
            ],
        ),
        WireFault::NoMemory => push_text(out, b"null"),
    }
}

fn push_reply_line(out: &mut Vec<u8>, reply: &Reply, position: usize) -> Result<(), AllocError>
    ensures { Writes result out.old.items out.new.items (reply_line reply.now position) }
{
    out.reserve(room_for(reply))?;
    push_reply_text(out, reply, position)?;
    push_text(out, b"\n")
}

fn push_reply_text(out: &mut Vec<u8>, reply: &Reply, position: usize) -> Result<(), AllocError>
    ensures { Writes result out.old.items out.new.items
        (compact_text (reply_data reply.now position)) }
{
    match reply {
        Reply::Refused(refusal) => push_refusal(out, *refusal, position),
        Reply::Answered(answer, messages) => {
            push_answer_opening(out, answer)?;
            push_messages(out, messages.as_slice())?;
            let number = Part::Number(position as u64);
            push_parts(out, &[Part::Text(b",\"n\":"), number, Part::Text(b"}")])
        }
    }
}

/// About how many bytes the line of a reply takes, at most.
fn room_for(reply: &Reply) -> usize {
    match reply {
        Reply::Refused(_) => REPLY_ROOM,
        Reply::Answered(answer, messages) => {
            let rows = match answer {
                Answer::List(list) => list.rows.as_slice().len(),
                _ => 0,
            };
            REPLY_ROOM
                .saturating_add(rows.saturating_mul(ROW_ROOM))
                .saturating_add(messages.as_slice().len().saturating_mul(MESSAGE_ROOM))
        }
    }
}

fn push_refusal(out: &mut Vec<u8>, refusal: Refusal, position: usize) -> Result<(), AllocError>
    ensures { Writes result out.old.items out.new.items
        (compact_text (reply_data (Reply.Refused refusal) position)) }
{
    push_parts(
        out,
        &[
            Part::Text(b"{\"code\":"),
            Part::Number(refusal.code() as u64),
            Part::Text(b",\"n\":"),
            Part::Number(position as u64),
            Part::Text(b",\"refused\":"),
            Part::Name(refusal.name().as_bytes()),
            Part::Text(b"}"),
        ],
    )
}

/// Writes what stands before the messages.
fn push_answer_opening(out: &mut Vec<u8>, answer: &Answer) -> Result<(), AllocError>
    ensures { Writes result out.old.items out.new.items (answer_opening answer.now) }
{
    match answer {
        Answer::Done => push_text(out, b"{\"done\":true,\"msgs\":"),
        Answer::Flight(flight) => {
            push_text(out, b"{\"flight\":")?;
            push_flight(out, flight)?;
            push_text(out, b",\"msgs\":")
        }
        Answer::List(list) => {
            push_text(out, b"{\"list\":")?;
            push_list(out, list)?;
            push_text(out, b",\"msgs\":")
        }
    }
}

/// Writes messages as a reply has them, behind the bytes that stand there.
///
/// `AllocError` where there is no memory for them; some of the text may then stand there.
pub fn push_messages(out: &mut Vec<u8>, messages: &[Message]) -> Result<(), AllocError>
    ensures { Writes result out.old.items out.new.items
        (compact_text (messages_data messages.now)) }
{
    let Some((first, rest)) = messages.split_first() else {
        return push_text(out, b"[]");
    };
    push_message(out, b"[", first)?;
    push_more_messages(out, rest)?;
    push_text(out, b"]")
}

fn push_more_messages(out: &mut Vec<u8>, messages: &[Message]) -> Result<(), AllocError>
    ensures { Writes result out.old.items out.new.items (more_text message_data messages.now) }
{
    for message in messages {
        push_message(out, b",", message)?;
    }
    Ok(())
}

/// Writes a message, behind a text.
fn push_message(
    out: &mut Vec<u8>,
    before: &'static [u8],
    message: &Message,
) -> Result<(), AllocError>
    ensures { Writes result out.old.items out.new.items
        (before.now ++ compact_text (message_data message.now)) }
{
    match message {
        Message::Sam(key, ctot, reg) => push_slot(out, before, "SAM", key, *ctot, reg),
        Message::Srm(key, ctot, reg) => push_slot(out, before, "SRM", key, *ctot, reg),
        Message::Slc(key) => push_parts(
            out,
            &[
                Part::Text(before),
                Part::Text(b"{\"key\":"),
                Part::Name(key.as_bytes()),
                Part::Text(b",\"kind\":\"SLC\"}"),
            ],
        ),
    }
}

fn push_slot<'n>(
    out: &mut Vec<u8>,
    before: &'static [u8],
    kind: &'static str,
    key: &'n Key,
    ctot: u32,
    reg: &'n RegId,
) -> Result<(), AllocError>
    ensures { Writes result out.old.items out.new.items
        (before.now ++ compact_text (slot_data kind.now key.now ctot reg.now)) }
{
    push_parts(
        out,
        &[
            Part::Text(before),
            Part::Text(b"{\"ctot\":"),
            Part::Number(ctot as u64),
            Part::Text(b",\"key\":"),
            Part::Name(key.as_bytes()),
            Part::Text(b",\"kind\":"),
            Part::Name(kind.as_bytes()),
            Part::Text(b",\"reg\":"),
            Part::Name(reg.as_bytes()),
            Part::Text(b"}"),
        ],
    )
}

/// Writes a flight as a reply has it, behind the bytes that stand there.
///
/// `AllocError` where there is no memory for it; some of the text may then stand there.
pub fn push_flight(out: &mut Vec<u8>, flight: &FlightReply) -> Result<(), AllocError>
    ensures { Writes result out.old.items out.new.items (compact_text (flight_data flight.now)) }
{
    push_parts(
        out,
        &[
            Part::Text(b"{\"ctot\":"),
            Part::Number(flight.ctot as u64),
            Part::Text(b",\"delay\":"),
            Part::Number(flight.delay as u64),
            Part::Text(b",\"eobt\":"),
            Part::Number(flight.eobt.secs() as u64),
            Part::Text(b",\"etot\":"),
            Part::Number(flight.etot as u64),
            Part::Text(standing_text(flight.exempt, flight.issued)),
            Part::Name(flight.key.as_bytes()),
            Part::Text(b",\"reg\":"),
            name_or_null(&flight.reg),
            Part::Text(b"}"),
        ],
    )
}

/// Writes a regulation's list as a reply has it, behind the bytes that stand there.
///
/// `AllocError` where there is no memory for it; some of the text may then stand there.
pub fn push_list(out: &mut Vec<u8>, list: &ListReply) -> Result<(), AllocError>
    ensures { Writes result out.old.items out.new.items (compact_text (list_data list.now)) }
{
    push_list_opening(out, list)?;
    push_rows(out, list.rows.as_slice())?;
    push_parts(
        out,
        &[
            Part::Text(b",\"slots\":"),
            Part::Number(list.slots as u64),
            Part::Text(b",\"start\":"),
            Part::Number(list.start.secs() as u64),
            Part::Text(b"}"),
        ],
    )
}

/// Writes what stands before the rows.
fn push_list_opening(out: &mut Vec<u8>, list: &ListReply) -> Result<(), AllocError>
    ensures { Writes result out.old.items out.new.items (list_opening list.now) }
{
    push_parts(
        out,
        &[
            Part::Text(b"{\"end\":"),
            Part::Number(list.end.secs() as u64),
            Part::Text(b",\"loc\":"),
            Part::Name(list.loc.as_bytes()),
            Part::Text(b",\"reg\":"),
            Part::Name(list.reg.as_bytes()),
            Part::Text(b",\"rows\":"),
        ],
    )
}

fn push_rows(out: &mut Vec<u8>, rows: &[ListRow]) -> Result<(), AllocError>
    ensures { Writes result out.old.items out.new.items (compact_text (list_of row_data rows.now)) }
{
    let Some((first, rest)) = rows.split_first() else {
        return push_text(out, b"[]");
    };
    push_row(out, true, first)?;
    push_more_rows(out, rest)?;
    push_text(out, b"]")
}

fn push_more_rows(out: &mut Vec<u8>, rows: &[ListRow]) -> Result<(), AllocError>
    ensures { Writes result out.old.items out.new.items (more_text row_data rows.now) }
{
    for row in rows {
        push_row(out, false, row)?;
    }
    Ok(())
}

/// Writes a row behind the bracket that opens the list, if it is the first, else behind a comma.
fn push_row(out: &mut Vec<u8>, is_first: bool, row: &ListRow) -> Result<(), AllocError>
    ensures { Writes result out.old.items out.new.items
        ((if is_first then 91 else 44) ∷ compact_text (row_data row.now)) }
{
    let opening: &'static [u8] = if is_first {
        b"[{\"cto\":"
    } else {
        b",{\"cto\":"
    };
    push_parts(
        out,
        &[
            Part::Text(opening),
            Part::Number(row.cto as u64),
            Part::Text(b",\"eto\":"),
            Part::Number(row.eto.secs() as u64),
            Part::Text(b",\"key\":"),
            Part::Name(row.key.as_bytes()),
            Part::Text(kind_text(row.kind)),
            number_or_null(row.slot.get()),
            Part::Text(b"}"),
        ],
    )
}

/// What stands between the key and the slot of a row of this kind.
fn kind_text(kind: Kind) -> &'static [u8]
    ensures { result.now ≡ codes ",\"kind\":"
        ++ (compact_text (string (kind_name kind)) ++ codes ",\"slot\":") }
{
    match kind {
        Kind::Pre => b",\"kind\":\"pre\",\"slot\":",
        Kind::Issued => b",\"kind\":\"issued\",\"slot\":",
        Kind::Forced => b",\"kind\":\"forced\",\"slot\":",
    }
}

fn number_or_null(number: Option<usize>) -> Part<'static>
    ensures { part_text result ≡ compact_text (or_null count number) }
{
    match number {
        None => Part::Text(b"null"),
        Some(number) => Part::Number(number as u64),
    }
}

fn name_or_null(name: &Option<RegId>) -> Part<'_>
    ensures { part_text result ≡ compact_text (or_null string name.now) }
{
    match name {
        None => Part::Text(b"null"),
        Some(name) => Part::Name(name.as_bytes()),
    }
}

/// What stands between a flight's take-off time and its key: whether it is exempt, and whether it is issued.
fn standing_text(is_exempt: bool, is_issued: bool) -> &'static [u8]
    ensures { result.now ≡ codes ",\"exempt\":" ++ (compact_text (boolean is_exempt)
        ++ (codes ",\"issued\":" ++ (compact_text (boolean is_issued) ++ codes ",\"key\":"))) }
{
    match (is_exempt, is_issued) {
        (false, false) => b",\"exempt\":false,\"issued\":false,\"key\":",
        (false, true) => b",\"exempt\":false,\"issued\":true,\"key\":",
        (true, false) => b",\"exempt\":true,\"issued\":false,\"key\":",
        (true, true) => b",\"exempt\":true,\"issued\":true,\"key\":",
    }
}

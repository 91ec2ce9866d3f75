//! Answers the lines of an input, one after the other.

ghost use Rattle.std.specs.Prelude.{◌≡◌, ◌↔◌, ℕ, ◌++◌, ◌<◌, ◌≤◌, List, length, true, false, Ok, IfOk, IfErr, IsTrue, OnOk, OnErr, MatchResult};
ghost use Rattle.casa_session.specs.Lines.{HasNoLf, is_too_long};
ghost use Rattle.casa_session.specs.LineReader.{IsPart, IsTaken, most_asked, pending, steps_left};
ghost use Rattle.casa_session.specs.Transcript.{Ends};

use crate::asked::Asked;
use crate::fault::SessionFault;
use crate::lines::{Chunk, LineFault, LineReader};
use crate::replies::Replies;
use casa_commit::Desk;
use casa_flight::{Call, Reply};
use std::alloc::Global;
use std::io::{Read, Write};

/// Answers each line of the reader at the writer, and says how many there were.
///
/// Up to 64 lines that are there are read before the first of them is answered. Replies are gathered and written together,
/// but none waits for input: before each read all lines are answered, and all replies are written. A session ends at its
/// first fault: what it had answered by then is written and stands; so may a call whose reply could not be made or
/// written. The receipts whose replies are written are the last of those that the desk then has, which are all lawful.
pub fn run<R: Read, W: Write, D: Desk<Call = Call, Reply = Reply>>(
    alloc: Global,
    reader: &mut R,
    writer: &mut W,
    desk: &mut D,
) -> Result<u64, SessionFault>
    ensures lawful { D.lawful (D.answered desk.new) }
    ensures ends { Ends D.may_be_foreign result (record {
      input = R.remaining reader.old;
      input_left = R.remaining reader.new;
      receipts = D.answered desk.old;
      receipts_now = D.answered desk.new;
      output = W.contents writer.old;
      output_now = W.contents writer.new;
    }) }
{
    let mut lines = LineReader::new();
    let mut line = Vec::new(alloc);
    let mut asked = Asked::new(alloc);
    let mut replies = Replies::new(alloc);
    let mut count = 0;
    'lines: loop {
        let next = take_line(alloc, &mut lines, &mut line, &mut asked);
        let all = are_due(&asked, &next);
        replies.answer_asked(alloc, all, &mut asked, desk, writer)?;
        match next {
            Ok(true) => count += 1,
            Ok(false) => {
                replies.write(writer)?;
                match lines.read(reader) {
                    Chunk::More => {}
                    Chunk::End => {
                        if line.is_empty() {
                            return Ok(count);
                        }
                        replies.answer_line(alloc, &line, desk, writer)?;
                        replies.write(writer)?;
                        return Ok(count + 1);
                    }
                    Chunk::Failed => return Err(SessionFault::ReadFailed),
                }
            }
            Err(LineFault::LineTooLong) => return Err(replies.end_too_long(writer)),
            Err(LineFault::NoMemory) => return Err(replies.end(writer, SessionFault::NoMemory)),
        }
    }
}

/// Moves the pending bytes up to the next LF to the line; where there is one, the line is read behind those that are asked,
/// and the next one begins. Whether there was one.
fn take_line(
    alloc: Global,
    lines: &mut LineReader,
    line: &mut Vec<u8>,
    asked: &mut Asked,
) -> Result<bool, LineFault>
    requires { is_too_long line.old.items ≡ false }
    ensures ok { IfOk result (λ is_ended. (part : List ℕ) × HasNoLf part ×
        IsPart is_ended (pending lines.old) part (pending lines.new)
        × (is_too_long (line.old.items ++ part) ≡ false)
        × IsTaken is_ended (line.old.items ++ part) line.new.items asked.old asked.new) }
    ensures unchanged { OnErr result (asked.new ≡ asked.old) }
    ensures kept { OnOk result (steps_left lines.new ≤ steps_left lines.old) }
    ensures fewer { IfOk result (λ is_ended. is_ended ≡ true
        → steps_left lines.new < steps_left lines.old) }
    ensures emptied { IfOk result (λ is_ended. is_ended ≡ false
        → lines.new.start ≡ lines.new.end) }
    ensures too_long { IfErr result (λ fault. fault ≡ LineFault.LineTooLong →
        (part rest : List ℕ) × HasNoLf part × (pending lines.old ≡ part ++ rest) ×
        (is_too_long (line.old.items ++ part) ≡ true)) }
{
    let is_ended = lines.take_part(line)?;
    if is_ended {
        if asked.read(alloc, line).is_err() {
            return Err(LineFault::NoMemory);
        }
        line.clear();
    }
    Ok(is_ended)
}

/// Whether the lines that were asked are answered now that this came of the next one: many were, or no line ended.
fn are_due(asked: &Asked, next: &Result<bool, LineFault>) -> bool
    ensures ended { next.now ≡ Ok true → IsTrue result ↔ most_asked ≤ length asked.now }
    ensures begun { MatchResult next.now (λ is_ended. is_ended ≡ false → result ≡ true)
        (λ fault. result ≡ true) }
{
    match next {
        Ok(true) => asked.is_full(),
        _ => true,
    }
}

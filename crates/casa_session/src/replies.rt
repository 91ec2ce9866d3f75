//! Gathers replies, and writes many at once.

ghost use Rattle.std.specs.Prelude.{◌≡◌, ℕ, ◌+◌, ◌<◌, ◌^◌, [], ◌++◌, List, length, OnOk, OnErr, IfErr, if◌then◌else◌};
ghost use Rattle.std.specs.Io.KnownBytes.{Appends};
ghost use Rattle.casa_session.specs.Sending.{saturating_count};
ghost use Rattle.casa_wire.specs.Commands.{line_call};

use crate::asked::Asked;
use crate::fault::SessionFault;
use crate::sending::send;
use casa_commit::{CallFault, Desk};
use casa_flight::{Call, Reply};
use casa_wire::{WireFault, push_fault, push_reply, read_call, too_long_line};
use std::alloc::Global;
use std::io::Write;

/// So many bytes of replies are written at once, where the next read comes later.
const MANY: usize = 65_536;

/// The replies that were made and not yet written, and how many bytes the writer has taken.
#[derive(Drop)]
pub struct Replies {
    bytes: Vec<u8>,
    written: u64,
    ghost in_range: { written < 2 ^ 64 },
}

impl Replies {
    ghost use Rattle.casa_session.specs.Replies.{Answers, AnswersAll, EndsBy, Fails, FailsAmong, IsRefused, IsUnwritten, MayReply, Replied, TooLongEnds};

    /// None, and nothing written.
    pub fn new(alloc: Global) -> Replies
        ensures none { result.bytes.items ≡ [] }
        ensures written { result.written ≡ 0 }
    {
        Replies {
            bytes: Vec::new(alloc),
            written: 0,
        }
    }

    /// Answers the lines that were read, one after the other, if that is wanted now.
    ///
    /// Where one has no reply, none behind it is answered, and what was gathered before it is written first.
    pub fn answer_asked<W: Write, D: Desk<Call = Call, Reply = Reply>>(
        &mut self,
        alloc: Global,
        wanted: bool,
        asked: &mut Asked,
        desk: &mut D,
        writer: &mut W,
    ) -> Result<(), SessionFault>
        ensures ok { OnOk result (AnswersAll (if wanted then asked.old else [])
            (D.answered desk.old) (D.answered desk.new)
            self.old self.new (W.contents writer.old) (W.contents writer.new)) }
        ensures left { OnOk result (asked.new ≡ (if wanted then [] else asked.old)) }
        ensures err { IfErr result (λ fault. FailsAmong D.may_be_foreign fault asked.old
            (D.answered desk.old) (D.answered desk.new) self.old (W.contents writer.old)
            (W.contents writer.new)) }
    {
        if wanted {
            self.answer_all(alloc, asked.as_slice(), desk, writer)?;
            asked.clear();
        }
        Ok(())
    }

    /// Answers lines that ask this, one after the other.
    fn answer_all<W: Write, D: Desk<Call = Call, Reply = Reply>>(
        &mut self,
        alloc: Global,
        asked: &[Result<Call, WireFault>],
        desk: &mut D,
        writer: &mut W,
    ) -> Result<(), SessionFault>
        ensures ok { OnOk result (AnswersAll asked.now (D.answered desk.old) (D.answered desk.new)
            self.old self.new (W.contents writer.old) (W.contents writer.new)) }
        ensures err { IfErr result (λ fault. FailsAmong D.may_be_foreign fault asked.now
            (D.answered desk.old) (D.answered desk.new) self.old (W.contents writer.old)
            (W.contents writer.new)) }
    {
        for meaning in asked {
            self.answer(alloc, meaning, desk, writer)?;
        }
        Ok(())
    }

    /// Answers a line, and writes what was gathered where that is much.
    ///
    /// Where the line has no reply, what was gathered before it is written first.
    pub fn answer_line<W: Write, D: Desk<Call = Call, Reply = Reply>>(
        &mut self,
        alloc: Global,
        line: &[u8],
        desk: &mut D,
        writer: &mut W,
    ) -> Result<(), SessionFault>
        ensures ok { OnOk result (Answers (line_call line.now) (D.answered desk.old)
            (D.answered desk.new)
            self.old self.new (W.contents writer.old) (W.contents writer.new)) }
        ensures err { IfErr result (λ fault. Fails D.may_be_foreign fault (line_call line.now)
            (D.answered desk.old) (D.answered desk.new) self.old (W.contents writer.old)
            (W.contents writer.new)) }
    {
        match read_call(alloc, line) {
            Err(WireFault::NoMemory) => Err(self.end(writer, SessionFault::NoMemory)),
            meaning => self.answer(alloc, &meaning, desk, writer),
        }
    }

    /// Answers a line that asks this, and writes what was gathered where that is much.
    ///
    /// Where the line has no reply, what was gathered before it is written first.
    fn answer<W: Write, D: Desk<Call = Call, Reply = Reply>>(
        &mut self,
        alloc: Global,
        meaning: &Result<Call, WireFault>,
        desk: &mut D,
        writer: &mut W,
    ) -> Result<(), SessionFault>
        ensures ok { OnOk result (Answers meaning.now (D.answered desk.old) (D.answered desk.new)
            self.old self.new (W.contents writer.old) (W.contents writer.new)) }
        ensures err { IfErr result (λ fault. Fails D.may_be_foreign fault meaning.now
            (D.answered desk.old) (D.answered desk.new) self.old (W.contents writer.old)
            (W.contents writer.new)) }
    {
        if let Err(fault) = self.gather(alloc, meaning, desk) {
            return Err(self.end(writer, fault));
        }
        if self.bytes.len() >= MANY {
            return self.write(writer);
        }
        Ok(())
    }

    /// Makes the reply to a line that asks this.
    fn gather<D: Desk<Call = Call, Reply = Reply>>(
        &mut self,
        alloc: Global,
        meaning: &Result<Call, WireFault>,
        desk: &mut D,
    ) -> Result<(), SessionFault>
        ensures ok { OnOk result ((text : List ℕ) ×
            Replied (D.answered desk.old) (D.answered desk.new) meaning.now text ×
            (self.new.bytes.items ≡ self.old.bytes.items ++ text)) }
        ensures err { OnErr result ((text : List ℕ) ×
            MayReply (D.answered desk.old) (D.answered desk.new) meaning.now text) }
        ensures kept { OnErr result (self.new.bytes.items ≡ self.old.bytes.items) }
        ensures written { self.new.written ≡ self.old.written }
        ensures refused { IfErr result (IsRefused D.may_be_foreign) }
    {
        match meaning {
            Ok(call) => match desk.answer(alloc, call) {
                Ok(receipt) => match push_reply(&mut self.bytes, &receipt) {
                    Ok(()) => Ok(()),
                    Err(_) => Err(SessionFault::NoMemory),
                },
                Err(CallFault::ForeignPass) => Err(SessionFault::ForeignPass),
                Err(CallFault::NoMemory) => Err(SessionFault::NoMemory),
            },
            Err(fault) => match push_fault(&mut self.bytes, *fault) {
                Ok(()) => Ok(()),
                Err(_) => Err(SessionFault::NoMemory),
            },
        }
    }

    /// Writes what was gathered.
    pub fn write<W: Write>(&mut self, writer: &mut W) -> Result<(), SessionFault>
        ensures ok { OnOk result (Appends (W.contents writer.old)
            (W.contents writer.new) self.old.bytes.items) }
        ensures none { OnOk result (self.new.bytes.items ≡ []) }
        ensures count { OnOk result (self.new.written
            ≡ saturating_count (self.old.written + length self.old.bytes.items)) }
        ensures err { IfErr result (λ fault.
            IsUnwritten fault self.old (W.contents writer.old) (W.contents writer.new)) }
    {
        match send(writer, &self.bytes, self.written) {
            Ok(written) => {
                self.bytes.clear();
                self.written = written;
                Ok(())
            }
            Err(unsent) => Err(SessionFault::WriteFailed(unsent.written)),
        }
    }

    /// Writes what was gathered, at a fault. The fault of the session: this one, or that a write failed before it.
    pub fn end<W: Write>(&mut self, writer: &mut W, fault: SessionFault) -> SessionFault
        ensures { EndsBy result fault self.old (W.contents writer.old) (W.contents writer.new) }
    {
        match self.write(writer) {
            Ok(()) => fault,
            Err(unwritten) => unwritten,
        }
    }

    /// Writes what was gathered and the text for a line that is too long. The fault of the session.
    pub fn end_too_long<W: Write>(&mut self, writer: &mut W) -> SessionFault
        ensures { TooLongEnds result self.old (W.contents writer.old) (W.contents writer.new) }
    {
        if let Err(unwritten) = self.write(writer) {
            return unwritten;
        }
        match send(writer, too_long_line(), self.written) {
            Ok(_) => SessionFault::LineTooLong,
            Err(unsent) => SessionFault::WriteFailed(unsent.written),
        }
    }
}

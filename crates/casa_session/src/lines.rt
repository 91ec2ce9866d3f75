//! Cuts an input into lines.

ghost use Rattle.std.specs.Prelude.{◌≡◌, ◌==◌, ℕ, ◌^◌, ◌≤◌, ◌<◌, ◌++◌, List, [], true, false, IfOk, IfErr, OnOk};
ghost use Rattle.casa_session.specs.Lines.{HasNoLf, IsFirstPart, is_too_long};

use memchr::memchr;
use std::io::{ErrorKind, Read};

/// The longest line, in bytes without its LF.
const MAX_LINE: usize = 65_536;

/// How many bytes are asked of the source at once.
const BUFFER_LEN: usize = 65_536;

/// Reads lines: keeps the bytes that were read and belong to lines that were not yet given.
#[derive(Drop)]
pub struct LineReader {
    buffer: [u8; BUFFER_LEN],
    start: usize,
    end: usize,
    reads_left: u32,
    ghost in_order: { start ≤ end },
    ghost in_buffer: { end ≤ 65536 },
}

/// What a read gave.
#[derive(Clone, Copy, PartialEq, Eq, Debug)]
pub enum Chunk {
    /// More bytes.
    More,
    /// Nothing: the input is at its end.
    End,
    /// Nothing: the source failed, or was asked 4,294,967,295 times.
    Failed,
}

/// Why a line can't go on.
#[derive(Clone, Copy, PartialEq, Eq, Debug)]
pub enum LineFault {
    /// The line has more than 65,536 bytes.
    LineTooLong,
    /// There is no memory for the line.
    NoMemory,
}

impl LineReader {
    ghost use Rattle.casa_session.specs.LineReader.{IsGiven, IsPart, pending, steps_left};

    /// A reader that has read nothing yet. It asks its source at most 4,294,967,295 times.
    pub fn new() -> LineReader
        ensures empty { pending result ≡ [] }
        ensures reads { result.reads_left ≡ 4294967295 }
        ensures bound { steps_left result < 2 ^ 49 }
    {
        LineReader {
            buffer: [0; BUFFER_LEN],
            start: 0,
            end: 0,
            reads_left: u32::MAX,
        }
    }

    /// Reads on, where nothing is pending. A read that was interrupted is made again, and counts.
    pub fn read<R: Read>(&mut self, source: &mut R) -> Chunk
        requires { self.old.start ≡ self.old.end }
        ensures given { IsGiven result (R.remaining source.old) (R.remaining source.new)
            (pending self.new) }
        ensures fewer { result ≡ Chunk.More → steps_left self.new < steps_left self.old }
    {
        while self.reads_left > 0 {
            self.reads_left -= 1;
            match source.read(&mut self.buffer) {
                Ok(0) => return Chunk::End,
                Ok(n) => {
                    self.start = 0;
                    self.end = n;
                    return Chunk::More;
                }
                Err(error) => {
                    if error.kind() != ErrorKind::Interrupted {
                        return Chunk::Failed;
                    }
                }
            }
        }
        Chunk::Failed
    }

    /// Moves the pending bytes up to the next LF to the line, and the LF away; all of them where there is none.
    /// Whether there was one.
    pub fn take_part(&mut self, line: &mut Vec<u8>) -> Result<bool, LineFault>
        requires { is_too_long line.old.items ≡ false }
        ensures ok { IfOk result (λ is_ended. (part : List ℕ) × HasNoLf part ×
            IsPart is_ended (pending self.old) part (pending self.new)
            × (line.new.items ≡ line.old.items ++ part)) }
        ensures short { OnOk result (is_too_long line.new.items ≡ false) }
        ensures kept { OnOk result (steps_left self.new ≤ steps_left self.old) }
        ensures fewer { IfOk result (λ is_ended. is_ended ≡ true
            → steps_left self.new < steps_left self.old) }
        ensures emptied { IfOk result (λ is_ended. is_ended ≡ false
            → self.new.start ≡ self.new.end) }
        ensures reads { self.new.reads_left ≡ self.old.reads_left }
        ensures too_long { IfErr result (λ fault. fault ≡ LineFault.LineTooLong →
            (part rest : List ℕ) × HasNoLf part × (pending self.old ≡ part ++ rest) ×
            (is_too_long (line.old.items ++ part) ≡ true)) }
    {
        let (part, is_ended) = first_part(&self.buffer[self.start..self.end]);
        if part.len() > MAX_LINE - line.len() {
            return Err(LineFault::LineTooLong);
        }
        if line.extend_from_slice(part).is_err() {
            return Err(LineFault::NoMemory);
        }
        self.start += part.len();
        if is_ended {
            self.start += 1;
        }
        Ok(is_ended)
    }
}

/// The bytes before the first LF, and whether there is one; all the bytes where there is none.
fn first_part(bytes: &[u8]) -> (&[u8], bool)
    ensures { IsFirstPart bytes.now result.0.now result.1 }
{
    match memchr(b'\n', bytes) {
        Some(at) => (&bytes[..at], true),
        None => (bytes, false),
    }
}

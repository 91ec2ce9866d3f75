//! What is said of lines that are no calls, and of refused calls.

ghost use Rattle.std.specs.Prelude.{◌≡◌, ◌↔◌, ℕ, List, [], ◌++◌, Bool, IsTrue, OnErr, OnOk, Some, ◌≤◌, take};
ghost use Rattle.std.specs.Io.KnownBytes.{Appends};
ghost use Rattle.std.specs.List.{flat_map};
ghost use Rattle.arrayvec.specs.ArrayVec.{array_vec_len};
ghost use Rattle.casa_session.specs.Sending.{IsCutOff};
ghost use Rattle.casa_app.specs.Notes.{AreOf};
ghost use Rattle.casa_app.specs.Remarks.{remark_line, remarks, said};

use crate::notes::{MOST, Notes, push_more, push_text};
use crate::trail::Trail;
use arrayvec::ArrayVec;
use casa_session::{Unsent, send};
use std::io;
use std::io::Write;

/// The line of a remark on a first line that is no JSON and that a byte order mark stands before.
const MARKED: &[u8] = b"casa: line 1: NotJson (a byte order mark stands before it)\n";

/// How many bytes this line has where no byte order mark stands before it.
const UNMARKED: usize = 22;

/// All that is said.
type Text = ArrayVec<u8, 2320>;

/// Takes the replies of a session, and keeps what is said of them. It takes no memory, and no write to it fails.
///
/// Contracts know all the bytes that it has taken.
#[derive(Drop)]
pub(crate) struct Remarks {
    trail: Trail,
    notes: Notes,
    ghost noted: { AreOf notes trail.bytes },
}

impl Remarks {
    /// Of no replies.
    pub(crate) fn new() -> Remarks
        ensures { result.trail.bytes ≡ [] }
    {
        Remarks {
            trail: Trail::new(),
            notes: Notes::new(),
        }
    }

    /// Whether no reply tells of a fault or of a refusal.
    pub(crate) fn is_empty(&self) -> bool
        ensures { IsTrue result ↔ (remarks self.now.trail.bytes ≡ []) }
    {
        self.notes.count == 0
    }

    /// Says which lines had faults or were refused, by the replies to them, and whether a byte order mark stands before the
    /// first line.
    ///
    /// `Unsent` where the writer fails or takes no byte before it has all of it; it then has the beginning.
    pub(crate) fn say<W: Write>(&self, marked: bool, writer: &mut W) -> Result<(), Unsent>
        ensures ok { OnOk result (Appends (W.contents writer.old) (W.contents writer.new)
            (said marked self.now.trail.bytes)) }
        ensures err { OnErr result (IsCutOff (W.contents writer.old) (W.contents writer.new)
            (said marked self.now.trail.bytes)) }
    {
        send(writer, self.text(marked).as_slice(), 0)?;
        Ok(())
    }

    /// All that is said.
    fn text(&self, marked: bool) -> Text
        ensures { result.items ≡ said marked self.now.trail.bytes }
    {
        let mut text = self.lines(marked);
        push_more(&mut text, self.notes.count.saturating_sub(MOST));
        text
    }

    /// The lines of the first ten remarks.
    fn lines(&self, marked: bool) -> Text
        ensures lines { result.items ≡ flat_map (remark_line marked) (take 10 (remarks self.now.trail.bytes)) }
        ensures len { array_vec_len result ≤ 2260 }
    {
        let mut text = Text::new();
        let lines = self.notes.text.as_slice();
        if marked && self.notes.first_no_json {
            push_text(&mut text, MARKED);
            push_text(&mut text, &lines[UNMARKED..]);
            return text;
        }
        push_text(&mut text, lines);
        text
    }
}

impl Write for Remarks {
    ghost contents = { λ r. Some r.trail.bytes };

    fn write(&mut self, bytes: &[u8]) -> io::Result<usize> {
        self.notes.take(bytes);
        self.trail = self.trail.and(bytes);
        Ok(bytes.len())
    }

    fn flush(&mut self) -> io::Result<()> {
        Ok(())
    }
}

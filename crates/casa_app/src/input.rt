//! An input, of which it is known whether a byte order mark stands before it.

ghost use Rattle.std.specs.Prelude.{◌≡◌, [], ◌∷◌, ◌++◌, ℕ, List, IfOk, OnErr, take};
ghost use Rattle.std.specs.Io.{ReadsAtMost};
ghost use Rattle.std.specs.Io.KnownBytes.{ReadConsumes};
ghost use Rattle.casa_app.specs.Inputs.{is_marked};

use arrayvec::ArrayVec;
use std::io;
use std::io::Read;

/// The byte order mark of UTF-8.
const MARK: &[u8] = &[0xEF, 0xBB, 0xBF];

/// Reads what the source does, and keeps the first three bytes.
#[derive(Drop)]
pub struct Input<R: Drop> {
    /// Where the bytes come from.
    pub source: R,
    /// The first three bytes that were read.
    pub first: ArrayVec<u8, 3>,
}

impl<R: Read + Drop> Input<R> {
    /// An input of which nothing was read.
    pub fn new(source: R) -> Input<R>
        ensures source { result.source ≡ source }
        ensures first { result.first.items ≡ [] }
    {
        Input {
            source,
            first: ArrayVec::new(),
        }
    }

    /// Whether a byte order mark stands before all that was read.
    pub(crate) fn is_marked(&self) -> bool
        ensures { result ≡ is_marked self.now.first.items }
    {
        self.first.as_slice() == MARK
    }
}

impl<R: Read + Drop> Read for Input<R> {
    ghost remaining = { λ input. R.remaining input.source };

    fn read(&mut self, buffer: &mut [u8]) -> io::Result<usize>
        ensures bound { ReadsAtMost result buffer.new }
        ensures bytes { ReadConsumes (R.remaining self.old.source) (R.remaining self.new.source)
            result buffer.new }
        ensures first { IfOk result (λ n. (before : List ℕ) → self.old.first.items ≡ take 3 before
            → self.new.first.items ≡ take 3 (before ++ take n buffer.new)) }
        ensures err { OnErr result (self.new.first.items ≡ self.old.first.items) }
    {
        let count = self.source.read(buffer)?;
        keep_first(&mut self.first, &buffer[..count]);
        Ok(count)
    }
}

/// Keeps the first three of all bytes.
fn keep_first(first: &mut ArrayVec<u8, 3>, bytes: &[u8])
    ensures { (before : List ℕ) → first.old.items ≡ take 3 before
        → first.new.items ≡ take 3 (before ++ bytes.now) }
{
    'bytes: for &byte in bytes {
        keep_byte(first, byte);
    }
}

/// Keeps a byte where it is one of the first three.
fn keep_byte(first: &mut ArrayVec<u8, 3>, byte: u8)
    ensures { (before : List ℕ) → first.old.items ≡ take 3 before
        → first.new.items ≡ take 3 (before ++ byte ∷ []) }
{
    if !first.is_full() {
        first.push(byte);
    }
}

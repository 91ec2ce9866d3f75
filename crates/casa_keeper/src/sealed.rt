//! A writer that takes bytes only with what a keeper gives.

ghost use Rattle.std.specs.Prelude.{◌≡◌};

use crate::held::Keeper;
use std::io;
use std::io::Write;
use std::marker::PhantomData;

/// A writer to which nothing can be written without what a keeper of this type gives when all was kept.
#[derive(Drop)]
pub struct Sealed<O, P> {
    writer: O,
    keeper: PhantomData<P>,
}

impl<O, P> Sealed<O, P> {
    /// Gives the writer back.
    pub(crate) fn into_writer(self) -> O
        ensures { result ≡ self.writer }
    {
        self.writer
    }

    /// Seals a writer.
    pub(crate) fn new(writer: O) -> Sealed<O, P>
        ensures { result.writer ≡ writer }
    {
        Sealed {
            writer,
            keeper: PhantomData,
        }
    }
}

impl<O: Write, P: Keeper> Sealed<O, P> {
    ghost use Rattle.std.specs.Io.{WritesAtMost};
    ghost use Rattle.std.specs.Io.KnownBytes.{Keeps, WriteAppends};

    /// Writes some of the bytes, with what the keeper gave when all was kept.
    pub(crate) fn write(&mut self, _kept: P::Kept, bytes: &[u8]) -> io::Result<usize>
        ensures bound { WritesAtMost result bytes.now }
        ensures bytes { WriteAppends (O.contents self.old.writer) (O.contents self.new.writer)
            result bytes.now }
    {
        self.writer.write(bytes)
    }

    /// Sends on what the writer has gathered.
    pub(crate) fn flush(&mut self) -> io::Result<()>
        ensures { Keeps (O.contents self.old.writer) (O.contents self.new.writer) }
    {
        self.writer.flush()
    }
}

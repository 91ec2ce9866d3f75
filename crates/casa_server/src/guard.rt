//! A reader that gives nothing of a request of HTTP.

ghost use Rattle.std.specs.Prelude.{◌≡◌, ◌≢◌, ◌↔◌, nat_eq, IsTrue, OnOk};
ghost use Rattle.std.specs.List.{list_any, starts_with};
ghost use Rattle.std.specs.Option.{option_map};
ghost use Rattle.casa_server.specs.declared.guard.Stage.TheVariants.{Looking};
ghost use Rattle.std.specs.Io.KnownBytes.{Keeps};
ghost use Rattle.casa_server.specs.Looks.{IsOpen, Tells};
ghost use Rattle.casa_server.specs.Requests.{let_through};

use arrayvec::ArrayVec;
use std::io;
use std::io::{ErrorKind, Read};

/// So many bytes tell of each method whether a request begins with it.
const MOST: usize = 8;

/// How requests begin: a method, and the space behind it.
const BEGINNINGS: [&str; 10] = [
    "GET ", "HEAD ", "POST ", "PUT ", "PATCH ", "DELETE ", "CONNECT ", "OPTIONS ", "TRACE ", "PRI ",
];

/// What the first bytes tell.
#[derive(Clone, Copy, PartialEq, Eq, Debug)]
pub enum Stage {
    /// They may be a part of the beginning of a request.
    Looking,
    /// No request begins with them.
    Passed,
    /// A request begins with them.
    Turned,
}

/// A reader that gives what its source gives, but nothing of a request of HTTP: where the first bytes are a method of HTTP
/// and a space, each read fails, by `InvalidData`. So what a web page or an HTTP client sends to a port is no line of a desk.
///
/// It reads the first bytes one by one until they can't be the beginning of a request any more: of a command line,
/// which begins with a brace, that is one.
#[derive(Drop)]
pub struct Guarded<R> {
    source: R,
    held: ArrayVec<u8, MOST>,
    stage: Stage,
    ghost open: { stage ≡ Looking → IsOpen held.items },
}

impl<R: Read> Guarded<R> {
    ghost use Rattle.casa_server.specs.Guards.{guarded_left, IsTurned};

    /// A reader of this source, which nobody has read from.
    pub fn new(source: R) -> Guarded<R>
        ensures { ⟦<Guarded<R> as Read>⟧.remaining result
            ≡ option_map let_through (R.remaining source) }
    {
        Guarded {
            source,
            held: ArrayVec::new(),
            stage: Stage::Looking,
        }
    }

    /// Whether a request was seen to begin: each read fails then.
    pub fn is_turned(&self) -> bool
        ensures { IsTrue result ↔ (self.now.stage ≡ Stage.Turned) }
    {
        self.stage == Stage::Turned
    }

    /// The source.
    pub fn source(&self) -> &R
        ensures { result.now ≡ self.now.source }
    {
        &self.source
    }

    /// Reads on until it is known whether a request begins. At a fault of the source it is not known yet.
    fn look(&mut self) -> io::Result<()>
        ensures kept { Keeps (guarded_left R.remaining self.old) (guarded_left R.remaining self.new) }
        ensures known { OnOk result (self.new.stage ≢ Stage.Looking) }
        ensures turned { OnOk result (IsTurned R.remaining self.old → self.new.stage ≡ Stage.Turned) }
    {
        'looking: while self.stage == Stage::Looking {
            let mut byte = [0];
            if self.source.read(&mut byte)? == 0 {
                self.stage = Stage::Passed;
            } else {
                self.held.push(byte[0]);
                self.stage = told_by(self.held.as_slice());
            }
        }
        Ok(())
    }
}

/// What these first bytes tell.
fn told_by(bytes: &[u8]) -> Stage
    ensures { Tells bytes.now result }
{
    if begins_by(&BEGINNINGS, bytes) {
        Stage::Turned
    } else if is_begun(&BEGINNINGS, bytes) {
        Stage::Looking
    } else {
        Stage::Passed
    }
}

/// Whether the bytes begin by one of these texts.
fn begins_by(texts: &[&str], bytes: &[u8]) -> bool
    ensures { result ≡ list_any (λ text. starts_with nat_eq bytes.now text.now) texts.now }
{
    texts.iter().any(|text| bytes.starts_with(text.as_bytes()))
}

/// Whether one of these texts begins by the bytes.
fn is_begun(texts: &[&str], bytes: &[u8]) -> bool
    ensures { result ≡ list_any (λ text. starts_with nat_eq text.now bytes.now) texts.now }
{
    texts.iter().any(|text| text.as_bytes().starts_with(bytes))
}

impl<R: Read> Read for Guarded<R> {
    ghost use Rattle.std.specs.Io.{ReadsAtMost};
    ghost use Rattle.std.specs.Io.KnownBytes.{ReadConsumes};
    ghost use Rattle.casa_server.specs.Guards.{guarded_left, IsTurned};

    ghost remaining = { guarded_left R.remaining };

    /// Reads on; nothing of a request.
    fn read(&mut self, buf: &mut [u8]) -> io::Result<usize>
        ensures bound { ReadsAtMost result buf.new }
        ensures bytes { ReadConsumes (guarded_left R.remaining self.old) (guarded_left R.remaining self.new) result buf.new }
        ensures turned { OnOk result (IsTurned R.remaining self.old → ⊥) }
    {
        self.look()?;
        if self.stage == Stage::Turned {
            return Err(io::Error::from(ErrorKind::InvalidData));
        }
        if buf.is_empty() {
            return Ok(0);
        }
        let Some(byte) = self.held.pop_at(0) else {
            return self.source.read(buf);
        };
        buf[0] = byte;
        Ok(1)
    }
}

//! One browser's connection.

ghost use Rattle.casa_http.specs.Browsed.{IsBounded, IsBrowsed};

use crate::backend::Backend;
use crate::site::Site;
use http_server::{Config, Connection, serve};
use std::alloc::Global;
use std::hash::RandomState;
use std::io;
use std::io::{Read, Write};

/// Answers the requests of a browser, one after the other, until its connection ends or has to be closed.
///
/// What can't be answered ends it, with the answer that HTTP has for that: a head of more than 16 KiB or 64 fields (431; 414
/// where its target is too long), a body of more than 1 MiB (413), a coding that is not known (501), and whatever else is no
/// request (400). A browser that sends nothing, or does not read, is waited for: how long is up to the reader and the writer.
/// The keys are what the maps of fields are hashed with, and have to be secret.
///
/// An error is one of the reader or the writer. `WriteZero` also comes where the writer takes nothing, and `TimedOut` after
/// 2^64 turns.
pub fn browse<B: Backend, I: Read, O: Write>(
    alloc: Global,
    keys: RandomState,
    site: &mut Site<'_, B>,
    reader: &mut I,
    writer: &mut O,
) -> io::Result<()>
    ensures { IsBrowsed B.shows B.answers result site.old site.new
        (I.remaining reader.old) (I.remaining reader.new)
        (O.contents writer.old) (O.contents writer.new) }
{
    let mut connection = Connection::new(alloc, keys, bounds());
    serve(&mut connection, site, reader, writer)
}

/// How much a browser may send, and what waits to be written.
fn bounds() -> Config
    ensures { IsBounded result }
{
    Config {
        max_body_len: 1_048_576,
        ..Config::default()
    }
}

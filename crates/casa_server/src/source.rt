ghost use Rattle.std.specs.Prelude.{◌∷◌, List, [], Option, None, IfOk, OnErr};
ghost use Rattle.casa_server.specs.Sources.{Gives, IsExhausted};

use crate::fault::ServeFault;
use std::alloc::Global;
use std::io;
use std::io::{Read, Write};
use std::net::{TcpListener, TcpStream};
use std::sync::Arc;

/// What gives connections, one after the other, as a listener does.
pub trait Connections {
    /// The end at which lines are read.
    type Reader: Read + Send + Drop;

    /// The end at which replies are written.
    type Writer: Write + Send + Drop;

    // The connections that it will give from here on, where they are known.
    ghost coming: { Self → Option (List (Self.Reader × Self.Writer)) } = { λ _. None };

    /// The next connection: where to read and where to write. It may wait for one to come. A connection is closed when both
    /// ends of it are dropped.
    ///
    /// `AcceptFailed` where there is none, `NoMemory` where there is no memory for it. Where it is known what comes, it fails
    /// only when none is left.
    fn next(&mut self, alloc: Global) -> Result<(Self::Reader, Self::Writer), ServeFault>
        ensures given { IfOk result (λ connection. Gives (coming self.old) (coming self.new)
            (connection ∷ [])) }
        ensures ended { OnErr result (IsExhausted (coming self.old)) };
}

/// One end of a connection over TCP, which is closed when its two ends are dropped.
#[derive(Drop)]
pub struct StreamEnd {
    stream: Arc<TcpStream>,
}

impl Read for StreamEnd {
    fn read(&mut self, buf: &mut [u8]) -> io::Result<usize> {
        let mut stream: &TcpStream = &self.stream;
        stream.read(buf)
    }
}

impl Write for StreamEnd {
    fn write(&mut self, buf: &[u8]) -> io::Result<usize> {
        let mut stream: &TcpStream = &self.stream;
        stream.write(buf)
    }

    fn flush(&mut self) -> io::Result<()> {
        let mut stream: &TcpStream = &self.stream;
        stream.flush()
    }
}

/// A listener gives the connections that it accepts. Their replies are sent as soon as they are written: the socket is told
/// not to wait for more bytes (`TCP_NODELAY`).
impl<'a> Connections for &'a TcpListener {
    type Reader = StreamEnd;

    type Writer = StreamEnd;

    fn next(&mut self, alloc: Global) -> Result<(StreamEnd, StreamEnd), ServeFault> {
        let Ok((stream, _)) = self.accept() else {
            return Err(ServeFault::AcceptFailed);
        };
        // A system that refuses it may send replies later; it sends them all the same.
        let _ = stream.set_nodelay(true);
        let Ok(stream) = Arc::new(alloc, stream) else {
            return Err(ServeFault::NoMemory);
        };
        let Ok(same) = stream.clone() else {
            return Err(ServeFault::NoMemory);
        };
        Ok((StreamEnd { stream }, StreamEnd { stream: same }))
    }
}

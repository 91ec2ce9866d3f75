//! Connections over TCP and over sockets of the file system.

ghost use Rattle.std.specs.Prelude.{◌≡◌, ◌+◌, ◌-◌, ◌^◌, min, take, None, Some, false, IsTrue, IfErr, IfOk, OnErr, OnOk};
ghost use Rattle.std.specs.Io.{ReadsAtMost, WritesAtMost};
ghost use Rattle.std.specs.Io.KnownBytes.{ReadConsumes};
ghost use Rattle.std.specs.IoError.{error_kind};
ghost use Rattle.casa_sockets.specs.LineFeeds.{line_feeds};
ghost use Rattle.casa_sockets.specs.Waiting.{WaitsBySeconds, WaitsFor};

use std::alloc::Global;
use std::fmt::{Display, Formatter};
use std::io::{ErrorKind, Read, Write};
use std::net::{Shutdown, SocketAddr, TcpListener, TcpStream};
use std::os::fd::OwnedFd;
use std::os::unix::net::{UnixListener, UnixStream};
use std::sync::Arc;
use std::sync::atomic::{AtomicBool, AtomicU64, Ordering};
use std::time::Duration;
use std::{fmt, io};

/// How long a read or a write waits at a time where the server may have to end, in seconds.
const LOOK: u64 = 1;

/// What connections come to: a port, or a socket of the file system.
pub enum Listener {
    Tcp(TcpListener),
    Unix(UnixListener),
}

impl Drop for Listener {
    fn drop(self) {
        match self {
            Listener::Tcp(_) | Listener::Unix(_) => {}
        }
    }
}

/// A connection, over TCP or over a socket of the file system.
#[derive(Drop)]
pub enum Stream {
    Tcp(TcpStream),
    Unix(UnixStream),
}

/// Who is at the other end of a connection: an address, or somebody at the socket.
#[derive(Clone, Copy)]
pub enum Peer {
    Tcp(SocketAddr),
    Unix,
}

/// The address, or `the socket`.
impl Display for Peer {
    fn fmt<W: fmt::Write>(&self, f: &mut Formatter<W>) -> fmt::Result {
        match self {
            Peer::Tcp(address) => write!(f, "{address}"),
            Peer::Unix => f.write_str("the socket"),
        }
    }
}

impl Listener {
    /// The next connection, for which it waits, and who it comes from. What the system says where it can't be accepted, as for
    /// want of descriptors, or where the listener is shut.
    pub fn accept(&self) -> io::Result<(Stream, Peer)> {
        match self {
            Listener::Tcp(listener) => {
                let (stream, address) = listener.accept()?;
                // A system that refuses it may send replies later; it sends them all the same.
                let _ = stream.set_nodelay(true);
                Ok((Stream::Tcp(stream), Peer::Tcp(address)))
            }
            Listener::Unix(listener) => {
                let (stream, _) = listener.accept()?;
                Ok((Stream::Unix(stream), Peer::Unix))
            }
        }
    }

    /// Lets nobody connect any more, and wakes who waits for that, here or by another owner of this listener. What the system
    /// says where it can't, as for want of descriptors; then all stays as it was.
    pub fn shut(&self) -> io::Result<()> {
        match self {
            Listener::Tcp(listener) => {
                let same = OwnedFd::from(listener.try_clone()?);
                TcpStream::from(same).shutdown(Shutdown::Both)
            }
            Listener::Unix(listener) => {
                let same = OwnedFd::from(listener.try_clone()?);
                UnixStream::from(same).shutdown(Shutdown::Both)
            }
        }
    }
}

impl Stream {
    /// Lets no read and no write wait longer than this, if it is to be bounded. `InvalidInput` where it is no time at all.
    fn set_timeouts(&self, patience: Patience) -> io::Result<()> {
        let (read, write) = (patience.reading.at_a_time, patience.writing.at_a_time);
        match self {
            Stream::Tcp(stream) => {
                stream.set_read_timeout(read)?;
                stream.set_write_timeout(write)
            }
            Stream::Unix(stream) => {
                stream.set_read_timeout(read)?;
                stream.set_write_timeout(write)
            }
        }
    }
}

/// How long one end of a connection waits for its peer: at a time, and how often.
#[derive(Clone, Copy)]
struct Waits {
    at_a_time: Option<Duration>,
    times: u64,
}

impl Waits {
    /// So many seconds, if they are bounded.
    fn for_seconds(idle: Option<u32>) -> Waits
        ensures { WaitsFor idle result }
    {
        let at_a_time = match idle {
            Some(seconds) => Some(Duration::from_secs(u64::from(seconds))),
            None => None,
        };
        Waits {
            at_a_time,
            times: 1,
        }
    }

    /// So many seconds, if they are bounded, a second at a time.
    fn looking(idle: Option<u32>) -> Waits
        ensures all { WaitsFor idle result }
        ensures at_a_time { WaitsBySeconds result }
    {
        Waits {
            at_a_time: Some(Duration::from_secs(LOOK)),
            times: match idle {
                Some(seconds) => u64::from(seconds),
                None => u64::MAX,
            },
        }
    }
}

/// How long a connection waits for its peer: for what that sends, and until it takes what is sent.
#[derive(Clone, Copy)]
pub struct Patience {
    reading: Waits,
    writing: Waits,
}

impl Patience {
    /// So many seconds at each end, 1 or more, if they are bounded; a second at a time where the server may have to end
    /// meanwhile.
    pub fn new(idle: Option<u32>, may_end: bool) -> Patience
        ensures reading { WaitsFor idle result.reading }
        ensures writing { WaitsFor idle result.writing }
        ensures at_a_time { IsTrue may_end
            → WaitsBySeconds result.reading × WaitsBySeconds result.writing }
    {
        let waits = if may_end {
            Waits::looking(idle)
        } else {
            Waits::for_seconds(idle)
        };
        Patience {
            reading: waits,
            writing: waits,
        }
    }

    /// So many seconds to read and so many to write, 1 or more each, a second at a time, since the server may have to end
    /// meanwhile.
    pub fn looking(reading: u32, writing: u32) -> Patience
        ensures reading { WaitsFor (Some reading) result.reading }
        ensures writing { WaitsFor (Some writing) result.writing }
        ensures at_a_time { WaitsBySeconds result.reading × WaitsBySeconds result.writing }
    {
        Patience {
            reading: Waits::looking(Some(reading)),
            writing: Waits::looking(Some(writing)),
        }
    }
}

/// One of those that are counted, until it is dropped: then there is one less.
pub struct Counted<'a> {
    count: &'a AtomicU64,
}

impl<'a> Counted<'a> {
    /// One more of those that are counted here.
    pub fn new(count: &'a AtomicU64) -> Counted<'a> {
        count.fetch_add(1, Ordering::SeqCst);
        Counted { count }
    }
}

impl<'a> Drop for Counted<'a> {
    fn drop(self) {
        let Self { count } = self;
        count.fetch_sub(1, Ordering::SeqCst);
    }
}

/// A connection, as one of its two ends has it, which share it.
#[derive(Drop)]
struct Wire<'a> {
    stream: Arc<Stream>,
    /// How long this end waits.
    waits: Waits,
    /// Whether the server ends, so that nobody waits any more.
    is_ending: &'a AtomicBool,
}

impl<'a> Wire<'a> {
    /// Whether the server ends.
    fn is_ending(&self) -> bool {
        self.is_ending.load(Ordering::SeqCst)
    }

    /// Whether to go on waiting, where a read or a write came to this.
    fn goes_on(&self, done: &io::Result<usize>) -> bool {
        match done {
            Err(error) => error.kind() == ErrorKind::WouldBlock && !self.is_ending(),
            Ok(_) => false,
        }
    }

    /// Reads what has come, for which it waits.
    fn read(&self, buf: &mut [u8]) -> io::Result<usize>
        ensures { ReadsAtMost result buf.new }
    {
        for _ in 1..self.waits.times {
            let read = self.read_once(buf);
            if !self.goes_on(&read) {
                return read;
            }
        }
        self.read_once(buf)
    }

    fn read_once(&self, buf: &mut [u8]) -> io::Result<usize>
        ensures { ReadsAtMost result buf.new }
    {
        match &*self.stream {
            Stream::Tcp(stream) => read_from(stream, buf),
            Stream::Unix(stream) => read_from(stream, buf),
        }
    }

    /// Writes some bytes, which it waits to be taken.
    fn write(&self, buf: &[u8]) -> io::Result<usize>
        ensures { WritesAtMost result buf.now }
    {
        for _ in 1..self.waits.times {
            let written = self.write_once(buf);
            if !self.goes_on(&written) {
                return written;
            }
        }
        self.write_once(buf)
    }

    fn write_once(&self, buf: &[u8]) -> io::Result<usize>
        ensures { WritesAtMost result buf.now }
    {
        match &*self.stream {
            Stream::Tcp(stream) => write_to(stream, buf),
            Stream::Unix(stream) => write_to(stream, buf),
        }
    }
}

/// The end of a connection at which lines are read.
///
/// A read gives what has come, for which it waits as long as the connection's patience says. Then it fails by `WouldBlock`, and
/// so it does where it waits a second at a time and the server ends. Else it fails by what the system says.
pub struct LineEnd<'a> {
    wire: Wire<'a>,
    /// By which seat they are answered.
    pub seat: u32,
    /// Who sends them.
    pub peer: Peer,
    /// How many line feeds have come, at most 2^64 - 1.
    pub lines: u64,
    /// Whether the last read that failed had waited too long, and the server was not to end.
    pub is_idle: bool,
    /// That the connection is open.
    counted: Counted<'a>,
    /// That it has a desk, where it has one.
    pub desk: Option<Counted<'a>>,
}

impl<'a> Drop for LineEnd<'a> {
    fn drop(self) {
        let LineEnd {
            wire: _,
            seat: _,
            peer: _,
            lines: _,
            is_idle: _,
            counted: _,
            desk: _,
        } = self;
    }
}

/// The end of a connection at which replies are written.
///
/// A write tells how many bytes were taken, for which it waits as long as the connection's patience says. Then it fails by
/// `WouldBlock`, and so it does where it waits a second at a time and the server ends. Else it fails by what the system says. A
/// flush does nothing, and is never at fault.
pub struct ReplyEnd<'a> {
    wire: Wire<'a>,
}

impl<'a> Drop for ReplyEnd<'a> {
    fn drop(self) {
        let ReplyEnd { wire: _ } = self;
    }
}

impl<'a> Read for LineEnd<'a> {
    fn read(&mut self, buf: &mut [u8]) -> io::Result<usize>
        ensures bound { ReadsAtMost result buf.new }
        ensures bytes { ReadConsumes None None result buf.new }
        ensures lines { IfOk result (λ n. self.new.lines
            ≡ min (self.old.lines + line_feeds (take n buf.new)) (2 ^ 64 - 1)) }
        ensures err { OnErr result (self.new.lines ≡ self.old.lines) }
        ensures heard { OnOk result (self.new.is_idle ≡ self.old.is_idle) }
        ensures idle { IfErr result (λ error. IsTrue self.new.is_idle
            → error_kind error ≡ ErrorKind.WouldBlock) }
        ensures seat { self.new.seat ≡ self.old.seat }
        ensures peer { self.new.peer ≡ self.old.peer }
    {
        let read = self.wire.read(buf);
        match &read {
            Ok(n) => self.lines = self.lines.saturating_add(line_feeds(&buf[..*n])),
            Err(error) => {
                self.is_idle = error.kind() == ErrorKind::WouldBlock && !self.wire.is_ending();
            }
        }
        read
    }
}

impl<'a> Write for ReplyEnd<'a> {
    fn write(&mut self, buf: &[u8]) -> io::Result<usize> {
        self.wire.write(buf)
    }

    fn flush(&mut self) -> io::Result<()> {
        Ok(())
    }
}

/// The two ends of a connection, which is closed when both are dropped. They wait as this patience says; where that is a second
/// at a time, no more once `is_ending` is set. The reader tells this seat and this peer; it has no desk yet, and keeps `counted`
/// until it is dropped.
///
/// `InvalidInput` where the patience is of no time at all, or what else the system says where it does not let reads or writes be
/// bounded; `OutOfMemory` where there is no memory for the ends. The connection is closed then.
pub fn ends_of<'a>(
    alloc: Global,
    stream: Stream,
    seat: u32,
    peer: Peer,
    patience: Patience,
    is_ending: &'a AtomicBool,
    counted: Counted<'a>,
) -> io::Result<(LineEnd<'a>, ReplyEnd<'a>)>
    ensures seat { IfOk result (λ ends. ends.0.seat ≡ seat) }
    ensures peer { IfOk result (λ ends. ends.0.peer ≡ peer) }
    ensures lines { IfOk result (λ ends. ends.0.lines ≡ 0) }
    ensures idle { IfOk result (λ ends. ends.0.is_idle ≡ false) }
    ensures desk { IfOk result (λ ends. ends.0.desk ≡ None) }
    ensures reading { IfOk result (λ ends. ends.0.wire.waits ≡ patience.reading) }
    ensures writing { IfOk result (λ ends. ends.1.wire.waits ≡ patience.writing) }
{
    stream.set_timeouts(patience)?;
    let stream = Arc::new(alloc, stream)?;
    let same = stream.clone()?;
    let reader = LineEnd {
        wire: Wire {
            stream,
            waits: patience.reading,
            is_ending,
        },
        seat,
        peer,
        lines: 0,
        is_idle: false,
        counted,
        desk: None,
    };
    let wire = Wire {
        stream: same,
        waits: patience.writing,
        is_ending,
    };
    Ok((reader, ReplyEnd { wire }))
}

/// Reads from what is shared with a writer.
fn read_from<R: Read + Drop>(mut stream: R, buf: &mut [u8]) -> io::Result<usize>
    ensures { ReadsAtMost result buf.new }
{
    stream.read(buf)
}

/// Writes to what is shared with a reader.
fn write_to<W: Write + Drop>(mut stream: W, buf: &[u8]) -> io::Result<usize>
    ensures { WritesAtMost result buf.now }
{
    stream.write(buf)
}

/// How many line feeds there are.
fn line_feeds(bytes: &[u8]) -> u64
    ensures { result ≡ line_feeds bytes.now }
{
    bytes.iter().filter(|byte| **byte == b'\n').count() as u64
}

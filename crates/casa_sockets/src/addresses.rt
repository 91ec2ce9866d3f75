//! Where a server listens.

ghost use Rattle.std.specs.Prelude.{◌≡◌, Some, None, IfErr};

use crate::sockets;
use crate::streams::Listener;
use std::alloc::Global;
use std::fmt::{Display, Formatter};
use std::fs::Files;
use std::net::{Ipv4Addr, Net, TcpListener, TcpStream};
use std::{fmt, io};

/// Why an address of a server can't be had.
#[derive(Debug, Drop)]
pub struct BindFault {
    /// The port of 127.0.0.1; `None` where it is the socket.
    pub port: Option<u16>,
    /// What the system says.
    pub error: io::Error,
}

/// The address, and what the system says.
impl Display for BindFault {
    fn fmt<W: fmt::Write>(&self, f: &mut Formatter<W>) -> fmt::Result {
        match self.port {
            Some(port) => write!(f, "127.0.0.1:{port}: {}", self.error),
            None => write!(f, "the socket: {}", self.error),
        }
    }
}

impl Listener {
    /// Listens on this port of 127.0.0.1.
    ///
    /// Where it can't be had, the fault has the port, and what the system says: `AddrInUse` where another program listens
    /// there.
    pub fn on_port<R: Net<Listener = TcpListener, Stream = TcpStream>>(
        rt: &R,
        port: u16,
    ) -> Result<Listener, BindFault>
        ensures { IfErr result (λ fault. fault.port ≡ Some port) }
    {
        match TcpListener::bind(rt, (Ipv4Addr::LOCALHOST, port)) {
            Ok(listener) => Ok(Listener::Tcp(listener)),
            Err(error) => Err(BindFault {
                port: Some(port),
                error,
            }),
        }
    }

    /// Listens at a socket of the file system, which is made at this path: its owner may connect, and with `group` its group
    /// too. A socket that nobody answers at is replaced.
    ///
    /// Where it can't be had, the fault has no port, and what the system says: `AddrInUse` where somebody answers there. It
    /// says `AlreadyExists` where something else than a socket is there, and `OutOfMemory` where there is no memory.
    pub fn at_path<R: Files + Net>(
        rt: &R,
        alloc: Global,
        path: &str,
        group: bool,
    ) -> Result<Listener, BindFault>
        ensures { IfErr result (λ fault. fault.port ≡ None) }
    {
        match sockets::listen(rt, alloc, path, group) {
            Ok(listener) => Ok(Listener::Unix(listener)),
            Err(error) => Err(BindFault { port: None, error }),
        }
    }
}

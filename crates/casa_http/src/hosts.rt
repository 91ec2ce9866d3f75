//! The hosts of a server.

ghost use Rattle.std.specs.Prelude.{◌≡◌, IfOk, string_bytes};
ghost use Rattle.casa_http.specs.HostText.{host_text, local_hosts, names_of};

use std::alloc::{AllocError, Global};

/// The port that browsers take, and do not write, where none is written.
const USUAL_PORT: u16 = 80;

/// The hosts under which browsers know a server.
#[derive(Drop, Debug)]
pub struct Hosts {
    /// Each as browsers write it: in small letters, with its port behind a colon, as `localhost:4751`, but without port 80.
    pub names: Vec<String>,
}

impl Hosts {
    ghost use Rattle.casa_http.specs.Routes.{is_known};

    /// The hosts of a server at this port of its own machine, for browsers there: 127.0.0.1 and localhost. `AllocError` where
    /// there is no memory for them.
    pub fn local(alloc: Global, port: u16) -> Result<Hosts, AllocError>
        ensures { IfOk result (λ hosts. names_of hosts ≡ local_hosts port) }
    {
        let mut names = Vec::new(alloc);
        names.push(host_text(alloc, "127.0.0.1", port)?)?;
        names.push(host_text(alloc, "localhost", port)?)?;
        Ok(Hosts { names })
    }

    /// Whether this is one of them, byte by byte.
    pub fn has(&self, host: &[u8]) -> bool
        ensures { result ≡ is_known self.now host.now }
    {
        self.names.iter().any(|known| host == known.as_bytes())
    }
}

/// The host of this name at this port.
fn host_text(alloc: Global, name: &str, port: u16) -> Result<String, AllocError>
    ensures { IfOk result (λ host. string_bytes host ≡ host_text name.now port) }
{
    if port == USUAL_PORT {
        String::from_str(alloc, name)
    } else {
        format!(in alloc; "{name}:{port}")
    }
}

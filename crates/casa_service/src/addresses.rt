//! Where a server that stays listens.

use crate::fault::ServiceFault;
use crate::log::Log;
use casa_cli::{PagePort, Service};
use casa_http::Hosts;
use casa_sockets::Listener;
use std::alloc::{AllocError, Global};
use std::fs::Files;
use std::io::Eprint;
use std::net::{Net, TcpListener, TcpStream};
use std::sync::Arc;
use std::time::Clock;

/// Where a server listens: for desks, and for browsers where it serves a page.
#[derive(Drop)]
pub(crate) struct Addresses {
    pub(crate) desks: Vec<Arc<Listener>>,
    pub(crate) page: Option<PageAddress>,
}

/// Where a server listens for browsers, and the hosts under which they may ask there.
#[derive(Drop)]
pub(crate) struct PageAddress {
    pub(crate) listener: Arc<Listener>,
    pub(crate) hosts: Hosts,
}

impl Addresses {
    /// Listens at the addresses of a service, and says so.
    pub(crate) fn listen<
        R: Net<Listener = TcpListener, Stream = TcpStream> + Files + Clock + Eprint,
    >(rt: &R, alloc: Global, service: &Service, log: &Log<R>) -> Result<Addresses, ServiceFault> {
        let desks = listen_for_desks(rt, alloc, service, log)?;
        let page = match &service.page {
            Some(page) => Some(listen_for_browsers(rt, alloc, page, log)?),
            None => None,
        };
        Ok(Addresses { desks, page })
    }

    /// All its listeners.
    pub(crate) fn listeners(&self, alloc: Global) -> Result<Vec<Arc<Listener>>, AllocError> {
        let mut listeners = Vec::new(alloc);
        for listener in &self.desks {
            listeners.push(listener.clone()?)?;
        }
        if let Some(page) = &self.page {
            listeners.push(page.listener.clone()?)?;
        }
        Ok(listeners)
    }
}

/// Listens for desks, and says so.
fn listen_for_desks<R: Net<Listener = TcpListener, Stream = TcpStream> + Files + Clock + Eprint>(
    rt: &R,
    alloc: Global,
    service: &Service,
    log: &Log<R>,
) -> Result<Vec<Arc<Listener>>, ServiceFault> {
    let mut listeners = Vec::new(alloc);
    if let Some(port) = service.port {
        let listener = Listener::on_port(rt, port)?;
        share(alloc, &mut listeners, listener)?;
        log.tell(format_args!("listening on 127.0.0.1:{port}"));
    }
    if let Some(socket) = &service.socket {
        let listener = Listener::at_path(rt, alloc, socket.path, socket.group)?;
        share(alloc, &mut listeners, listener)?;
        log.tell(format_args!("listening at {}", socket.path));
    }
    Ok(listeners)
}

/// Listens for browsers, and says so.
fn listen_for_browsers<R: Net<Listener = TcpListener, Stream = TcpStream> + Clock + Eprint>(
    rt: &R,
    alloc: Global,
    page: &PagePort,
    log: &Log<R>,
) -> Result<PageAddress, ServiceFault> {
    let port = page.port;
    let hosts = hosts_of(alloc, page)?;
    let Ok(listener) = Arc::new(alloc, Listener::on_port(rt, port)?) else {
        return Err(ServiceFault::NoMemory);
    };
    log.tell(format_args!("listening on 127.0.0.1:{port} for browsers"));
    Ok(PageAddress { listener, hosts })
}

/// The hosts under which browsers may ask for a page.
fn hosts_of(alloc: Global, page: &PagePort) -> Result<Hosts, AllocError> {
    let mut hosts = Hosts::local(alloc, page.port)?;
    if let Some(host) = page.host {
        hosts.names.push(written_host(alloc, host)?)?;
    }
    Ok(hosts)
}

/// A host as browsers write it: in small letters, and without port 80.
fn written_host(alloc: Global, host: &str) -> Result<String, AllocError> {
    let written = match host.strip_suffix(":80") {
        Some(name) => name,
        None => host,
    };
    written.to_ascii_lowercase(alloc)
}

/// Adds a listener, to be shared.
fn share(
    alloc: Global,
    listeners: &mut Vec<Arc<Listener>>,
    listener: Listener,
) -> Result<(), AllocError> {
    let Ok(shared) = Arc::new(alloc, listener) else {
        return Err(AllocError);
    };
    match listeners.push(shared) {
        Ok(()) => Ok(()),
        Err(_) => Err(AllocError),
    }
}

//! What a request asks for.

ghost use Rattle.std.specs.Prelude.{◌≡◌};
ghost use Rattle.casa_http.specs.Routes.{IsPosition, field_of, is_foreign, is_of_page, own_route, query_of, read_at, read_by, route_of, sent_by, sent_to};

use crate::hosts::Hosts;
use bytes::Bytes;
use http::{HeaderName, Request, header};

/// What a request asks for.
#[derive(Clone, Copy, PartialEq, Eq, Debug)]
pub enum Route {
    /// Something of another server.
    Foreign,
    /// Nothing that is there.
    Unknown,
    /// What is read by GET alone, by another method.
    OnlyGet,
    /// What is done with lines that are sent, which POST alone asks for, by another method.
    OnlyPost,
    /// The same, which the page did not send.
    Forbidden,
    /// The page.
    Page,
    /// The state.
    State,
    /// A list.
    List,
    /// A flight.
    Flight,
    /// What came of the calls behind a position.
    Since,
    /// Metrics of the server.
    Metrics,
    /// That lines are answered, which the page sent.
    Lines,
    /// What would come of lines, which the page sent.
    Try,
}

/// What a request asks for, of a server with these hosts.
///
/// First comes whether it goes to another one: by its target, where that has a host of its own, or by its field `Host`, which
/// has to be one of these hosts, byte by byte. Then comes its path, then its method, and at last, where it sends lines, its
/// field `Origin`: that has to be `http://` and the request's own host.
pub fn route_of(hosts: &Hosts, request: &Request<Bytes>) -> Route
    ensures { result ≡ route_of hosts.now request.now }
{
    if is_foreign(hosts, request) {
        Route::Foreign
    } else {
        own_route(request)
    }
}

/// Whether a request goes to another host.
fn is_foreign(hosts: &Hosts, request: &Request<Bytes>) -> bool
    ensures { result ≡ is_foreign hosts.now request.now }
{
    request.uri().authority().is_some() || !hosts.has(field(request, &header::HOST))
}

/// What a request to this server asks for.
fn own_route(request: &Request<Bytes>) -> Route
    ensures { result ≡ own_route request.now }
{
    let path = request.uri().path();
    match sent_to(path) {
        Some(route) => sent_by(request, route),
        None => read_by(request.method().as_str(), read_at(path)),
    }
}

/// What is done with lines that are sent to a path; `None` where none are taken.
fn sent_to(path: &str) -> Option<Route>
    ensures { result ≡ sent_to path.now }
{
    if path == "/lines" {
        Some(Route::Lines)
    } else if path == "/try" {
        Some(Route::Try)
    } else {
        None
    }
}

/// What a request gets of what is done with lines.
fn sent_by(request: &Request<Bytes>, route: Route) -> Route
    ensures { result ≡ sent_by request.now route }
{
    if !(request.method().as_str() == "POST") {
        Route::OnlyPost
    } else if is_of_page(request) {
        route
    } else {
        Route::Forbidden
    }
}

/// Whether a page sent the request that came from the host to which it goes.
fn is_of_page(request: &Request<Bytes>) -> bool
    ensures { result ≡ is_of_page request.now }
{
    match field(request, &header::ORIGIN).strip_prefix(b"http://") {
        Some(host) => host == field(request, &header::HOST),
        None => false,
    }
}

/// What can be read at a path; `None` where nothing is there.
fn read_at(path: &str) -> Option<Route>
    ensures { result ≡ read_at path.now }
{
    if path == "/" {
        Some(Route::Page)
    } else if path == "/state" {
        Some(Route::State)
    } else if path == "/list" {
        Some(Route::List)
    } else if path == "/flight" {
        Some(Route::Flight)
    } else if path == "/since" {
        Some(Route::Since)
    } else if path == "/metrics" {
        Some(Route::Metrics)
    } else {
        None
    }
}

/// What a method gets of what can be read.
fn read_by(method: &str, read: Option<Route>) -> Route
    ensures { result ≡ read_by method.now read }
{
    match read {
        None => Route::Unknown,
        Some(route) => {
            if method == "GET" {
                route
            } else {
                Route::OnlyGet
            }
        }
    }
}

/// The first value of a field; empty where there is none.
fn field<'r>(request: &'r Request<Bytes>, name: &HeaderName) -> &'r [u8]
    ensures { result.now ≡ field_of request.now name.now }
{
    match request.headers().get(name) {
        Some(value) => value.as_bytes(),
        None => &[],
    }
}

/// What stands behind the first `?` of a request's target; empty where there is none.
pub(crate) fn query<'r>(request: &'r Request<Bytes>) -> &'r str
    ensures { result.now ≡ query_of request.now }
{
    match request.uri().query() {
        Some(query) => query,
        None => "",
    }
}

/// The position that a text writes in decimal digits, perhaps behind a plus; `None` where it writes no number below 2^64.
pub(crate) fn position(text: &str) -> Option<usize>
    ensures { IsPosition text.now result }
{
    match text.parse::<usize>() {
        Ok(position) => Some(position),
        Err(_) => None,
    }
}

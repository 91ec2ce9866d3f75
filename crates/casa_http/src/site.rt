//! What is served.

ghost use Rattle.std.specs.Prelude.{◌≡◌, ℕ, List, Option, IsOk, OnErr, OnOk, codes};
ghost use Rattle.http_server.specs.Response.{IsBlank};
ghost use Rattle.casa_http.specs.Answered.{IsMade, IsShown, IsShownBehind};
ghost use Rattle.casa_http.specs.Question.{whole_state, list_named, flight_named, server_metrics, lines_tried};

use crate::backend::Backend;
use crate::hosts::Hosts;
use crate::route::{Route, position, query, route_of};
use crate::sending::{allow_only, give_up, refuse, send_found, send_text};
use bytes::Bytes;
use http::{Request, StatusCode};
use http_server::{Response, Service};
use std::alloc::AllocError;

/// The kind of the page.
const HTML: &str = "text/html; charset=utf-8";

/// The kind of what is shown.
const JSON: &str = "application/json";

/// The kind of replies, each of them a line of JSON.
const JSON_LINES: &str = "application/x-ndjson";

/// The kind of metrics, as Prometheus reads them.
const METRICS: &str = "text/plain; version=0.0.4; charset=utf-8";

/// What is served: a page, and what stands behind it.
#[derive(Drop)]
pub struct Site<'a, B> {
    /// Where it is served.
    pub hosts: &'a Hosts,
    /// The page.
    pub page: &'a [u8],
    /// What stands behind it.
    pub backend: B,
}

impl<'a, B: Backend> Service for Site<'a, B> {
    ghost use Rattle.casa_http.specs.Browsed.{SiteAnswers};

    ghost answers = { SiteAnswers B.shows B.answers };

    /// Answers a request, and always does: where there is no memory for it, by 503.
    fn call(&mut self, request: &Request<Bytes>, response: &mut Response) -> Result<(), AllocError>
        requires { IsBlank response.old }
        ensures always { IsOk result }
        ensures ok { OnOk result (SiteAnswers B.shows B.answers
            self.old request.now response.new self.new) }
        ensures err { OnErr result (self.new ≡ self.old) }
    {
        let backend = &mut self.backend;
        match route_of(self.hosts, request) {
            Route::Foreign => refuse(response, StatusCode::MISDIRECTED_REQUEST),
            Route::Unknown => refuse(response, StatusCode::NOT_FOUND),
            Route::OnlyGet => allow_only(response, "GET"),
            Route::OnlyPost => allow_only(response, "POST"),
            Route::Forbidden => refuse(response, StatusCode::FORBIDDEN),
            Route::Page => send_text(response, HTML, self.page),
            Route::State => show_state(backend, response),
            Route::List => show_list(backend, query(request).as_bytes(), response),
            Route::Flight => show_flight(backend, query(request).as_bytes(), response),
            Route::Since => show_since(backend, position(query(request)), response),
            Route::Metrics => show_metrics(backend, response),
            Route::Lines => answer(backend, request.body().as_slice(), response),
            Route::Try => show_try(backend, request.body().as_slice(), response),
        }
        Ok(())
    }
}

/// Shows the state.
fn show_state<B: Backend>(backend: &mut B, response: &mut Response)
    requires { IsBlank response.old }
    ensures { IsShown B.shows whole_state backend.old response.new backend.new }
{
    match backend.state() {
        Ok(text) => send_text(response, JSON, text.as_slice()),
        Err(_) => give_up(response),
    }
}

/// Shows the list of this name, where there is one.
fn show_list<B: Backend>(backend: &mut B, name: &[u8], response: &mut Response)
    requires { IsBlank response.old }
    ensures { IsShown B.shows (list_named name.now) backend.old response.new backend.new }
{
    match backend.list(name) {
        Ok(found) => send_found(response, JSON, StatusCode::NOT_FOUND, &found),
        Err(_) => give_up(response),
    }
}

/// Shows the flight of this name, where there is one.
fn show_flight<B: Backend>(backend: &mut B, name: &[u8], response: &mut Response)
    requires { IsBlank response.old }
    ensures { IsShown B.shows (flight_named name.now) backend.old response.new backend.new }
{
    match backend.flight(name) {
        Ok(found) => send_found(response, JSON, StatusCode::NOT_FOUND, &found),
        Err(_) => give_up(response),
    }
}

/// Shows what came of the calls behind this position, where there is one.
fn show_since<B: Backend>(backend: &mut B, position: Option<usize>, response: &mut Response)
    requires { IsBlank response.old }
    ensures { IsShownBehind B.shows position backend.old response.new backend.new }
{
    let Some(position) = position else {
        refuse(response, StatusCode::NOT_FOUND);
        return;
    };
    match backend.since(position) {
        Ok(found) => send_found(response, JSON, StatusCode::NOT_FOUND, &found),
        Err(_) => give_up(response),
    }
}

/// Shows the metrics of the server.
fn show_metrics<B: Backend>(backend: &mut B, response: &mut Response)
    requires { IsBlank response.old }
    ensures { IsShown B.shows server_metrics backend.old response.new backend.new }
{
    match backend.metrics() {
        Ok(text) => send_text(response, METRICS, text.as_slice()),
        Err(_) => give_up(response),
    }
}

/// Shows what would come of these lines, where they are not too many.
fn show_try<B: Backend>(backend: &mut B, lines: &[u8], response: &mut Response)
    requires { IsBlank response.old }
    ensures { IsShown B.shows (lines_tried lines.now) backend.old response.new backend.new }
{
    match backend.would_answer(lines) {
        Ok(found) => send_found(response, JSON_LINES, StatusCode::PAYLOAD_TOO_LARGE, &found),
        Err(_) => give_up(response),
    }
}

/// Answers these lines.
fn answer<B: Backend>(backend: &mut B, lines: &[u8], response: &mut Response)
    requires { IsBlank response.old }
    ensures { (text : Option (List ℕ)) × B.answers backend.old lines.now text backend.new
        × IsMade (codes "application/x-ndjson") text response.new }
{
    match backend.answer(lines) {
        Ok(text) => send_text(response, JSON_LINES, text.as_slice()),
        Err(_) => give_up(response),
    }
}

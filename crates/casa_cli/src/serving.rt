//! What the options of `casa serve` ask for, and which of them do not go together.

ghost use Rattle.std.specs.Prelude.{◌≡◌, codes, find, option_map};
ghost use Rattle.clap.specs.Words.{found_of, rows_of};
ghost use Rattle.casa_cli.specs.Tasks.{AreChecked, IsNumber, IsOutcome, clash_found, page_port};
ghost use Rattle.casa_cli.specs.Words.{clash_by_stay, clash_of, clash_of_ending, clash_of_staying, is_given, page_port_of, seats_of, serve_at, serve_of, socket_of, stay_at, staying_options};

use crate::clashes::{Clash, clash_fault};
use crate::journals::{journal_clash, journal_in};
use crate::tasks::{PagePort, Service, Socket, Task, TaskFault, Ticking};
use crate::values::{checked_day, is_given, number_in, port_in, value_of};
use casa_usage::serve_command;
use clap::ArgMatches;
use std::alloc::Global;

/// The task of `casa serve` with the values of its options.
pub fn serve_task<'a>(alloc: Global, values: &ArgMatches<'a>) -> Result<Task<'a>, TaskFault>
    requires { AreChecked (rows_of (found_of values.now)) }
    ensures { IsOutcome (serve_of (rows_of (found_of values.now))) result }
{
    if let Some(found) = clash_in(values) {
        return Err(clash_fault(alloc, serve_command(alloc), found));
    }
    if is_given(values, "stay") {
        stay_task(values)
    } else {
        ending_task(alloc, values)
    }
}

/// The task of a server that ends, whose options go together.
fn ending_task<'a>(alloc: Global, values: &ArgMatches<'a>) -> Result<Task<'a>, TaskFault>
    requires { AreChecked (rows_of (found_of values.now)) }
    ensures { IsOutcome (serve_at (rows_of (found_of values.now))) result }
{
    let port = match port_in(values, "port") {
        Some(port) => port,
        None => return Err(clash_fault(alloc, serve_command(alloc), Clash::NoPort)),
    };
    let connections = number_in(values, "connections").unwrap_or(1);
    let turns = number_in(values, "turns").unwrap_or(0);
    let day = checked_day(values)?;
    if turns > 0 && day.is_none() {
        return Err(TaskFault::BadDay);
    }
    Ok(Task::Serve {
        port,
        connections,
        turns,
        day,
        journal: journal_in(values),
    })
}

/// The task of a server that stays, whose options go together.
fn stay_task<'a>(values: &ArgMatches<'a>) -> Result<Task<'a>, TaskFault>
    requires { AreChecked (rows_of (found_of values.now)) }
    ensures { IsOutcome (stay_at (rows_of (found_of values.now))) result }
{
    let day = checked_day(values)?;
    let clock = if is_given(values, "clock") {
        let day = day.ok_or(TaskFault::BadDay)?;
        let every = number_in(values, "every").unwrap_or(1);
        Some(Ticking { day, every })
    } else {
        None
    };
    Ok(Task::Stay(Service {
        port: port_in(values, "port"),
        socket: socket_in(values),
        page: page_port_in(values),
        seats: seats_in(values),
        idle: number_in(values, "idle"),
        quiet: is_given(values, "quiet"),
        clock,
        journal: journal_in(values),
    }))
}

/// The socket to listen on.
fn socket_in<'a>(values: &ArgMatches<'a>) -> Option<Socket<'a>>
    ensures { option_map (λ socket. (socket.path.now, socket.group)) result
        ≡ socket_of (rows_of (found_of values.now)) }
{
    let path = value_of(values, "socket")?;
    let group = is_given(values, "group");
    Some(Socket { path, group })
}

/// Where a page is served.
fn page_port_in<'a>(values: &ArgMatches<'a>) -> Option<PagePort<'a>>
    requires { IsNumber 1 65535 (codes "page") (rows_of (found_of values.now)) }
    ensures { page_port result ≡ page_port_of (rows_of (found_of values.now)) }
{
    let port = port_in(values, "page")?;
    let host = value_of(values, "page-host");
    Some(PagePort { port, host })
}

/// The seats at an address.
fn seats_in(values: &ArgMatches<'_>) -> u32
    requires { IsNumber 1 1000 (codes "seats") (rows_of (found_of values.now)) }
    ensures { result ≡ seats_of (rows_of (found_of values.now)) }
{
    number_in(values, "seats").unwrap_or(64)
}

/// The first clash of the options of `serve`, a missing port apart.
fn clash_in(values: &ArgMatches<'_>) -> Option<Clash>
    requires { IsNumber 1 1000 (codes "seats") (rows_of (found_of values.now)) }
    ensures { option_map clash_found result ≡ clash_of (rows_of (found_of values.now)) }
{
    match clash_by_stay(values) {
        Some(found) => Some(found),
        None => journal_clash(values),
    }
}

/// The first clash of its options but for those of a journal.
fn clash_by_stay(values: &ArgMatches<'_>) -> Option<Clash>
    requires { IsNumber 1 1000 (codes "seats") (rows_of (found_of values.now)) }
    ensures { option_map clash_found result ≡ clash_by_stay (rows_of (found_of values.now)) }
{
    if is_given(values, "stay") {
        staying_clash(values)
    } else {
        ending_clash(values)
    }
}

/// The first clash of the options of a server that ends.
fn ending_clash(values: &ArgMatches<'_>) -> Option<Clash>
    ensures { option_map clash_found result ≡ clash_of_ending (rows_of (found_of values.now)) }
{
    let option = staying_option(values)?;
    Some(Clash::Needs(option, "stay"))
}

/// The first option of a server that stays that is given.
fn staying_option(values: &ArgMatches<'_>) -> Option<&'static str>
    ensures { option_map (λ option. option.now) result
        ≡ find (λ option. is_given option (rows_of (found_of values.now))) staying_options }
{
    if is_given(values, "socket") {
        Some("socket")
    } else if is_given(values, "group") {
        Some("group")
    } else if is_given(values, "page") {
        Some("page")
    } else if is_given(values, "page-host") {
        Some("page-host")
    } else if is_given(values, "seats") {
        Some("seats")
    } else if is_given(values, "idle") {
        Some("idle")
    } else if is_given(values, "quiet") {
        Some("quiet")
    } else if is_given(values, "clock") {
        Some("clock")
    } else if is_given(values, "every") {
        Some("every")
    } else {
        None
    }
}

/// The first clash of the options of a server that stays.
fn staying_clash(values: &ArgMatches<'_>) -> Option<Clash>
    requires { IsNumber 1 1000 (codes "seats") (rows_of (found_of values.now)) }
    ensures { option_map clash_found result ≡ clash_of_staying (rows_of (found_of values.now)) }
{
    let (has_port, has_socket) = (is_given(values, "port"), is_given(values, "socket"));
    if is_given(values, "connections") {
        Some(Clash::Excludes("stay", "connections"))
    } else if is_given(values, "turns") {
        Some(Clash::Excludes("stay", "turns"))
    } else if !has_port && !has_socket {
        Some(Clash::NoAddress)
    } else if is_given(values, "group") && !has_socket {
        Some(Clash::Needs("group", "socket"))
    } else if is_given(values, "page-host") && !is_given(values, "page") {
        Some(Clash::Needs("page-host", "page"))
    } else if is_given(values, "every") && !is_given(values, "clock") {
        Some(Clash::Needs("every", "clock"))
    } else if has_port && has_socket && seats_in(values) > 500 {
        Some(Clash::TooManySeats)
    } else {
        None
    }
}

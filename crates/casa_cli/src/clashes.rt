//! Options that do not go together, and what is said of them.

ghost use Rattle.std.specs.Prelude.{◌≡◌, Err, IfOk};
ghost use Rattle.clap.specs.Words.{kind_of};
ghost use Rattle.casa_cli.specs.Tasks.{IsOutcome, clash_found, kind_of_clash};
ghost use Rattle.casa_cli.specs.Words.{clashing};

use crate::tasks::TaskFault;
use clap::Command;
use clap::error::ErrorKind;
use std::alloc::{AllocError, Global};

/// Options that do not go together, by their names.
#[derive(Clone, Copy)]
pub enum Clash {
    /// One without the one that it needs.
    Needs(&'static str, &'static str),
    /// Two that exclude each other.
    Excludes(&'static str, &'static str),
    /// Neither `--reg` nor `--all`, for a report.
    NoList,
    /// Neither `--flights` nor `--regs`, for lines that are made of tables.
    NoTable,
    /// No `--port`, for a server that ends.
    NoPort,
    /// Neither `--port` nor `--socket`, for one that stays.
    NoAddress,
    /// More than 500 seats at each of two addresses.
    TooManySeats,
}

/// The fault for a clash of options of this subcommand, as clap's own.
pub fn clash_fault<'a>(
    alloc: Global,
    command: Result<Command<'a>, AllocError>,
    found: Clash,
) -> TaskFault
    ensures { IsOutcome (Err (clashing (clash_found found))) (Err result) }
{
    match clash_error(alloc, command, found) {
        Ok(error) => TaskFault::Words(error),
        Err(refused) => TaskFault::Words(clap::Error::from(refused)),
    }
}

/// clap's error for a clash, with the usage of the subcommand.
fn clash_error<'a>(
    alloc: Global,
    command: Result<Command<'a>, AllocError>,
    found: Clash,
) -> Result<clap::Error, AllocError>
    ensures { IfOk result (λ error. kind_of error ≡ kind_of_clash (clash_found found)) }
{
    let text = clash_text(alloc, found)?;
    let mut command = command?;
    command.error(kind_of_clash(found), text.as_str())
}

/// The kind of that error.
fn kind_of_clash(found: Clash) -> ErrorKind
    ensures { result ≡ kind_of_clash (clash_found found) }
{
    match found {
        Clash::Needs(..) | Clash::NoList | Clash::NoTable | Clash::NoPort | Clash::NoAddress =>
            ErrorKind::MissingRequiredArgument,
        Clash::Excludes(..) | Clash::TooManySeats => ErrorKind::ArgumentConflict,
    }
}

/// What it says.
fn clash_text(alloc: Global, found: Clash) -> Result<String, AllocError> {
    match found {
        Clash::Needs(option, other) => {
            let (option, other) = (shown(option), shown(other));
            format!(in alloc; "the argument '{option}' needs '{other}'")
        }
        Clash::Excludes(option, other) => {
            let (option, other) = (shown(option), shown(other));
            format!(in alloc; "the argument '{option}' cannot be used with '{other}'")
        }
        Clash::NoList => missing(alloc, "<--reg <R>|--all>"),
        Clash::NoTable => missing(alloc, "<--flights <F>|--regs <R>>"),
        Clash::NoPort => missing(alloc, "--port <P>"),
        Clash::NoAddress => missing(alloc, "<--port <P>|--socket <PATH>>"),
        Clash::TooManySeats => String::from_str(
            alloc,
            "the argument '--seats <S>' above 500 cannot be used with both '--port <P>' and '--socket <PATH>'",
        ),
    }
}

/// What clap says of an argument that is missing.
fn missing(alloc: Global, argument: &str) -> Result<String, AllocError> {
    format!(in alloc; "the following required arguments were not provided:\n  {argument}")
}

/// An option as clap shows it.
fn shown(option: &str) -> &'static str {
    match option {
        "flights" => "--flights <F>",
        "crossings" => "--crossings <C>",
        "reg" => "--reg <R>",
        "all" => "--all",
        "connections" => "--connections <N>",
        "turns" => "--turns <T>",
        "stay" => "--stay",
        "socket" => "--socket <PATH>",
        "group" => "--group",
        "page" => "--page <Q>",
        "page-host" => "--page-host <NAME:PORT>",
        "seats" => "--seats <S>",
        "idle" => "--idle <SECONDS>",
        "quiet" => "--quiet",
        "clock" => "--clock",
        "journal" => "--journal <FILE>",
        "force" => "--force",
        _ => "--every <SECONDS>",
    }
}

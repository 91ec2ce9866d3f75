//! Arguments that take one of a few words, and what is said of another one.

ghost use Rattle.std.specs.Prelude.{◌≡◌, Err, IfErr, IfOk, None, Some, codes};
ghost use Rattle.clap.specs.Words.{found_of, kind_of, rows_of};
ghost use Rattle.casa_cli.specs.Tasks.{IsOutcome};
ghost use Rattle.casa_cli.specs.Words.{format_named, format_of, messages_format_named, messages_format_of, order_named, order_of, sort_named, sort_of, wrong_word};

use crate::tasks::{Format, Order, Sort, TaskFault};
use crate::values::value_of;
use clap::error::ErrorKind;
use clap::{ArgMatches, Command};
use std::alloc::{AllocError, Global};

/// The form in which to print: a table where no `--format` is given.
///
/// What stands after `--format` where it is no form.
pub fn format_in<'a>(values: &ArgMatches<'a>) -> Result<Format, &'a str>
    ensures ok { IfOk result (λ format. format_of (rows_of (found_of values.now)) ≡ Some format) }
    ensures err { IfErr result (λ _. format_of (rows_of (found_of values.now)) ≡ None) }
{
    match value_of(values, "format") {
        Some(word) => format_named(word).ok_or(word),
        None => Ok(Format::Table),
    }
}

/// The form that a word names.
fn format_named(word: &str) -> Option<Format>
    ensures { result ≡ format_named word.now }
{
    if word == "table" {
        Some(Format::Table)
    } else if word == "csv" {
        Some(Format::Csv)
    } else if word == "json" {
        Some(Format::Json)
    } else {
        None
    }
}

/// The form in which to print messages: CSV where no `--format` is given.
///
/// What stands after `--format` where it is none of theirs.
pub fn messages_format_in<'a>(values: &ArgMatches<'a>) -> Result<Format, &'a str>
    ensures ok { IfOk result (λ format. messages_format_of (rows_of (found_of values.now)) ≡ Some format) }
    ensures err { IfErr result (λ _. messages_format_of (rows_of (found_of values.now)) ≡ None) }
{
    match value_of(values, "format") {
        Some(word) => messages_format_named(word).ok_or(word),
        None => Ok(Format::Csv),
    }
}

/// The form of messages that a word names: these are no table.
fn messages_format_named(word: &str) -> Option<Format>
    ensures { result ≡ messages_format_named word.now }
{
    if word == "csv" {
        Some(Format::Csv)
    } else if word == "json" {
        Some(Format::Json)
    } else {
        None
    }
}

/// The order in which to print rows: that of their list where no `--sort` is given.
///
/// What stands after `--sort` where it is no order.
pub fn sort_in<'a>(values: &ArgMatches<'a>) -> Result<Sort, &'a str>
    ensures ok { IfOk result (λ sort. sort_of (rows_of (found_of values.now)) ≡ Some sort) }
    ensures err { IfErr result (λ _. sort_of (rows_of (found_of values.now)) ≡ None) }
{
    match value_of(values, "sort") {
        Some(word) => sort_named(word).ok_or(word),
        None => Ok(Sort::List),
    }
}

/// The order that a word names.
fn sort_named(word: &str) -> Option<Sort>
    ensures { result ≡ sort_named word.now }
{
    if word == "list" {
        Some(Sort::List)
    } else if word == "delay" {
        Some(Sort::Delay)
    } else {
        None
    }
}

/// The order of filings: that of the file where no `--by` is given.
///
/// What stands after `--by` where it is no order.
pub fn order_in<'a>(values: &ArgMatches<'a>) -> Result<Order, &'a str>
    ensures ok { IfOk result (λ order. order_of (rows_of (found_of values.now)) ≡ Some order) }
    ensures err { IfErr result (λ _. order_of (rows_of (found_of values.now)) ≡ None) }
{
    match value_of(values, "by") {
        Some(word) => order_named(word).ok_or(word),
        None => Ok(Order::File),
    }
}

/// The order of filings that a word names.
fn order_named(word: &str) -> Option<Order>
    ensures { result ≡ order_named word.now }
{
    if word == "file" {
        Some(Order::File)
    } else if word == "eobt" {
        Some(Order::Eobt)
    } else {
        None
    }
}

/// The fault for a form that is none of a table, comma-separated values and JSON.
pub fn format_fault<'a>(
    alloc: Global,
    command: Result<Command<'a>, AllocError>,
    word: &str,
) -> TaskFault
    ensures { IsOutcome (Err (wrong_word (codes "format"))) (Err result) }
{
    word_fault(alloc, command, "format", "table, csv, json", word)
}

/// The fault for a word that is none of the possible ones for this argument of this subcommand, as clap's own.
pub fn word_fault<'a>(
    alloc: Global,
    command: Result<Command<'a>, AllocError>,
    argument: &str,
    possible: &str,
    word: &str,
) -> TaskFault
    ensures { IsOutcome (Err (wrong_word argument.now)) (Err result) }
{
    match word_error(alloc, command, argument, possible, word) {
        Ok(error) => TaskFault::Words(error),
        Err(refused) => TaskFault::Words(clap::Error::from(refused)),
    }
}

/// clap's error for it, with the usage of the subcommand.
fn word_error<'a>(
    alloc: Global,
    command: Result<Command<'a>, AllocError>,
    argument: &str,
    possible: &str,
    word: &str,
) -> Result<clap::Error, AllocError>
    ensures { IfOk result (λ error. kind_of error ≡ ErrorKind.InvalidValue) }
{
    let text = word_text(alloc, shown(argument), possible, word)?;
    let command = command?;
    let name = format!(in alloc; "casa {}", command.get_name())?;
    let mut command = command.bin_name(name.as_str())?;
    command.error(ErrorKind::InvalidValue, text.as_str())
}

/// What it says.
fn word_text(
    alloc: Global,
    argument: &str,
    possible: &str,
    word: &str,
) -> Result<String, AllocError> {
    if word.is_empty() {
        format!(in alloc;
            "a value is required for '{argument}' but none was supplied\n  [possible values: {possible}]"
        )
    } else {
        format!(in alloc;
            "invalid value '{word}' for '{argument}'\n  [possible values: {possible}]"
        )
    }
}

/// An argument as clap shows it.
fn shown(argument: &str) -> &'static str {
    match argument {
        "action" => "<ACTION>",
        "sort" => "--sort <ORDER>",
        "by" => "--by <ORDER>",
        _ => "--format <FORMAT>",
    }
}

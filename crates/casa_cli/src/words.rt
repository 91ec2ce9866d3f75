ghost use Rattle.std.specs.Prelude.{◌≡◌, IfErr, IfOk, codes, map};
ghost use Rattle.clap.specs.Words.{HasKind, fault_of, found_of, rows_of};
ghost use Rattle.clap.specs.declared.error.Error.{Error};
ghost use Rattle.casa_cli.specs.Tasks.{AreCompared, AreRefused, Asks, HasRead, IsEntered, IsNumber, IsOutcome};
ghost use Rattle.casa_usage.specs.Usage.{whole_app};
ghost use Rattle.casa_cli.specs.Words.{asking_request, compare_of, load_of, messages_of, named_request, page_of, printing_request, summary_of, why_of};

use crate::choices::{format_fault, format_in, messages_format_in, word_fault};
use crate::imports::import_task;
use crate::journals::{journal_task, run_task};
use crate::reports::report_task;
use crate::serving::serve_task;
use crate::tasks::{Task, TaskFault};
use crate::values::{day_in, is_given, name_in, number_in, word_in};
use casa_usage::{
    casa_command, compare_command, load_command, messages_command, summary_command, why_command,
};
use clap::ArgMatches;
use std::alloc::Global;

/// What the words ask for; the first is the program's name.
///
/// `Words` where clap refuses them, or where they ask for help or the version; then too, with a fault as clap's own,
/// where options of `run`, `import`, `report` or `serve` do not go together, where `serve` then lacks its port, where
/// `journal` is given another action than `check`, and where what stands after `--format`, `--sort` or `--by` is none of
/// the words that are possible there. Then `BadReg` where what stands after `--reg` is no identifier, `BadKey` where what
/// stands after `--key` is none, and `BadLocation` where what stands after `--locations` is not names with commas between;
/// then `BadDay` where what stands after `--day` is not four digits, a hyphen, two digits, a hyphen and two digits, or no
/// date, and where `serve` is to move the clock and no day is given.
pub fn task<'a>(alloc: Global, words: &'a [&'a str]) -> Result<Task<'a>, TaskFault>
    ensures ok { IfOk result (Asks (map (λ word. word.now) words.entry.now)) }
    ensures err { IfErr result (AreRefused (map (λ word. word.now) words.entry.now)) }
{
    let matches = matches_in(alloc, words)?;
    match matches.subcommand() {
        Some((name, values)) => named_task(alloc, name, values),
        None => unreachable!(),
    }
}

/// The task of the subcommand of this name with the values of its options.
fn named_task<'a>(alloc: Global, name: &str, values: &ArgMatches<'a>) -> Result<Task<'a>, TaskFault>
    requires { IsEntered (name.now, rows_of (found_of values.now)) }
    ensures { IsOutcome (named_request (name.now, rows_of (found_of values.now))) result }
{
    if name == "run" {
        run_task(alloc, values)
    } else if name == "serve" {
        serve_task(alloc, values)
    } else if name == "journal" {
        journal_task(alloc, values)
    } else if name == "import" {
        import_task(alloc, values)
    } else {
        asking_task(alloc, name, values)
    }
}

/// The same of one that asks for what stands after command lines.
fn asking_task<'a>(
    alloc: Global,
    name: &str,
    values: &ArgMatches<'a>,
) -> Result<Task<'a>, TaskFault>
    requires { IsEntered (name.now, rows_of (found_of values.now)) }
    ensures { IsOutcome (asking_request (name.now, rows_of (found_of values.now))) result }
{
    if name == "load" {
        load_task(alloc, values)
    } else if name == "summary" {
        summary_task(alloc, values)
    } else if name == "why" {
        why_task(alloc, values)
    } else {
        printing_task(alloc, name, values)
    }
}

/// The same of one that asks for messages, for what differs, for lists, or for a page.
fn printing_task<'a>(
    alloc: Global,
    name: &str,
    values: &ArgMatches<'a>,
) -> Result<Task<'a>, TaskFault>
    requires { IsEntered (name.now, rows_of (found_of values.now)) }
    ensures { IsOutcome (printing_request (name.now, rows_of (found_of values.now))) result }
{
    if name == "messages" {
        messages_task(alloc, values)
    } else if name == "compare" {
        compare_task(alloc, values)
    } else if name == "report" {
        report_task(alloc, values)
    } else {
        page_task(values)
    }
}

/// What clap makes of the words.
fn matches_in<'a>(alloc: Global, words: &'a [&'a str]) -> Result<ArgMatches<'a>, TaskFault>
    ensures ok { IfOk result (HasRead (map (λ word. word.now) words.entry.now)) }
    ensures err { IfErr result (λ fault. (error : Error) × (fault ≡ TaskFault.Words error)
        × HasKind (fault_of whole_app (map (λ word. word.now) words.entry.now)) error) }
{
    let command = match casa_command(alloc) {
        Ok(command) => command,
        Err(refused) => return Err(TaskFault::Words(clap::Error::from(refused))),
    };
    match command.try_get_matches_from(words) {
        Ok(matches) => Ok(matches),
        Err(error) => Err(TaskFault::Words(error)),
    }
}

/// The task of `casa load` with the values of its options.
fn load_task<'a>(alloc: Global, values: &ArgMatches<'_>) -> Result<Task<'a>, TaskFault>
    requires { IsNumber 1 1440 (codes "step") (rows_of (found_of values.now)) }
    ensures { IsOutcome (load_of (rows_of (found_of values.now))) result }
{
    let format = match format_in(values) {
        Ok(format) => format,
        Err(word) => return Err(format_fault(alloc, load_command(alloc), word)),
    };
    let reg = name_in(values, "reg").ok_or(TaskFault::BadReg)?;
    let day = day_in(values).ok_or(TaskFault::BadDay)?;
    let step = number_in(values, "step").unwrap_or(20);
    let strict = is_given(values, "strict");
    Ok(Task::Load {
        reg,
        day,
        step,
        format,
        strict,
    })
}

/// The task of `casa summary` with the values of its options.
fn summary_task<'a>(alloc: Global, values: &ArgMatches<'_>) -> Result<Task<'a>, TaskFault>
    ensures { IsOutcome (summary_of (rows_of (found_of values.now))) result }
{
    let format = match format_in(values) {
        Ok(format) => format,
        Err(word) => return Err(format_fault(alloc, summary_command(alloc), word)),
    };
    let day = day_in(values).ok_or(TaskFault::BadDay)?;
    let strict = is_given(values, "strict");
    Ok(Task::Summary {
        day,
        format,
        strict,
    })
}

/// The task of `casa why` with the values of its options.
fn why_task<'a>(alloc: Global, values: &ArgMatches<'_>) -> Result<Task<'a>, TaskFault>
    ensures { IsOutcome (why_of (rows_of (found_of values.now))) result }
{
    let format = match format_in(values) {
        Ok(format) => format,
        Err(word) => return Err(format_fault(alloc, why_command(alloc), word)),
    };
    let key = name_in(values, "key").ok_or(TaskFault::BadKey)?;
    let day = day_in(values).ok_or(TaskFault::BadDay)?;
    let strict = is_given(values, "strict");
    Ok(Task::Why {
        key,
        day,
        format,
        strict,
    })
}

/// The task of `casa messages` with the values of its options.
fn messages_task<'a>(alloc: Global, values: &ArgMatches<'_>) -> Result<Task<'a>, TaskFault>
    ensures { IsOutcome (messages_of (rows_of (found_of values.now))) result }
{
    let format = match messages_format_in(values) {
        Ok(format) => format,
        Err(word) => {
            let command = messages_command(alloc);
            return Err(word_fault(alloc, command, "format", "csv, json", word));
        }
    };
    let day = day_in(values).ok_or(TaskFault::BadDay)?;
    let strict = is_given(values, "strict");
    Ok(Task::Messages {
        day,
        format,
        strict,
    })
}

/// The task of `casa compare` with its words and the values of its options.
fn compare_task<'a>(alloc: Global, values: &ArgMatches<'a>) -> Result<Task<'a>, TaskFault>
    requires { AreCompared (rows_of (found_of values.now)) }
    ensures { IsOutcome (compare_of (rows_of (found_of values.now))) result }
{
    let format = match format_in(values) {
        Ok(format) => format,
        Err(word) => return Err(format_fault(alloc, compare_command(alloc), word)),
    };
    let day = day_in(values).ok_or(TaskFault::BadDay)?;
    Ok(Task::Compare {
        base: word_in(values, "base"),
        variant: word_in(values, "variant"),
        day,
        format,
        strict: is_given(values, "strict"),
    })
}

/// The task of `casa page` with the values of its options.
fn page_task<'a>(values: &ArgMatches<'_>) -> Result<Task<'a>, TaskFault>
    ensures { IsOutcome (page_of (rows_of (found_of values.now))) result }
{
    let day = day_in(values).ok_or(TaskFault::BadDay)?;
    let strict = is_given(values, "strict");
    Ok(Task::Page { day, strict })
}

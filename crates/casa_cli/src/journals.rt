//! What `casa run` and `casa journal` ask for, and the journal that a server may keep too.

ghost use Rattle.std.specs.Prelude.{◌≡◌, option_map};
ghost use Rattle.clap.specs.Words.{found_of, rows_of};
ghost use Rattle.casa_cli.specs.Tasks.{AreThere, IsOutcome, clash_found, journal};
ghost use Rattle.casa_cli.specs.Words.{check_of, clash_of_journal, journal_of, run_of};

use crate::choices::word_fault;
use crate::clashes::{Clash, clash_fault};
use crate::tasks::{Journal, Task, TaskFault};
use crate::values::{is_given, value_of, word_in};
use casa_usage::{journal_command, run_command};
use clap::ArgMatches;
use std::alloc::Global;

/// The task of `casa run` with the values of its options.
pub fn run_task<'a>(alloc: Global, values: &ArgMatches<'a>) -> Result<Task<'a>, TaskFault>
    ensures { IsOutcome (run_of (rows_of (found_of values.now))) result }
{
    if let Some(found) = journal_clash(values) {
        return Err(clash_fault(alloc, run_command(alloc), found));
    }
    Ok(Task::Run {
        journal: journal_in(values),
    })
}

/// The task of `casa journal` with its words.
pub fn journal_task<'a>(alloc: Global, values: &ArgMatches<'a>) -> Result<Task<'a>, TaskFault>
    requires { AreThere (rows_of (found_of values.now)) }
    ensures { IsOutcome (check_of (rows_of (found_of values.now))) result }
{
    let action = word_in(values, "action");
    if action != "check" {
        let command = journal_command(alloc);
        return Err(word_fault(alloc, command, "action", "check", action));
    }
    Ok(Task::CheckJournal {
        path: word_in(values, "file"),
    })
}

/// The journal to keep.
pub fn journal_in<'a>(values: &ArgMatches<'a>) -> Option<Journal<'a>>
    ensures { journal result ≡ journal_of (rows_of (found_of values.now)) }
{
    let path = value_of(values, "journal")?;
    let force = is_given(values, "force");
    Some(Journal { path, force })
}

/// The clash of the options of a journal.
pub fn journal_clash(values: &ArgMatches<'_>) -> Option<Clash>
    ensures { option_map clash_found result ≡ clash_of_journal (rows_of (found_of values.now)) }
{
    if is_given(values, "force") && !is_given(values, "journal") {
        Some(Clash::Needs("force", "journal"))
    } else {
        None
    }
}

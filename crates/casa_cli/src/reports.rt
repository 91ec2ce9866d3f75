//! What the options of `casa report` ask for, and which of them do not go together.

ghost use Rattle.std.specs.Prelude.{◌≡◌, IfErr, IfOk, Err, Ok, codes, option_map};
ghost use Rattle.clap.specs.Words.{first_of, found_of, rows_of};
ghost use Rattle.casa_cli.specs.Tasks.{IsNumber, IsOutcome, clash_found};
ghost use Rattle.casa_cli.specs.Words.{checked_reg, clash_of_report, report_at, report_of, wrong_reg};

use crate::choices::{format_fault, format_in, sort_in, word_fault};
use crate::clashes::{Clash, clash_fault};
use crate::tasks::{Task, TaskFault};
use crate::values::{day_in, is_given, number_in, value_of};
use casa_flight::RegId;
use casa_usage::report_command;
use clap::ArgMatches;
use std::alloc::Global;

/// The task of `casa report` with the values of its options.
pub fn report_task<'a>(alloc: Global, values: &ArgMatches<'_>) -> Result<Task<'a>, TaskFault>
    requires { IsNumber 1 1000000 (codes "top") (rows_of (found_of values.now)) }
    ensures { IsOutcome (report_of (rows_of (found_of values.now))) result }
{
    if let Some(found) = report_clash(values) {
        return Err(clash_fault(alloc, report_command(alloc), found));
    }
    lists_task(alloc, values)
}

/// The task of a report whose options go together.
fn lists_task<'a>(alloc: Global, values: &ArgMatches<'_>) -> Result<Task<'a>, TaskFault>
    requires { IsNumber 1 1000000 (codes "top") (rows_of (found_of values.now)) }
    ensures { IsOutcome (report_at (rows_of (found_of values.now))) result }
{
    let format = match format_in(values) {
        Ok(format) => format,
        Err(word) => return Err(format_fault(alloc, report_command(alloc), word)),
    };
    let sort = match sort_in(values) {
        Ok(sort) => sort,
        Err(word) => {
            let command = report_command(alloc);
            return Err(word_fault(alloc, command, "sort", "list, delay", word));
        }
    };
    let reg = checked_reg(values)?;
    let day = day_in(values).ok_or(TaskFault::BadDay)?;
    Ok(Task::Report {
        reg,
        day,
        sort,
        top: number_in(values, "top"),
        format,
        strict: is_given(values, "strict"),
    })
}

/// The regulation after `--reg`, which must be an identifier where it is given.
///
/// `BadReg` where it is none.
fn checked_reg(values: &ArgMatches<'_>) -> Result<Option<RegId>, TaskFault>
    ensures ok { IfOk result (λ reg. checked_reg (first_of (codes "reg") (rows_of (found_of values.now))) ≡ Ok reg) }
    ensures err { IfErr result (λ fault. (fault ≡ TaskFault.BadReg)
        × (checked_reg (first_of (codes "reg") (rows_of (found_of values.now))) ≡ Err wrong_reg)) }
{
    match value_of(values, "reg") {
        Some(text) => Ok(Some(RegId::new(text.as_bytes()).ok_or(TaskFault::BadReg)?)),
        None => Ok(None),
    }
}

/// The clash of its options: one of `--reg` and `--all` is given, and not both.
fn report_clash(values: &ArgMatches<'_>) -> Option<Clash>
    ensures { option_map clash_found result ≡ clash_of_report (rows_of (found_of values.now)) }
{
    let (has_reg, has_all) = (is_given(values, "reg"), is_given(values, "all"));
    if has_reg && has_all {
        Some(Clash::Excludes("reg", "all"))
    } else if !has_reg && !has_all {
        Some(Clash::NoList)
    } else {
        None
    }
}

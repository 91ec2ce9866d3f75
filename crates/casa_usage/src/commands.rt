//! `casa` with its subcommands and their options, as clap is told of them.

ghost use Rattle.std.specs.Prelude.{◌≡◌, false, IfOk};
ghost use Rattle.clap.specs.Words.{app_of};
ghost use Rattle.clap.specs.declared.builder.command.Command.TheViews.{out-Command as fields_of};
ghost use Rattle.casa_usage.specs.Usage.{casa_alone, compare_app, import_app, journal_app, load_app, messages_app, report_app, run_app, serve_app, summary_app, whole_app, why_app};

use crate::subcommands::{command_of, with_subcommands};
use crate::{help, tables};
use clap::Command;
use std::alloc::{AllocError, Global};

/// `casa` with its subcommands.
pub fn casa_command<'a>(alloc: Global) -> Result<Command<'a>, AllocError>
    ensures app { IfOk result (λ command. app_of command ≡ whole_app) }
    ensures local { IfOk result (λ command. (fields_of command).has_globals ≡ false) }
{
    with_subcommands(alloc, casa_alone(alloc)?, &tables::SUBCOMMANDS)
}

/// `casa` without its subcommands, under this name whatever the program's file is called.
fn casa_alone<'a>(alloc: Global) -> Result<Command<'a>, AllocError>
    ensures app { IfOk result (λ command. app_of command ≡ casa_alone) }
    ensures local { IfOk result (λ command. (fields_of command).has_globals ≡ false) }
{
    Command::new(alloc, "casa")
        .version(help::VERSION)
        .about(help::ABOUT)
        .after_help(help::AFTER_HELP)
        .subcommand_required(true)
        .arg_required_else_help(true)
        .bin_name("casa")
}

/// `casa run` with its options.
pub fn run_command<'a>(alloc: Global) -> Result<Command<'a>, AllocError>
    ensures app { IfOk result (λ command. app_of command ≡ run_app) }
    ensures local { IfOk result (λ command. (fields_of command).has_globals ≡ false) }
{
    command_of(alloc, tables::RUN)
}

/// `casa import` with its options.
pub fn import_command<'a>(alloc: Global) -> Result<Command<'a>, AllocError>
    ensures app { IfOk result (λ command. app_of command ≡ import_app) }
    ensures local { IfOk result (λ command. (fields_of command).has_globals ≡ false) }
{
    command_of(alloc, tables::IMPORT)
}

/// `casa report` with its options.
pub fn report_command<'a>(alloc: Global) -> Result<Command<'a>, AllocError>
    ensures app { IfOk result (λ command. app_of command ≡ report_app) }
    ensures local { IfOk result (λ command. (fields_of command).has_globals ≡ false) }
{
    command_of(alloc, tables::REPORT)
}

/// `casa load` with its options.
pub fn load_command<'a>(alloc: Global) -> Result<Command<'a>, AllocError>
    ensures app { IfOk result (λ command. app_of command ≡ load_app) }
    ensures local { IfOk result (λ command. (fields_of command).has_globals ≡ false) }
{
    command_of(alloc, tables::LOAD)
}

/// `casa summary` with its options.
pub fn summary_command<'a>(alloc: Global) -> Result<Command<'a>, AllocError>
    ensures app { IfOk result (λ command. app_of command ≡ summary_app) }
    ensures local { IfOk result (λ command. (fields_of command).has_globals ≡ false) }
{
    command_of(alloc, tables::SUMMARY)
}

/// `casa why` with its options.
pub fn why_command<'a>(alloc: Global) -> Result<Command<'a>, AllocError>
    ensures app { IfOk result (λ command. app_of command ≡ why_app) }
    ensures local { IfOk result (λ command. (fields_of command).has_globals ≡ false) }
{
    command_of(alloc, tables::WHY)
}

/// `casa messages` with its options.
pub fn messages_command<'a>(alloc: Global) -> Result<Command<'a>, AllocError>
    ensures app { IfOk result (λ command. app_of command ≡ messages_app) }
    ensures local { IfOk result (λ command. (fields_of command).has_globals ≡ false) }
{
    command_of(alloc, tables::MESSAGES)
}

/// `casa compare` with its files and options.
pub fn compare_command<'a>(alloc: Global) -> Result<Command<'a>, AllocError>
    ensures app { IfOk result (λ command. app_of command ≡ compare_app) }
    ensures local { IfOk result (λ command. (fields_of command).has_globals ≡ false) }
{
    command_of(alloc, tables::COMPARE)
}

/// `casa serve` with its options.
pub fn serve_command<'a>(alloc: Global) -> Result<Command<'a>, AllocError>
    ensures app { IfOk result (λ command. app_of command ≡ serve_app) }
    ensures local { IfOk result (λ command. (fields_of command).has_globals ≡ false) }
{
    command_of(alloc, tables::SERVE)
}

/// `casa journal` with its words.
pub fn journal_command<'a>(alloc: Global) -> Result<Command<'a>, AllocError>
    ensures app { IfOk result (λ command. app_of command ≡ journal_app) }
    ensures local { IfOk result (λ command. (fields_of command).has_globals ≡ false) }
{
    command_of(alloc, tables::JOURNAL)
}

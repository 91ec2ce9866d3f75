//! A subcommand with its words as a table has them, and how clap is told of it.

ghost use Rattle.std.specs.Prelude.{◌≡◌, false, IfOk};
ghost use Rattle.clap.specs.Words.{app_of, new_app, with_subcommand};
ghost use Rattle.clap.specs.declared.builder.command.Command.TheViews.{out-Command as fields_of};
ghost use Rattle.casa_usage.specs.Subcommands.{app_told, with_subcommands, with_words};

use crate::arguments::argument;
use clap::Command;
use std::alloc::{AllocError, Global};

/// A word that a subcommand takes: its name, what stands for its value in the help, and what the help says of it.
#[derive(Clone, Copy)]
pub enum Word<'a> {
    /// `--name`.
    Flag(&'a str, &'a str),
    /// `--name VALUE`.
    Value(&'a str, &'a str, &'a str),
    /// `--name VALUE`, which must be given.
    Needed(&'a str, &'a str, &'a str),
    /// A word that stands by itself, and must be given.
    Alone(&'a str, &'a str, &'a str),
    /// `--name N`, a number from the first of these two to the second.
    Number(&'a str, &'a str, &'a str, u32, u32),
    /// `--name P`, a port.
    Port(&'a str, &'a str, &'a str),
}

/// A subcommand.
#[derive(Clone, Copy)]
pub struct Subcommand<'a> {
    /// Its name.
    pub name: &'a str,
    /// What the help says that it does.
    pub about: &'a str,
    /// How it is called, where this is not what clap makes of its words.
    pub usage: Option<&'a str>,
    /// What stands below its options in its help.
    pub after_help: &'a str,
    /// The words that it takes.
    pub words: &'a [Word<'a>],
}

/// This subcommand.
pub fn command_of<'a>(alloc: Global, subcommand: Subcommand<'a>) -> Result<Command<'a>, AllocError>
    ensures app { IfOk result (λ command. app_of command ≡ app_told subcommand.entry) }
    ensures local { IfOk result (λ command. (fields_of command).has_globals ≡ false) }
{
    with_words(alloc, without_words(alloc, subcommand), subcommand.words)
}

/// A subcommand before it takes any word.
fn without_words<'a>(alloc: Global, subcommand: Subcommand<'a>) -> Command<'a>
    ensures app { app_of result ≡ new_app subcommand.entry.name.now }
    ensures local { (fields_of result).has_globals ≡ false }
{
    let command = Command::new(alloc, subcommand.name)
        .about(subcommand.about)
        .after_help(subcommand.after_help);
    match subcommand.usage {
        Some(usage) => command.override_usage(usage),
        None => command,
    }
}

/// A subcommand with these words, behind those that it takes.
fn with_words<'a>(
    alloc: Global,
    subcommand: Command<'a>,
    words: &[Word<'a>],
) -> Result<Command<'a>, AllocError>
    requires { (fields_of subcommand).has_globals ≡ false }
    ensures app { IfOk result (λ command. app_of command ≡ with_words (app_of subcommand.entry) words.entry.now) }
    ensures local { IfOk result (λ command. (fields_of command).has_globals ≡ false) }
{
    let mut command = subcommand;
    for word in words {
        command = command.arg(argument(alloc, *word))?;
    }
    Ok(command)
}

/// A command with these subcommands, behind those that it has.
pub fn with_subcommands<'a>(
    alloc: Global,
    alone: Command<'a>,
    subcommands: &[Subcommand<'a>],
) -> Result<Command<'a>, AllocError>
    requires { (fields_of alone).has_globals ≡ false }
    ensures app { IfOk result (λ command. app_of command ≡ with_subcommands (app_of alone.entry) subcommands.entry.now) }
    ensures local { IfOk result (λ command. (fields_of command).has_globals ≡ false) }
{
    let mut command = alone;
    for subcommand in subcommands {
        command = with_subcommand(alloc, command, *subcommand)?;
    }
    Ok(command)
}

/// A command with this subcommand, behind those that it has.
fn with_subcommand<'a>(
    alloc: Global,
    command: Command<'a>,
    subcommand: Subcommand<'a>,
) -> Result<Command<'a>, AllocError>
    requires { (fields_of command).has_globals ≡ false }
    ensures app { IfOk result (λ more. app_of more ≡ with_subcommand (app_of command.entry) (app_told subcommand.entry).top) }
    ensures local { IfOk result (λ more. (fields_of more).has_globals ≡ false) }
{
    command.subcommand(command_of(alloc, subcommand)?)
}

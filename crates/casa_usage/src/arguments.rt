//! The words of a subcommand, as clap's arguments.

ghost use Rattle.std.specs.Prelude.{◌≡◌, false, IfOk};
ghost use Rattle.clap.specs.Words.{rule_of};
ghost use Rattle.casa_usage.specs.Subcommands.{rule_told};
ghost use Rattle.casa_usage.specs.Usage.{flag_rule, needed, number_between, option_rule, word_rule};

use crate::subcommands::Word;
use clap::{Arg, ArgAction, value_parser};
use std::alloc::Global;

/// clap's argument for a word.
pub fn argument<'a>(alloc: Global, word: Word<'a>) -> Arg<'a>
    ensures rule { rule_of result ≡ rule_told word.entry }
    ensures local { result.global ≡ false }
{
    match word {
        Word::Flag(name, text) => flag(alloc, name, text),
        Word::Value(name, value, text) => value_option(alloc, name, value, text),
        Word::Needed(name, value, text) => value_option(alloc, name, value, text).required(true),
        Word::Alone(name, value, text) => word_alone(alloc, name, value, text),
        Word::Number(name, value, text, least, most) => {
            number_option(alloc, name, value, text, least, most)
        }
        Word::Port(name, value, text) => port_option(alloc, name, value, text),
    }
}

/// A flag.
fn flag<'a>(alloc: Global, name: &'a str, text: &'a str) -> Arg<'a>
    ensures rule { rule_of result ≡ flag_rule name.entry.now }
    ensures local { result.global ≡ false }
{
    Arg::new(alloc, name)
        .long(name)
        .action(ArgAction::SetTrue)
        .help(text)
}

/// An option with a value.
fn value_option<'a>(alloc: Global, name: &'a str, value: &'a str, text: &'a str) -> Arg<'a>
    ensures rule { rule_of result ≡ option_rule name.entry.now }
    ensures local { result.global ≡ false }
{
    Arg::new(alloc, name)
        .long(name)
        .value_name(value)
        .help(text)
}

/// A word that stands by itself, and must be given.
fn word_alone<'a>(alloc: Global, name: &'a str, value: &'a str, text: &'a str) -> Arg<'a>
    ensures rule { rule_of result ≡ needed (word_rule name.entry.now) }
    ensures local { result.global ≡ false }
{
    Arg::new(alloc, name)
        .value_name(value)
        .help(text)
        .required(true)
}

/// An option with a number from one to another.
fn number_option<'a>(
    alloc: Global,
    name: &'a str,
    value: &'a str,
    text: &'a str,
    least: u32,
    most: u32,
) -> Arg<'a>
    ensures rule { rule_of result ≡ number_between least most (option_rule name.entry.now) }
    ensures local { result.global ≡ false }
{
    value_option(alloc, name, value, text).value_parser(value_parser!(u32).range(
        i64::from(least)..=i64::from(most),
    ))
}

/// An option with a port.
fn port_option<'a>(alloc: Global, name: &'a str, value: &'a str, text: &'a str) -> Arg<'a>
    ensures rule { rule_of result ≡ number_between 1 65535 (option_rule name.entry.now) }
    ensures local { result.global ≡ false }
{
    value_option(alloc, name, value, text).value_parser(value_parser!(u16).range(1..))
}

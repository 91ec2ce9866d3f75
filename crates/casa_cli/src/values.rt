//! The values of options, as clap has read them.

ghost use Rattle.std.specs.Prelude.{◌≡◌, ◌<◌, ◌^◌, ℕ, Ok, Err, codes, IfErr, IfOk, is_some, option_map, true};
ghost use Rattle.clap.specs.Words.{first_of, found_of, rows_of};
ghost use Rattle.jiff_fmt.specs.Temporal.{date_parts};
ghost use Rattle.casa_cli.specs.Tasks.{IsNumber};
ghost use Rattle.casa_cli.specs.Words.{are_digits, checked_day, day_in, day_of, is_day_shaped, is_digit, is_given, named_in, number_of, word_of, wrong_day};

use crate::tasks::TaskFault;
use casa_flight::Name;
use clap::ArgMatches;
use clap::parser::ValueSource;
use jiff::civil::Date;

/// Whether the words give an option or a flag.
pub fn is_given(values: &ArgMatches<'_>, name: &str) -> bool
    ensures { result ≡ is_given name.now (rows_of (found_of values.now)) }
{
    match values.value_source(name) {
        Some(ValueSource::CommandLine) => true,
        Some(ValueSource::DefaultValue) => false,
        None => false,
    }
}

/// The port after an option, where there is one.
pub fn port_in(values: &ArgMatches<'_>, name: &str) -> Option<u16>
    requires { IsNumber 1 65535 name.now (rows_of (found_of values.now)) }
    ensures { result ≡ number_of name.now (rows_of (found_of values.now)) }
{
    values.get_one(name)
}

/// The number after an option, where there is one.
pub fn number_in(values: &ArgMatches<'_>, name: &str) -> Option<u32>
    requires { (low high : ℕ) × (high < 2 ^ 32)
        × IsNumber low high name.now (rows_of (found_of values.now)) }
    ensures { result ≡ number_of name.now (rows_of (found_of values.now)) }
{
    values.get_one(name)
}

/// The name after an option.
pub fn name_in<Kind>(values: &ArgMatches<'_>, option: &str) -> Option<Name<Kind>>
    ensures { result ≡ named_in option.now (rows_of (found_of values.now)) }
{
    match value_of(values, option) {
        Some(text) => Name::new(text.as_bytes()),
        None => None,
    }
}

/// The day after `--day`, which must be one where it is given.
///
/// `BadDay` where it is none.
pub fn checked_day(values: &ArgMatches<'_>) -> Result<Option<Date>, TaskFault>
    ensures ok { IfOk result (λ day.
        checked_day (first_of (codes "day") (rows_of (found_of values.now))) ≡ Ok (option_map date_parts day)) }
    ensures err { IfErr result (λ fault. (fault ≡ TaskFault.BadDay)
        × (checked_day (first_of (codes "day") (rows_of (found_of values.now))) ≡ Err wrong_day)) }
{
    match value_of(values, "day") {
        Some(text) => Ok(Some(day_named(text).ok_or(TaskFault::BadDay)?)),
        None => Ok(None),
    }
}

/// The day after `--day`, where there is one.
pub fn day_in(values: &ArgMatches<'_>) -> Option<Date>
    ensures { option_map date_parts result ≡ day_in (rows_of (found_of values.now)) }
{
    match value_of(values, "day") {
        Some(text) => day_named(text),
        None => None,
    }
}

/// What stands after an option.
pub fn value_of<'a>(values: &ArgMatches<'a>, name: &str) -> Option<&'a str>
    ensures { option_map (λ text. text.now) result
        ≡ first_of name.now (rows_of (found_of values.now)) }
{
    values.get_str(name)
}

/// What stands where a word must.
pub fn word_in<'a>(values: &ArgMatches<'a>, name: &str) -> &'a str
    requires { is_some (first_of name.now (rows_of (found_of values.now))) ≡ true }
    ensures { result.now ≡ word_of name.now (rows_of (found_of values.now)) }
{
    match value_of(values, name) {
        Some(word) => word,
        None => unreachable!(),
    }
}

/// The day that a text names.
fn day_named(text: &str) -> Option<Date>
    ensures { option_map date_parts result ≡ day_of text.now }
{
    if !is_day_shaped(text.as_bytes()) {
        return None;
    }
    match text.parse::<Date>() {
        Ok(day) => Some(day),
        Err(_) => None,
    }
}

/// Whether a text is four digits, a hyphen, two digits, a hyphen and two digits.
fn is_day_shaped(text: &[u8]) -> bool
    ensures { result ≡ is_day_shaped text.now }
{
    text.len() == 10
        && are_digits(&text[0..4])
        && text[4] == b'-'
        && are_digits(&text[5..7])
        && text[7] == b'-'
        && are_digits(&text[8..10])
}

fn are_digits(text: &[u8]) -> bool
    ensures { result ≡ are_digits text.now }
{
    text.iter().all(|c| is_digit(*c))
}

fn is_digit(c: u8) -> bool
    ensures { result ≡ is_digit c }
{
    b'0' <= c && c <= b'9'
}

//! Times of a day, as files have them.

ghost use Rattle.std.specs.Prelude.{◌≡◌, ◌≤◌, ◌<ℤ◌, ◌≤ℤ◌, pos, neg_ℤ, option_map};
ghost use Rattle.jiff_core.specs.Date.{epoch_day};
ghost use Rattle.casa_import.specs.Times.{clock, clock_at, day_in, day_number, digit_at, four_digits_at, has_shape, is_alone, is_day_first, is_digit, is_year_first, may_stand, moment_at, moment_on, seconds_between, seconds_on, time_fault_name, two_digits_at};

use casa_time::Moment;
use jiff::civil::Date;

/// Why a text is no moment of a day.
#[derive(Clone, Copy, PartialEq, Eq, Debug)]
pub enum TimeFault {
    /// It is not written as a time, or there is no such date or time.
    Unreadable,
    /// It is before the day's midnight.
    Before,
    /// It is after second 172,799 of the day.
    After,
}

impl TimeFault {
    /// The name of the fault, as in `"TimeBefore"`.
    pub fn name(self) -> &'static str
        ensures { result.now ≡ time_fault_name self }
    {
        match self {
            TimeFault::Unreadable => "TimeUnreadable",
            TimeFault::Before => "TimeBefore",
            TimeFault::After => "TimeAfter",
        }
    }
}

/// The last second that is a moment.
const LAST_MOMENT: i64 = 172_799;

/// How many seconds a day has.
const DAY: i64 = 86_400;

/// The last hour of a day, and of the day after it.
const LAST_HOUR: u32 = 23;

const LAST_HOUR_OF_TWO_DAYS: u32 = 47;

/// The moment of a day that a text is.
///
/// A time alone is `HH:MM` or `HH:MM:SS`, with hours up to 47. With its date it is `dd-mm-yyyy HH:MM:SS`, or `yyyy-mm-dd`, a
/// space or a `T`, and `HH:MM` or `HH:MM:SS`.
#[tactic(auto, unfolding(crate::specs::Times::moment_on))]
pub fn moment_on(day: Date, text: &[u8]) -> Result<Moment, TimeFault>
    ensures { result ≡ moment_on day text.now }
{
    match seconds_on(day, text) {
        Some(seconds) => moment_at(seconds),
        None => Err(TimeFault::Unreadable),
    }
}

/// The moment so many seconds after midnight.
fn moment_at(seconds: i64) -> Result<Moment, TimeFault>
    ensures { result ≡ moment_at seconds }
{
    if seconds < 0 {
        return Err(TimeFault::Before);
    }
    if LAST_MOMENT < seconds {
        return Err(TimeFault::After);
    }
    match Moment::new(seconds as u32) {
        Ok(moment) => Ok(moment),
        Err(_) => Err(TimeFault::After),
    }
}

/// The seconds from a day's midnight to the time that a text is.
fn seconds_on(day: Date, text: &[u8]) -> Option<i64>
    ensures { result ≡ seconds_on day text.now }
{
    if is_alone(text) {
        let seconds = clock_at(LAST_HOUR_OF_TWO_DAYS, 0, text)?;
        return Some(seconds as i64);
    }
    let date = day_in(text)?;
    let seconds = clock_at(LAST_HOUR, 11, text)?;
    Some(seconds_between(day, date, seconds))
}

/// The seconds from a day's midnight to a time of a date.
fn seconds_between(day: Date, date: Date, seconds: u32) -> i64
    ensures { result ≡ seconds_between day (epoch_day date) seconds }
{
    let days = day.to_plain().until(date.to_plain());
    DAY * days as i64 + seconds as i64
}

/// The date of a text with a date.
fn day_in(text: &[u8]) -> Option<Date>
    ensures { option_map epoch_day result ≡ day_in text.now }
{
    if is_day_first(text) {
        let year = four_digits_at(6, text);
        date_of(year, two_digits_at(3, text), two_digits_at(0, text))
    } else if is_year_first(text) {
        let year = four_digits_at(0, text);
        date_of(year, two_digits_at(5, text), two_digits_at(8, text))
    } else {
        None
    }
}

/// Whether a text is a time alone.
fn is_alone(text: &[u8]) -> bool
    ensures { result ≡ is_alone text.now }
{
    has_shape(b"00:00", text) || has_shape(b"00:00:00", text)
}

/// Whether a text is a date that begins with its day, and a time.
fn is_day_first(text: &[u8]) -> bool
    ensures { result ≡ is_day_first text.now }
{
    has_shape(b"00-00-0000 00:00:00", text)
}

/// Whether a text is a date that begins with its year, and a time.
fn is_year_first(text: &[u8]) -> bool
    ensures { result ≡ is_year_first text.now }
{
    has_shape(b"0000-00-00 00:00", text)
        || has_shape(b"0000-00-00T00:00", text)
        || has_shape(b"0000-00-00 00:00:00", text)
        || has_shape(b"0000-00-00T00:00:00", text)
}

/// The day of the calendar with this year, month and day, if there is such a day.
fn date_of(year: u32, month: u32, day: u32) -> Option<Date>
    requires year { year ≤ 9999 }
    requires month { month ≤ 99 }
    requires day { day ≤ 99 }
    ensures { option_map epoch_day result ≡ day_number year month day }
{
    match Date::new(year as i16, month as i8, day as i8) {
        Ok(date) => Some(date),
        Err(_) => None,
    }
}

/// The seconds from midnight to the time that stands from a place on, as `HH:MM:SS`, or as `HH:MM` at the end of the text.
fn clock_at(last: u32, i: usize, text: &[u8]) -> Option<u32>
    requires { i ≤ 99 }
    ensures { result ≡ clock_at last i text.now }
{
    let seconds = two_digits_at(i + 6, text);
    clock(
        last,
        two_digits_at(i, text),
        two_digits_at(i + 3, text),
        seconds,
    )
}

/// The seconds from midnight to a time; its hours are counted up to the last.
fn clock(last: u32, hour: u32, minute: u32, second: u32) -> Option<u32>
    requires { hour ≤ 99 }
    ensures { result ≡ clock last hour minute second }
{
    if hour <= last && minute <= 59 && second <= 59 {
        Some(3600 * hour + 60 * minute + second)
    } else {
        None
    }
}

/// The number that the four digits from a place on are.
pub(crate) fn four_digits_at(i: usize, text: &[u8]) -> u32
    requires { i ≤ 99 }
    ensures value { result ≡ four_digits_at i text.now }
    ensures in_range { result ≤ 9999 }
{
    100 * two_digits_at(i, text) + two_digits_at(i + 2, text)
}

/// The number that the two digits from a place on are.
pub(crate) fn two_digits_at(i: usize, text: &[u8]) -> u32
    requires { i ≤ 999 }
    ensures value { result ≡ two_digits_at i text.now }
    ensures in_range { result ≤ 99 }
{
    10 * digit_at(i, text) + digit_at(i + 1, text)
}

/// The digit at a place; 0 where there is none.
pub(crate) fn digit_at(i: usize, text: &[u8]) -> u32
    ensures value { result ≡ digit_at i text.now }
    ensures in_range { result ≤ 9 }
{
    match text.get(i) {
        Some(digit) if is_digit(*digit) => (*digit - b'0') as u32,
        _ => 0,
    }
}

/// Whether a text has a shape: where that has `0` stands a digit, and elsewhere the same character.
pub(crate) fn has_shape(shape: &[u8], text: &[u8]) -> bool
    ensures { result ≡ has_shape shape.now text.now }
{
    match (shape, text) {
        ([], []) => true,
        ([first, shape @ ..], [character, text @ ..]) => {
            may_stand(*first, *character) && has_shape(shape, text)
        }
        _ => false,
    }
}

fn may_stand(shape: u8, character: u8) -> bool
    ensures { result ≡ may_stand shape character }
{
    if shape == b'0' {
        is_digit(character)
    } else {
        shape == character
    }
}

fn is_digit(character: u8) -> bool
    ensures { result ≡ is_digit character }
{
    b'0' <= character && character <= b'9'
}

//! Moments as dates with times of day.

ghost use Rattle.std.specs.Prelude.{◌≡◌, ◌++◌, IfOk, OnOk, string_bytes};
ghost use Rattle.jiff.specs.Words.{date_text};
ghost use Rattle.casa_report.specs.Moments.{calendar_day, clock_text, days_after, moment_text, next_day};

use casa_time::hhmm;
use jiff::civil::Date;
use std::alloc::{AllocError, Global};

/// How many seconds a day has.
const DAY: u32 = 86_400;

/// Appends a time in seconds from midnight UTC of a day, as `2025-06-01T10:00:05`. A time of a later day has that day's date,
/// where there is one.
///
/// `AllocError` where there is no memory for it; some of it may then stand there.
pub(crate) fn push_moment(
    alloc: Global,
    out: &mut Vec<u8>,
    day: Date,
    secs: u32,
) -> Result<(), AllocError>
    ensures { OnOk result (out.new.items ≡ out.old.items ++ moment_text day secs) }
{
    let date = date_text(alloc, days_after(day, secs / DAY))?;
    out.extend_from_slice(date.as_bytes())?;
    out.push(b'T')?;
    out.extend_from_slice(&clock_text(secs))
}

/// A day, as `2025-06-01`. `AllocError` where there is no memory for it.
pub fn date_text(alloc: Global, day: Date) -> Result<String, AllocError>
    ensures { IfOk result (λ text. string_bytes text ≡ date_text day) }
{
    format!(in alloc; "{day}")
}

/// The day so many days after this one; the last day that there is, where that is before it.
fn days_after(day: Date, count: u32) -> Date
    ensures { calendar_day result ≡ days_after count (calendar_day day) }
{
    let mut date = day;
    'days: for _ in 0..count {
        date = next_day(date);
    }
    date
}

/// The day after this one; of the last day that there is, that day itself.
fn next_day(day: Date) -> Date
    ensures { calendar_day result ≡ next_day (calendar_day day) }
{
    match day.tomorrow() {
        Ok(next) => next,
        Err(_) => day,
    }
}

/// A time in seconds as hour, modulo 24, minute and second.
fn clock_text(secs: u32) -> [u8; 8]
    ensures { result ≡ clock_text secs }
{
    let [hour_tens, hour_ones, minute_tens, minute_ones] = hhmm(secs);
    let second = (secs % 60) as u8;
    [
        hour_tens,
        hour_ones,
        b':',
        minute_tens,
        minute_ones,
        b':',
        b'0' + second / 10,
        b'0' + second % 10,
    ]
}

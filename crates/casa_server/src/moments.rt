ghost use Rattle.std.specs.Prelude.{◌≡◌, ◌≢◌, ◌<◌, ◌+ℤ◌, pos, IfNone, IfSome};
ghost use Rattle.jiff_core.specs.Date.{epoch_day};
ghost use Rattle.jiff_core.specs.Time.{time_seconds};
ghost use Rattle.casa_server.specs.Moments.{IsInSecond, IsOutside, seconds_of_day};

use casa_time::Moment;
use jiff::Timestamp;
use jiff::civil::{Date, Time};
use jiff::tz::Offset;

const SECONDS_OF_DAY: u32 = 86_400;

/// The moment that an instant is on this day: the whole seconds from the day's midnight UTC to the instant, rounded
/// down.
///
/// `None` where these are no moment: the instant is before the day, or two days or more after its midnight.
pub fn moment_at(day: Date, now: Timestamp) -> Option<Moment>
    ensures some { IfSome result (λ moment. IsInSecond moment day now) }
    ensures none { IfNone result (IsOutside day now) }
{
    let clock = Offset::UTC.to_datetime(now);
    let days = days_after(day, clock.date())?;
    Moment::new(days * SECONDS_OF_DAY + second_of_day(clock.time())).ok()
}

/// How many days a date is after the day, where it is the day itself or the next one.
fn days_after(day: Date, date: Date) -> Option<u32>
    ensures some { IfSome result (λ days. (days < 2)
        × (epoch_day date ≡ epoch_day day +ℤ pos days)) }
    ensures none { IfNone result
        ((epoch_day date ≢ epoch_day day) × (epoch_day date ≢ epoch_day day +ℤ pos 1)) }
{
    if date == day {
        return Some(0);
    }
    let Ok(next) = day.tomorrow() else {
        return None;
    };
    if date == next {
        return Some(1);
    }
    None
}

/// The whole seconds from midnight to a time of the day.
fn second_of_day(time: Time) -> u32
    ensures value { result ≡ time_seconds time }
    ensures in_day { result < seconds_of_day }
{
    time.hour() as u32 * 3_600 + time.minute() as u32 * 60 + time.second() as u32
}

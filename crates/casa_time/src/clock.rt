ghost use Rattle.std.specs.Prelude.{◌≡◌, ◌<◌};
ghost use Rattle.casa_time.specs.Due.{is_due};
ghost use Rattle.casa_time.specs.Hhmm.{hhmm, two_digits};

use crate::moment::Moment;

/// How long before its off-block time a flight is due, in seconds: two hours.
const ISSUE_LEAD: u32 = 7_200;

/// Whether a flight with this off-block time is due when the clock shows `clock`: its slot is to be issued.
///
/// That a slot is issued two hours ahead of the off-block time is this allocator's profile.
pub fn due(clock: Moment, eobt: Moment) -> bool
    ensures { result ≡ is_due clock eobt }
{
    eobt.secs() <= clock.secs() + ISSUE_LEAD
}

/// A time in seconds from midnight UTC as hour and minute, two digits each, as in `b"0905"`.
///
/// Seconds are cut off, and the hour is taken modulo 24, so a time of the next day shows as that day's.
pub fn hhmm(secs: u32) -> [u8; 4]
    ensures { result ≡ hhmm secs }
{
    let [hour_tens, hour_ones] = two_digits(secs / 3600 % 24);
    let [minute_tens, minute_ones] = two_digits(secs / 60 % 60);
    [hour_tens, hour_ones, minute_tens, minute_ones]
}

/// A number below 100 in two digits.
fn two_digits(n: u32) -> [u8; 2]
    requires { n < 100 }
    ensures { result ≡ two_digits n }
{
    [b'0' + (n / 10) as u8, b'0' + (n % 10) as u8]
}

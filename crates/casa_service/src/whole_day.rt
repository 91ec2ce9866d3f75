//! The clock of a server that stays.

ghost use Rattle.std.specs.Prelude.{◌≡◌};

use crate::door::Standing;
use casa_server::{DayClock, moment_at};
use casa_time::Moment;
use jiff::Timestamp;
use jiff::civil::Date;
use jiff::tz::Offset;
use std::thread;
use std::time::{Clock, Duration};

/// How long it waits at a time, in seconds, until it looks whether the day has begun or the server ends.
const PAUSE: u64 = 1;

/// The system's clock, which tells the moments of a day from its midnight UTC on, for which it waits, to the last one, every so
/// many seconds.
#[derive(Drop)]
pub(crate) struct WholeDay<'a, 's, R> {
    rt: &'a R,
    day: Date,
    every: u32,
    has_told: bool,
    standing: &'s Standing,
}

impl<'a, 's, R: Clock> WholeDay<'a, 's, R> {
    /// The clock of this day, which tells a moment at once, where the day has begun, and then every so many seconds.
    pub(crate) fn new(
        rt: &'a R,
        day: Date,
        every: u32,
        standing: &'s Standing,
    ) -> WholeDay<'a, 's, R>
        ensures { result.day ≡ day }
    {
        WholeDay {
            rt,
            day,
            every,
            has_told: false,
            standing,
        }
    }
}

impl<'a, 's, R: Clock> DayClock for WholeDay<'a, 's, R> {
    ghost use Rattle.std.specs.Prelude.{IfSome, None};
    ghost use Rattle.jiff_core.specs.declared.timestamp.Timestamp.{Timestamp as Instant};
    ghost use Rattle.casa_server.specs.Moments.{IsInSecond};
    ghost use Rattle.casa_server.specs.Ticks.{ClockGives};

    /// The moment on the day of the instant that the system's clock tells when the time has come; `None` where the day is
    /// over, the system's clock tells no instant, or the server ends.
    fn next(&mut self) -> Option<Moment>
        ensures gives { ClockGives None None result }
        ensures day { self.new.day ≡ self.old.day }
        ensures told { IfSome result (λ at. (now : Instant) × IsInSecond at self.old.day now) }
    {
        if self.has_told {
            wait(self.rt, self.every, self.standing);
        }
        self.has_told = true;
        let now = from_midnight(self.rt, self.day, self.standing)?;
        moment_at(self.day, now)
    }
}

/// Waits so many seconds, or until the server ends.
fn wait<R: Clock>(rt: &R, seconds: u32, standing: &Standing) {
    for _ in 0..seconds {
        if standing.is_ending() {
            return;
        }
        thread::sleep(rt, Duration::from_secs(PAUSE));
    }
}

/// The present instant, from the midnight UTC of this day on, for which it waits; `None` where the server ends.
fn from_midnight<R: Clock>(rt: &R, day: Date, standing: &Standing) -> Option<Timestamp> {
    for _ in 0..u64::MAX {
        if standing.is_ending() {
            return None;
        }
        let now = Timestamp::now(rt).ok()?;
        if Offset::UTC.to_datetime(now).date() >= day {
            return Some(now);
        }
        thread::sleep(rt, Duration::from_secs(PAUSE));
    }
    None
}

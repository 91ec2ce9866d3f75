ghost use Rattle.std.specs.Prelude.{◌≡◌, ◌≤◌, ◌↔◌, IsOk, IfOk};
ghost use Rattle.casa_time.specs.Moment.{last_moment};
ghost use Rattle.casa_time.specs.TimeFaults.{name_of};

use std::fmt;
use std::marker::Model;
use thiserror::Error;

/// A moment of the engine's day: whole seconds from midnight UTC, 0 to 172,799.
#[derive(Clone, Copy, PartialEq, Eq, PartialOrd, Ord, Debug)]
pub struct Moment {
    secs: u32,
}

impl Model for Moment {
    ghost use Rattle.std.specs.Prelude.{ℕ, ◌≤◌};

    ghost Value = { ℕ };

    ghost use Rattle.casa_time.specs.Moment.{last_moment};

    ghost view = { λ m. m.secs };

    ghost invariant = { λ m. m.secs ≤ last_moment };

    ghost inverse = { λ n. record { secs = n } };
}

/// Why a number of seconds is no moment.
#[derive(Clone, Copy, PartialEq, Eq, Debug, Error)]
pub enum TimeFault {
    /// The number is above 172,799.
    #[error("a moment is at most 172799 seconds after midnight UTC")]
    OutOfRange,
}

impl TimeFault {
    /// The name of the fault, as in `"OutOfRange"`, for programs to print.
    pub fn name(self) -> &'static str
        ensures { result.now ≡ name_of self }
    {
        match self {
            TimeFault::OutOfRange => "OutOfRange",
        }
    }
}

impl Moment {
    /// The last second of the day after the engine's day.
    const LAST: u32 = 172_799;

    /// The moment that many seconds after midnight UTC, or `OutOfRange` where that is above 172,799.
    ///
    /// The limit is this allocator's profile: two days.
    pub fn new(secs: u32) -> Result<Moment, TimeFault>
        ensures in_range { IsOk result ↔ (secs ≤ last_moment) }
        ensures value { IfOk result (λ moment. moment ≡ secs) }
    {
        if secs > Moment::LAST {
            return Err(TimeFault::OutOfRange);
        }
        Ok(Moment { secs })
    }

    /// The seconds from midnight UTC.
    pub fn secs(self) -> u32
        ensures value { result ≡ self }
        ensures in_range { result ≤ last_moment }
    {
        self.secs
    }
}

impl fmt::Display for Moment {
    ghost use Rattle.std.specs.Prelude.{Some};
    ghost use Rattle.std.specs.Fmt.{decimal};

    ghost output = { λ moment. Some (decimal moment) };

    /// The seconds from midnight UTC as a decimal number, as in `36005`.
    ///
    /// It is no time of the day in hours and minutes, since a moment may lie in the day after the engine's day, and
    /// times that are worked out from moments may be later still.
    fn fmt<W: fmt::Write>(&self, f: &mut fmt::Formatter<W>) -> fmt::Result {
        write!(f, "{}", self.secs)
    }
}

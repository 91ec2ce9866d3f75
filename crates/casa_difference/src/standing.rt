//! How a flight stands, as far as its slot goes.

ghost use Rattle.std.specs.Prelude.{◌≡◌, ◌≤◌};
ghost use Rattle.casa_time.specs.Moment.{last_moment};
ghost use Rattle.casa_flight.specs.declared.state.State.{State};
ghost use Rattle.casa_flight.specs.Listing.{delay_of};
ghost use Rattle.casa_difference.specs.Standings.{same_standing, standing};

use casa_flight::{Key, RegId, Row};
use casa_inquiry::{Shown, delay_in};

/// How a flight stands on a day, as far as its slot goes.
#[derive(Clone, Copy)]
pub struct Standing {
    /// The regulation that governs it; `None` where nothing does.
    pub reg: Option<RegId>,
    /// The calculated take-off time that its slot gives it, in seconds from midnight UTC; `None` where nothing governs it.
    pub ctot: Option<u32>,
    /// Its delay, in seconds; 0 where nothing governs it.
    pub delay: u32,
}

impl Standing {
    /// How the flight with this key stands, of which the allocator keeps this, in the state of which this is shown.
    pub fn of<S: Shown>(shown: &S, key: &Key, row: &Row) -> Standing
        ensures { (m : State) → S.shows shown.now m → result ≡ standing m key.now row.now }
    {
        let delay = delay(shown, key, row);
        let etot = row.plan.etot();
        Standing {
            reg: row.governing,
            ctot: match row.governing {
                Some(_) => Some(etot + delay),
                None => None,
            },
            delay,
        }
    }

    /// Whether the two are the same.
    pub(crate) fn is_same(&self, other: &Standing) -> bool
        ensures { result ≡ same_standing self.now other.now }
    {
        self.reg == other.reg && self.ctot == other.ctot && self.delay == other.delay
    }
}

/// The delay of a flight in the list of the regulation that governs it, in seconds; 0 where none does.
fn delay<S: Shown>(shown: &S, key: &Key, row: &Row) -> u32
    ensures value { (m : State) → S.shows shown.now m → result ≡ delay_of m key.now row.now }
    ensures in_range { result ≤ last_moment }
{
    let Some(id) = &row.governing else {
        return 0;
    };
    match shown.list(id) {
        Some(list) => delay_in(list, key),
        None => 0,
    }
}

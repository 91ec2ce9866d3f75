//! What is shown of how a flight stands on a day that may not have it.

ghost use Rattle.std.specs.Prelude.{◌≡◌};
ghost use Rattle.casa_compare.specs.Shown.{ctot_in, delay_in, reg_in};

use casa_difference::Standing;
use casa_flight::RegId;

/// The regulation that governs the flight; `None` where none does, or there is no such flight.
pub(crate) fn reg_in(standing: &Option<Standing>) -> Option<RegId>
    ensures { result ≡ reg_in standing.now }
{
    match standing {
        Some(standing) => standing.reg,
        None => None,
    }
}

/// Its calculated take-off time, likewise.
pub(crate) fn ctot_in(standing: &Option<Standing>) -> Option<u32>
    ensures { result ≡ ctot_in standing.now }
{
    match standing {
        Some(standing) => standing.ctot,
        None => None,
    }
}

/// Its delay; `None` where there is no such flight.
pub(crate) fn delay_in(standing: &Option<Standing>) -> Option<u128>
    ensures { result ≡ delay_in standing.now }
{
    match standing {
        Some(standing) => Some(standing.delay as u128),
        None => None,
    }
}

ghost use Rattle.std.specs.Prelude.{◌≡◌, IfOk};
ghost use Rattle.casa_flight.specs.declared.state.State.{State};
ghost use Rattle.casa_flight.specs.Good.{IsGood};
ghost use Rattle.casa_difference.specs.Comparisons.{comparison};

use crate::flights::{Difference, ShownFlights, differences};
use crate::totals::Totals;
use casa_flight::SharedSlice;
use std::alloc::{AllocError, Global};

/// What differs between two days.
#[derive(Drop)]
pub struct Comparison {
    /// What all regulations of the first day cost together.
    pub base: Totals,
    /// The same of the second one.
    pub variant: Totals,
    /// The flights that do not stand alike on both, in the order of their keys.
    pub flights: SharedSlice<Difference>,
}

/// What differs between two days, by what is shown of both.
///
/// `AllocError` where there is no memory for it, or where a sum does not fit in 128 bits.
pub fn compare<B: ShownFlights, V: ShownFlights>(
    alloc: Global,
    base: &B,
    variant: &V,
) -> Result<Comparison, AllocError>
    ensures { IfOk result (λ found. (m n : State) → IsGood m → IsGood n → B.shows base.now m →
        V.shows variant.now n → found ≡ comparison m n) }
{
    Ok(Comparison {
        base: Totals::of(base)?,
        variant: Totals::of(variant)?,
        flights: SharedSlice::from_vec(differences(alloc, base, variant)?)?,
    })
}

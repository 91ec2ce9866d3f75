//! What all regulations of a day cost together.

ghost use Rattle.std.specs.Prelude.{◌≡◌, [], IfOk, IfSome};
ghost use Rattle.casa_flight.specs.declared.state.State.{State};
ghost use Rattle.casa_flight.specs.Good.{IsGood};
ghost use Rattle.casa_inquiry.specs.Summary.{cost, cost_of_all, lists_told};
ghost use Rattle.casa_difference.specs.Totals.{together, totals};

use casa_inquiry::{Cost, Shown};
use std::alloc::AllocError;

/// How many regulations are open, and what all of them cost together.
#[derive(Clone, Copy)]
pub struct Totals {
    pub regulations: usize,
    pub cost: Cost,
}

impl Totals {
    /// Of the state of which this is shown. It makes no rows of lists, and takes no memory.
    ///
    /// `AllocError` where a sum does not fit in 128 bits.
    pub fn of<S: Shown>(shown: &S) -> Result<Totals, AllocError>
        ensures { IfOk result (λ found. (m : State) → IsGood m → S.shows shown.now m →
            found ≡ totals m) }
    {
        let Some(cost) = cost_of_all(shown) else {
            return Err(AllocError);
        };
        Ok(Totals {
            regulations: shown.catalogue().len(),
            cost,
        })
    }
}

/// What all regulations cost together; `None` where a sum does not fit in 128 bits.
fn cost_of_all<S: Shown>(shown: &S) -> Option<Cost>
    ensures { IfSome result (λ cost. (m : State) → IsGood m → S.shows shown.now m →
        cost ≡ cost_of_all (lists_told m)) }
{
    let mut cost = nothing();
    for regulation in shown.catalogue() {
        let list = shown.list(&regulation.id)?;
        cost = together(&cost, &Cost::of_list(list))?;
    }
    Some(cost)
}

/// What no regulation costs.
fn nothing() -> Cost
    ensures { result ≡ cost 0 [] }
{
    Cost {
        slots: 0,
        governed: 0,
        issued: 0,
        forced: 0,
        over: 0,
        delay: 0,
        longest: 0,
    }
}

/// What two cost together; `None` where a sum does not fit in 128 bits.
fn together(one: &Cost, other: &Cost) -> Option<Cost>
    ensures { IfSome result (λ cost. cost ≡ together one.now other.now) }
{
    Some(Cost {
        slots: one.slots.checked_add(other.slots)?,
        governed: one.governed.checked_add(other.governed)?,
        issued: one.issued.checked_add(other.issued)?,
        forced: one.forced.checked_add(other.forced)?,
        over: one.over.checked_add(other.over)?,
        delay: one.delay.checked_add(other.delay)?,
        longest: one.longest.max(other.longest),
    })
}

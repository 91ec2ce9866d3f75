//! The planner of each call, and the gate of programs.

ghost use Rattle.std.specs.Prelude.{◌≡◌, IfOk};
ghost use Rattle.casa_flight.specs.declared.state.State.{State};
ghost use Rattle.casa_flight.specs.Good.{IsGood};
ghost use Rattle.casa_flight.specs.Replies.{reply};
ghost use Rattle.casa_footprint.specs.Change.{IsChange};
ghost use Rattle.casa_view.specs.View.{IsFor, Shows};
ghost use Rattle.casa_flight.specs.Listing.{list_of};
ghost use Rattle.casa_plan_spec.specs.Sight.{IsPlanned, says};

use crate::closing::close_reg;
use crate::list_reply::list;
use crate::one_flight::{amend, cancel, exempt, file, revise, show};
use crate::opening::open_reg;
use crate::rates::rates;
use crate::settled::settled;
use crate::shown::Shown;
use crate::swapping::swap;
use crate::tick::tick;
use casa_commit::Gate;
use casa_flight::{Call, Reply};
use casa_view::{Board, Change, Store, Version, View};
use std::alloc::{AllocError, Global};

/// The reply to a call, and what the call writes, by what a view shows.
fn planned<V: Version>(
    alloc: Global,
    view: &Shown<V>,
    call: &Call,
) -> Result<(Reply, Change), AllocError>
    ensures { IfOk result (IsPlanned view.now call.now) }
{
    match call {
        Call::File(plan) => file(alloc, view, plan),
        Call::Amend(plan) => amend(alloc, view, plan),
        Call::Cancel(key) => cancel(alloc, view, *key),
        Call::Revise(key) => revise(alloc, view, *key),
        Call::Exempt(key) => exempt(alloc, view, *key),
        Call::OpenReg(id, loc, profile) => open_reg(alloc, view, *id, *loc, profile),
        Call::CloseReg(id) => close_reg(alloc, view, *id),
        Call::Rates(id, profile) => rates(alloc, view, *id, profile),
        Call::Tick(at) => tick(alloc, view, *at),
        Call::Show(key) => show(alloc, view, *key),
        Call::List(id) => list(alloc, view, *id),
        Call::Swap(key, other) => swap(alloc, view, *key, *other),
    }
}

/// The reply to a call and the change of what it writes, worked out on a view that was taken for the call. They are right
/// in every good state that shows the view. `AllocError` where there is no memory for them.
pub fn plan<V: Version>(
    alloc: Global,
    view: &View<V>,
    call: &Call,
) -> Result<(Reply, Change), AllocError>
    requires for_call { IsFor V.item_of view.now call.now }
    ensures { IfOk result (λ p. (m : State) → IsGood m → Shows V.item_of m view.now →
        (p.0 ≡ reply m call.now) × IsChange m call.now (says (list_of m) p.1)) }
{
    planned(alloc, &Shown::by(view), call)
}

/// As `plan`, with whole lists in the change: each list that the view shows, and in which a flight is to stand so, is copied
/// with the flight standing there so. `AllocError` where there is no memory for them.
pub fn plan_whole<V: Version>(
    alloc: Global,
    view: &View<V>,
    call: &Call,
) -> Result<(Reply, Change), AllocError>
    requires for_call { IsFor V.item_of view.now call.now }
    ensures { IfOk result (λ p. (m : State) → IsGood m → Shows V.item_of m view.now →
        (p.0 ≡ reply m call.now) × IsChange m call.now (says (list_of m) p.1)) }
{
    let (reply, change) = plan(alloc, view, call)?;
    Ok((reply, settled(alloc, &Shown::by(view), change)?))
}

/// The gate of programs: works each answer out at once.
#[derive(Clone, Copy, Debug)]
pub struct Direct;

impl<K: Store> Gate<Board<K>> for Direct {
    fn plan(
        &self,
        alloc: Global,
        _desk: u32,
        _attempt: u32,
        view: &View<K::Version>,
        call: &Call,
    ) -> Result<(Reply, Change), AllocError> {
        plan(alloc, view, call)
    }
}

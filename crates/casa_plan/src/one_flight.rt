//! The planners of the calls on one flight, and what the regulations to which it is subject offer it.

ghost use Rattle.std.specs.Prelude.{◌≡◌, ◌≤◌, ◌||◌, IfOk, Some, false, is_some, nat_lt, not, option_copied};
ghost use Rattle.casa_time.specs.Moment.{last_moment};
ghost use Rattle.casa_flight.specs.Entry.{offer_in, most_penalising};
ghost use Rattle.casa_footprint.specs.Finding.{crossed};
ghost use Rattle.casa_plan_spec.specs.Sight.{clock_in, regulations_in, list_in, list_with};
ghost use Rattle.casa_plan_spec.specs.Messages.{delay_by};
ghost use Rattle.casa_plan_spec.specs.OneFlight.{offers_of, entry_offer, with_offer, offered_delay};
ghost use Rattle.casa_plan_spec.specs.FlightCalls.{leave_unchanged, rewrite_flight, take_offer, enter_flight, file, amend, cancel, is_taken, revise, mark_exempt_if, exempt, show};

use crate::flight_reply::{ctot_shown, delay_shown, reply_to_change};
use crate::replies::refused;
use crate::shown::Shown;
use crate::write::flight_written;
use casa_flight::{
    Answer, Comp, FlightReply, Key, Messages, Offer, Plan, Refusal, RegId, Reply, Row,
    more_penalising,
};
use casa_time::Moment;
use casa_view::{Change, Crossings, Version};
use std::alloc::{AllocError, Global};

/// What the regulation with this identifier offers a flight with this time over, by the list that is written or else shown;
/// `None` without a list.
fn offer_of<V: Version>(
    view: &Shown<V>,
    draft: &Change,
    key: Key,
    id: RegId,
    eto: Moment,
) -> Option<Offer>
    ensures { result ≡ offer_in id key (list_with view.now draft.now id) (Some eto) }
{
    let list = view.list_with(draft, &id)?;
    let cto = list.would_pass_anew(&Comp { eto, key });
    Some(Offer::of(id, eto, cto))
}

/// The most penalising offer of these regulations.
pub(crate) fn best_offer<V: Version>(
    view: &Shown<V>,
    draft: &Change,
    key: Key,
    over: &Crossings,
) -> Option<Offer>
    ensures { result ≡
        most_penalising (offers_of (list_with view.now draft.now) key over.now) }
{
    let mut best = None;
    for (id, eto) in over.as_slice() {
        if let Some(offer) = offer_of(view, draft, key, *id, *eto) {
            best = Some(more_penalising(best, offer));
        }
    }
    best
}

/// The offer that an ungoverned flight takes as it enters, of those of the regulations to which it is subject.
fn entry_offer<V: Version>(
    alloc: Global,
    view: &Shown<V>,
    key: Key,
    row: &Row,
    over: &Crossings,
) -> Option<Offer>
    requires { over.now ≡ crossed row.now.plan (regulations_in view.now) }
    ensures { result ≡ entry_offer view.now key row.now }
{
    if row.is_exempt() || row.plan.is_gone(view.clock()) {
        return None;
    }
    best_offer(view, &Change::new(alloc), key, over)
}

/// The flight with the offer that it takes, if there is one.
fn with_offer(clock: Moment, row: Row, offer: &Option<Offer>) -> Row
    ensures { result ≡ with_offer clock row offer.now }
{
    match offer {
        Some(offer) => row.governed(clock, *offer),
        None => row,
    }
}

/// The delay that an offer is, in seconds, and none without one.
fn offered_delay(offer: &Option<Offer>) -> u32
    ensures value { result ≡ offered_delay offer.now }
    ensures in_range { result ≤ last_moment }
{
    match offer {
        Some(offer) => offer.delay(),
        None => 0,
    }
}

/// The flight as it is shown.
fn leave_unchanged<V: Version>(
    alloc: Global,
    view: &Shown<V>,
    key: Key,
    row: &Row,
) -> Result<(Reply, Change), AllocError>
    ensures { IfOk result (λ p. p ≡ leave_unchanged view.now key row.now) }
{
    let flight = FlightReply::of(key, row, delay_shown(view, key, row));
    let messages = Messages::from_vec(Vec::new(alloc))?;
    let reply = Reply::Answered(Answer::Flight(flight), messages);
    Ok((reply, Change::new(alloc)))
}

/// A flight that stood so now stands so, with this delay in seconds, subject to these regulations.
fn rewrite_flight<V: Version>(
    alloc: Global,
    view: &Shown<V>,
    key: Key,
    was: Option<&Row>,
    row: Row,
    delay: u32,
    has: &Crossings,
) -> Result<(Reply, Change), AllocError>
    requires in_range { delay ≤ last_moment }
    requires subject { has.now ≡ crossed row.plan (regulations_in view.now) }
    ensures { IfOk result (λ p. p ≡ rewrite_flight view.now key
        (option_copied was.entry) row delay) }
{
    let reply = reply_to_change(alloc, view, key, was, &row, delay)?;
    let draft = flight_written(alloc, view, key, was, Some(row), has)?;
    Ok((reply, draft))
}

/// An ungoverned flight, subject to these regulations, takes an offer, in place of how it stood.
fn take_offer<V: Version>(
    alloc: Global,
    view: &Shown<V>,
    key: Key,
    was: Option<&Row>,
    row: Row,
    offer: &Option<Offer>,
    has: &Crossings,
) -> Result<(Reply, Change), AllocError>
    requires { has.now ≡ crossed row.plan (regulations_in view.now) }
    ensures { IfOk result (λ p. p ≡ take_offer view.now key
        (option_copied was.entry) row offer.now) }
{
    let row = with_offer(view.clock(), row, offer);
    rewrite_flight(alloc, view, key, was, row, offered_delay(offer), has)
}

/// An ungoverned flight enters, in place of how it stood.
fn enter_flight<V: Version>(
    alloc: Global,
    view: &Shown<V>,
    key: Key,
    was: Option<&Row>,
    row: Row,
) -> Result<(Reply, Change), AllocError>
    ensures { IfOk result (λ p. p ≡ enter_flight view.now key (option_copied was.entry) row) }
{
    let has = view.crossed(alloc, &row.plan)?;
    let offer = entry_offer(alloc, view, key, &row, &has);
    take_offer(alloc, view, key, was, row, &offer, &has)
}

/// Whether a plan's off-block time has passed.
fn is_late<V: Version>(view: &Shown<V>, plan: &Plan) -> bool
    ensures { result ≡ nat_lt plan.now.eobt (clock_in view.now) }
{
    plan.eobt() < view.clock()
}

/// A filed flight is added and enters.
pub(crate) fn file<V: Version>(
    alloc: Global,
    view: &Shown<V>,
    plan: &Plan,
) -> Result<(Reply, Change), AllocError>
    ensures { IfOk result (λ p. p ≡ file view.now plan.now) }
{
    let key = plan.key();
    if let Some(_row) = view.row(&key) {
        return Ok(refused(alloc, Refusal::Duplicate));
    }
    if is_late(view, plan) {
        return Ok(refused(alloc, Refusal::Late));
    }
    enter_flight(alloc, view, key, None, Row::filed(plan)?)
}

/// An amended flight enters with its new plan; a desk's mark stays.
pub(crate) fn amend<V: Version>(
    alloc: Global,
    view: &Shown<V>,
    plan: &Plan,
) -> Result<(Reply, Change), AllocError>
    ensures { IfOk result (λ p. p ≡ amend view.now plan.now) }
{
    let key = plan.key();
    let Some(row) = view.row(&key) else {
        return Ok(refused(alloc, Refusal::NoFlight));
    };
    if is_late(view, plan) {
        return Ok(refused(alloc, Refusal::Late));
    }
    enter_flight(alloc, view, key, Some(row), row.amended(plan)?)
}

/// A cancelled flight is removed.
pub(crate) fn cancel<V: Version>(
    alloc: Global,
    view: &Shown<V>,
    key: Key,
) -> Result<(Reply, Change), AllocError>
    ensures { IfOk result (λ p. p ≡ cancel view.now key) }
{
    let Some(row) = view.row(&key) else {
        return Ok(refused(alloc, Refusal::NoFlight));
    };
    let messages = Messages::from_vec(Vec::new(alloc))?;
    let has = Crossings::new(alloc);
    let draft = flight_written(alloc, view, key, Some(row), None, &has)?;
    Ok((Reply::Answered(Answer::Done, messages), draft))
}

/// Whether a revised flight takes the offer: what is not issued always does; what is issued does before it is gone, and
/// only if it leaves earlier.
fn is_taken<V: Version>(view: &Shown<V>, key: Key, row: &Row, offer: &Option<Offer>) -> bool
    ensures { result ≡ is_taken view.now key row.now offer.now }
{
    if !row.issued.is_some() {
        return true;
    }
    if row.plan.is_gone(view.clock()) {
        return false;
    }
    row.plan.etot() + offered_delay(offer) < ctot_shown(view, key, row)
}

/// Whether a revised flight may take some offer: what is issued without a delay cannot leave earlier, whatever it is offered.
fn may_move<V: Version>(view: &Shown<V>, key: Key, row: &Row) -> bool
    ensures { result ≡ (not (is_some row.now.issued)
        || nat_lt 0 (delay_by (list_in view.now) key row.now)) }
{
    !row.issued.is_some() || 0 < delay_shown(view, key, row)
}

/// A revised flight takes what it would get as it enters anew, or it stays as it is.
pub(crate) fn revise<V: Version>(
    alloc: Global,
    view: &Shown<V>,
    key: Key,
) -> Result<(Reply, Change), AllocError>
    ensures { IfOk result (λ p. p ≡ revise view.now key) }
{
    let Some(row) = view.row(&key) else {
        return Ok(refused(alloc, Refusal::NoFlight));
    };
    if !may_move(view, key, row) {
        return leave_unchanged(alloc, view, key, row);
    }
    let free = row.ungoverned()?;
    let has = view.crossed(alloc, &free.plan)?;
    let offer = entry_offer(alloc, view, key, &free, &has);
    if is_taken(view, key, row, &offer) {
        take_offer(alloc, view, key, Some(row), free, &offer, &has)
    } else {
        leave_unchanged(alloc, view, key, row)
    }
}

/// A flight that is not exempt is marked and governed by nothing.
fn exempt_at<V: Version>(
    alloc: Global,
    view: &Shown<V>,
    key: Key,
    row: &Row,
) -> Result<(Reply, Change), AllocError>
    ensures { IfOk result (λ p. p ≡ mark_exempt_if view.now key row.now false) }
{
    let has = view.crossed(alloc, &row.plan)?;
    rewrite_flight(alloc, view, key, Some(row), row.exempted()?, 0, &has)
}

/// An exempted flight is marked and governed by nothing.
pub(crate) fn exempt<V: Version>(
    alloc: Global,
    view: &Shown<V>,
    key: Key,
) -> Result<(Reply, Change), AllocError>
    ensures { IfOk result (λ p. p ≡ exempt view.now key) }
{
    let Some(row) = view.row(&key) else {
        return Ok(refused(alloc, Refusal::NoFlight));
    };
    if row.is_exempt() {
        return Ok(refused(alloc, Refusal::AlreadyExempt));
    }
    exempt_at(alloc, view, key, row)
}

/// A flight is shown as it stands.
pub(crate) fn show<V: Version>(
    alloc: Global,
    view: &Shown<V>,
    key: Key,
) -> Result<(Reply, Change), AllocError>
    ensures { IfOk result (λ p. p ≡ show view.now key) }
{
    match view.row(&key) {
        Some(row) => leave_unchanged(alloc, view, key, row),
        None => Ok(refused(alloc, Refusal::NoFlight)),
    }
}

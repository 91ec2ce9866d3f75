//! Why a flight waits, by what is shown of a state.

ghost use Rattle.std.specs.Prelude.{◌≡◌, ◌≤◌, [], IfOk};
ghost use Rattle.std.specs.Option.{option_copied, option_map_or};
ghost use Rattle.casa_time.specs.Moment.{last_moment};
ghost use Rattle.casa_flight.specs.declared.state.State.{State};
ghost use Rattle.casa_flight.specs.Listing.{delay_of, governing_list};
ghost use Rattle.casa_flight.specs.Entry.{offer, offers, situation};
ghost use Rattle.casa_inquiry.specs.Why.{holdings, why};

use crate::shown::Shown;
use crate::why::{Holding, Reasons, delay_in, holdings, offer, rule_of};
use casa_flight::{FlightReply, Key, Offer, Plan, Regulation, Row, SharedSlice};
use casa_list::SlotList;
use std::alloc::{AllocError, Global};

/// Why a flight that stands so under a key does, in the state of which this is shown: what the flight is shown with, the rule
/// by which a regulation governs it, what each regulation to which it is subject would offer it, and who holds the slots that
/// it waits for. `AllocError` where there is no memory to work it out.
pub fn explain<S: Shown>(
    alloc: Global,
    shown: &S,
    key: Key,
    row: &Row,
) -> Result<Reasons, AllocError>
    ensures { IfOk result (λ reasons. (m : State) → S.shows shown.now m →
        reasons ≡ why m key row.now) }
{
    let offers = offers(alloc, shown, key, &row.plan)?;
    let rule = rule_of(shown.clock(), row, offers.as_slice());
    let offers = SharedSlice::from_vec(offers)?;
    let holdings = holdings_of(alloc, shown, &key, row)?;
    Ok(Reasons {
        flight: FlightReply::of(key, row, delay(shown, &key, row)),
        rule,
        offers,
        holdings,
    })
}

/// The list of the regulation that governs a flight; `None` where nothing does.
pub(crate) fn governing_list<'a, S: Shown>(shown: &'a S, row: &Row) -> Option<&'a SlotList>
    ensures { (m : State) → S.shows shown.now m → option_copied result ≡ governing_list m row.now }
{
    match &row.governing {
        Some(id) => shown.list(id),
        None => None,
    }
}

/// The delay of a flight in its governing list, in seconds.
fn delay<S: Shown>(shown: &S, key: &Key, row: &Row) -> u32
    ensures value { (m : State) → S.shows shown.now m → result ≡ delay_of m key.now row.now }
    ensures in_range { result ≤ last_moment }
{
    match governing_list(shown, row) {
        Some(list) => delay_in(list, key),
        None => 0,
    }
}

/// Who holds the slots of the governing list for which a flight waits.
fn holdings_of<S: Shown>(
    alloc: Global,
    shown: &S,
    key: &Key,
    row: &Row,
) -> Result<SharedSlice<Holding>, AllocError>
    ensures { IfOk result (λ all. (m : State) → S.shows shown.now m →
        all ≡ option_map_or (holdings key.now) (governing_list m row.now) []) }
{
    match governing_list(shown, row) {
        Some(list) => holdings(alloc, list, key),
        None => SharedSlice::from_vec(Vec::new(alloc)),
    }
}

/// What each open regulation to which a flight is subject would offer it, in the order of their identifiers.
fn offers<S: Shown>(
    alloc: Global,
    shown: &S,
    key: Key,
    plan: &Plan,
) -> Result<Vec<Offer>, AllocError>
    ensures { IfOk result (λ all. (m : State) → S.shows shown.now m →
        all.items ≡ offers (situation m) key plan.now) }
{
    let mut all = Vec::new(alloc);
    for regulation in shown.catalogue() {
        if let Some(offer) = offer_of(shown, regulation, key, plan) {
            all.push(offer)?;
        }
    }
    Ok(all)
}

/// What a regulation would offer a flight; `None` where that is not subject to it.
fn offer_of<S: Shown>(shown: &S, regulation: &Regulation, key: Key, plan: &Plan) -> Option<Offer>
    ensures { (m : State) → S.shows shown.now m →
        result ≡ offer (situation m) key plan.now regulation.now }
{
    offer(regulation, shown.list(&regulation.id)?, key, plan)
}

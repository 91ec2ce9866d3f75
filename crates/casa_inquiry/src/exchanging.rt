//! With which flights an issued one could exchange its slot now.

ghost use Rattle.std.specs.Prelude.{◌≡◌, Some, IfOk};
ghost use Rattle.std.specs.Option.{option_and_then};
ghost use Rattle.casa_flight.specs.declared.state.State.{State};
ghost use Rattle.casa_flight.specs.Good.{IsGood};
ghost use Rattle.casa_flight.specs.Listing.{stance_of};
ghost use Rattle.casa_flight.specs.State.{row_of};
ghost use Rattle.casa_inquiry.specs.Exchanges.{ctot_at, exchange_at, exchange_in, exchanges, exchanges_in, issued_times};

use crate::explaining::governing_list;
use crate::shown::ShownRows;
use casa_flight::{Key, Plan, Row, SharedSlice, Stance};
use casa_list::{Member, SlotList};
use casa_time::Moment;
use std::alloc::{AllocError, Global};

/// A flight with which another one could exchange its slot now. Times are in seconds from midnight UTC.
#[derive(Clone, Copy, PartialEq, Eq)]
pub struct PossibleExchange {
    /// The flight with which it could.
    pub other: Key,
    /// The calculated take-off time that the one that asks would then have.
    pub ctot: u32,
    /// The one that the other would have.
    pub other_ctot: u32,
}

/// The estimated and the calculated time over of an issued flight.
#[derive(Clone, Copy)]
struct IssuedTimes {
    eto: Moment,
    cto: Moment,
}

/// The flights with which the flight that stands so under a key could exchange its slot now, in the order of their keys, with
/// the calculated take-off times that both would have: all those, and only those, with which the allocator would accept the
/// exchange, by what is shown of its state. `AllocError` where there is no memory for them.
///
/// It goes once over the list of the regulation that governs the flight, and looks each other issued flight of that up.
pub fn exchanges<S: ShownRows>(
    alloc: Global,
    shown: &S,
    key: Key,
    row: &Row,
) -> Result<SharedSlice<PossibleExchange>, AllocError>
    ensures { IfOk result (λ all. (m : State) → IsGood m → S.shows shown.now m →
        row_of m key ≡ Some row.now → all ≡ exchanges m key) }
{
    let Some(list) = governing_list(shown, row) else {
        return SharedSlice::from_vec(Vec::new(alloc));
    };
    let Some(own) = times_in(list, &key) else {
        return SharedSlice::from_vec(Vec::new(alloc));
    };
    SharedSlice::from_vec(exchanges_in(alloc, shown, &key, &row.plan, &own, list)?)
}

/// The times over of a flight that is issued in a list; `None` where it is not issued there.
fn times_in(list: &SlotList, key: &Key) -> Option<IssuedTimes>
    ensures { result ≡ option_and_then issued_times (stance_of list.now key.now) }
{
    issued_times(list.stance_of(key)?)
}

/// The times over of a flight that stands so in a list; `None` where it is not issued there.
fn issued_times(stance: Stance) -> Option<IssuedTimes>
    ensures { result ≡ issued_times stance }
{
    match stance {
        Stance::Issued { eto, cto } => Some(IssuedTimes { eto, cto }),
        _ => None,
    }
}

/// The exchanges of a flight with this plan, which is issued in a list at these times, with all other flights of the list.
fn exchanges_in<S: ShownRows>(
    alloc: Global,
    shown: &S,
    key: &Key,
    plan: &Plan,
    own: &IssuedTimes,
    list: &SlotList,
) -> Result<Vec<PossibleExchange>, AllocError>
    ensures { IfOk result (λ all. (m : State) → S.shows shown.now m →
        all.items ≡ exchanges_in m key.now plan.now own.now list.now) }
{
    let mut all = Vec::new(alloc);
    for member in list.flights() {
        if let Some(exchange) = exchange_in(shown, key, plan, own, member) {
            all.push(exchange)?;
        }
    }
    Ok(all)
}

/// The exchange with one flight of the list; `None` where that is the flight itself, is not issued there, or one of the two
/// would get a time that is too early for it.
fn exchange_in<S: ShownRows>(
    shown: &S,
    key: &Key,
    plan: &Plan,
    own: &IssuedTimes,
    member: &Member,
) -> Option<PossibleExchange>
    ensures { (m : State) → S.shows shown.now m →
        result ≡ exchange_in m key.now plan.now own.now member.now }
{
    let other = member.key();
    if *key == other {
        return None;
    }
    let its = issued_times(member.stance())?;
    let mate = shown.row(&other)?;
    exchange_at(shown.clock(), plan, own, other, &mate.plan, &its)
}

/// The exchange of two issued flights of one regulation with these plans and times over there; `None` where one of them
/// would get a time that is too early for it.
fn exchange_at(
    clock: Moment,
    plan: &Plan,
    own: &IssuedTimes,
    other: Key,
    its_plan: &Plan,
    its: &IssuedTimes,
) -> Option<PossibleExchange>
    ensures { result ≡ exchange_at clock plan.now own.now other its_plan.now its.now }
{
    Some(PossibleExchange {
        other,
        ctot: ctot_at(clock, plan, own.eto, its.cto)?,
        other_ctot: ctot_at(clock, its_plan, its.eto, own.cto)?,
    })
}

/// The calculated take-off time that a flight with this plan and time over has at another time over; `None` where that is
/// too early for it: before its own, or such that it would take off before the clock.
fn ctot_at(clock: Moment, plan: &Plan, eto: Moment, time: Moment) -> Option<u32>
    ensures { result ≡ ctot_at clock plan.now eto time }
{
    let delay = time.secs().checked_sub(eto.secs())?;
    let ctot = plan.etot() + delay;
    if ctot < clock.secs() {
        return None;
    }
    Some(ctot)
}

//! Why a flight waits.

ghost use Rattle.std.specs.Prelude.{◌≡◌, ◌≤◌, ◌<◌, ◌++◌, ◌+◌, ◌-◌, ◌∷◌, [], ℕ, Some, IfOk, OnOk, length};
ghost use Rattle.std.specs.List.{filter_map, range_with_len};
ghost use Rattle.casa_time.specs.Moment.{last_moment};
ghost use Rattle.casa_grid.specs.Slots.{slots};
ghost use Rattle.casa_filing.specs.Subject.{subject};
ghost use Rattle.casa_flight.specs.Listing.{delay_in};
ghost use Rattle.casa_flight.specs.Entry.{most_penalising, offer_in};
ghost use Rattle.casa_slots.specs.Walk.{low_after};
ghost use Rattle.casa_inquiry.specs.Why.{AreHeld, held, held_by, held_in, holdings, holdings_at, is_tied, rule_by, rule_free, rule_governed, rule_of, slot_held, slot_with, slots_waited};

use casa_flight::{
    Comp, FlightReply, Key, Offer, Plan, RegId, Regulation, Row, SharedSlice, most_penalising,
};
use casa_list::{Member, Place, SlotList};
use casa_time::Moment;
use std::alloc::{AllocError, Global};

/// Why a flight stands as it does.
#[derive(Drop)]
pub struct Reasons {
    /// The flight as it stands.
    pub flight: FlightReply,
    /// By which rule it is governed, or not.
    pub rule: Rule,
    /// What each regulation to which it is subject would offer it if it entered now, in the order of their identifiers.
    pub offers: SharedSlice<Offer>,
    /// Who holds each slot of the governing list from the one that it asks for to the one that it has.
    pub holdings: SharedSlice<Holding>,
}

/// The rule by which a flight is governed, or not.
#[derive(Clone, Copy, PartialEq, Eq)]
pub enum Rule {
    /// Its regulation offers more delay than any other.
    GreatestDelay,
    /// Its regulation has the smallest identifier of those that offer the greatest delay.
    SmallestId,
    /// Its regulation has governed it since it entered; by what is offered now, another one would.
    SinceEntry,
    /// Its regulation has governed it since it entered; it enters no more, since its take-off time is before the clock.
    GovernedGone,
    /// Nothing governs it, since it is exempt.
    Exempt,
    /// Nothing governs it, since its take-off time is before the clock.
    Gone,
    /// Nothing governs it, since it is subject to no open regulation.
    Outside,
}

/// A slot of a list, with a flight that has it.
#[derive(Clone, Copy)]
pub struct Holding {
    pub slot: usize,
    /// Where the slot begins.
    pub begin: Moment,
    /// The flight with how it stands; `None` where nobody has the slot.
    pub holder: Option<Member>,
}

/// What a regulation with this list would offer a flight if it entered now, in place of how it stands there; `None` where
/// it is not subject to that.
pub fn offer(regulation: &Regulation, list: &SlotList, key: Key, plan: &Plan) -> Option<Offer>
    ensures { result ≡
        offer_in regulation.now.id key (Some list.now) (subject plan.now regulation.now) }
{
    let eto = plan.time_over(regulation)?;
    let cto = list.would_pass_anew(&Comp { eto, key });
    Some(Offer::of(regulation.id, eto, cto))
}

/// By which rule a flight is governed, or not, at this clock and with these offers, those of all regulations to which it
/// is subject.
pub fn rule_of(clock: Moment, row: &Row, offers: &[Offer]) -> Rule
    ensures { result ≡ rule_of clock row.now offers.now }
{
    match row.governing {
        Some(id) => rule_governed(clock, row, id, offers),
        None => rule_free(clock, row),
    }
}

/// The rule by which this regulation governs a flight at this clock and with these offers.
fn rule_governed(clock: Moment, row: &Row, id: RegId, offers: &[Offer]) -> Rule
    ensures { result ≡ rule_governed clock row.now offers.now id }
{
    if row.plan.is_gone(clock) {
        Rule::GovernedGone
    } else {
        rule_by(id, offers)
    }
}

/// The rule by which this regulation governs a flight that is not gone, with these offers.
fn rule_by(id: RegId, offers: &[Offer]) -> Rule
    ensures { result ≡ rule_by id offers.now (most_penalising offers.now) }
{
    let Some(offer) = most_penalising(offers) else {
        return Rule::SinceEntry;
    };
    if offer.id() != id {
        Rule::SinceEntry
    } else if is_tied(offers, &offer) {
        Rule::SmallestId
    } else {
        Rule::GreatestDelay
    }
}

/// Whether another regulation offers as much delay.
fn is_tied(offers: &[Offer], offer: &Offer) -> bool
    ensures { result ≡ is_tied offers.now offer.now }
{
    offers.iter().any(|other| other.delay() == offer.delay() && other.id() != offer.id())
}

/// The rule by which nothing governs a flight.
fn rule_free(clock: Moment, row: &Row) -> Rule
    ensures { result ≡ rule_free clock row.now }
{
    if row.is_exempt() {
        Rule::Exempt
    } else if row.plan.is_gone(clock) {
        Rule::Gone
    } else {
        Rule::Outside
    }
}

/// The delay that a flight has in a list, in seconds; none where it is not there.
pub fn delay_in(list: &SlotList, key: &Key) -> u32
    ensures value { result ≡ delay_in list.now key.now }
    ensures in_range { result ≤ last_moment }
{
    let Some(stance) = list.stance_of(key) else {
        return 0;
    };
    let eto = stance.eto();
    let cto = list.cto_of(key).unwrap_or(eto);
    cto.secs().saturating_sub(eto.secs())
}

/// Who holds each slot of a list from the one that a flight asks for to the one that it has, and to the last one where it
/// has none; nobody where the regulation does not govern it. `AllocError` where there is no memory for them.
pub fn holdings(
    alloc: Global,
    list: &SlotList,
    key: &Key,
) -> Result<SharedSlice<Holding>, AllocError>
    ensures { IfOk result (λ all. all ≡ holdings key.now list.now) }
{
    let (from, until) = waited(list, key);
    let rows = held_from(alloc, list, from, until)?;
    let mut all = Vec::new(alloc);
    for slot in from..until {
        push_holdings(&mut all, list, slot, &rows[slot - from])?;
    }
    SharedSlice::from_vec(all)
}

/// The slot that a flight asks for, and the first one behind those that it waits for.
fn waited(list: &SlotList, key: &Key) -> (usize, usize)
    ensures slots { range_with_len result.0 (result.1 - result.0) ≡ slots_waited list.now key.now }
    ensures within { result.1 ≤ length (slots list.now.profile) }
{
    let Some(stance) = list.stance_of(key) else {
        return (0, 0);
    };
    let Some(place) = list.place_of(key) else {
        return (0, 0);
    };
    let Some(asked) = list.grid().wanted(stance.eto()) else {
        return (0, 0);
    };
    (asked, behind(list.grid().len(), place))
}

/// The first slot behind a place, of so many slots.
fn behind(count: usize, place: Place) -> usize
    ensures slot { result ≡ low_after count place }
    ensures within { result ≤ count }
{
    match place {
        Place::Slot(slot) if slot < count => slot + 1,
        _ => count,
    }
}

/// The flights that have each slot from one on and before another, slot by slot, in the order of their keys.
///
/// It goes over the flights of the list once.
fn held_from(
    alloc: Global,
    list: &SlotList,
    from: usize,
    until: usize,
) -> Result<Vec<Vec<Holding>>, AllocError>
    requires { until ≤ length (slots list.now.profile) }
    ensures number { IfOk result (λ rows. length rows.items ≡ until - from) }
    ensures held { IfOk result (λ rows. AreHeld list.now from list.now.flights rows.items) }
{
    let mut rows = empty_rows(alloc, until.saturating_sub(from))?;
    for member in list.flights() {
        put_down(&mut rows, list, from, member)?;
    }
    Ok(rows)
}

/// So many rows with nothing in them.
fn empty_rows(alloc: Global, number: usize) -> Result<Vec<Vec<Holding>>, AllocError>
    ensures number { IfOk result (λ rows. length rows.items ≡ number) }
    ensures empty { IfOk result (λ rows. (k : ℕ) → k < number → held_in rows.items k ≡ []) }
{
    let mut rows = Vec::with_capacity(alloc, number)?;
    for _ in 0..number {
        rows.push(Vec::new(alloc))?;
    }
    Ok(rows)
}

/// Puts a flight of a list down in the row of the slot that it has, if there is one: the rows are those of the slots from
/// this one on.
fn put_down(
    rows: &mut [Vec<Holding>],
    list: &SlotList,
    from: usize,
    member: &Member,
) -> Result<(), AllocError>
    requires { length rows.old ≤ length (slots list.now.profile) - from }
    ensures { OnOk result ((k : ℕ) → k < length rows.old → held_in rows.new k
        ≡ held_in rows.old k ++ filter_map (held_by list.now (from + k)) (member.now ∷ [])) }
{
    let Some(slot) = slot_held(list, &member.key()) else {
        return Ok(());
    };
    if slot < from || slot - from >= rows.len() {
        return Ok(());
    }
    rows[slot - from].push(slot_with(list, slot, Some(*member)))?;
    Ok(())
}

/// The slot that a flight of a list has; `None` where it has none.
fn slot_held(list: &SlotList, key: &Key) -> Option<usize>
    ensures { result ≡ slot_held list.now key.now }
{
    match list.place_of(key) {
        Some(Place::Slot(slot)) => Some(slot),
        _ => None,
    }
}

/// Puts down who holds a slot: these flights, or nobody.
fn push_holdings(
    all: &mut Vec<Holding>,
    list: &SlotList,
    slot: usize,
    these: &[Holding],
) -> Result<(), AllocError>
    requires within { slot < length (slots list.now.profile) }
    requires held { these.now ≡ held list.now slot }
    ensures { OnOk result (all.new.items ≡ all.old.items ++ holdings_at list.now slot) }
{
    if these.is_empty() {
        all.push(slot_with(list, slot, None))?;
    } else {
        all.extend_from_slice(these)?;
    }
    Ok(())
}

/// A slot with who has it.
fn slot_with(list: &SlotList, slot: usize, holder: Option<Member>) -> Holding
    requires { slot < length (slots list.now.profile) }
    ensures { result ≡ slot_with list.now slot holder }
{
    Holding {
        slot,
        begin: list.grid().begin(slot),
        holder,
    }
}

//! The walk along the competitors of a list: each in turn has the first clear slot from the one that it asks
//! for and behind the place of the one before it.

ghost use Rattle.std.specs.Prelude.{◌≡◌, ◌≤◌, take, drop, length, true, vec_len};
ghost use Rattle.casa_grid.specs.Slots.{slots, wanted};
ghost use Rattle.casa_flight.specs.Assignment.{place_from};
ghost use Rattle.casa_slots.specs.Blocked.{lowered};
ghost use Rattle.casa_slots.specs.Walk.{place_low, low_after, low_behind, walked, followed, comps_in, FollowFirst, is_below, count_below, PlacesRise, IsNotBefore, IsWithin};
ghost use Rattle.casa_grid.specs.Profile.{end_of};
ghost use Rattle.casa_grid.specs.TimeOver.{cto};

use crate::blocked::Blocked;
use crate::grid::SharedGrid;
use crate::seat::Seat;
use casa_flight::Comp;
use casa_grid::Place;
use casa_time::Moment;

/// The place at the slot of this number; over without one.
pub fn place_from(slot: Option<usize>) -> Place
    ensures { result ≡ place_from slot }
{
    match slot {
        Some(k) => Place::Slot(k),
        None => Place::Over,
    }
}

/// The place of a flight with this time over where the slots below `low` are gone.
pub fn place_low(grid: &SharedGrid, blocked: &Blocked, low: usize, eto: Moment) -> Place
    ensures value { result ≡ place_low (slots grid.now) blocked.now.counts low eto }
    ensures few { IsWithin u32.MAX result }
{
    match grid.get().wanted(eto) {
        Some(asked) => place_from(blocked.clear_from(asked.max(low))),
        None => Place::Over,
    }
}

/// The place of a competitor where the slots below `low` are gone. One that has asked for its slot does so again only where
/// the place that it had is not gone.
fn place_anew(
    grid: &SharedGrid,
    blocked: &Blocked,
    low: usize,
    seat: Seat,
    has_asked: bool,
) -> Place
    requires { has_asked ≡ true → IsNotBefore (wanted (slots grid.now) seat.comp.eto) seat.place }
    ensures value { result ≡ place_low (slots grid.now) blocked.now.counts low seat.comp.eto }
    ensures few { IsWithin u32.MAX result }
{
    match seat.place() {
        Place::Slot(k) if has_asked && k < low => place_from(blocked.clear_from(low)),
        _ => place_low(grid, blocked, low, seat.comp().eto),
    }
}

/// Below which slot all are gone once this place is given, among so many slots.
fn low_after(slots: usize, place: Place) -> usize
    ensures { result ≡ low_after slots place }
{
    match place {
        Place::Slot(k) if k < slots => k + 1,
        _ => slots,
    }
}

/// Below which slot all are gone behind these competitors.
fn low_behind(slots: usize, competitors: &[Seat]) -> usize
    ensures { result ≡ low_behind slots 0 competitors.now }
{
    match competitors.last() {
        Some(last) => low_after(slots, last.place()),
        None => 0,
    }
}

/// The place of a flight with this estimated time over behind these competitors: the first clear slot from the one that it
/// asks for and behind the place of the last of them, over without one.
pub fn place_behind(
    grid: &SharedGrid,
    blocked: &Blocked,
    competitors: &[Seat],
    eto: Moment,
) -> Place
    ensures value { result ≡ place_low (slots grid.now) blocked.now.counts
        (low_behind (length blocked.now.counts) 0 competitors.now) eto }
    ensures few { IsWithin u32.MAX result }
{
    place_low(grid, blocked, low_behind(blocked.slots(), competitors), eto)
}

/// The place of a flight with this time over where the slots below `low` are gone, once a flight has left this slot, if it
/// had one.
fn place_once_left(
    grid: &SharedGrid,
    blocked: &Blocked,
    left: Option<usize>,
    low: usize,
    eto: Moment,
) -> Place
    ensures { result ≡ place_low (slots grid.now) (lowered blocked.now.counts left) low eto }
{
    match grid.get().wanted(eto) {
        Some(asked) => place_from(blocked.clear_once_left(asked.max(low), left)),
        None => Place::Over,
    }
}

/// Below which slot all are gone behind these competitors, once a flight has left this slot, if it had one, and they have
/// moved up in turn where the slots below `low` are gone. It goes along them up to the first whose place stays.
fn low_once_left(
    grid: &SharedGrid,
    blocked: &Blocked,
    left: Option<usize>,
    low: usize,
    competitors: &[Seat],
) -> usize
    requires { FollowFirst (slots grid.now) (lowered blocked.now.counts left) competitors.now }
    ensures { let counts = lowered blocked.now.counts left in
        result ≡ low_behind (length counts) low
        (walked (slots grid.now) counts low (comps_in competitors.now)) }
{
    let mut low = low;
    for seat in competitors {
        let place = place_once_left(grid, blocked, left, low, seat.comp().eto);
        if place == seat.place() {
            return low_behind(blocked.slots(), competitors);
        }
        low = low_after(blocked.slots(), place);
    }
    low
}

/// The place of a flight with this estimated time over behind the competitors in front and the others, once a flight has
/// left this slot, if it had one, and the others have moved up behind those in front. The others behind the first have
/// asked for their slots already.
pub fn place_once_moved(
    grid: &SharedGrid,
    blocked: &Blocked,
    left: Option<usize>,
    front: &[Seat],
    others: &[Seat],
    eto: Moment,
) -> Place
    requires { FollowFirst (slots grid.now) (lowered blocked.now.counts left) others.now }
    ensures { let counts = lowered blocked.now.counts left in
        result ≡ place_low (slots grid.now) counts
        (low_behind (length counts) 0
        (followed (slots grid.now) counts front.now (comps_in others.now))) eto }
{
    let behind = low_behind(blocked.slots(), front);
    let low = low_once_left(grid, blocked, left, behind, others);
    place_once_left(grid, blocked, left, low, eto)
}

/// As `walk_on`, where all of these are competitors.
fn walk_from(grid: &SharedGrid, blocked: &Blocked, competitors: &mut [Seat], from: usize)
    requires within { from ≤ length competitors.old }
    requires follow { FollowFirst (slots grid.now) blocked.now.counts (drop from competitors.old) }
    ensures { competitors.new ≡
        followed (slots grid.now) blocked.now.counts (take from competitors.old)
        (comps_in (drop from competitors.old)) }
{
    let mut low = low_behind(blocked.slots(), &competitors[..from]);
    for i in from..competitors.len() {
        let seat = competitors[i];
        let place = place_anew(grid, blocked, low, seat, from < i);
        if place == seat.place() {
            return;
        }
        competitors[i] = Seat::new(*seat.comp(), place);
        low = low_after(blocked.slots(), place);
    }
}

/// Moves the competitors from number `from` on to their places behind the earlier ones, up to the first whose place
/// stays. Those behind the first have asked for their slots already.
///
/// The first `count` of these seats are those of the competitors, in their order. The others stay.
pub fn walk_on(
    grid: &SharedGrid,
    blocked: &Blocked,
    seats: &mut Vec<Seat>,
    count: usize,
    from: usize,
)
    requires within { from ≤ count }
    requires count { count ≤ vec_len seats.old }
    requires follow { FollowFirst (slots grid.now) blocked.now.counts
        (drop from (take count seats.old.items)) }
    ensures front { take count seats.new.items ≡ followed (slots grid.now) blocked.now.counts
        (take from (take count seats.old.items))
        (comps_in (drop from (take count seats.old.items))) }
    ensures rest { drop count seats.new.items ≡ drop count seats.old.items }
    ensures len { vec_len seats.new ≡ vec_len seats.old }
{
    let (competitors, _others) = seats.as_mut_slice().split_at_mut(count);
    walk_from(grid, blocked, competitors, from);
}

/// As `walk_all`, where all of these are competitors.
fn walk_each(grid: &SharedGrid, blocked: &Blocked, competitors: &mut [Seat])
    ensures { competitors.new ≡ walked (slots grid.now) blocked.now.counts 0
        (comps_in competitors.old) }
{
    let mut low = 0;
    for i in 0..competitors.len() {
        let comp = *competitors[i].comp();
        let place = place_low(grid, blocked, low, comp.eto);
        competitors[i] = Seat::new(comp, place);
        low = low_after(blocked.slots(), place);
    }
}

/// Moves each competitor to its place, the first clear slot from the one that it asks for and behind the place of the one
/// before it, wherever it was.
///
/// The first `count` of these seats are those of the competitors, in their order. The others stay.
pub fn walk_all(grid: &SharedGrid, blocked: &Blocked, seats: &mut Vec<Seat>, count: usize)
    requires { count ≤ vec_len seats.old }
    ensures front { take count seats.new.items ≡
        walked (slots grid.now) blocked.now.counts 0 (comps_in (take count seats.old.items)) }
    ensures rest { drop count seats.new.items ≡ drop count seats.old.items }
    ensures len { vec_len seats.new ≡ vec_len seats.old }
{
    let (competitors, _others) = seats.as_mut_slice().split_at_mut(count);
    walk_each(grid, blocked, competitors);
}

/// Whether the place is a slot below `k`.
fn is_below(k: usize, place: Place) -> bool
    ensures { result ≡ is_below k place }
{
    match place {
        Place::Slot(j) => j < k,
        Place::Over => false,
    }
}

/// How many of these competitors, along which places rise, have places below slot `k`.
pub fn count_below(competitors: &[Seat], k: usize) -> usize
    requires { PlacesRise competitors.now }
    ensures value { result ≡ count_below competitors.now k }
    ensures within { result ≤ length competitors.now }
{
    competitors.partition_point(|seat| is_below(k, seat.place()))
}

/// The calculated time over of a flight with this estimated time over at a place, in seconds as every moment: the begin of the
/// slot, or its own time where that is later; over, the end of the profile.
pub fn cto_at(grid: &SharedGrid, eto: Moment, place: Place) -> Moment
    requires { IsWithin (length (slots grid.now)) place }
    ensures { result ≡ cto (slots grid.now) (end_of grid.now) eto place }
{
    let grid = grid.get();
    let (_start, end) = grid.profile().span();
    match place {
        Place::Slot(k) => eto.max(end.min(grid.begin(k))),
        Place::Over => end,
    }
}

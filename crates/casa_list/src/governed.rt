//! The flights that a regulation governs, as a list keeps them.

ghost use Rattle.std.specs.Prelude.{◌≡◌, ◌∷◌, ◌++◌, ◌+◌, ◌<◌, ◌≤◌, [], Some, IfOk, OnOk, drop, length, map, not, set, take, unwrap_or};
ghost use Rattle.std.specs.List.{All, filter_map, insert, position, remove, slice_get};
ghost use Rattle.std.specs.Option.{option_map_or};
ghost use Rattle.std.specs.List.Sorted.{IsSortedBy};
ghost use Rattle.casa_grid.specs.Slots.{slots};
ghost use Rattle.casa_flight.specs.declared.comp.Assigned.{Assigned};
ghost use Rattle.casa_flight.specs.declared.row.Stance.{Stance};
ghost use Rattle.casa_filing.specs.Text.{Text};
ghost use Rattle.casa_flight.specs.Good.{AreInOrder};
ghost use Rattle.casa_flight.specs.Listing.{sorted_by, is_before, insert_sorted, competitor};
ghost use Rattle.casa_slots.specs.declared.standing.Standing.{Standing};
ghost use Rattle.casa_list.specs.Governing.{pre_in};
ghost use Rattle.casa_slots.specs.Seat.{HoldsTime, issued_in};
ghost use Rattle.casa_list.specs.Standings.{is_flight_before, issued_flight, index_in};
ghost use Rattle.casa_slots.specs.Blocked.{lowered};
ghost use Rattle.casa_slots.specs.Walk.{place_low, low_behind, walked, followed, comps_in, count_below, FollowFirst, PlacesRise, FollowFrom, walked_from_slot};

use crate::build::{competitors_of, issued_of};
use crate::order::index_of;
use crate::stances::Stances;
use crate::standing::Entry;
use casa_flight::Comp;
use casa_grid::Place;
use casa_slots::{
    Blocked, Seat, SharedGrid, Standing, copied, count_below, place_behind, place_once_moved,
    walk_all, walk_on,
};
use casa_time::Moment;
use std::alloc::{AllocError, Global};
use std::marker::Model;

/// The competitors and the issued flights of a list, in one row: the competitors first, in their order, and behind them
/// the issued flights in theirs. So a competitor that is issued moves within the row and takes no memory.
///
/// Contracts see the competitors in their places, the issued flights as they stand, and for how many of both there is
/// room.
#[derive(Drop)]
pub struct Governed {
    seats: Vec<Seat>,
    competitors: usize,
}

impl Model for Governed {
    ghost use Rattle.std.specs.Prelude.{vec_capacity};
    ghost use Rattle.casa_list.specs.Governing.{Governing, AreGoverning, governing};

    ghost Value = { Governing };

    ghost view = { λ g. governing g.competitors g.seats.items (vec_capacity g.seats) };

    ghost invariant = { λ g. AreGoverning g.competitors g.seats.items };
}

impl Governed {
    /// The governed ones among these flights, the competitors with no places yet. `AllocError` where there is no memory
    /// for them.
    pub fn of(alloc: Global, flights: &Stances) -> Result<Governed, AllocError>
        ensures competitors { IfOk result (λ governed. comps_in governed.competitors ≡
            sorted_by is_before (filter_map
            (λ (e : Text × Stance). competitor e.0 e.1) flights.now)) }
        ensures issued { IfOk result (λ governed. governed.issued ≡ sorted_by is_flight_before
            (filter_map (λ (e : Text × Stance). issued_flight e.0 e.1) flights.now)) }
        ensures ordered { AreInOrder flights.now }
    {
        let mut seats = competitors_of(alloc, flights)?;
        let competitors = seats.len();
        let issued = issued_of(alloc, flights)?;
        seats.extend_from_slice(&issued)?;
        Ok(Governed { seats, competitors })
    }

    /// How many flights there are.
    pub fn len(&self) -> usize
        ensures number { result ≡ length self.now.competitors + length self.now.issued }
        ensures few { result < usize.MAX }
    {
        self.seats.len()
    }

    /// The competitors, in their order.
    pub fn competitors(&self) -> &[Seat]
        ensures { result.now ≡ self.now.competitors }
    {
        &self.seats[..self.competitors]
    }

    /// The seats of the issued flights, in their order.
    pub fn issued(&self) -> &[Seat]
        ensures flights { map issued_in result.now ≡ self.now.issued }
        ensures times { All HoldsTime result.now }
    {
        &self.seats[self.competitors..]
    }

    /// Flight number `n` as it stands; `None` from the number of flights on.
    pub fn nth(&self, n: usize) -> Option<Entry>
        ensures { result ≡ slice_get (map pre_in self.now.competitors ++ self.now.issued) n }
    {
        if n < self.competitors {
            let seat = self.competitors()[n];
            return Some((*seat.comp(), Standing::Pre(seat.place())));
        }
        let issued = self.issued();
        let at = n - self.competitors;
        if at < issued.len() {
            let seat = issued[at];
            return Some((*seat.comp(), Standing::Issued(seat.cto())));
        }
        None
    }

    /// Makes room for one flight more. `AllocError` where there is no memory for it.
    pub fn reserve(&mut self) -> Result<(), AllocError>
        ensures competitors { self.new.competitors ≡ self.old.competitors }
        ensures issued { self.new.issued ≡ self.old.issued }
        ensures room { OnOk result (length self.new.competitors + length self.new.issued <
            self.new.room) }
    {
        self.seats.reserve(1)?;
        Ok(())
    }

    /// Puts a competitor in its place at number `at` among the others; nobody moves.
    fn insert(&mut self, at: usize, seat: Seat)
        requires within { at ≤ length self.old.competitors }
        requires room { length self.old.competitors + length self.old.issued < self.old.room }
        ensures competitors { self.new.competitors ≡ insert self.old.competitors at seat }
        ensures issued { self.new.issued ≡ self.old.issued }
    {
        self.seats.insert(at, seat).unwrap();
        self.competitors += 1;
    }

    /// Takes the competitor at number `at` out, which it gives; nobody moves.
    fn remove(&mut self, at: usize) -> Seat
        requires { at < length self.old.competitors }
        ensures seat { slice_get self.old.competitors at ≡ Some result }
        ensures competitors { self.new.competitors ≡ remove self.old.competitors at }
        ensures issued { self.new.issued ≡ self.old.issued }
        ensures room { length self.new.competitors + length self.new.issued < self.new.room }
    {
        let seat = self.seats.remove(at);
        self.competitors -= 1;
        seat
    }

    /// Moves the competitors from number `from` on to their places behind the earlier ones, up to the first whose place
    /// stays. Those behind the first have asked for their slots already.
    fn walk_on(&mut self, grid: &SharedGrid, blocked: &Blocked, from: usize)
        requires within { from ≤ length self.old.competitors }
        requires follow { FollowFirst (slots grid.now) blocked.now.counts
            (drop from self.old.competitors) }
        ensures competitors { self.new.competitors ≡ followed (slots grid.now) blocked.now.counts
            (take from self.old.competitors) (comps_in (drop from self.old.competitors)) }
        ensures issued { self.new.issued ≡ self.old.issued }
    {
        walk_on(grid, blocked, &mut self.seats, self.competitors, from);
    }

    /// Moves each competitor to its place.
    pub fn walk_all(&mut self, grid: &SharedGrid, blocked: &Blocked)
        ensures competitors { self.new.competitors
            ≡ walked (slots grid.now) blocked.now.counts 0 (comps_in self.old.competitors) }
        ensures issued { self.new.issued ≡ self.old.issued }
    {
        walk_all(grid, blocked, &mut self.seats, self.competitors);
    }

    /// Moves the competitors to their places after the number of issued flights in this slot changed: only those
    /// with places from it on can move.
    pub fn walk_from_slot(&mut self, grid: &SharedGrid, blocked: &Blocked, slot: Option<usize>)
        requires rise { PlacesRise self.old.competitors }
        requires follow { FollowFrom (slots grid.now) blocked.now.counts self.old.competitors slot }
        ensures competitors { self.new.competitors
            ≡ walked_from_slot (slots grid.now) blocked.now.counts self.old.competitors slot }
        ensures issued { self.new.issued ≡ self.old.issued }
    {
        if let Some(k) = slot {
            let from = count_below(self.competitors(), k);
            self.walk_on(grid, blocked, from);
        }
    }

    /// From which competitor on places can change once the number of issued flights in this slot does.
    pub fn first_from_slot(&self, slot: Option<usize>) -> usize
        requires { PlacesRise self.now.competitors }
        ensures value { result ≡ option_map_or (count_below self.now.competitors) slot
            (length self.now.competitors) }
        ensures within { result ≤ length self.now.competitors }
    {
        match slot {
            Some(k) => count_below(self.competitors(), k),
            None => self.competitors,
        }
    }

    /// The place that a flight would have among the competitors, once a flight has left this slot, if it had one, and those
    /// from number `behind` on have moved up behind those before number `out`; at most one stood between.
    pub fn place_once_moved(
        &self,
        grid: &SharedGrid,
        blocked: &Blocked,
        left: Option<usize>,
        out: usize,
        behind: usize,
        comp: &Comp,
    ) -> Place
        requires out { (out ≤ behind) × (behind ≤ out + 1) }
        requires within { behind ≤ length self.now.competitors }
        requires sorted { IsSortedBy (λ (a b : Assigned). is_before a.comp b.comp)
            self.now.competitors }
        requires follow { FollowFirst (slots grid.now) (lowered blocked.now.counts left)
            (drop behind self.now.competitors) }
        ensures { let counts = lowered blocked.now.counts left in
            let moved = followed (slots grid.now) counts (take out self.now.competitors)
            (comps_in (drop behind self.now.competitors)) in
            result ≡ place_low (slots grid.now) counts (low_behind (length counts) 0
            (take (unwrap_or (position (λ (a : Assigned). not (is_before a.comp comp.now)) moved)
            (length moved)) moved)) comp.now.eto }
    {
        let competitors = self.competitors();
        let at = index_of(competitors, comp);
        if at <= out {
            return place_once_moved(grid, blocked, left, &competitors[..at], &[], comp.eto);
        }
        let others = &competitors[behind..at];
        place_once_moved(grid, blocked, left, &competitors[..out], others, comp.eto)
    }

    /// Puts a competitor at number `at` among the others, which it may displace, and gives its place.
    pub fn put(&mut self, grid: &SharedGrid, blocked: &Blocked, at: usize, comp: Comp) -> Place
        requires within { at ≤ length self.old.competitors }
        requires room { length self.old.competitors + length self.old.issued < self.old.room }
        requires follow { FollowFirst (slots grid.now) blocked.now.counts
            (drop at self.old.competitors) }
        ensures place { result ≡ place_low (slots grid.now) blocked.now.counts
            (low_behind (length blocked.now.counts) 0 (take at self.old.competitors)) comp.eto }
        ensures competitors { self.new.competitors ≡ followed (slots grid.now) blocked.now.counts
            (take at self.old.competitors) (comp ∷ comps_in (drop at self.old.competitors)) }
        ensures issued { self.new.issued ≡ self.old.issued }
    {
        let place = place_behind(grid, blocked, &self.competitors()[..at], comp.eto);
        self.insert(at, Seat::new(comp, place));
        self.walk_on(grid, blocked, at + 1);
        place
    }

    /// Takes the competitor at number `at` out, and those behind it move up; gives the place that it had.
    pub fn take(&mut self, grid: &SharedGrid, blocked: &Blocked, at: usize) -> Place
        requires within { at < length self.old.competitors }
        requires follow { FollowFirst (slots grid.now) blocked.now.counts
            (drop (at + 1) self.old.competitors) }
        ensures place { (a : Assigned) → slice_get self.old.competitors at ≡ Some a
            → result ≡ a.place }
        ensures competitors { self.new.competitors ≡ followed (slots grid.now) blocked.now.counts
            (take at self.old.competitors) (comps_in (drop (at + 1) self.old.competitors)) }
        ensures issued { self.new.issued ≡ self.old.issued }
    {
        let seat = self.remove(at);
        self.walk_on(grid, blocked, at);
        seat.place()
    }

    /// Puts an issued flight among the others, which are in their order, with this calculated time over.
    pub fn put_issued(&mut self, comp: Comp, cto: Moment)
        requires room { length self.old.competitors + length self.old.issued < self.old.room }
        requires sorted { IsSortedBy is_flight_before self.old.issued }
        ensures competitors { self.new.competitors ≡ self.old.competitors }
        ensures issued { self.new.issued ≡ insert_sorted is_flight_before
            (comp, Standing.Issued cto) self.old.issued }
    {
        let at = index_of(self.issued(), &comp);
        self.seats
            .insert(self.competitors + at, Seat::held(comp, cto))
            .unwrap();
    }

    /// Takes the issued flight out that stands where this one would go among them; they are in their order.
    pub fn take_issued(&mut self, comp: &Comp)
        requires within { index_in self.old.issued comp.now < length self.old.issued }
        requires sorted { IsSortedBy is_flight_before self.old.issued }
        ensures competitors { self.new.competitors ≡ self.old.competitors }
        ensures issued { self.new.issued ≡ remove self.old.issued
            (index_in self.old.issued comp.now) }
    {
        let at = index_of(self.issued(), comp);
        self.seats.remove(self.competitors + at);
    }

    /// Writes this flight, with this calculated time over, in place of the issued one that stands where it would go among
    /// them; they are in their order.
    pub fn reissue(&mut self, comp: &Comp, cto: Moment)
        requires within { index_in self.old.issued comp.now < length self.old.issued }
        requires sorted { IsSortedBy is_flight_before self.old.issued }
        ensures competitors { self.new.competitors ≡ self.old.competitors }
        ensures issued { self.new.issued ≡
            set self.old.issued (index_in self.old.issued comp.now)
            (comp.now, Standing.Issued cto) }
    {
        let at = index_of(self.issued(), comp);
        self.seats[self.competitors + at] = Seat::held(*comp, cto);
    }

    /// Takes the competitor at number `at` out and puts this flight among the issued ones, which are in their order, with
    /// this calculated time over; nobody moves.
    pub fn issue(&mut self, at: usize, comp: Comp, cto: Moment)
        requires within { at < length self.old.competitors }
        requires sorted { IsSortedBy is_flight_before self.old.issued }
        ensures competitors { self.new.competitors ≡ remove self.old.competitors at }
        ensures issued { self.new.issued ≡ insert_sorted is_flight_before
            (comp, Standing.Issued cto) self.old.issued }
    {
        self.remove(at);
        self.put_issued(comp, cto);
    }

    /// The same flights, with room for one more. `AllocError` where there is no memory for them.
    pub fn try_clone(&self) -> Result<Governed, AllocError>
        ensures competitors { IfOk result (λ copy. copy.competitors ≡ self.now.competitors) }
        ensures issued { IfOk result (λ copy. copy.issued ≡ self.now.issued) }
    {
        let alloc = *self.seats.allocator();
        let room = self.seats.len() + 1;
        Ok(Governed {
            seats: copied(alloc, &self.seats, room)?,
            competitors: self.competitors,
        })
    }
}

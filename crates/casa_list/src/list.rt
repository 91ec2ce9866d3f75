//! The list.

ghost use Rattle.std.specs.Prelude.{◌≡◌, ℕ, [], Option, Some, None, IfOk, OnOk, OnErr, IfSome, is_some, true, false, length, if◌then◌else◌};
ghost use Rattle.std.specs.List.{slice_get};
ghost use Rattle.casa_grid.specs.Slots.{slots, window_of};
ghost use Rattle.casa_flight.specs.declared.row.Stance.{Stance};
ghost use Rattle.casa_filing.specs.Text.{Text, at_name, put, without, same_text};
ghost use Rattle.casa_flight.specs.Assignment.{place_from};
ghost use Rattle.casa_flight.specs.Listing.{places, place_of, cto_of, cto_as, stance_of};
ghost use Rattle.casa_flight.specs.Entry.{with_competitor};
ghost use Rattle.casa_flight.specs.Good.{AreInOrder};
ghost use Rattle.casa_slots.specs.Walk.{IsWithin};
ghost use Rattle.casa_flight.specs.IssuedTimes.{with_issued};
ghost use Rattle.casa_list.specs.ByKey.{by_key};
ghost use Rattle.casa_list.specs.Standings.{standings, count_governed, governed_place, governed_cto, issue_cto, is_forced, competing_eto, issued_times, can_exchange, with_exchange};

use crate::governed::Governed;
use crate::member::Member;
use crate::order::{index_of, nth_forced};
use crate::stances::Stances;
use crate::standing::Times;
use casa_flight::{Assigned, Comp, Key, Stance};
use casa_grid::{Grid, Place};
use casa_slots::{
    Blocked, SharedGrid, Standing, block, counted, cto_at, place_behind, place_from, slot_of,
    unblock,
};
use casa_time::Moment;
use std::alloc::{AllocError, Global};
use std::collections::BTreeMap;
use std::fmt;
use std::marker::Model;

/// The slot allocation list of one regulation: its grid, and how each flight that is subject to the regulation
/// stands there.
///
/// Two flights want the first slot, and the one that is planned earlier has it. `rt` is the runtime and `alloc` its
/// allocator; `grid` has ten slots two minutes apart, from 36000 on:
///
/// ```rust
/// let mut list = SlotList::new(alloc, grid).expect(&rt, "memory");
/// let (a, b) = (Key::new(b"A").expect(&rt, "a key"), Key::new(b"B").expect(&rt, "a key"));
/// for (key, eto) in [(a, 36_010), (b, 36_005)] {
///     let eto = Moment::new(eto).expect(&rt, "a moment");
///     if list.place_of(&key).is_none() {
///         list.enter(Comp { eto, key }).expect(&rt, "memory");
///     }
/// }
/// assert!(&rt; list.place_of(&b) == Some(Place::Slot(0)));
/// assert!(&rt; list.place_of(&a) == Some(Place::Slot(1)));
/// assert!(&rt; list.issue(&a) == Moment::new(36_120).ok());
/// ```
///
/// Contracts see it as a regulation's profile and the stance of each flight, by keys; places follow from that.
/// It keeps the competitors in their order with their places and the issued flights in theirs, in one row, and which slots
/// issued flights block; the forced flights are among its flights alone, so that one comes and goes at the cost of that.
/// Its flights are in the order of their keys: `grid`, `stance_of`, `governed` and `nth` say so, since the law
/// `standings_name_each_flight_once` asks for it.
pub struct SlotList {
    grid: SharedGrid,
    flights: Stances,
    governed: Governed,
    blocked: Blocked,
}

impl Model for SlotList {
    ghost use Rattle.casa_flight.specs.Listing.{Listing};

    ghost Value = { Listing };

    ghost use Rattle.casa_list.specs.Kept.{IsKept};

    ghost view = { λ l. record { profile = l.grid; flights = l.flights } };

    ghost invariant = { λ l. IsKept (record { profile = l.grid; flights = l.flights })
        (record {
          competitors = l.governed.competitors;
          issued = l.governed.issued;
          blocked = l.blocked.counts;
          room = l.blocked.room;
        }) };
}

impl Drop for SlotList {
    fn drop(self) {
        let SlotList {
            grid: _,
            flights: _,
            governed: _,
            blocked: _,
        } = self;
    }
}

impl PartialEq for SlotList {
    ghost use Rattle.std.specs.Cmp.{partial_equiv_from_equiv};
    ghost use Rattle.casa_list.specs.Equality.{list_eq, list_eq_laws};

    ghost eq = { list_eq };

    ghost laws = { partial_equiv_from_equiv list_eq_laws };

    fn eq(&self, other: &SlotList) -> bool {
        self.grid.get().profile() == other.grid.get().profile()
            && self.flights.as_slice() == other.flights.as_slice()
    }
}

impl Eq for SlotList {
    ghost use Rattle.casa_list.specs.Equality.{list_eq_laws};

    ghost laws = { list_eq_laws };
}

impl fmt::Debug for SlotList {
    /// Shows what contracts see.
    fn fmt<W: fmt::Write>(&self, f: &mut fmt::Formatter<W>) -> fmt::Result {
        f.debug_struct("SlotList")
            .field("profile", self.grid.get().profile())
            .field("flights", &self.flights())
            .finish_non_exhaustive()
    }
}

impl SlotList {
    /// A list with no flights, or `AllocError` where there is no memory for it.
    pub fn new(alloc: Global, grid: Grid) -> Result<SlotList, AllocError>
        ensures { IfOk result (λ list. list ≡ record { profile = grid; flights = [] }) }
    {
        SlotList::of(alloc, grid, BTreeMap::new(alloc))
    }

    /// A list with these flights, or `AllocError` where there is no memory for it.
    ///
    /// It sorts them once and places them in one walk.
    pub fn of(
        alloc: Global,
        grid: Grid,
        flights: BTreeMap<Key, Stance>,
    ) -> Result<SlotList, AllocError>
        ensures { IfOk result (λ list. list
            ≡ record { profile = grid; flights = flights.entries }) }
    {
        SlotList::placed(alloc, grid, Stances::of(alloc, &flights)?)
    }

    /// A list with these flights, in whatever order they come: of several with one key, the last. `AllocError` where there
    /// is no memory for it.
    ///
    /// It sorts them where they lie, keeps them in that memory, and places them in one walk.
    pub fn of_members(
        alloc: Global,
        grid: Grid,
        members: Vec<Member>,
    ) -> Result<SlotList, AllocError>
        ensures { IfOk result (λ list. list
            ≡ record { profile = grid; flights = by_key members.items }) }
    {
        SlotList::placed(alloc, grid, Stances::of_members(members)?)
    }

    /// A list with these flights, all placed in one walk.
    fn placed(alloc: Global, grid: Grid, flights: Stances) -> Result<SlotList, AllocError>
        ensures { IfOk result (λ list. list ≡ record { profile = grid; flights = flights }) }
    {
        let grid = SharedGrid::new(alloc, grid)?;
        let mut governed = Governed::of(alloc, &flights)?;
        let blocked = counted(alloc, &grid, governed.issued(), governed.len())?;
        governed.walk_all(&grid, &blocked);
        Ok(SlotList {
            grid,
            flights,
            governed,
            blocked,
        })
    }

    /// The slots of the list.
    pub fn grid(&self) -> &Grid
        ensures profile { result.now ≡ self.now.profile }
        ensures keys { AreInOrder self.now.flights }
    {
        self.grid.get()
    }

    /// How the flight with this key stands; `None` where it is not in the list.
    pub fn stance_of(&self, key: &Key) -> Option<Stance>
        ensures stance { result ≡ stance_of self.now key.now }
        ensures keys { AreInOrder self.now.flights }
    {
        self.flights.get(key)
    }

    /// The estimated time over of a competitor.
    fn competing_at(&self, key: &Key) -> Option<Moment>
        ensures value { result ≡ competing_eto self.now key.now }
        ensures found { IfSome result (λ eto. stance_of self.now key.now
            ≡ Some (Stance.Competing eto)) }
    {
        match self.stance_of(key)? {
            Stance::Competing { eto } => Some(eto),
            _ => None,
        }
    }

    /// The estimated and the calculated time over of an issued flight.
    fn issued_at(&self, key: &Key) -> Option<Times>
        ensures value { result ≡ issued_times self.now key.now }
        ensures found { IfSome result (λ times. stance_of self.now key.now
            ≡ Some (Stance.Issued times.eto times.cto)) }
    {
        match self.stance_of(key)? {
            Stance::Issued { eto, cto } => Some(Times { eto, cto }),
            _ => None,
        }
    }

    /// Puts a competitor in and gives its place: the slot that it asks for or the first later one that is free
    /// or pre-allocated to a competitor behind it, which then looks on from there.
    ///
    /// Competitors are ordered by estimated time over and, among equal times, by key. The regulation must not govern
    /// the flight; where it is forced, it is so no more. `AllocError` where there is no memory for the flight; the list
    /// is then as it was.
    pub fn enter(&mut self, comp: Comp) -> Result<Place, AllocError>
        requires { governed_place self.old comp.key ≡ None }
        ensures entered { OnOk result (self.new ≡ with_competitor self.old comp.key comp.eto) }
        ensures place { IfOk result (λ place. place ≡ place_of self.new comp.key) }
        ensures unchanged { OnErr result (self.new ≡ self.old) }
    {
        self.governed.reserve()?;
        self.blocked.reserve(self.governed.len() + 1)?;
        self.flights
            .put(comp.key, Stance::Competing { eto: comp.eto })?;
        let at = index_of(self.governed.competitors(), &comp);
        Ok(self.governed.put(&self.grid, &self.blocked, at, comp))
    }

    /// The place that `enter` would give. The regulation must not govern the flight, which may be forced.
    pub fn would_get(&self, comp: &Comp) -> Place
        requires { governed_place self.now comp.now.key ≡ None }
        ensures place { result ≡ place_of (with_competitor self.now comp.now.key comp.now.eto)
            comp.now.key }
        ensures within { IsWithin (length (slots self.now.profile)) result }
    {
        let competitors = self.governed.competitors();
        let at = index_of(competitors, comp);
        place_behind(&self.grid, &self.blocked, &competitors[..at], comp.eto)
    }

    /// The calculated time over of the place that `enter` would give. The regulation must not govern the flight, which
    /// may be forced.
    pub fn would_pass(&self, comp: &Comp) -> Moment
        requires { governed_place self.now comp.now.key ≡ None }
        ensures { result ≡
            cto_as (with_competitor self.now comp.now.key comp.now.eto) comp.now.key
            (Stance.Competing comp.now.eto) }
    {
        cto_at(&self.grid, comp.eto, self.would_get(comp))
    }

    /// The place that a competitor, which competes there with the time over `was`, would have with the time over that it has
    /// here.
    fn place_replanned(&self, comp: &Comp, was: Moment) -> Place
        requires { stance_of self.now comp.now.key ≡ Some (Stance.Competing was) }
        ensures place { result ≡ place_of (with_competitor self.now comp.now.key comp.now.eto)
            comp.now.key }
        ensures within { IsWithin (length (slots self.now.profile)) result }
    {
        let key = comp.key;
        let out = index_of(self.governed.competitors(), &Comp { eto: was, key });
        self.governed
            .place_once_moved(&self.grid, &self.blocked, None, out, out + 1, comp)
    }

    /// The place that a flight, which is issued there at this time, would have as a competitor.
    fn place_withdrawn(&self, comp: &Comp, cto: Moment) -> Place
        requires { (was : ℕ) × (stance_of self.now comp.now.key ≡ Some (Stance.Issued was cto)) }
        ensures place { result ≡ place_of (with_competitor self.now comp.now.key comp.now.eto)
            comp.now.key }
        ensures within { IsWithin (length (slots self.now.profile)) result }
    {
        let slot = slot_of(&self.grid, cto);
        let from = self.governed.first_from_slot(slot);
        self.governed
            .place_once_moved(&self.grid, &self.blocked, slot, from, from, comp)
    }

    /// The place that a flight would have as a competitor, in place of how it stands.
    fn would_get_anew(&self, comp: &Comp) -> Place
        ensures place { result ≡ place_of (with_competitor self.now comp.now.key comp.now.eto)
            comp.now.key }
        ensures within { IsWithin (length (slots self.now.profile)) result }
    {
        let Some(stance) = self.stance_of(&comp.key) else {
            return self.would_get(comp);
        };
        match stance {
            Stance::Competing { eto } => self.place_replanned(comp, eto),
            Stance::Issued { cto, .. } => self.place_withdrawn(comp, cto),
            Stance::Forced { .. } => self.would_get(comp),
        }
    }

    /// The calculated time over that a flight would have as a competitor, in place of how it stands: that of the place that
    /// `enter` would give once it had left. It takes no memory.
    pub fn would_pass_anew(&self, comp: &Comp) -> Moment
        ensures { result ≡
            cto_as (with_competitor self.now comp.now.key comp.now.eto) comp.now.key
            (Stance.Competing comp.now.eto) }
    {
        cto_at(&self.grid, comp.eto, self.would_get_anew(comp))
    }

    /// Puts an issued flight in, with this calculated time over. The competitor that has its slot looks on from
    /// there. The regulation must not govern the flight yet; where it is forced, it is so no more.
    ///
    /// `AllocError` where there is no memory for the flight; the list is then as it was.
    pub fn hold(&mut self, comp: Comp, cto: Moment) -> Result<(), AllocError>
        requires { governed_place self.old comp.key ≡ None }
        ensures held { OnOk result (self.new ≡ record self.old {
          flights = put self.old.flights comp.key (Stance.Issued comp.eto cto);
        }) }
        ensures unchanged { OnErr result (self.new ≡ self.old) }
    {
        self.governed.reserve()?;
        self.blocked.reserve(self.governed.len() + 1)?;
        let stance = Stance::Issued { eto: comp.eto, cto };
        self.flights.put(comp.key, stance)?;
        self.governed.put_issued(comp, cto);
        let slot = block(&self.grid, &mut self.blocked, cto);
        self.governed
            .walk_from_slot(&self.grid, &self.blocked, slot);
        Ok(())
    }

    /// Puts a flight in that takes no slot. The key must not be in the list.
    ///
    /// `AllocError` where there is no memory for the flight; the list is then as it was.
    pub fn force(&mut self, comp: Comp) -> Result<(), AllocError>
        requires { stance_of self.old comp.key ≡ None }
        ensures forced { OnOk result (self.new ≡ record self.old {
          flights = put self.old.flights comp.key (Stance.Forced comp.eto);
        }) }
        ensures unchanged { OnErr result (self.new ≡ self.old) }
    {
        self.flights
            .put(comp.key, Stance::Forced { eto: comp.eto })?;
        Ok(())
    }

    /// Takes a forced flight out, and says whether there was one with this key.
    pub fn unforce(&mut self, key: &Key) -> bool
        ensures answer { result ≡ is_forced self.old key.now }
        ensures left { self.new ≡ (if result then record self.old {
          flights = without
              self.old.flights key.now;
        } else self.old) }
    {
        let Some(Stance::Forced { .. }) = self.stance_of(key) else {
            return false;
        };
        self.flights.remove(key);
        true
    }

    /// Gives a forced flight another estimated time over, and says whether there was a forced one with this key. It takes no
    /// memory.
    pub fn reforce(&mut self, comp: Comp) -> bool
        ensures answer { result ≡ is_forced self.old comp.key }
        ensures forced { self.new ≡ (if result then record self.old {
          flights = put
              self.old.flights comp.key (Stance.Forced comp.eto);
        } else self.old) }
    {
        let Some(Stance::Forced { .. }) = self.stance_of(&comp.key) else {
            return false;
        };
        let stance = Stance::Forced { eto: comp.eto };
        self.flights.put(comp.key, stance).unwrap();
        true
    }

    /// Takes a governed flight out and gives the place that it had: of a competitor its own, of an issued
    /// flight the slot whose window holds its calculated time over, `Over` without one. `None` where the
    /// regulation governs no flight with this key.
    ///
    /// The slot goes to the first competitor behind that may have it, whose slot goes on likewise.
    pub fn leave(&mut self, key: &Key) -> Option<Place>
        ensures answer { result ≡ governed_place self.old key.now }
        ensures left { self.new ≡
            (if is_some result then record self.old { flights = without self.old.flights key.now }
            else self.old) }
    {
        match self.stance_of(key)? {
            Stance::Competing { eto } => Some(self.leave_competitor(Comp { eto, key: *key })),
            Stance::Issued { eto, cto } => Some(self.leave_issued(Comp { eto, key: *key }, cto)),
            Stance::Forced { .. } => None,
        }
    }

    /// Takes a competitor out and gives the place that it had.
    fn leave_competitor(&mut self, comp: Comp) -> Place
        requires { stance_of self.old comp.key ≡ Some (Stance.Competing comp.eto) }
        ensures place { result ≡ place_of self.old comp.key }
        ensures left { self.new ≡ record self.old { flights = without self.old.flights comp.key } }
    {
        self.flights.remove(&comp.key);
        let at = index_of(self.governed.competitors(), &comp);
        self.governed.take(&self.grid, &self.blocked, at)
    }

    /// Takes an issued flight out and gives the place of its calculated time over.
    fn leave_issued(&mut self, comp: Comp, cto: Moment) -> Place
        requires { stance_of self.old comp.key ≡ Some (Stance.Issued comp.eto cto) }
        ensures place { result ≡ place_from (window_of (slots self.old.profile) cto) }
        ensures left { self.new ≡ record self.old { flights = without self.old.flights comp.key } }
    {
        self.flights.remove(&comp.key);
        self.governed.take_issued(&comp);
        let slot = unblock(&self.grid, &mut self.blocked, cto);
        self.governed
            .walk_from_slot(&self.grid, &self.blocked, slot);
        place_from(slot)
    }

    /// Issues a competitor at the calculated time over of its place, which it gives; nobody moves. `None` where
    /// the key is none of a competitor.
    pub fn issue(&mut self, key: &Key) -> Option<Moment>
        ensures answer { result ≡ issue_cto self.old key.now }
        ensures issued { self.new ≡ with_issued self.old key.now }
        ensures others { (other : Text) → same_text other key.now ≡ false →
            place_of self.new other ≡ place_of self.old other }
    {
        let eto = self.competing_at(key)?;
        let comp = Comp { eto, key: *key };
        let cto = self.competitor_cto(&comp);
        let at = index_of(self.governed.competitors(), &comp);
        let _many = self.governed.len();
        write_issued(&mut self.flights, &comp, cto);
        self.governed.issue(at, comp, cto);
        block(&self.grid, &mut self.blocked, cto);
        Some(cto)
    }

    /// Has two issued flights exchange their slots: each gets exactly the other's calculated time over. True where both are
    /// issued in this list and neither new time is before the flight's own estimated time over (profile); else false, and
    /// the list is as it was.
    ///
    /// Nobody else moves, and no memory is taken. A flight and itself exchange nothing, under the same conditions.
    pub fn swap(&mut self, key: &Key, other: &Key) -> bool
        ensures answer { result ≡ can_exchange self.old key.now other.now }
        ensures exchanged { self.new ≡ (if result then with_exchange self.old key.now other.now else
            self.old) }
        ensures nobody_moves { places self.new ≡ places self.old }
    {
        let Some(one) = self.issued_at(key) else {
            return false;
        };
        let Some(two) = self.issued_at(other) else {
            return false;
        };
        if two.cto < one.eto || one.cto < two.eto {
            return false;
        }
        let comp = Comp {
            eto: one.eto,
            key: *key,
        };
        let mate = Comp {
            eto: two.eto,
            key: *other,
        };
        write_issued(&mut self.flights, &comp, two.cto);
        write_issued(&mut self.flights, &mate, one.cto);
        self.governed.reissue(&comp, two.cto);
        self.governed.reissue(&mate, one.cto);
        true
    }

    /// The place of a governed flight: what `leave` would give.
    pub fn place_of(&self, key: &Key) -> Option<Place>
        ensures { result ≡ governed_place self.now key.now }
    {
        match self.stance_of(key)? {
            Stance::Competing { eto } => Some(self.place_at(&Comp { eto, key: *key })),
            Stance::Issued { cto, .. } => Some(place_from(slot_of(&self.grid, cto))),
            Stance::Forced { .. } => None,
        }
    }

    /// The place of a competitor.
    fn place_at(&self, comp: &Comp) -> Place
        requires { stance_of self.now comp.now.key ≡ Some (Stance.Competing comp.now.eto) }
        ensures place { result ≡ place_of self.now comp.now.key }
        ensures within { IsWithin (length (slots self.now.profile)) result }
    {
        let competitors = self.governed.competitors();
        let at = index_of(competitors, comp);
        competitors[at].place()
    }

    /// The calculated time over of a governed flight; `None` where the regulation governs none with this key.
    pub fn cto_of(&self, key: &Key) -> Option<Moment>
        ensures { result ≡ governed_cto self.now key.now }
    {
        match self.stance_of(key)? {
            Stance::Competing { eto } => Some(self.competitor_cto(&Comp { eto, key: *key })),
            Stance::Issued { cto, .. } => Some(cto),
            Stance::Forced { .. } => None,
        }
    }

    /// The calculated time over of a competitor.
    fn competitor_cto(&self, comp: &Comp) -> Moment
        requires { stance_of self.now comp.now.key ≡ Some (Stance.Competing comp.now.eto) }
        ensures { result ≡ cto_as self.now comp.now.key (Stance.Competing comp.now.eto) }
    {
        cto_at(&self.grid, comp.eto, self.place_at(comp))
    }

    /// How each flight stands, in the order of their keys.
    pub fn flights(&self) -> &[Member]
        ensures flights { result.now ≡ self.now.flights }
        ensures keys { AreInOrder self.now.flights }
    {
        self.flights.as_slice()
    }

    /// How many flights the regulation governs: the competitors and the issued flights.
    pub fn governed(&self) -> usize
        ensures number { result ≡ count_governed self.now }
        ensures keys { AreInOrder self.now.flights }
    {
        self.governed.len()
    }

    /// Flight number `n` as it stands; `None` from the number of flights on.
    ///
    /// The competitors come first, in their order, then the issued and then the forced flights, both ordered
    /// likewise by estimated time over and key. A forced flight is looked for among all flights, in time of the number of
    /// flights times that of forced ones: to read them all, take them from `flights`.
    pub fn nth(&self, n: usize) -> Option<(Comp, Standing)>
        ensures flight { result ≡ slice_get (standings self.now) n }
        ensures keys { AreInOrder self.now.flights }
    {
        let governed = self.governed.len();
        if n < governed {
            return self.governed.nth(n);
        }
        nth_forced(self.flights.as_slice(), n - governed)
    }

    /// Competitor number `n`, in their order, with its place; `None` from the number of competitors on.
    pub fn competitor(&self, n: usize) -> Option<Assigned>
        ensures { result ≡ slice_get (places self.now) n }
    {
        let seat = self.governed.competitors().get(n)?;
        Some(Assigned {
            comp: *seat.comp(),
            place: seat.place(),
        })
    }

    /// Gives the list the slots of this grid. Competitors are placed anew; issued flights keep their times.
    ///
    /// `AllocError` where there is no memory to count them by slots; the list is then as it was.
    pub fn regrid(&mut self, grid: Grid) -> Result<(), AllocError>
        ensures regridded { OnOk result (self.new ≡ record self.old { profile = grid }) }
        ensures unchanged { OnErr result (self.new ≡ self.old) }
    {
        let alloc = self.flights.allocator();
        let grid = SharedGrid::new(alloc, grid)?;
        let room = self.governed.len();
        let blocked = counted(alloc, &grid, self.governed.issued(), room)?;
        self.grid = grid;
        self.blocked = blocked;
        self.governed.walk_all(&self.grid, &self.blocked);
        Ok(())
    }

    /// The same list, or `AllocError` where there is no memory for it.
    ///
    /// The slots are shared. All else is copied as it lies in memory, with room for one flight more.
    pub fn try_clone(&self) -> Result<SlotList, AllocError>
        ensures { IfOk result (λ list. list ≡ self.now) }
    {
        Ok(SlotList {
            grid: self.grid.share()?,
            flights: self.flights.try_clone()?,
            governed: self.governed.try_clone()?,
            blocked: self.blocked.try_clone(self.governed.len() + 1)?,
        })
    }
}

/// Writes a flight that is there as issued, with these times over, which takes no memory.
fn write_issued(flights: &mut Stances, comp: &Comp, cto: Moment)
    requires { is_some (at_name flights.old comp.now.key) ≡ true }
    ensures { flights.new ≡ put flights.old comp.now.key (Stance.Issued comp.now.eto cto) }
{
    let stance = Stance::Issued { eto: comp.eto, cto };
    flights.put(comp.key, stance).unwrap();
}

//! What each regulation costs.

ghost use Rattle.std.specs.Prelude.{◌≡◌, ◌≤◌, ◌<◌, ◌+◌, ◌^◌, [], Some, filter, max, IfNone, IfSome};
ghost use Rattle.std.specs.List.{sum_by};
ghost use Rattle.casa_filing.specs.declared.regulation.Regulation.{Regulation};
ghost use Rattle.casa_flight.specs.declared.state.State.{State};
ghost use Rattle.casa_flight.specs.Listing.{stance_of};
ghost use Rattle.casa_flight.specs.Replies.{list_reply};
ghost use Rattle.casa_inquiry.specs.Summary.{AreAtMost, cost, count, cost_of, cost_of_all, delay, governed_as, governed_delays, governs, greatest, is_forced, is_governed, is_issued, is_over, issues, mean_delay, row_told, total_delay, with_flight};

use casa_flight::{Kind, ListReply, ListRow};
use casa_list::{Member, Place, SlotList};

/// What a regulation costs, or several together: their slots, their flights by how they stand in the lists, and the delays
/// of the flights that are governed, in seconds.
#[derive(Clone, Copy, Debug)]
pub struct Cost {
    /// How many slots the rates give.
    pub slots: u128,
    /// How many flights are governed.
    pub governed: u128,
    /// How many of these are issued.
    pub issued: u128,
    /// How many flights are subject to a regulation that does not govern them.
    pub forced: u128,
    /// For how many of the governed flights no slot is left.
    pub over: u128,
    /// The delays of the governed flights, added up.
    pub delay: u128,
    /// The longest of them; 0 where no flight is governed.
    pub longest: u32,
}

/// A flight that the regulation of a list governs, as it stands there.
#[derive(Clone, Copy)]
struct GovernedFlight {
    issued: bool,
    /// Whether no slot is left for it.
    over: bool,
    /// Its delay, in seconds.
    delay: u32,
}

impl Cost {
    /// What a regulation costs, by its list.
    pub fn of(list: &ListReply) -> Cost
        ensures { result ≡ cost_of list.now }
    {
        let mut cost = Cost::nothing(delay_in(list.rows.as_slice()));
        cost.count(list);
        cost
    }

    /// The same by the list as the allocator keeps it, without the rows of a reply: what `of` gives of the reply to the
    /// question for it, in whichever state.
    pub fn of_list(list: &SlotList) -> Cost
        ensures { (m : State) (r : Regulation) → result ≡ cost_of (list_reply m r list.now) }
    {
        let mut cost = Cost::nothing(0);
        cost.slots = list.grid().len() as u128;
        for member in list.flights() {
            cost.add(governed_in(list, member));
        }
        cost
    }

    /// What several regulations cost together, by their lists. `None` where the delays of all flights that they govern, added
    /// up, do not fit in 128 bits.
    pub fn of_all(lists: &[ListReply]) -> Option<Cost>
        ensures some { IfSome result (λ cost. cost ≡ cost_of_all lists.now) }
        ensures none { IfNone result (2 ^ 128 ≤ total_delay lists.now) }
    {
        let mut cost = Cost::nothing(0);
        for list in lists {
            cost.count(list);
            cost.delay = cost.delay.checked_add(delay_in(list.rows.as_slice()))?;
        }
        Some(cost)
    }

    /// The mean delay of the governed flights, rounded down to whole seconds; `None` where there is no such flight.
    pub fn mean(&self) -> Option<u128>
        ensures { result ≡ mean_delay self.now }
    {
        if self.governed == 0 {
            return None;
        }
        Some(self.delay / self.governed)
    }

    /// Of no regulation, with this sum of delays.
    fn nothing(delay: u128) -> Cost
        ensures { result ≡ record (cost 0 []) { delay = delay } }
    {
        Cost {
            slots: 0,
            governed: 0,
            issued: 0,
            forced: 0,
            over: 0,
            delay,
            longest: 0,
        }
    }

    /// Adds a flight of a list: one that the regulation governs, or a forced one.
    fn add(&mut self, flight: Option<GovernedFlight>)
        requires room { AreAtMost (2 ^ 127) self.old }
        requires delay { self.old.delay ≤ 2 ^ 127 }
        ensures added { self.new ≡ with_flight self.old flight }
        ensures short { self.new.delay ≤ self.old.delay + 2 ^ 32 }
    {
        let Some(flight) = flight else {
            self.forced += 1;
            return;
        };
        self.governed += 1;
        self.issued += flight.issued as u128;
        self.over += flight.over as u128;
        self.delay += flight.delay as u128;
        self.longest = self.longest.max(flight.delay);
    }

    /// Adds a list, but not its delays.
    fn count(&mut self, list: &ListReply)
        requires room { AreAtMost (2 ^ 127) self.old }
        ensures within { AreAtMost (2 ^ 64) (cost_of list.now) }
        ensures slots { self.new.slots ≡ self.old.slots + list.now.slots }
        ensures flights { (self.new.governed ≡ self.old.governed + count is_governed list.now.rows)
            × (self.new.issued ≡ self.old.issued + count is_issued list.now.rows)
            × (self.new.forced ≡ self.old.forced + count is_forced list.now.rows)
            × (self.new.over ≡ self.old.over + count is_over list.now.rows) }
        ensures delay { self.new.delay ≡ self.old.delay }
        ensures longest { self.new.longest ≡ max self.old.longest
            (greatest (governed_delays list.now.rows)) }
    {
        let rows = list.rows.as_slice();
        self.slots += list.slots as u128;
        self.governed += governed(rows) as u128;
        self.issued += issued(rows) as u128;
        self.forced += forced(rows) as u128;
        self.over += over(rows) as u128;
        self.longest = self.longest.max(longest(rows));
    }
}

/// A flight of a list, as it stands there; `None` where it is forced.
fn governed_in(list: &SlotList, member: &Member) -> Option<GovernedFlight>
    requires { stance_of list.now member.now.0 ≡ Some member.now.1 }
    ensures { result ≡ governed_as (row_told list.now member.now) }
{
    let place = list.place_of(&member.key())?;
    let stance = member.stance();
    let (eto, issued) = (stance.eto(), stance.issued_cto());
    let cto = match issued {
        Some(cto) => cto,
        None => list.grid().cto(eto, place),
    };
    Some(GovernedFlight {
        issued: issued.is_some(),
        over: matches!(place, Place::Over),
        delay: cto.secs().saturating_sub(eto.secs()),
    })
}

/// Whether a flight that a list shows so is governed by the list's regulation.
fn governs(kind: Kind) -> bool
    ensures { result ≡ governs kind }
{
    match kind {
        Kind::Pre | Kind::Issued => true,
        Kind::Forced => false,
    }
}

/// How many flights of a list are governed.
fn governed(rows: &[ListRow]) -> usize
    ensures { result ≡ count is_governed rows.now }
{
    rows.iter().filter(|row| governs(row.kind)).count()
}

/// How many are issued.
fn issued(rows: &[ListRow]) -> usize
    ensures { result ≡ count is_issued rows.now }
{
    rows.iter()
        .filter(|row| matches!(row.kind, Kind::Issued))
        .count()
}

/// How many are forced.
fn forced(rows: &[ListRow]) -> usize
    ensures { result ≡ count is_forced rows.now }
{
    rows.iter().filter(|row| !governs(row.kind)).count()
}

/// For how many of the governed ones no slot is left.
fn over(rows: &[ListRow]) -> usize
    ensures { result ≡ count is_over rows.now }
{
    rows.iter()
        .filter(|row| governs(row.kind) && row.slot.get().is_none())
        .count()
}

/// The delays of the governed ones, added up.
fn delay_in(rows: &[ListRow]) -> u128
    ensures { result ≡ sum_by delay (filter is_governed rows.now) }
{
    let mut sum = 0;
    for row in rows {
        if governs(row.kind) {
            sum += delay_of(row) as u128;
        }
    }
    sum
}

/// The longest of them; 0 where there is none.
fn longest(rows: &[ListRow]) -> u32
    ensures { result ≡ greatest (governed_delays rows.now) }
{
    let mut longest = 0;
    for row in rows {
        if governs(row.kind) {
            longest = longest.max(delay_of(row));
        }
    }
    longest
}

/// The delay of a row's flight.
fn delay_of(row: &ListRow) -> u32
    ensures { result ≡ delay row.now }
{
    row.cto.saturating_sub(row.eto.secs())
}

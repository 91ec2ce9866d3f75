//! Two issued flights that exchange their slots.

ghost use Rattle.std.specs.Prelude.{◌≡◌, ◌≤◌, IfOk};
ghost use Rattle.casa_time.specs.Moment.{last_moment};
ghost use Rattle.casa_flight.specs.State.{row_of};
ghost use Rattle.casa_flight.specs.Listing.{governing_list};
ghost use Rattle.casa_flight.specs.Steps.{eto_in, is_shared, is_too_early, with_issued_time, swap};
ghost use Rattle.casa_plain.specs.Outcome.{step_of};

use crate::plain::Plain;
use crate::plain_list::PlainList;
use crate::steps::Outcome;
use casa_flight::{Key, Refusal, Row};
use casa_time::Moment;
use std::alloc::{AllocError, Global};

/// The issued flight with another time.
fn with_issued_time(row: &Row, time: Moment) -> Result<Row, AllocError>
    ensures { IfOk result (λ new. new ≡ with_issued_time row.now time) }
{
    let mut new = row.clone()?;
    new.issued = Some(time);
    Ok(new)
}

/// Whether the regulation that governs a flight governs the other one too.
fn is_shared(row: &Row, mate: &Row) -> bool
    ensures { result ≡ is_shared row.now mate.now }
{
    match row.governing {
        Some(id) => mate.is_governed_by(id),
        None => false,
    }
}

/// The flight's estimated time over in this list, in seconds, and 0 where there is none.
fn eto_at(list: Option<PlainList>, key: Key) -> u32
    ensures value { result ≡ eto_in list key }
    ensures in_range { result ≤ last_moment }
{
    match list {
        Some(list) => list.eto_of(key),
        None => 0,
    }
}

impl Plain {
    /// Whether a time is before the flight's own time over in the list that governs it, or the flight would have to take
    /// off before the clock.
    fn is_too_early(
        &self,
        alloc: Global,
        key: Key,
        row: &Row,
        time: Moment,
    ) -> Result<bool, AllocError>
        ensures { IfOk result (λ b. b ≡
            is_too_early self.now.clock (governing_list self.now row.now) key row.now time) }
    {
        let list = self.governing_list(alloc, row)?;
        let eto = eto_at(list, key);
        if time.secs() < eto {
            return Ok(true);
        }
        Ok(row.plan.etot() + (time.secs() - eto) < self.clock().secs())
    }

    /// Two issued flights of one regulation get each exactly the other's time.
    pub(crate) fn swap(&self, alloc: Global, key: Key, other: Key) -> Result<Outcome, AllocError>
        ensures { IfOk result (λ o. step_of o ≡
            swap self.now key other (row_of self.now key) (row_of self.now other)) }
    {
        let (Some(row), Some(mate)) = (self.row(key), self.row(other)) else {
            return Ok(Outcome::Refused(Refusal::NoFlight));
        };
        let (Some(cto), Some(time)) = (row.issued, mate.issued) else {
            return Ok(Outcome::Refused(Refusal::NotIssued));
        };
        if !is_shared(row, mate) {
            return Ok(Outcome::Refused(Refusal::OtherRegulation));
        }
        if self.is_too_early(alloc, key, row, time)?
            || self.is_too_early(alloc, other, mate, cto)?
        {
            return Ok(Outcome::Refused(Refusal::TooEarly));
        }
        let mut new = self.try_clone()?;
        new.put_row(key, with_issued_time(row, time)?)?;
        new.put_row(other, with_issued_time(mate, cto)?)?;
        Ok(Outcome::Leads(new))
    }
}

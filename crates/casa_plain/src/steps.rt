//! What each call does to the state, and what it leads to.

ghost use Rattle.std.specs.Prelude.{◌≡◌, true, IfOk, length, nat_le, nat_lt};
ghost use Rattle.casa_flight.specs.State.{measure_of, row_of, with_row};
ghost use Rattle.casa_flight.specs.Listing.{ctot_of};
ghost use Rattle.casa_flight.specs.Steps.{amend, cancel, close_regulation, exempt, file, list};
ghost use Rattle.casa_flight.specs.Steps.{most_regulations, open_regulation, rates, revise, revise_to};
ghost use Rattle.casa_flight.specs.Steps.{is_revised, show, step, take_in, tick, state_without_regulation};
ghost use Rattle.casa_plain.specs.Outcome.{step_of};

use crate::flights::{freed_rows, governed_flights, newcomers};
use crate::plain::Plain;
use casa_flight::{
    Call, Key, Loc, MAX_REGULATIONS, Measure, Plan, Refusal, RegId, Regulation, Row, ends_later,
    keeps_span,
};
use casa_grid::Profile;
use casa_time::Moment;
use std::alloc::{AllocError, Global};

/// What comes of a call: it is refused, or it leads to a state.
#[derive(Drop)]
pub enum Outcome {
    Refused(Refusal),
    Leads(Plain),
}

impl Plain {
    /// A filed flight is added and enters.
    fn file(&self, alloc: Global, plan: &Plan) -> Result<Outcome, AllocError>
        ensures { IfOk result (λ o. step_of o ≡
            file self.now plan.now (row_of self.now plan.now.key)
            (nat_lt plan.now.eobt self.now.clock)) }
    {
        if let Some(_row) = self.row(plan.key()) {
            return Ok(Outcome::Refused(Refusal::Duplicate));
        }
        if plan.eobt() < self.clock() {
            return Ok(Outcome::Refused(Refusal::Late));
        }
        let mut new = self.try_clone()?;
        new.enter(alloc, plan.key(), Row::filed(plan)?)?;
        Ok(Outcome::Leads(new))
    }

    /// An amended flight enters with its new plan.
    fn amend(&self, alloc: Global, plan: &Plan) -> Result<Outcome, AllocError>
        ensures { IfOk result (λ o. step_of o ≡
            amend self.now plan.now (row_of self.now plan.now.key)
            (nat_lt plan.now.eobt self.now.clock)) }
    {
        let Some(row) = self.row(plan.key()) else {
            return Ok(Outcome::Refused(Refusal::NoFlight));
        };
        if plan.eobt() < self.clock() {
            return Ok(Outcome::Refused(Refusal::Late));
        }
        let row = row.amended(plan)?;
        let mut new = self.try_clone()?;
        new.enter(alloc, plan.key(), row)?;
        Ok(Outcome::Leads(new))
    }

    /// A cancelled flight is removed.
    fn cancel(&self, key: Key) -> Result<Outcome, AllocError>
        ensures { IfOk result (λ o. step_of o ≡ cancel self.now key (row_of self.now key)) }
    {
        let Some(_row) = self.row(key) else {
            return Ok(Outcome::Refused(Refusal::NoFlight));
        };
        let mut new = self.try_clone()?;
        new.remove_row(key);
        Ok(Outcome::Leads(new))
    }

    /// The flight's calculated take-off time, were it to stand so.
    fn ctot_with(&self, alloc: Global, key: Key, row: &Row) -> Result<u32, AllocError>
        ensures { IfOk result (λ ctot. ctot ≡ ctot_of (with_row self.now key row.now) key row.now) }
    {
        let mut trial = self.try_clone()?;
        trial.put_row(key, row.clone()?)?;
        trial.ctot_of(alloc, key, row)
    }

    /// Whether a revised flight takes what it gets.
    fn is_revised(&self, alloc: Global, key: Key, row: &Row, new: &Row) -> Result<bool, AllocError>
        ensures { IfOk result (λ b. b ≡ is_revised self.now key row.now new.now) }
    {
        if !row.issued.is_some() {
            return Ok(true);
        }
        if row.plan.is_gone(self.clock()) {
            return Ok(false);
        }
        let then = self.ctot_with(alloc, key, new)?;
        let now = self.ctot_of(alloc, key, row)?;
        Ok(then < now)
    }

    /// The state in which a revision leaves a flight that would get this.
    fn revise_to(&self, alloc: Global, key: Key, row: &Row, new: Row) -> Result<Plain, AllocError>
        ensures { IfOk result (λ m. m ≡ revise_to self.now key row.now new) }
    {
        let is_revised = self.is_revised(alloc, key, row, &new)?;
        let mut then = self.try_clone()?;
        if is_revised {
            then.put_row(key, new)?;
        }
        Ok(then)
    }

    /// A revised flight is taken out and enters anew.
    fn revise(&self, alloc: Global, key: Key) -> Result<Outcome, AllocError>
        ensures { IfOk result (λ o. step_of o ≡ revise self.now key (row_of self.now key)) }
    {
        let Some(row) = self.row(key) else {
            return Ok(Outcome::Refused(Refusal::NoFlight));
        };
        let new = self.row_after_entry(alloc, key, row.ungoverned()?)?;
        Ok(Outcome::Leads(self.revise_to(alloc, key, row, new)?))
    }

    /// An exempted flight is marked and governed by nothing.
    fn exempt(&self, key: Key) -> Result<Outcome, AllocError>
        ensures { IfOk result (λ o. step_of o ≡ exempt self.now key (row_of self.now key)) }
    {
        let Some(row) = self.row(key) else {
            return Ok(Outcome::Refused(Refusal::NoFlight));
        };
        if row.is_exempt() {
            return Ok(Outcome::Refused(Refusal::AlreadyExempt));
        }
        let row = row.exempted()?;
        let mut new = self.try_clone()?;
        new.put_row(key, row)?;
        Ok(Outcome::Leads(new))
    }

    /// The state with a regulation of this measure, which opens or ends later than before: it takes in the flights that
    /// nothing governs and that may compete.
    fn take_in(&self, alloc: Global, id: RegId, measure: Measure) -> Result<Plain, AllocError>
        ensures { IfOk result (λ m. m ≡ take_in self.now id measure) }
    {
        let regulation = Regulation::of(id, &measure);
        let comps = newcomers(alloc, self.rows(), self.clock(), &regulation)?;
        let mut new = self.try_clone()?;
        new.put_measure(id, measure)?;
        new.enter_all(alloc, comps.as_slice())?;
        Ok(new)
    }

    /// An opened regulation takes in the flights that may compete.
    fn open_regulation(
        &self,
        alloc: Global,
        id: RegId,
        loc: Loc,
        profile: &Profile,
    ) -> Result<Outcome, AllocError>
        ensures { IfOk result (λ o. step_of o ≡
            open_regulation self.now id (record { loc = loc; profile = profile.now })
            (measure_of self.now id) (nat_le most_regulations (length self.now.regs))) }
    {
        if let Some(_measure) = self.measure(id) {
            return Ok(Outcome::Refused(Refusal::DuplicateRegulation));
        }
        if MAX_REGULATIONS <= self.regulations() {
            return Ok(Outcome::Refused(Refusal::TooManyRegulations));
        }
        let measure = Measure {
            loc,
            profile: profile.clone()?,
        };
        Ok(Outcome::Leads(self.take_in(alloc, id, measure)?))
    }

    /// The state without a regulation, and the flights that it governed free.
    fn state_without_regulation(&self, alloc: Global, id: RegId) -> Result<Plain, AllocError>
        ensures { IfOk result (λ m. m ≡ state_without_regulation self.now id) }
    {
        let rows = freed_rows(alloc, self.rows(), id)?;
        let mut new = self.try_clone()?;
        new.remove_measure(id);
        new.set_rows(rows);
        Ok(new)
    }

    /// A closed regulation frees all its flights, and then they enter.
    fn close_regulation(&self, alloc: Global, id: RegId) -> Result<Outcome, AllocError>
        ensures { IfOk result (λ o. step_of o
            ≡ close_regulation self.now id (measure_of self.now id)) }
    {
        let Some(measure) = self.measure(id) else {
            return Ok(Outcome::Refused(Refusal::NoRegulation));
        };
        let comps = governed_flights(alloc, self.rows(), &Regulation::of(id, measure))?;
        let mut new = self.state_without_regulation(alloc, id)?;
        new.enter_all(alloc, comps.as_slice())?;
        Ok(Outcome::Leads(new))
    }

    /// New rates replace the profile, and a later end takes flights in.
    fn rates(&self, alloc: Global, id: RegId, profile: &Profile) -> Result<Outcome, AllocError>
        ensures { IfOk result (λ o. step_of o
            ≡ rates self.now id profile.now (measure_of self.now id)) }
    {
        let Some(old) = self.measure(id) else {
            return Ok(Outcome::Refused(Refusal::NoRegulation));
        };
        if !keeps_span(profile, &old.profile) {
            return Ok(Outcome::Refused(Refusal::SpanChanged));
        }
        let measure = Measure {
            loc: old.loc,
            profile: profile.clone()?,
        };
        if ends_later(profile, &old.profile) {
            return Ok(Outcome::Leads(self.take_in(alloc, id, measure)?));
        }
        let mut new = self.try_clone()?;
        new.put_measure(id, measure)?;
        Ok(Outcome::Leads(new))
    }

    /// The clock moves, and all due flights become issued.
    fn tick(&self, alloc: Global, at: Moment) -> Result<Outcome, AllocError>
        ensures { IfOk result (λ o. step_of o ≡ tick self.now at (nat_lt at self.now.clock)) }
    {
        if at < self.clock() {
            return Ok(Outcome::Refused(Refusal::BackInTime));
        }
        let mut new = self.try_clone()?;
        new.set_clock(at);
        new.issue_due(alloc)?;
        Ok(Outcome::Leads(new))
    }

    /// A flight is shown, and nothing changes.
    fn show(&self, key: Key) -> Result<Outcome, AllocError>
        ensures { IfOk result (λ o. step_of o ≡ show self.now (row_of self.now key)) }
    {
        let Some(_row) = self.row(key) else {
            return Ok(Outcome::Refused(Refusal::NoFlight));
        };
        Ok(Outcome::Leads(self.try_clone()?))
    }

    /// A list is shown, and nothing changes.
    fn list(&self, id: RegId) -> Result<Outcome, AllocError>
        ensures { IfOk result (λ o. step_of o ≡ list self.now (measure_of self.now id)) }
    {
        let Some(_measure) = self.measure(id) else {
            return Ok(Outcome::Refused(Refusal::NoRegulation));
        };
        Ok(Outcome::Leads(self.try_clone()?))
    }

    /// What comes of a call.
    pub(crate) fn outcome(&self, alloc: Global, call: &Call) -> Result<Outcome, AllocError>
        ensures { IfOk result (λ o. step_of o ≡ step self.now call.now) }
    {
        match call {
            Call::File(plan) => self.file(alloc, plan),
            Call::Amend(plan) => self.amend(alloc, plan),
            Call::Cancel(key) => self.cancel(*key),
            Call::Revise(key) => self.revise(alloc, *key),
            Call::Exempt(key) => self.exempt(*key),
            Call::OpenReg(id, loc, profile) => self.open_regulation(alloc, *id, *loc, profile),
            Call::CloseReg(id) => self.close_regulation(alloc, *id),
            Call::Rates(id, profile) => self.rates(alloc, *id, profile),
            Call::Tick(at) => self.tick(alloc, *at),
            Call::Show(key) => self.show(*key),
            Call::List(id) => self.list(*id),
            Call::Swap(key, other) => self.swap(alloc, *key, *other),
        }
    }
}

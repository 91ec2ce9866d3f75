ghost use Rattle.std.specs.Prelude.{◌≡◌, IfOk, true, option_copied};
ghost use Rattle.casa_filing.specs.Subject.{subject};
ghost use Rattle.casa_flight.specs.State.{is_exempt, is_governed_by, ungoverned};
ghost use Rattle.casa_flight.specs.Listing.{competitor, eto_as, issued_cto, stance, stance_in, stance_over};
ghost use Rattle.casa_flight.specs.Entry.{is_to_issue};
ghost use Rattle.casa_flight.specs.Steps.{may_compete, new_row};
ghost use Rattle.casa_flight.specs.Replies.{is_issued, kind_of};

use crate::comp::Comp;
use crate::reply::Kind;
use casa_filing::{Key, Measure, Plan, RegId, Regulation};
use casa_time::Moment;
use std::alloc::AllocError;

/// What the allocator keeps of a flight.
#[derive(Drop, Debug, PartialEq, Eq)]
pub struct Row {
    pub plan: Plan,
    /// Whether a desk marked the flight as exempt.
    pub marked: bool,
    /// The regulation whose list gives the flight its delay.
    pub governing: Option<RegId>,
    /// The calculated time over at which the flight was issued.
    pub issued: Option<Moment>,
}

/// How a flight stands in the list of a regulation to which it is subject, with its times over there.
#[derive(Clone, Copy, PartialEq, Eq, Debug)]
pub enum Stance {
    /// The regulation governs the flight, and it has no issued slot.
    Competing { eto: Moment },
    /// The regulation governs the flight, and it is issued.
    Issued { eto: Moment, cto: Moment },
    /// Another regulation governs the flight, or none.
    Forced { eto: Moment },
}

impl Row {
    /// A filed flight before it enters: with no mark, ungoverned and not issued. It shares what owns memory in the plan,
    /// and takes none of its own; `AllocError` where that is shared too often to be counted.
    pub fn filed(plan: &Plan) -> Result<Row, AllocError>
        ensures { IfOk result (λ row. row ≡ new_row plan.now) }
    {
        Ok(Row {
            plan: plan.clone()?,
            marked: false,
            governing: None,
            issued: None,
        })
    }

    /// The flight with a new plan before it enters: a desk's mark stays, and it is ungoverned and not issued.
    /// `AllocError` as of `filed`.
    pub fn amended(&self, plan: &Plan) -> Result<Row, AllocError>
        ensures { IfOk result (λ row. row ≡ record (ungoverned self.now) { plan = plan.now }) }
    {
        let mut row = Row::filed(plan)?;
        row.marked = self.marked;
        Ok(row)
    }

    /// The flight with neither governing regulation nor issue. `AllocError` as of `filed`.
    pub fn ungoverned(&self) -> Result<Row, AllocError>
        ensures { IfOk result (λ row. row ≡ ungoverned self.now) }
    {
        self.amended(&self.plan)
    }

    /// The flight with a desk's mark, ungoverned and not issued. `AllocError` as of `filed`.
    pub fn exempted(&self) -> Result<Row, AllocError>
        ensures { IfOk result (λ row. row ≡ record (ungoverned self.now) { marked = true }) }
    {
        let mut row = self.ungoverned()?;
        row.marked = true;
        Ok(row)
    }

    /// Whether the flight is exempt, by its plan's status or by a desk's mark.
    pub fn is_exempt(&self) -> bool
        ensures { result ≡ is_exempt self.now }
    {
        self.marked || self.plan.sts().is_exempting()
    }

    /// Whether this regulation governs the flight.
    pub fn is_governed_by(&self, id: RegId) -> bool
        ensures { result ≡ is_governed_by id self.now }
    {
        match self.governing {
            Some(by) => id == by,
            None => false,
        }
    }

    /// Whether the flight is governed, due by the clock, and not issued yet.
    pub fn is_to_issue(&self, clock: Moment) -> bool
        ensures { result ≡ is_to_issue clock self.now }
    {
        self.governing.is_some() && !self.issued.is_some() && self.plan.is_due(clock)
    }

    /// Whether a regulation that opens may take the flight in: it is not exempt, not gone by the clock, and ungoverned.
    pub fn may_compete(&self, clock: Moment) -> bool
        ensures { result ≡ may_compete clock self.now }
    {
        !self.is_exempt() && !self.plan.is_gone(clock) && !self.governing.is_some()
    }

    /// How the flight stands in the list of a regulation; `None` where it is not subject to that.
    pub fn stance_over(&self, regulation: &Regulation) -> Option<Stance>
        ensures { result ≡ stance_over regulation.now self.now }
    {
        let eto = subject(self, regulation)?;
        Some(Stance::of(self.is_governed_by(regulation.id), self.issued, eto))
    }

    /// How the flight stands in the list of the regulation with this identifier and measure; `None` where it is not
    /// subject to that.
    pub fn stance_in(&self, id: RegId, measure: &Measure) -> Option<Stance>
        ensures { result ≡ stance_in id measure.now self.now }
    {
        self.stance_over(&Regulation::of(id, measure))
    }
}

/// Whether there is a flight and it is issued.
pub fn is_issued(row: Option<&Row>) -> bool
    ensures { result ≡ is_issued (option_copied row.entry) }
{
    row.is_some_and(|row| row.issued.is_some())
}

impl Stance {
    /// How a flight stands that is subject to a regulation: by whether that governs it, its issued time, if it has one,
    /// and its estimated time over.
    pub fn of(governs: bool, issued: Option<Moment>, eto: Moment) -> Stance
        ensures { result ≡ stance governs issued eto }
    {
        if !governs {
            return Stance::Forced { eto };
        }
        match issued {
            Some(cto) => Stance::Issued { eto, cto },
            None => Stance::Competing { eto },
        }
    }

    /// The flight's estimated time over.
    pub fn eto(&self) -> Moment
        ensures { result ≡ eto_as self.now }
    {
        match self {
            Stance::Competing { eto } => *eto,
            Stance::Issued { eto, .. } => *eto,
            Stance::Forced { eto } => *eto,
        }
    }

    /// The calculated time over at which the flight is issued; `None` where it is not issued there.
    pub fn issued_cto(&self) -> Option<Moment>
        ensures { result ≡ issued_cto self.now }
    {
        match self {
            Stance::Issued { cto, .. } => Some(*cto),
            _ => None,
        }
    }

    /// What a list says of how the flight stands.
    pub fn kind(&self) -> Kind
        ensures { result ≡ kind_of self.now }
    {
        match self {
            Stance::Competing { .. } => Kind::Pre,
            Stance::Issued { .. } => Kind::Issued,
            Stance::Forced { .. } => Kind::Forced,
        }
    }

    /// The flight with this key as a competitor; `None` where it does not compete.
    pub fn competitor(&self, key: Key) -> Option<Comp>
        ensures { result ≡ competitor key self.now }
    {
        match self {
            Stance::Competing { eto } => Some(Comp { eto: *eto, key }),
            _ => None,
        }
    }
}

/// The flight's estimated time over the regulation's location, where it is subject to the regulation; `None`
/// where it is not (`Plan::time_over`), whatever delay the flight has.
pub fn subject(row: &Row, regulation: &Regulation) -> Option<Moment>
    ensures { result ≡ subject row.now.plan regulation.now }
{
    row.plan.time_over(regulation)
}

impl Clone for Row {
    ghost is_clone = { λ row copy. copy ≡ row };

    /// The same row; what owns memory in it is shared, so that it takes none of its own. `AllocError` where it is shared
    /// too often to be counted.
    fn clone(&self) -> Result<Row, AllocError>
        ensures { IfOk result (λ copy. copy ≡ self.now) }
    {
        Ok(Row {
            plan: self.plan.clone()?,
            marked: self.marked,
            governing: self.governing,
            issued: self.issued,
        })
    }
}

ghost use Rattle.std.specs.Prelude.{◌≡◌, ◌⊎◌, ◌+◌, ◌≤◌, IfOk, MatchOption};
ghost use Rattle.std.specs.List.{AllPairs, list_any};
ghost use Rattle.casa_time.specs.Moment.{last_moment};
ghost use Rattle.casa_filing.specs.declared.plan.Crossing.{Crossing};
ghost use Rattle.casa_filing.specs.Text.{same_text};
ghost use Rattle.casa_filing.specs.FlightPlan.{FlightPlan, etot, is_exempting};
ghost use Rattle.casa_filing.specs.PlanFaults.{plan_fault, name_of, has_twice, has_early};
ghost use Rattle.casa_filing.specs.Subject.{covered};

use crate::name::{Key, Loc, is_name};
use crate::regulation::Regulation;
use crate::shared::Shared;
use casa_time::{Moment, due};
use std::alloc::{AllocError, Global};
use std::marker::Model;
use thiserror::Error;

/// The special status of a flight, by its plan's STS indicator. Every one but `Plain` exempts it.
#[derive(Clone, Copy, PartialEq, Eq, PartialOrd, Ord, Debug)]
pub enum Sts {
    Plain,
    Head,
    Sar,
    Medevac,
    Ffr,
    Atfmx,
}

impl Sts {
    /// Whether this status exempts a flight.
    pub fn is_exempting(self) -> bool
        ensures { result ≡ is_exempting self }
    {
        match self {
            Sts::Plain => false,
            _ => true,
        }
    }
}

/// A location that a flight crosses, with the estimated time over it.
#[derive(Clone, Copy, PartialEq, Eq, PartialOrd, Ord, Debug)]
pub struct Crossing {
    pub loc: Loc,
    pub eto: Moment,
}

impl Crossing {
    /// The time over, if a regulation at this location covers it: from the regulation's start on and before its end.
    pub fn covered_by(&self, regulation: &Regulation) -> Option<Moment>
        ensures { result ≡ covered regulation.now self.now }
    {
        if regulation.start <= self.eto && self.eto < regulation.end {
            Some(self.eto)
        } else {
            None
        }
    }
}

/// A flight plan: its key, off-block time, taxi time in seconds, crossings and status.
///
/// Contracts see a plan as the record of these, with the crossings as a list. Copies share all of it.
#[derive(Debug)]
pub struct Plan {
    parts: Shared<PlanParts>,
}

/// What a plan and its copies have in common.
#[derive(Debug, Drop)]
struct PlanParts {
    key: Key,
    sts: Sts,
    eobt: Moment,
    taxi: u32,
    via: Vec<Crossing>,
}

impl Model for Plan {
    ghost use Rattle.casa_filing.specs.FlightPlan.{FlightPlan, IsValid};

    ghost Value = { FlightPlan };

    ghost view = { λ p. record { key = p.parts.key; eobt = p.parts.eobt; taxi = p.parts.taxi; via = p.parts.via.items; sts = p.parts.sts } };

    ghost invariant = { λ p. IsValid p.parts.eobt p.parts.taxi p.parts.via.items };
}

impl Drop for Plan {
    fn drop(self) {
        let Plan { parts: _ } = self;
    }
}

/// Why there is no such plan, in the order of the checks.
#[derive(Clone, Copy, PartialEq, Eq, Debug, Error)]
pub enum PlanFault {
    /// The key is not 1 to 10 characters of A to Z and 0 to 9.
    #[error("the key is not 1 to 10 characters of A to Z and 0 to 9")]
    BadKey,
    /// The taxi time is above 3,600 seconds.
    #[error("the taxi time is above 3,600 seconds")]
    TaxiTooLong,
    /// There are more than 32 crossings.
    #[error("there are more than 32 crossings")]
    TooManyCrossings,
    /// A location is crossed twice.
    #[error("a location is crossed twice")]
    SameLocation,
    /// A location is crossed before the estimated take-off.
    #[error("a location is crossed before the estimated take-off")]
    EtoBeforeTakeOff,
    /// The estimated take-off is after second 172,799.
    #[error("the estimated take-off is after second 172,799")]
    OutOfRange,
    /// There is no memory for the plan.
    #[error("there is no memory for the plan")]
    NoMemory,
}

impl PlanFault {
    /// The name of the fault, as in `"BadKey"`.
    pub fn name(self) -> &'static str
        ensures { result.now ≡ name_of self }
    {
        match self {
            PlanFault::BadKey => "BadKey",
            PlanFault::TaxiTooLong => "TaxiTooLong",
            PlanFault::TooManyCrossings => "TooManyCrossings",
            PlanFault::SameLocation => "SameLocation",
            PlanFault::EtoBeforeTakeOff => "EtoBeforeTakeOff",
            PlanFault::OutOfRange => "OutOfRange",
            PlanFault::NoMemory => "NoMemory",
        }
    }
}

/// The longest taxi time, in seconds.
const MAX_TAXI: u32 = 3_600;

/// The most crossings of a plan.
const MAX_CROSSINGS: usize = 32;

/// The last second that is a moment.
const LAST_MOMENT: u32 = 172_799;

impl Plan {
    /// The plan of these, or the first fault in the order of `PlanFault`. The taxi time is in seconds.
    ///
    /// `NoMemory` comes only where there is no other fault. The limits are this allocator's profile.
    pub fn new(
        alloc: Global,
        key: &[u8],
        eobt: Moment,
        taxi: u32,
        via: &[Crossing],
        sts: Sts,
    ) -> Result<Plan, PlanFault>
        ensures { MatchOption (plan_fault key.now eobt taxi via.now)
            ((result ≡ Ok (record {
              key = key.now;
              eobt = eobt;
              taxi = taxi;
              via = via.now;
              sts = sts;
            }))
            ⊎ (result ≡ Err PlanFault.NoMemory))
            (λ fault. result ≡ Err fault) }
    {
        if let Some(fault) = first_fault(key, eobt, taxi, via) {
            return Err(fault);
        }
        let Ok(via) = Vec::from_slice(alloc, via) else {
            return Err(PlanFault::NoMemory);
        };
        Plan::of(key, eobt, taxi, via, sts)
    }

    /// The plan of these, as of `new`, over crossings that are handed in: it keeps them in the memory that they have.
    pub fn of(
        key: &[u8],
        eobt: Moment,
        taxi: u32,
        via: Vec<Crossing>,
        sts: Sts,
    ) -> Result<Plan, PlanFault>
        ensures { MatchOption (plan_fault key.now eobt taxi via.items)
            ((result ≡ Ok (record {
              key = key.now;
              eobt = eobt;
              taxi = taxi;
              via = via.items;
              sts = sts;
            }))
            ⊎ (result ≡ Err PlanFault.NoMemory))
            (λ fault. result ≡ Err fault) }
    {
        if let Some(fault) = first_fault(key, eobt, taxi, &via) {
            return Err(fault);
        }
        let Some(key) = Key::new(key) else {
            return Err(PlanFault::BadKey);
        };
        let alloc = *via.allocator();
        let parts = PlanParts {
            key,
            sts,
            eobt,
            taxi,
            via,
        };
        let Ok(parts) = Shared::new(alloc, parts) else {
            return Err(PlanFault::NoMemory);
        };
        Ok(Plan { parts })
    }

    /// The flight's key.
    pub fn key(&self) -> Key
        ensures { result ≡ self.now.key }
    {
        self.parts.key
    }

    /// The estimated off-block time.
    pub fn eobt(&self) -> Moment
        ensures { result ≡ self.now.eobt }
    {
        self.parts.eobt
    }

    /// The taxi time, in seconds.
    pub fn taxi(&self) -> u32
        ensures { result ≡ self.now.taxi }
    {
        self.parts.taxi
    }

    /// The special status.
    pub fn sts(&self) -> Sts
        ensures { result ≡ self.now.sts }
    {
        self.parts.sts
    }

    /// The estimated take-off time, in seconds from midnight UTC: off-block and taxi.
    pub fn etot(&self) -> u32
        ensures value { result ≡ etot self.now }
        ensures in_range { result ≤ last_moment }
    {
        let eobt = self.parts.eobt.secs();
        eobt + self.parts.taxi
    }

    /// The crossings, no two at one location.
    pub fn via(&self) -> &[Crossing]
        ensures crossings { result.now ≡ self.now.via }
        ensures apart { AllPairs (λ a b. a.loc ≡ b.loc → ⊥) self.now.via }
    {
        self.parts.via.as_slice()
    }

    /// The same plan, which the copy shares: it takes no memory of its own. `AllocError` where it is shared too often to be
    /// counted.
    pub fn try_clone(&self) -> Result<Plan, AllocError>
        ensures { IfOk result (λ p. p ≡ self.now) }
    {
        Ok(Plan {
            parts: self.parts.try_clone()?,
        })
    }
}

impl Plan {
    ghost use Rattle.casa_filing.specs.Subject.{is_due, is_gone, subject};

    /// Whether a flight with this plan is due by the clock: its slot is to be issued, as its estimated off-block time
    /// is at most two hours ahead.
    pub fn is_due(&self, clock: Moment) -> bool
        ensures { result ≡ is_due clock self.now }
    {
        due(clock, self.parts.eobt)
    }

    /// Whether a flight with this plan is gone by the clock: its estimated take-off is before that.
    pub fn is_gone(&self, clock: Moment) -> bool
        ensures { result ≡ is_gone clock self.now }
    {
        self.etot() < clock.secs()
    }

    /// The estimated time over the regulation's location, where a flight with this plan is subject to the regulation;
    /// `None` where it is not.
    ///
    /// By the ATFCM manuals a flight is subject to a regulation when it plans to cross the location while the
    /// regulation lasts: from its start on and before its end.
    pub fn time_over(&self, regulation: &Regulation) -> Option<Moment>
        ensures { result ≡ subject self.now regulation.now }
    {
        for crossing in self.via() {
            if crossing.loc == regulation.loc {
                return crossing.covered_by(regulation);
            }
        }
        None
    }
}

impl Clone for Plan {
    ghost is_clone = { λ p copy. copy ≡ p };

    fn clone(&self) -> Result<Plan, AllocError> {
        self.try_clone()
    }
}

impl PartialEq for Plan {
    ghost use Rattle.std.specs.Cmp.{partial_equiv_from_equiv};
    ghost use Rattle.casa_filing.specs.PlanEquality.{plan_eq, plan_eq_laws};

    ghost eq = { plan_eq };

    ghost laws = { partial_equiv_from_equiv plan_eq_laws };

    fn eq(&self, other: &Plan) -> bool {
        self.key() == other.key()
            && self.eobt() == other.eobt()
            && self.taxi() == other.taxi()
            && self.via() == other.via()
            && self.sts() == other.sts()
    }
}

impl Eq for Plan {
    ghost use Rattle.casa_filing.specs.PlanEquality.{plan_eq_laws};

    ghost laws = { plan_eq_laws };
}

/// The first fault of a plan of these, memory aside.
fn first_fault(key: &[u8], eobt: Moment, taxi: u32, via: &[Crossing]) -> Option<PlanFault>
    ensures { result ≡ plan_fault key.now eobt taxi via.now }
{
    if !is_name(key) {
        return Some(PlanFault::BadKey);
    }
    if taxi > MAX_TAXI {
        return Some(PlanFault::TaxiTooLong);
    }
    if via.len() > MAX_CROSSINGS {
        return Some(PlanFault::TooManyCrossings);
    }
    if has_twice(via) {
        return Some(PlanFault::SameLocation);
    }
    let etot = eobt.secs() + taxi;
    if has_early(etot, via) {
        return Some(PlanFault::EtoBeforeTakeOff);
    }
    if etot > LAST_MOMENT {
        return Some(PlanFault::OutOfRange);
    }
    None
}

/// Whether a location is crossed twice.
fn has_twice(via: &[Crossing]) -> bool
    ensures { result ≡ has_twice via.now }
{
    for (i, crossing) in via.iter().enumerate() {
        if is_crossed(crossing.loc, &via[i + 1..]) {
            return true;
        }
    }
    false
}

/// Whether one of these crossings is at the location.
fn is_crossed(loc: Loc, via: &[Crossing]) -> bool
    ensures { result ≡ list_any (λ (c : Crossing). same_text loc c.loc) via.now }
{
    via.iter().any(|crossing| loc == crossing.loc)
}

/// Whether a location is crossed before the take-off.
fn has_early(etot: u32, via: &[Crossing]) -> bool
    ensures { result ≡ has_early etot via.now }
{
    via.iter().any(|crossing| crossing.eto.secs() < etot)
}

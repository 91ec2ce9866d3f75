ghost use Rattle.std.specs.Prelude.{◌≡◌, IfOk};
ghost use Rattle.casa_flight.specs.Refusals.{code_of, name_of};

use casa_filing::{Key, Loc, Plan, RegId};
use casa_grid::Profile;
use casa_time::Moment;
use std::alloc::AllocError;
use thiserror::Error;

/// What a desk asks of the allocator.
#[derive(Drop, Debug, PartialEq, Eq)]
pub enum Call {
    /// Adds a flight.
    File(Plan),
    /// Replaces a flight's plan.
    Amend(Plan),
    /// Removes a flight.
    Cancel(Key),
    /// Looks for a better slot.
    Revise(Key),
    /// Marks a flight as exempt.
    Exempt(Key),
    /// Opens a regulation.
    OpenReg(RegId, Loc, Profile),
    /// Closes a regulation.
    CloseReg(RegId),
    /// Changes a regulation's rates, and may move its end later.
    Rates(RegId, Profile),
    /// Moves the clock.
    Tick(Moment),
    /// Answers a flight as it stands.
    Show(Key),
    /// Answers a regulation's list as it stands.
    List(RegId),
    /// Lets two issued flights of one regulation exchange their slots.
    Swap(Key, Key),
}

impl Call {
    /// The same call; what owns memory in it is shared, so that it takes none of its own. `AllocError` where it is shared
    /// too often to be counted.
    pub fn try_clone(&self) -> Result<Call, AllocError>
        ensures { IfOk result (λ copy. copy ≡ self.now) }
    {
        Ok(match self {
            Call::File(plan) => Call::File(plan.clone()?),
            Call::Amend(plan) => Call::Amend(plan.clone()?),
            Call::Cancel(key) => Call::Cancel(*key),
            Call::Revise(key) => Call::Revise(*key),
            Call::Exempt(key) => Call::Exempt(*key),
            Call::OpenReg(id, loc, profile) => Call::OpenReg(*id, *loc, profile.clone()?),
            Call::CloseReg(id) => Call::CloseReg(*id),
            Call::Rates(id, profile) => Call::Rates(*id, profile.clone()?),
            Call::Tick(at) => Call::Tick(*at),
            Call::Show(key) => Call::Show(*key),
            Call::List(id) => Call::List(*id),
            Call::Swap(key, other) => Call::Swap(*key, *other),
        })
    }
}

/// Why the allocator refuses a call. A refused call changes nothing.
#[derive(Clone, Copy, PartialEq, Eq, Debug, Error)]
pub enum Refusal {
    /// The key of the filed plan is in use.
    #[error("the key of the filed plan is in use")]
    Duplicate,
    /// No flight has this key.
    #[error("no flight has this key")]
    NoFlight,
    /// The plan's off-block time is before the clock.
    #[error("the plan's off-block time is before the clock")]
    Late,
    /// The flight is exempt, by a mark or by its plan.
    #[error("the flight is exempt already")]
    AlreadyExempt,
    /// A regulation is open under this identifier.
    #[error("a regulation is open under this identifier")]
    DuplicateRegulation,
    /// No regulation is open under this identifier.
    #[error("no regulation is open under this identifier")]
    NoRegulation,
    /// 256 regulations are open.
    #[error("256 regulations are open")]
    TooManyRegulations,
    /// The new profile has another start or an earlier end.
    #[error("the new profile has another start or an earlier end")]
    SpanChanged,
    /// The new time is before the clock.
    #[error("the new time is before the clock")]
    BackInTime,
    /// A flight of the exchange is not issued.
    #[error("a flight of the exchange is not issued")]
    NotIssued,
    /// The flights of the exchange are governed by different regulations.
    #[error("the flights of the exchange are governed by different regulations")]
    OtherRegulation,
    /// A flight would pass before its own time over, or leave before the clock.
    #[error("a flight would pass before its own time over, or leave before the clock")]
    TooEarly,
}

impl Refusal {
    /// The number of the refusal, 1 to 12.
    pub fn code(self) -> u8
        ensures { result ≡ code_of self }
    {
        match self {
            Refusal::Duplicate => 1,
            Refusal::NoFlight => 2,
            Refusal::Late => 3,
            Refusal::AlreadyExempt => 4,
            Refusal::DuplicateRegulation => 5,
            Refusal::NoRegulation => 6,
            Refusal::TooManyRegulations => 7,
            Refusal::SpanChanged => 8,
            Refusal::BackInTime => 9,
            Refusal::NotIssued => 10,
            Refusal::OtherRegulation => 11,
            Refusal::TooEarly => 12,
        }
    }

    /// The name of the refusal, as in `"NoFlight"`.
    pub fn name(self) -> &'static str
        ensures { result.now ≡ name_of self }
    {
        match self {
            Refusal::Duplicate => "Duplicate",
            Refusal::NoFlight => "NoFlight",
            Refusal::Late => "Late",
            Refusal::AlreadyExempt => "AlreadyExempt",
            Refusal::DuplicateRegulation => "DuplicateRegulation",
            Refusal::NoRegulation => "NoRegulation",
            Refusal::TooManyRegulations => "TooManyRegulations",
            Refusal::SpanChanged => "SpanChanged",
            Refusal::BackInTime => "BackInTime",
            Refusal::NotIssued => "NotIssued",
            Refusal::OtherRegulation => "OtherRegulation",
            Refusal::TooEarly => "TooEarly",
        }
    }
}

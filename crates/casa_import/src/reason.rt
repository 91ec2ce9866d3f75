//! Why rows are left out.

ghost use Rattle.std.specs.Prelude.{◌≡◌};
ghost use Rattle.casa_import.specs.Reasons.{name_of, column_of};

use crate::times::TimeFault;
use casa_filing::PlanFault;
use casa_grid::ProfileFault;
use std::alloc::AllocError;

/// A row that is left out: the line at which it begins, and why.
#[derive(Clone, Copy, PartialEq, Eq, Debug)]
pub struct LeftOut {
    pub line: u64,
    pub reason: Reason,
}

/// Why a row is left out. A column is told by its place in the header, from 0.
#[derive(Clone, Copy, PartialEq, Eq, Debug)]
pub enum Reason {
    /// The row has more or fewer fields than the header.
    Uneven,
    /// The text in this column is no key of a flight.
    BadKey(usize),
    /// The text in this column is no moment of the day.
    Time(TimeFault, usize),
    /// The text in this column is neither empty nor a number of one to four digits.
    BadTaxi(usize),
    /// The text in this column is neither empty nor a status.
    BadSts(usize),
    /// The text in this column is no location.
    BadLocation(usize),
    /// The flight enters a location before its off-block time.
    EntersBefore,
    /// The plan has this fault.
    Plan(PlanFault),
    /// An earlier row makes a filing with this key.
    Duplicate,
    /// The text in this column is no identifier of a regulation.
    BadReg(usize),
    /// The text in this column is no number of one to four digits.
    BadRate(usize),
    /// The regulation's first row has another location.
    OtherLocation,
    /// Another row of the regulation is left out.
    NotWhole,
    /// The regulation's periods make no profile, for this fault.
    Profile(ProfileFault),
    /// There are 256 regulations before this one.
    TooManyRegulations,
}

impl Reason {
    /// The name of the reason, as in `"BadKey"`.
    pub fn name(self) -> &'static str
        ensures { result.now ≡ name_of self }
    {
        match self {
            Reason::Uneven => "Uneven",
            Reason::BadKey(_) => "BadKey",
            Reason::Time(fault, _) => fault.name(),
            Reason::BadTaxi(_) => "BadTaxi",
            Reason::BadSts(_) => "BadSts",
            Reason::BadLocation(_) => "BadLocation",
            Reason::EntersBefore => "EntersBefore",
            Reason::Plan(fault) => fault.name(),
            Reason::Duplicate => "Duplicate",
            Reason::BadReg(_) => "BadReg",
            Reason::BadRate(_) => "BadRate",
            Reason::OtherLocation => "OtherLocation",
            Reason::NotWhole => "NotWhole",
            Reason::Profile(fault) => fault.name(),
            Reason::TooManyRegulations => "TooManyRegulations",
        }
    }

    /// The place of the column that the reason is about, if it is about one.
    pub fn column(self) -> Option<usize>
        ensures { result ≡ column_of self }
    {
        match self {
            Reason::BadKey(column)
            | Reason::Time(_, column)
            | Reason::BadTaxi(column)
            | Reason::BadSts(column)
            | Reason::BadLocation(column)
            | Reason::BadReg(column)
            | Reason::BadRate(column) => Some(column),
            Reason::Uneven
            | Reason::EntersBefore
            | Reason::Plan(_)
            | Reason::Duplicate
            | Reason::OtherLocation
            | Reason::NotWhole
            | Reason::Profile(_)
            | Reason::TooManyRegulations => None,
        }
    }
}

/// Why a row makes nothing: it is left out, or there is no memory.
#[derive(Clone, Copy, PartialEq, Eq, Debug)]
pub enum RowFault {
    LeftOut(Reason),
    NoMemory,
}

impl From<Reason> for RowFault {
    ghost use Rattle.casa_import.specs.declared.reason.RowFault.TheVariants.{LeftOut as left_out};

    ghost from_gives = { λ reason fault. fault ≡ left_out reason };

    fn from(reason: Reason) -> RowFault {
        RowFault::LeftOut(reason)
    }
}

impl From<AllocError> for RowFault {
    ghost use Rattle.casa_import.specs.declared.reason.RowFault.TheVariants.{NoMemory as no_memory};

    ghost from_gives = { λ _ fault. fault ≡ no_memory };

    fn from(_refused: AllocError) -> RowFault {
        RowFault::NoMemory
    }
}

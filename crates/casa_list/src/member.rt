//! The flights of a list, as it keeps them by their keys.

ghost use Rattle.std.specs.Prelude.{◌≡◌};

use casa_flight::{Key, Kind, Stance};
use casa_time::Moment;
use std::fmt;
use std::marker::Model;

/// A flight of a list with how it stands there, in little memory: a list has one for each, and copies them all.
///
/// Contracts see a flight's key with its stance.
#[derive(Clone, Copy)]
pub struct Member {
    key: Key,
    kind: Kind,
    eto: Moment,
    /// The calculated time over of an issued flight, and of another its estimated time over.
    cto: Moment,
}

impl Model for Member {
    ghost use Rattle.casa_filing.specs.Text.{Text};
    ghost use Rattle.casa_flight.specs.declared.row.Stance.{Stance};
    ghost use Rattle.casa_flight.specs.Listing.{eto_as};
    ghost use Rattle.casa_flight.specs.Replies.{kind_of};
    ghost use Rattle.casa_list.specs.Member.{stance_as, time_kept, IsMember, same_member};

    ghost Value = { Text × Stance };

    ghost view = { λ m. (m.key, stance_as m.kind m.eto m.cto) };

    ghost invariant = { IsMember };

    ghost inverse = { λ e. record { key = e.0; kind = kind_of e.1; eto = eto_as e.1; cto = time_kept e.1 } };

    ghost inverse_ok = { same_member };
}

impl PartialEq for Member {
    ghost use Rattle.std.specs.Cmp.{partial_equiv_from_equiv};
    ghost use Rattle.casa_list.specs.Equality.{flight_eq, flight_eq_laws};

    ghost eq = { flight_eq };

    ghost laws = { partial_equiv_from_equiv flight_eq_laws };

    fn eq(&self, other: &Member) -> bool {
        other.key == self.key && other.stance() == self.stance()
    }
}

impl fmt::Debug for Member {
    /// Shows what contracts see.
    fn fmt<W: fmt::Write>(&self, f: &mut fmt::Formatter<W>) -> fmt::Result {
        f.debug_tuple("Member")
            .field(&self.key)
            .field(&self.stance())
            .finish()
    }
}

impl Member {
    /// A flight that stands so.
    pub fn new(key: Key, stance: Stance) -> Member
        ensures { result ≡ (key, stance) }
    {
        let eto = stance.eto();
        Member {
            key,
            kind: stance.kind(),
            eto,
            cto: stance.issued_cto().unwrap_or(eto),
        }
    }

    /// The key of the flight.
    pub fn key(&self) -> Key
        ensures { result ≡ self.now.0 }
    {
        self.key
    }

    /// How the flight stands in the list.
    pub fn stance(&self) -> Stance
        ensures { result ≡ self.now.1 }
    {
        let (eto, cto) = (self.eto, self.cto);
        match self.kind {
            Kind::Pre => Stance::Competing { eto },
            Kind::Issued => Stance::Issued { eto, cto },
            Kind::Forced => Stance::Forced { eto },
        }
    }
}

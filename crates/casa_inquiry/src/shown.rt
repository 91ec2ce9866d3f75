//! What is shown of a state.

ghost use Rattle.std.specs.Prelude.{◌≡◌};
ghost use Rattle.std.specs.Option.{option_copied};

use casa_flight::{Key, RegId, Regulation, Row};
use casa_list::{SharedList, SlotList};
use casa_time::Moment;

/// What is shown of a state: its clock, its open regulations, and their lists.
pub trait Shown {
    ghost use Rattle.std.specs.Prelude.{◌≡◌};
    ghost use Rattle.std.specs.Option.{option_copied};
    ghost use Rattle.casa_flight.specs.declared.state.State.{State};
    ghost use Rattle.casa_flight.specs.Listing.{list_of};
    ghost use Rattle.casa_flight.specs.State.{catalogue};

    /// This is shown of the state.
    ghost shows: { Self → State → Type 0 };

    /// The clock.
    fn clock(&self) -> Moment
        ensures { (m : State) → shows self.now m → result ≡ m.clock };

    /// The open regulations, in the order of their identifiers.
    fn catalogue(&self) -> &[Regulation]
        ensures { (m : State) → shows self.now m → result.now ≡ catalogue m };

    /// The list of the regulation with this identifier; `None` where it is not open.
    fn list(&self, id: &RegId) -> Option<&SlotList>
        ensures { (m : State) → shows self.now m → option_copied result ≡ list_of m id.now };
}

/// What is shown of a state with its flights.
pub trait ShownRows: Shown {
    ghost use Rattle.std.specs.Prelude.{◌≡◌};
    ghost use Rattle.std.specs.Option.{option_copied};
    ghost use Rattle.casa_flight.specs.declared.state.State.{State};
    ghost use Rattle.casa_flight.specs.State.{row_of};

    /// The flight with this key as it stands; `None` where there is none.
    fn row(&self, key: &Key) -> Option<&Row>
        ensures { (m : State) → Self.shows self.now m → option_copied result ≡ row_of m key.now };
}

/// The clock and the open regulations of a state, in the order of their identifiers, with their lists in the same order.
#[derive(Clone, Copy)]
pub struct ShownLists<'a> {
    pub clock: Moment,
    pub regulations: &'a [Regulation],
    pub lists: &'a [SharedList],
}

impl<'a> Shown for ShownLists<'a> {
    ghost use Rattle.casa_inquiry.specs.Shown.{AreShownOf};

    ghost shows = { λ shown m. AreShownOf m shown };

    fn clock(&self) -> Moment {
        self.clock
    }

    fn catalogue(&self) -> &[Regulation] {
        self.regulations
    }

    fn list(&self, id: &RegId) -> Option<&SlotList> {
        for (number, regulation) in self.regulations.iter().enumerate() {
            if regulation.id == *id {
                let list = self.lists.get(number)?;
                return Some(list.list());
            }
        }
        None
    }
}

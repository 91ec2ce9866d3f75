ghost use Rattle.std.specs.Prelude.{◌≡◌, IsTrue};
ghost use Rattle.std.specs.Option.{option_copied};
ghost use Rattle.casa_item.specs.Versions.{row_of};

use crate::catalogue::Catalogue;
use casa_flight::{Key, RegId, Row};
use casa_list::SharedList;
use casa_time::Moment;

/// An item of the allocator's state: what it contains, under its name.
#[derive(Drop, PartialEq, Eq)]
pub enum Item {
    /// The clock.
    Clock(Moment),
    /// All open regulations.
    Catalogue(Catalogue),
    /// The row of a flight, or its absence.
    Row(Key, Option<Row>),
    /// The list of a regulation, or its absence.
    List(RegId, Option<SharedList>),
}

/// Whether items have the same name and contents.
pub(crate) fn same_item(one: &Item, other: &Item) -> bool
    ensures test { result ≡ ⟦<Item as PartialEq>⟧.eq one.now other.now }
    ensures shows { IsTrue result → one.now ≡ other.now }
{
    *one == *other
}

/// The row that an item contains, if it is the row of a flight that is there.
pub fn row_in(item: &Item) -> Option<&Row>
    ensures { option_copied result ≡ row_of item.now }
{
    match item {
        Item::Row(_, row) => row.as_ref(),
        _ => None,
    }
}

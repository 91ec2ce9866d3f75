//! What an item contains.

ghost use Rattle.std.specs.Prelude.{◌≡◌};
ghost use Rattle.std.specs.Option.{option_copied};
ghost use Rattle.casa_view.specs.Shown.{catalogue_of};
ghost use Rattle.casa_item.specs.Versions.{moment_of, regulations_of, list_of};

use casa_flight::Regulation;
use casa_list::{SharedList, SlotList};
use casa_table::{Catalogue, Item};
use casa_time::Moment;

/// The moment that a clock shows.
pub(crate) fn clock_in(item: &Item) -> Moment
    ensures { result ≡ moment_of item.now }
{
    match item {
        Item::Clock(at) => *at,
        _ => Moment::new(0).unwrap(),
    }
}

/// The catalogue that an item contains.
pub(crate) fn catalogue_in(item: &Item) -> Option<&Catalogue>
    ensures { option_copied result ≡ catalogue_of item.now }
{
    match item {
        Item::Catalogue(catalogue) => Some(catalogue),
        _ => None,
    }
}

/// The regulations of a catalogue.
pub(crate) fn regulations_in(item: &Item) -> &[Regulation]
    ensures { result.now ≡ regulations_of item.now }
{
    match item {
        Item::Catalogue(catalogue) => catalogue.as_slice(),
        _ => &[],
    }
}

/// The list that an item contains, as it is shared.
pub(crate) fn shared_list_in(item: &Item) -> Option<&SharedList>
    ensures { option_copied result ≡ list_of item.now }
{
    match item {
        Item::List(_, list) => list.as_ref(),
        _ => None,
    }
}

/// The list that an item contains.
pub(crate) fn list_in(item: &Item) -> Option<&SlotList>
    ensures { option_copied result ≡ list_of item.now }
{
    match shared_list_in(item) {
        Some(shared) => Some(shared.list()),
        None => None,
    }
}

use crate::catalogue_seen::CatalogueSeen;
use crate::contents::{catalogue_in, clock_in, list_in, shared_list_in};
use casa_flight::{Key, Name, OfFlight, OfRegulation, RegId, Row};
use casa_list::{SharedList, SlotList};
use casa_named::Few;
use casa_table::{Catalogue, FlightIndex, Index, NoIndex, Shared, Version, row_in};
use casa_time::Moment;

/// Versions of all names, or of some.
#[derive(Drop)]
pub enum Part<Kind, V: Version, I: Index<Kind, V>> {
    /// The versions of all names that have one: any other name has none.
    All(Shared<Kind, V, I>),
    /// The versions of some names, and which of these have none.
    Named(Few<Kind, Option<V>>),
}

/// What a call reads: items with their versions, and which items were not there.
pub struct View<V: Version> {
    pub(crate) clock: Option<V>,
    pub(crate) catalogue: Option<CatalogueSeen<V>>,
    pub(crate) rows: Part<OfFlight, V, FlightIndex>,
    pub(crate) lists: Part<OfRegulation, V, NoIndex>,
}

impl<V: Version> Drop for View<V> {
    fn drop(self) {
        let View {
            clock: _,
            catalogue: _,
            rows: _,
            lists: _,
        } = self;
    }
}

impl<Kind, V: Version, I: Index<Kind, V>> Part<Kind, V, I> {
    ghost use Rattle.std.specs.Prelude.{◌≡◌};
    ghost use Rattle.std.specs.Option.{option_copied, option_flatten};
    ghost use Rattle.casa_view.specs.View.{seen_in};
    ghost use Rattle.casa_view.specs.Shown.{IsInOrder};

    /// The version that is held under a name, if the name has one.
    pub(crate) fn get(&self, name: &Name<Kind>) -> Option<&V>
        ensures { option_copied result ≡ option_flatten (seen_in self.now name.now) }
    {
        match self {
            Part::All(shared) => shared.get(name),
            Part::Named(noted) => noted.get(name)?.as_ref(),
        }
    }

    /// What is held is in the order of its names: this says so, and does nothing.
    pub(crate) fn in_order(&self)
        ensures { IsInOrder self.now }
    {
        match self {
            Part::All(shared) => {
                let _layers = shared.layers();
            }
            Part::Named(noted) => {
                let _entries = noted.iter();
            }
        }
    }
}

impl<V: Version> View<V> {
    ghost use Rattle.std.specs.Prelude.{◌≡◌};
    ghost use Rattle.std.specs.Option.{option_copied};
    ghost use Rattle.casa_view.specs.Shown.{clock_shown, catalogue_shown, row_shown, list_shown};

    /// The clock, if the view holds it.
    pub fn clock(&self) -> Option<Moment>
        ensures { result ≡ clock_shown V.item_of self.now }
    {
        Some(clock_in(self.clock.as_ref()?.item()))
    }

    /// The catalogue, if the view holds it.
    pub fn catalogue(&self) -> Option<&Catalogue>
        ensures { option_copied result ≡ catalogue_shown V.item_of self.now }
    {
        catalogue_in(self.catalogue.as_ref()?.version().item())
    }

    /// The version of the catalogue with what is worked out of it, if the view holds it.
    pub fn catalogue_seen(&self) -> Option<&CatalogueSeen<V>>
        ensures { option_copied result ≡ self.now.catalogue }
    {
        self.catalogue.as_ref()
    }

    /// The row of the flight with this key, if the view holds it and it is there.
    pub fn row(&self, key: &Key) -> Option<&Row>
        ensures { option_copied result ≡ row_shown V.item_of self.now key.now }
    {
        row_in(self.rows.get(key)?.item())
    }

    /// The list of the regulation with this identifier, if the view holds it and it is there.
    pub fn list(&self, id: &RegId) -> Option<&SlotList>
        ensures { option_copied result ≡ list_shown V.item_of self.now id.now }
    {
        list_in(self.lists.get(id)?.item())
    }

    /// The same list as it is shared, so that a change may have it too.
    pub fn shared_list(&self, id: &RegId) -> Option<&SharedList>
        ensures { option_copied result ≡ list_shown V.item_of self.now id.now }
    {
        shared_list_in(self.lists.get(id)?.item())
    }
}

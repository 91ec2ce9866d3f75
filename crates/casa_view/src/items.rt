//! The versions of a board's items, and those that the next change will put in their place.

ghost use Rattle.std.specs.Prelude.{◌≡◌, IfOk};
ghost use Rattle.casa_view.specs.Board.{versions};

use casa_flight::{OfFlight, OfRegulation};
use casa_table::{FlightIndex, NoIndex, Spare, Table, Version};
use std::alloc::{AllocError, Global};

/// The versions of all items of a board, those which the next change will adopt, and the memory of some that were replaced.
#[derive(Drop)]
pub(crate) struct Items<V: Version> {
    pub(crate) clock: V,
    pub(crate) next_clock: Option<V>,
    pub(crate) catalogue: V,
    pub(crate) next_catalogue: Option<V>,
    pub(crate) rows: Table<OfFlight, V, FlightIndex>,
    pub(crate) lists: Table<OfRegulation, V, NoIndex>,
    pub(crate) spare: Spare,
}

impl<V: Version> Items<V> {
    /// The same versions, to which others come apart from these. `AllocError` where there is no memory for it.
    pub(crate) fn fork(&self, alloc: Global) -> Result<Items<V>, AllocError>
        ensures { IfOk result (λ items. versions items ≡ versions self.now) }
    {
        Ok(Items {
            clock: self.clock.try_clone()?,
            next_clock: None,
            catalogue: self.catalogue.try_clone()?,
            next_catalogue: None,
            rows: self.rows.fork()?,
            lists: self.lists.fork()?,
            spare: Spare::new(alloc)?,
        })
    }
}

//! What a call writes.

ghost use Rattle.std.specs.Prelude.{◌≡◌, [], Some, OnOk, OnErr};
ghost use Rattle.casa_filing.specs.Text.{at_name, put, without};
ghost use Rattle.casa_flight.specs.Good.{AreInOrder};
ghost use Rattle.casa_plan_spec.specs.Sight.{nothing_written};
ghost use Rattle.casa_view.specs.Board.{catalogue_written};

use casa_flight::{Key, OfFlight, OfRegulation, RegId, Row, Stance};
use casa_list::SharedList;
use casa_named::{Few, Sorted};
use casa_table::{Catalogue, Item, Stand};
use casa_time::Moment;
use std::alloc::{AllocError, Global};
use std::marker::Model;
use std::mem;
use std::sync::Arc;

/// The items that a call writes, each at most once: the clock and the catalogue, if it writes them, and rows and lists by
/// their names, or that there is none; and, of other lists, how a flight is to stand there. Planners write it, and the
/// board makes the versions of it.
///
/// Contracts see what is written.
pub struct Change {
    alloc: Global,
    clock: Option<Moment>,
    catalogue: Option<Arc<Item>>,
    rows: Few<OfFlight, Option<Row>>,
    lists: Few<OfRegulation, Option<SharedList>>,
    stands: Sorted<OfRegulation, Stand>,
}

impl Model for Change {
    ghost use Rattle.casa_plan_spec.specs.Sight.{Written};
    ghost use Rattle.casa_view.specs.Board.{catalogue_written};

    ghost Value = { Written };

    ghost view = { λ d. record {
      clock = d.clock;
      catalogue = catalogue_written d.catalogue;
      rows = d.rows;
      lists = d.lists;
      stands = d.stands;
    } };
}

impl Drop for Change {
    fn drop(self) {
        let Change {
            alloc: _,
            clock: _,
            catalogue: _,
            rows: _,
            lists: _,
            stands: _,
        } = self;
    }
}

impl Change {
    /// A change that writes nothing.
    pub fn new(alloc: Global) -> Change
        ensures { result ≡ nothing_written }
    {
        Change {
            alloc,
            clock: None,
            catalogue: None,
            rows: Few::in_any_order(alloc),
            lists: Few::new(alloc),
            stands: Sorted::new(alloc),
        }
    }

    /// Writes the clock.
    pub fn set_clock(&mut self, at: Moment)
        ensures { self.new ≡ record self.old { clock = Some at } }
    {
        self.clock = Some(at);
    }

    /// Writes the catalogue. `AllocError` where there is no memory for a count of the views that have it; nothing has
    /// changed then.
    pub fn set_catalogue(&mut self, catalogue: Catalogue) -> Result<(), AllocError>
        ensures unchanged { OnErr result (self.new ≡ self.old) }
        ensures written { OnOk result (self.new ≡ record self.old { catalogue = Some catalogue }) }
    {
        self.catalogue = Some(Arc::new(self.alloc, Item::Catalogue(catalogue))?);
        Ok(())
    }

    /// Writes a flight's row, or that there is none. `AllocError` where there is no memory for it; nothing has changed then.
    pub fn set_row(&mut self, key: Key, row: Option<Row>) -> Result<(), AllocError>
        ensures unchanged { OnErr result (self.new ≡ self.old) }
        ensures written { OnOk result (self.new
            ≡ record self.old { rows = put self.old.rows key row }) }
    {
        self.rows.put(key, row)
    }

    /// Writes a regulation's list, or that there is none. `AllocError` where there is no memory for it; nothing has changed
    /// then.
    pub fn set_list(&mut self, id: RegId, list: Option<SharedList>) -> Result<(), AllocError>
        ensures unchanged { OnErr result (self.new ≡ self.old) }
        ensures written { OnOk result (self.new
            ≡ record self.old { lists = put self.old.lists id list }) }
    {
        self.lists.put(id, list)
    }

    /// Has a flight stand so in a regulation's list, or not at all, as that stands before the change, whatever is written of
    /// it. `AllocError` where there is no memory for it; nothing has changed then.
    pub fn stand(&mut self, id: RegId, key: Key, stance: Option<Stance>) -> Result<(), AllocError>
        ensures unchanged { OnErr result (self.new ≡ self.old) }
        ensures written { OnOk result (self.new
            ≡ record self.old { stands = put self.old.stands id (key, stance) }) }
    {
        self.stands.put(id, (key, stance))?;
        Ok(())
    }

    /// Takes out what is written of a regulation's list, if anything is.
    pub fn take_list(&mut self, id: &RegId) -> Option<Option<SharedList>>
        ensures list { result ≡ at_name self.old.lists id.now }
        ensures left { self.new ≡ record self.old { lists = without self.old.lists id.now } }
        ensures ordered { AreInOrder self.old.lists }
    {
        self.lists.take(id)
    }

    /// Takes out how a flight is to stand in lists, by identifiers: nothing is said of that any more.
    pub fn take_stands(&mut self) -> Sorted<OfRegulation, Stand>
        ensures stands { result ≡ self.old.stands }
        ensures left { self.new ≡ record self.old { stands = [] } }
    {
        mem::replace(&mut self.stands, Sorted::new(self.alloc))
    }

    /// The clock, if it is written.
    pub(crate) fn clock(&self) -> Option<Moment>
        ensures { result ≡ self.now.clock }
    {
        self.clock
    }

    /// The catalogue, if it is written.
    pub(crate) fn catalogue(&self) -> &Option<Arc<Item>>
        ensures { catalogue_written result.now ≡ self.now.catalogue }
    {
        &self.catalogue
    }

    /// The rows that are written, or absences, by keys.
    pub fn rows(&self) -> &Few<OfFlight, Option<Row>>
        ensures { result.now ≡ self.now.rows }
    {
        &self.rows
    }

    /// How a flight is to stand in lists, by identifiers.
    pub(crate) fn stands(&self) -> &Sorted<OfRegulation, Stand>
        ensures { result.now ≡ self.now.stands }
    {
        &self.stands
    }

    /// The lists that are written, or absences, by identifiers.
    pub fn lists(&self) -> &Few<OfRegulation, Option<SharedList>>
        ensures { result.now ≡ self.now.lists }
    {
        &self.lists
    }
}

//! Memory of items that were replaced.

ghost use Rattle.std.specs.Prelude.{◌≡◌, IfOk};
ghost use Rattle.std.specs.Arc.{arc_value};

use crate::item::Item;
use crate::version::Version;
use casa_time::Moment;
use std::alloc::{AllocError, Global};
use std::sync::Arc;

/// The largest number of items whose memory is kept.
const MOST_SPARE: usize = 32;

/// Memory of items that were replaced, for those that come in their place. What the items were is let go at once.
///
/// Contracts see nothing of it: an item is the same wherever it lies.
pub struct Spare {
    alloc: Global,
    items: Vec<Arc<Item>>,
}

impl Drop for Spare {
    fn drop(self) {
        let Spare { alloc: _, items: _ } = self;
    }
}

impl Spare {
    /// No memory, with room to keep some. `AllocError` where there is no memory for that.
    pub fn new(alloc: Global) -> Result<Spare, AllocError> {
        Ok(Spare {
            alloc,
            items: Vec::with_capacity(alloc, MOST_SPARE)?,
        })
    }

    /// Keeps the memory of an item, if nobody else has the item and there is room for it. `AllocError` where there is no
    /// memory to note it.
    fn keep(&mut self, item: Arc<Item>) -> Result<(), AllocError> {
        let mut item = item;
        if MOST_SPARE <= self.items.len() {
            return Ok(());
        }
        if let Some(place) = Arc::get_mut(&mut item) {
            *place = Item::Clock(Moment::new(0).unwrap());
            self.items.push(item)?;
        }
        Ok(())
    }

    /// Keeps the memory of a version that was replaced, if there was one and nobody else has its item. `AllocError` where
    /// there is no memory to note it.
    pub fn keep_replaced<V: Version>(&mut self, version: Option<V>) -> Result<(), AllocError> {
        let Some(version) = version else {
            return Ok(());
        };
        match version.into_item() {
            Some(item) => self.keep(item),
            None => Ok(()),
        }
    }

    /// An item, in memory that was kept if there is any. `AllocError` where there is no memory for it.
    pub fn put(&mut self, item: Item) -> Result<Arc<Item>, AllocError>
        ensures { IfOk result (λ shared. arc_value shared ≡ item) }
    {
        if let Some(mut shared) = self.items.pop() {
            if let Some(place) = Arc::get_mut(&mut shared) {
                *place = item;
                return Ok(shared);
            }
        }
        Ok(Arc::new(self.alloc, item)?)
    }
}

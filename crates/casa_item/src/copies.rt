ghost use Rattle.std.specs.Prelude.{◌≡◌, IfOk};
ghost use Rattle.casa_item.specs.Stood.{AreStood, DoneOr};

use crate::item::{Item, same_item};
use crate::seal::Seal;
use crate::stood::{Stands, stand_in_all};
use crate::version::{Stand, Store, Version};
use boxcar::tag::Tag;
use casa_flight::RegId;
use std::alloc::{AllocError, Global};
use std::collections::BTreeMap;
use std::marker::Model;
use std::sync::Arc;

/// A version in memory: its stamp with the item, which copies of the version share.
pub struct Copied {
    pub(crate) stamp: usize,
    pub(crate) item: Arc<Item>,
}

impl Model for Copied {
    ghost use Rattle.std.specs.Prelude.{ℕ};
    ghost use Rattle.std.specs.Arc.{arc_value};
    ghost use Rattle.casa_item.specs.declared.item.Item.{Item};

    ghost Value = { ℕ × Item };

    ghost view = { λ c. (c.stamp, arc_value c.item) };
}

impl Drop for Copied {
    fn drop(self) {
        let Copied { stamp: _, item: _ } = self;
    }
}

impl Version for Copied {
    ghost use Rattle.std.specs.Prelude.{[]};
    ghost use Rattle.casa_item.specs.Copies.{is_same_copy, same_copy, same_copy_stamp, copy_code};
    ghost use Rattle.casa_item.specs.Numbers.{numbers_by, told_by};

    ghost item_of = { λ c. c.1 };

    ghost stamp_of = { λ c. c.0 };

    ghost is_same = { is_same_copy };

    ghost seals = { record { tag = []; buckets = [] } };

    ghost numbers = { numbers_by copy_code };

    ghost told_apart = { told_by copy_code };

    fn item(&self) -> &Item {
        &self.item
    }

    fn same(&self, other: &Copied) -> bool {
        self.stamp == other.stamp && same_item(&self.item, &other.item)
    }

    fn try_clone(&self) -> Result<Copied, AllocError> {
        Ok(Copied {
            stamp: self.stamp,
            item: Arc::try_clone(&self.item)?,
        })
    }

    fn into_item(self) -> Option<Arc<Item>> {
        let Copied { stamp: _, item } = self;
        Some(item)
    }

    ghost same_itself = { same_copy };

    ghost same_stamp = { same_copy_stamp };
}

/// The largest number of lists that are changed where they lie, since the change of each waits for that of the next.
const MOST_STOOD: usize = 500;

/// The store that keeps each version in memory, as long as anyone has it.
#[derive(Drop)]
pub struct Copies;

impl Copies {
    /// The store. It takes no memory.
    pub fn new() -> Copies {
        Copies
    }
}

impl Store for Copies {
    ghost use Rattle.std.specs.Prelude.{false};

    type Version = Copied;

    ghost makes_seals = { false };

    fn put(&mut self, position: usize, item: Arc<Item>) -> Result<Copied, AllocError> {
        Ok(Copied {
            stamp: position,
            item,
        })
    }

    fn stand(
        &mut self,
        alloc: Global,
        lists: &mut BTreeMap<RegId, Copied>,
        position: usize,
        stands: &[(RegId, Stand)],
        place: &Copied,
    ) -> Result<bool, AllocError> {
        if MOST_STOOD < stands.len() {
            return Ok(false);
        }
        let all = Stands {
            alloc,
            position,
            stands,
            place,
        };
        stand_in_all(lists, &all)
    }

    fn again(&self) -> Copies {
        Copies
    }

    fn seal(&mut self, _state: Tag) -> Result<Option<Seal<Copied>>, AllocError> {
        Ok(None)
    }
}

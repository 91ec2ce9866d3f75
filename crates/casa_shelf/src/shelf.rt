//! Versions that are told by positions in a vector that only grows.

ghost use Rattle.std.specs.Prelude.{◌≡◌, [], IsTrue};
ghost use Rattle.std.specs.Arc.{arc_value};
ghost use Rattle.boxcar.specs.Table.{Shelves};

use boxcar::Pushed;
use boxcar::tag::{Names, Tag};
use casa_item::{Item, Seal, Seals, Store, Version};
use std::alloc::AllocError;
use std::marker::{Brand, Model, PhantomData};
use std::sync::{Arc, Wait};

/// Names a vector of positions. Each program picks what it stands for once, at the call to which it lends its vector.
pub trait Shelving {
    /// The vector, as contracts see it.
    ghost shelves: { Shelves };
}

impl Shelving for Brand {
    ghost shelves = { record { tag = []; buckets = [] } };
}

/// The numbers that stand for an item.
struct Contents;

impl Names<Item> for Contents {
    ghost use Rattle.casa_shelf.specs.Positions.{item_numbers};

    ghost numbers = { item_numbers };
}

/// A version on a shelf: its stamp, and its position there, beside the item, which copies of the version share. Nothing of
/// the item lies on the shelf, so that it goes with the last copy.
///
/// Contracts see the stamp, the position and the item.
#[derive(Drop)]
pub struct Shelved<'a, V: Shelving> {
    stamp: usize,
    token: Pushed<Tag>,
    shelf: &'a Seals,
    item: Arc<Item>,
    name: PhantomData<V>,
}

impl<'a, V: Shelving> Model for Shelved<'a, V> {
    ghost use Rattle.std.specs.Prelude.{◌≡◌, ℕ};
    ghost use Rattle.std.specs.Arc.{arc_value};
    ghost use Rattle.boxcar.specs.Table.{Shows};
    ghost use Rattle.casa_item.specs.declared.item.Item.{Item};
    ghost use Rattle.casa_shelf.specs.Positions.{item_numbers};

    ghost Value = { ℕ × ℕ × Item };

    ghost view = { λ s. (s.stamp, s.token.index, arc_value s.item) };

    ghost invariant = { λ s. Shows V.shelves s.token × (s.shelf.now ≡ V.shelves) × (s.token.value.numbers ≡ item_numbers (arc_value s.item)) };
}

impl<'a, V: Shelving> Shelved<'a, V> {
    ghost use Rattle.casa_shelf.specs.Positions.{is_same_position};

    /// Whether stamp and position are the same. A position was given for one item.
    fn same_position(&self, other: &Shelved<'a, V>) -> bool
        ensures same { result ≡ is_same_position self.now other.now }
        ensures shows { IsTrue result → self.now.2 ≡ other.now.2 }
    {
        if self.stamp == other.stamp && self.token.index() == other.token.index() {
            self.shelf.agrees(&self.token, &other.token);
            true
        } else {
            false
        }
    }
}

impl<'a, V: Shelving> Version for Shelved<'a, V> {
    ghost use Rattle.casa_item.specs.Numbers.{numbers_by, told_by};
    ghost use Rattle.casa_shelf.specs.Positions.{is_same_position, same_position, same_position_stamp, shelved_code};

    ghost item_of = { λ s. s.2 };

    ghost stamp_of = { λ s. s.0 };

    ghost is_same = { is_same_position };

    ghost seals = { V.shelves };

    ghost numbers = { numbers_by shelved_code };

    ghost told_apart = { told_by shelved_code };

    fn item(&self) -> &Item {
        &self.item
    }

    fn same(&self, other: &Shelved<'a, V>) -> bool {
        self.same_position(other)
    }

    fn try_clone(&self) -> Result<Shelved<'a, V>, AllocError> {
        Ok(Shelved {
            stamp: self.stamp,
            token: self.token.again(),
            shelf: self.shelf,
            item: Arc::try_clone(&self.item)?,
            name: PhantomData,
        })
    }

    fn into_item(self) -> Option<Arc<Item>> {
        let Shelved {
            stamp: _,
            token: _,
            shelf: _,
            item,
            name: _,
        } = self;
        Some(item)
    }

    ghost same_itself = { same_position };

    ghost same_stamp = { same_position_stamp };
}

/// The store that gives each version and each seal a position on a shelf: a vector that only grows, and that says of each
/// position, in proofs alone, what it was given for.
///
/// The type V names the vector, so that versions of others are of another type. To put a version or a seal may wait for
/// another thread that does the same, which is what the runtime R is for.
pub struct Shelf<'a, V: Shelving, R> {
    shelf: &'a Arc<Seals>,
    rt: &'a R,
    name: PhantomData<V>,
    ghost named: { arc_value shelf.now ≡ V.shelves },
}

impl<'a, V: Shelving, R> Shelf<'a, V, R> {
    /// The store over this vector. It takes no memory.
    pub fn new(shelf: &'a Arc<Seals>, rt: &'a R) -> Shelf<'a, V, R>
        requires { arc_value shelf.now ≡ V.shelves }
    {
        Shelf {
            shelf,
            rt,
            name: PhantomData,
        }
    }
}

impl<'a, V: Shelving, R> Drop for Shelf<'a, V, R> {
    fn drop(self) {
        let Shelf {
            shelf: _,
            rt: _,
            name: _,
        } = self;
    }
}

impl<'a, V: Shelving, R: Wait> Store for Shelf<'a, V, R> {
    ghost use Rattle.std.specs.Prelude.{true};

    type Version = Shelved<'a, V>;

    ghost makes_seals = { true };

    fn put(&mut self, position: usize, item: Arc<Item>) -> Result<Shelved<'a, V>, AllocError> {
        let tag = Tag::of::<Item, Contents>(&item);
        let Ok(token) = self.shelf.push_shown(self.rt, tag) else {
            return Err(AllocError);
        };
        Ok(Shelved {
            stamp: position,
            token,
            shelf: self.shelf,
            item,
            name: PhantomData,
        })
    }

    fn again(&self) -> Shelf<'a, V, R> {
        Shelf::new(self.shelf, self.rt)
    }

    fn seal(&mut self, state: Tag) -> Result<Option<Seal<Shelved<'a, V>>>, AllocError> {
        let Ok(token) = self.shelf.push_shown(self.rt, state) else {
            return Err(AllocError);
        };
        Ok(Some(Seal::of(token, Arc::try_clone(self.shelf)?)))
    }
}

ghost use Rattle.std.specs.Prelude.{◌≡◌, ℕ, List, Bool, true, IfOk, IfSome, IsTrue, is_some};
ghost use Rattle.std.specs.Arc.{arc_value};
ghost use Rattle.boxcar.specs.Table.{Shelves};
ghost use Rattle.casa_item.specs.declared.item.Item.{Item};
ghost use Rattle.casa_item.specs.Stood.{AreStood, DoneOr};

use crate::item::Item;
use crate::seal::Seal;
use boxcar::tag::Tag;
use casa_flight::{Key, RegId, Stance};
use std::alloc::{AllocError, Global};
use std::collections::BTreeMap;
use std::sync::Arc;

/// A version of an item: its stamp, and what it takes to read the item.
pub trait Version: Drop {
    /// The item as it stands in this version.
    ghost item_of: { Self → Item };

    /// The stamp: the position of the entry that wrote the version, 0 for what the empty board has.
    ghost stamp_of: { Self → ℕ };

    /// The versions are equal.
    ghost is_same: { Self → Self → Bool };

    /// The vector of the seals of what has such versions.
    ghost seals: { Shelves };

    /// Numbers that stand for the version.
    ghost numbers: { Self → List ℕ };

    /// They tell it from all others.
    ghost told_apart: { (v w : Self) → numbers v ≡ numbers w → v ≡ w };

    /// The item as it stands in this version.
    fn item(&self) -> &Item
        ensures { result.now ≡ item_of self.now };

    /// Whether the versions are equal. Equal versions show equal contents.
    fn same(&self, other: &Self) -> bool
        ensures same { result ≡ is_same self.now other.now }
        ensures shows { IsTrue result → item_of self.now ≡ item_of other.now };

    /// The same version once more. `AllocError` where there is no memory for it.
    fn try_clone(&self) -> Result<Self, AllocError>
        ensures { IfOk result (λ version. version ≡ self.now) };

    /// The item that the version shares with its copies; `None` where a store keeps it.
    fn into_item(self) -> Option<Arc<Item>>
    where
        Self: Sized,
        ensures { IfSome result (λ item. arc_value item ≡ item_of self) }
    {
        None
    }

    /// Each version is equal to itself.
    ghost same_itself: { (v : Self) → is_same v v ≡ true };

    /// Equal versions have the same stamp.
    ghost same_stamp: { (v w : Self) → is_same v w ≡ true → stamp_of v ≡ stamp_of w };
}

/// How a flight is to stand in a list: so, or not at all.
pub type Stand = (Key, Option<Stance>);

/// A store that keeps versions of items.
pub trait Store: Drop {
    type Version: Version;

    /// Keeps an item as the entry at this position writes it, and gives the version. `AllocError` where there is no
    /// memory for it.
    fn put(&mut self, position: usize, item: Arc<Item>) -> Result<Self::Version, AllocError>
        ensures item { IfOk result (λ version. Self.Version.item_of version ≡ arc_value item) }
        ensures number { IfOk result (λ version. Self.Version.stamp_of version ≡ position) };

    /// Has a flight stand so in each of these lists where they lie, or not at all, as the entry at this position writes
    /// them, and says whether: not where one of them is not there, or where the store can't. `place` is any version, which
    /// stands in for one that is being changed. `AllocError` where memory is refused. Nothing has changed where it isn't
    /// done.
    fn stand(
        &mut self,
        _alloc: Global,
        lists: &mut BTreeMap<RegId, Self::Version>,
        position: usize,
        stands: &[(RegId, Stand)],
        _place: &Self::Version,
    ) -> Result<bool, AllocError>
        ensures { DoneOr result
            (AreStood Self.Version.item_of Self.Version.stamp_of position stands.now
            lists.old.entries lists.new.entries)
            (lists.new.entries ≡ lists.old.entries) }
    {
        Ok(false)
    }

    /// The store once more, for a board that changes apart from this one's. What each keeps, the other's versions know. It
    /// takes no memory.
    fn again(&self) -> Self
    where
        Self: Sized;

    /// Whether the store makes seals.
    ghost makes_seals: { Bool };

    /// Seals what these numbers stand for; `None` where the store makes no seals. `AllocError` where there is no memory for
    /// it.
    fn seal(&mut self, state: Tag) -> Result<Option<Seal<Self::Version>>, AllocError>
        ensures made { IfOk result (λ made. is_some made ≡ makes_seals) }
        ensures numbers { IfOk result (λ made. IfSome made (λ seal. seal.1 ≡ state.numbers)) };
}

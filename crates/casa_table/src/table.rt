//! Values under names, of which views share all.

ghost use Rattle.std.specs.Prelude.{◌≡◌, ◌↔◌, ◌-◌, ◌||◌, List, [], length, Some, None, IfOk, OnOk, OnErr, IsTrue, if◌then◌else◌};
ghost use Rattle.std.specs.Arc.{arc_value};
ghost use Rattle.std.specs.Option.{option_copied, option_or};
ghost use Rattle.casa_filing.specs.Text.{Text, same_text, at_name, put, without};
ghost use Rattle.casa_flight.specs.Good.{AreInOrder};
ghost use Rattle.casa_item.specs.Stood.{AreStood, DoneOr};
ghost use Rattle.casa_table.specs.Laid.{with_value, with_changes};
ghost use Rattle.casa_table.specs.Sealed.{numbers_of, IsSealOf, IsSameSeal};

use crate::index::{Index, NoIndex};
use boxcar::tag::{Names, Tag};
use casa_flight::{Name, OfRegulation, RegId};
use casa_item::{Seal, Spare, Stand, Store, Version};
use std::alloc::{AllocError, Global};
use std::collections::BTreeMap;
use std::collections::btree_map::Entry;
use std::marker::Model;
use std::mem;
use std::sync::Arc;

/// Values under names, with an index of them.
///
/// Contracts see the entries, in the order of the names.
#[derive(Drop)]
pub(crate) struct Base<Kind, V, I: Index<Kind, V>> {
    values: Values<Kind, V>,
    pub(crate) index: I,
}

impl<Kind, V, I: Index<Kind, V>> Model for Base<Kind, V, I> {
    ghost use Rattle.std.specs.Prelude.{List};
    ghost use Rattle.casa_filing.specs.Text.{Text, at_name};
    ghost use Rattle.casa_flight.specs.Good.{AreInOrder};

    ghost Value = { List (Text × V) };

    ghost view = { λ b. b.values.entries };

    ghost invariant = { λ b. AreInOrder b.values.entries × I.covers b.index (at_name b.values.entries) };
}

/// The numbers that stand for all that a base has.
struct Contents;

impl<Kind, V: Version, I: Index<Kind, V>> Names<Base<Kind, V, I>> for Contents {
    ghost use Rattle.casa_table.specs.Sealed.{numbers_of};

    ghost numbers = { λ b. numbers_of V.numbers b };
}

impl<Kind, V, I: Index<Kind, V>> Base<Kind, V, I> {
    /// No values.
    fn new(alloc: Global) -> Base<Kind, V, I>
        ensures { result ≡ [] }
    {
        Base {
            values: BTreeMap::new(alloc),
            index: I::new(alloc),
        }
    }

    /// The value under a name.
    pub(crate) fn get(&self, name: &Name<Kind>) -> Option<&V>
        ensures value { option_copied result ≡ at_name self.now name.now }
        ensures ordered { AreInOrder self.now }
    {
        self.values.get(name)
    }

    /// All values.
    pub(crate) fn values(&self) -> &Values<Kind, V>
        ensures { result.now.entries ≡ self.now }
    {
        &self.values
    }
}

impl<Kind: Copy, V: Drop, I: Index<Kind, V>> Base<Kind, V, I> {
    /// Puts a value under a name, and gives the one that stood there. `AllocError` where there is no memory for it; the
    /// values are then as they were.
    fn put(&mut self, name: Name<Kind>, value: V) -> Result<Option<V>, AllocError>
        ensures written { OnOk result (self.new ≡ put self.old name value) }
        ensures unchanged { OnErr result (self.new ≡ self.old) }
        ensures ordered { OnOk result (AreInOrder self.old) }
    {
        match self.values.entry(name) {
            Ok(Entry::Occupied(entry)) => {
                let place = entry.into_mut();
                self.index.note(&name, &value, Some(&*place))?;
                self.index.forget(&name, &*place, Some(&value));
                Ok(Some(mem::replace(place, value)))
            }
            Ok(Entry::Vacant(entry)) => {
                let earlier: Option<V> = None;
                self.index.note(&name, &value, earlier.as_ref())?;
                entry.insert(value);
                Ok(None)
            }
            Err(_) => Err(AllocError),
        }
    }

    /// Takes out the value under a name.
    fn remove(&mut self, name: &Name<Kind>) -> Option<V>
        ensures left { self.new ≡ without self.old name.now }
        ensures ordered { AreInOrder self.old }
    {
        let gone = self.values.remove(name)?;
        self.index.forget(name, &gone, self.values.get(name));
        Some(gone)
    }
}

impl<Kind: Copy, V: Version, I: Index<Kind, V>> Base<Kind, V, I> {
    /// Makes a change, and gives the value that stood there. `AllocError` where there is no memory for it; the values are
    /// then as they were.
    fn write(&mut self, name: &Name<Kind>, change: &Option<V>) -> Result<Option<V>, AllocError>
        ensures written { OnOk result (self.new ≡ with_value self.old name.now change.now) }
        ensures unchanged { OnErr result (self.new ≡ self.old) }
        ensures ordered { OnOk result (AreInOrder self.old) }
    {
        match change {
            Some(value) => self.put(*name, value.try_clone()?),
            None => Ok(self.remove(name)),
        }
    }

    /// Moves all changes over to the values, and keeps the memory of what they replace. `AllocError` where there is no memory
    /// for one; they all stand there still then, and what they lead to is the same.
    fn absorb(
        &mut self,
        changes: &mut Changes<Kind, V>,
        spare: &mut Spare,
    ) -> Result<(), AllocError>
        ensures same { with_changes changes.new.entries self.new
            ≡ with_changes changes.old.entries self.old }
        ensures done { OnOk result (changes.new.entries ≡ []) }
        ensures ordered { AreInOrder self.old → AreInOrder self.new }
        ensures changes_ordered { AreInOrder changes.old.entries → AreInOrder changes.new.entries }
    {
        for (name, change) in changes.iter() {
            let replaced = self.write(name, change)?;
            spare.keep_replaced(replaced)?;
        }
        changes.clear();
        Ok(())
    }

    /// The same values, in memory of their own.
    fn copied(&self, alloc: Global) -> Result<Base<Kind, V, I>, AllocError>
        ensures { IfOk result (λ copy. copy ≡ self.now) }
    {
        let mut copy = Base::new(alloc);
        for (name, value) in &self.values {
            copy.put(*name, value.try_clone()?)?;
        }
        Ok(copy)
    }

    /// The values after these changes, in memory of their own.
    fn merged(
        &self,
        alloc: Global,
        changes: &Changes<Kind, V>,
    ) -> Result<Base<Kind, V, I>, AllocError>
        ensures { IfOk result (λ merged. merged ≡ with_changes changes.now.entries self.now) }
    {
        let mut merged = self.copied(alloc)?;
        for (name, change) in changes {
            merged.write(name, change)?;
        }
        Ok(merged)
    }
}

impl<V: Version> Base<OfRegulation, V, NoIndex> {
    /// Has a flight stand so in each of these lists where they lie, or not at all, as the entry at this position writes
    /// them, and says whether: not where one of them is not there, or where the store can't. `AllocError` where there is no
    /// memory for it. Nothing has changed where it isn't done.
    fn stand<K: Store<Version = V>>(
        &mut self,
        alloc: Global,
        store: &mut K,
        position: usize,
        stands: &[(RegId, Stand)],
        place: &V,
    ) -> Result<bool, AllocError>
        ensures stood { DoneOr result
            (AreStood V.item_of V.stamp_of position stands.now self.old self.new)
            (self.new ≡ self.old) }
        ensures ordered { AreInOrder self.new }
    {
        store.stand(alloc, &mut self.values, position, stands, place)
    }
}

/// Values under names.
pub type Values<Kind, V> = BTreeMap<Name<Kind>, V>;

/// Changes under names: the value that comes, or none where one goes.
pub type Changes<Kind, V> = BTreeMap<Name<Kind>, Option<V>>;

/// The largest number of changes that may lie beside a base that a view shares, before a base is made anew.
const MOST_BESIDE: usize = 4096;

/// Values under names, which change in two steps: `fit` makes the changes ready, and `adopt` makes them its own, which takes
/// no memory.
///
/// A view may share all values, and what is shared does not change. So while a view has them, changes lie beside them;
/// they are moved in when no view has them any more. A seal tells the values of the base from all others; it comes off
/// when changes are moved in.
///
/// Contracts see the entries, those that it will have once it adopts the changes, and whether the base is sealed.
pub struct Table<Kind, V: Version, I: Index<Kind, V>> {
    alloc: Global,
    base: Arc<Base<Kind, V, I>>,
    seal: Option<Seal<V>>,
    recent: Arc<Changes<Kind, V>>,
    coming: Arc<Changes<Kind, V>>,
}

impl<Kind, V: Version, I: Index<Kind, V>> Model for Table<Kind, V, I> {
    ghost use Rattle.std.specs.Prelude.{is_some};
    ghost use Rattle.std.specs.Arc.{arc_value};
    ghost use Rattle.casa_table.specs.Laid.{with_changes, TableEntries};
    ghost use Rattle.casa_table.specs.Sealed.{IsSealOf};
    ghost use Rattle.casa_flight.specs.Good.{AreInOrder};

    ghost Value = { TableEntries V };

    ghost view = { λ t. record {
      entries = with_changes (arc_value t.recent).entries (arc_value t.base);
      next = with_changes (arc_value t.coming).entries (arc_value t.base);
      sealed = is_some t.seal;
    } };

    ghost invariant = { λ t.
        AreInOrder (arc_value t.base) × AreInOrder (arc_value t.recent).entries × AreInOrder (arc_value t.coming).entries
        × IsSealOf V.numbers (arc_value t.base) t.seal };
}

impl<Kind, V: Version, I: Index<Kind, V>> Drop for Table<Kind, V, I> {
    fn drop(self) {
        let Table {
            alloc: _,
            base: _,
            seal: _,
            recent: _,
            coming: _,
        } = self;
    }
}

impl<Kind: Copy, V: Version, I: Index<Kind, V>> Table<Kind, V, I> {
    /// No values.
    pub fn new(alloc: Global) -> Result<Table<Kind, V, I>, AllocError>
        ensures { IfOk result (λ table. table.entries ≡ []) }
    {
        Ok(Table {
            alloc,
            base: Arc::new(alloc, Base::new(alloc))?,
            seal: None,
            recent: Arc::new(alloc, BTreeMap::new(alloc))?,
            coming: Arc::new(alloc, BTreeMap::new(alloc))?,
        })
    }

    /// The value under a name.
    pub fn get(&self, name: &Name<Kind>) -> Option<&V>
        ensures value { option_copied result ≡ at_name self.now.entries name.now }
        ensures ordered { AreInOrder self.now.entries }
    {
        match self.recent.get(name) {
            Some(change) => change.as_ref(),
            None => self.base.get(name),
        }
    }

    /// All values, shared: this takes two counts, whatever their number.
    pub fn share(&self) -> Result<Shared<Kind, V, I>, AllocError>
        ensures { IfOk result (λ shared. shared ≡ self.now.entries) }
    {
        Ok(Shared {
            base: Arc::try_clone(&self.base)?,
            seal: seal_again(&self.seal)?,
            recent: Arc::try_clone(&self.recent)?,
        })
    }

    /// A table with the same values, which changes apart from this one. What both have now they share, and neither changes it:
    /// this takes some counts and a little memory, whatever the number of values. `AllocError` where there is none for it.
    pub fn fork(&self) -> Result<Table<Kind, V, I>, AllocError>
        ensures { IfOk result (λ table. table.entries ≡ self.now.entries) }
    {
        Ok(Table {
            alloc: self.alloc,
            base: Arc::try_clone(&self.base)?,
            seal: seal_again(&self.seal)?,
            recent: Arc::try_clone(&self.recent)?,
            coming: Arc::new(self.alloc, BTreeMap::new(self.alloc))?,
        })
    }

    /// Seals the values of the base, unless they are sealed or the store makes no seals, so that those that are shared now
    /// need not be compared with those that will be here then. `AllocError` where there is no memory for it.
    pub fn seal<K: Store<Version = V>>(&mut self, store: &mut K) -> Result<(), AllocError>
        ensures same { self.new.entries ≡ self.old.entries }
        ensures sealed { OnOk result (self.new.sealed ≡ (self.old.sealed || K.makes_seals)) }
    {
        if self.seal.is_none() {
            self.seal = store.seal(Tag::of::<Base<Kind, V, I>, Contents>(&self.base))?;
        }
        Ok(())
    }

    /// The values of the base and the changes beside it, here and where they were shared, and whether seals tell that the
    /// values of the two bases are the same.
    pub(crate) fn sides<'a>(&'a self, shared: &'a Shared<Kind, V, I>) -> Sides<'a, Kind, V>
        ensures ours { with_changes result.our_changes.now.entries result.ours.now.entries
            ≡ self.now.entries }
        ensures theirs { with_changes result.their_changes.now.entries result.theirs.now.entries
            ≡ shared.now }
        ensures our_order { AreInOrder result.ours.now.entries
            × AreInOrder result.our_changes.now.entries }
        ensures their_order { AreInOrder result.theirs.now.entries
            × AreInOrder result.their_changes.now.entries }
        ensures alike { IsTrue result.alike → result.ours.now.entries ≡ result.theirs.now.entries }
    {
        Sides {
            ours: self.base.values(),
            our_changes: &self.recent,
            theirs: shared.base.values(),
            their_changes: &shared.recent,
            alike: same_seal(&self.seal, &shared.seal),
        }
    }

    /// Moves the changes that lie beside the base into it, if no view has it, or into a new one, if they are too many.
    /// What is replaced leaves its memory to the spare. `AllocError` where there is no memory for it.
    pub fn consolidate(&mut self, spare: &mut Spare) -> Result<(), AllocError>
        ensures { self.new.entries ≡ self.old.entries }
    {
        absorb_alone(&mut self.base, &mut self.seal, &mut self.recent, spare)?;
        if MOST_BESIDE < self.recent.len() {
            let base = Arc::new(self.alloc, self.base.merged(self.alloc, &self.recent)?)?;
            self.recent = Arc::new(self.alloc, BTreeMap::new(self.alloc))?;
            self.seal = None;
            self.base = base;
        }
        Ok(())
    }

    /// No changes, in the memory of those that were made ready before, where no view has them.
    pub fn spare(&mut self) -> Changes<Kind, V>
        ensures none { result.entries ≡ [] }
        ensures same { self.new.entries ≡ self.old.entries }
    {
        let mut spare = BTreeMap::new(self.alloc);
        if let Some(coming) = Arc::get_mut(&mut self.coming) {
            mem::swap(&mut spare, coming);
        }
        if !spare.is_empty() {
            spare.clear();
        }
        spare
    }

    /// Makes changes ready to be adopted, with those that lie beside the base. `AllocError` where there is no memory for
    /// them; the values are then as they were.
    pub fn fit(&mut self, changes: Changes<Kind, V>) -> Result<(), AllocError>
        ensures same { self.new.entries ≡ self.old.entries }
        ensures next { OnOk result (self.new.next ≡ with_changes changes.entries self.new.entries) }
    {
        if changes.is_empty() && self.recent.is_empty() && self.coming.is_empty() {
            return Ok(());
        }
        let mut changes = changes;
        keep_others(&mut changes, &self.recent)?;
        put_shared(self.alloc, &mut self.coming, changes)
    }

    /// Adopts the changes that were made ready.
    pub fn adopt(&mut self)
        ensures entries { self.new.entries ≡ self.old.next }
        ensures next { self.new.next ≡ self.old.entries }
    {
        mem::swap(&mut self.recent, &mut self.coming);
    }
}

impl<V: Version> Table<OfRegulation, V, NoIndex> {
    /// Has a flight stand so in each of these lists where they lie, or not at all, as the entry at this position writes
    /// them, and says whether: not where a view has them, where changes lie beside them, where one of them is not there, or
    /// where the store can't. `place` is any version. `AllocError` where there is no memory for it. Nothing has changed
    /// where it isn't done.
    pub fn stand<K: Store<Version = V>>(
        &mut self,
        store: &mut K,
        position: usize,
        stands: &[(RegId, Stand)],
        place: &V,
    ) -> Result<bool, AllocError>
        ensures stood { DoneOr result
            (AreStood V.item_of V.stamp_of position stands.now self.old.entries self.new.entries)
            (self.new.entries ≡ self.old.entries) }
        ensures ordered { AreInOrder self.old.entries → AreInOrder self.new.entries }
    {
        if !self.recent.is_empty() {
            return Ok(false);
        }
        let Some(base) = Arc::get_mut(&mut self.base) else {
            return Ok(false);
        };
        let done = base.stand(self.alloc, store, position, stands, place)?;
        if done {
            self.seal = None;
        }
        Ok(done)
    }
}

/// Puts a value in place of one that copies may share: where none does, in the memory that it has. `AllocError` where
/// there is no memory for it; the old value is then there still.
fn put_shared<T: Drop>(alloc: Global, shared: &mut Arc<T>, value: T) -> Result<(), AllocError>
    ensures put { OnOk result (arc_value shared.new ≡ value) }
    ensures kept { OnErr result (arc_value shared.new ≡ arc_value shared.old) }
{
    if let Some(place) = Arc::get_mut(shared) {
        *place = value;
        return Ok(());
    }
    *shared = Arc::new(alloc, value)?;
    Ok(())
}

/// What a table and what it shared have: the values of each base, the changes beside it, and whether it is known already
/// that the values of the two bases are the same.
#[derive(Drop)]
pub(crate) struct Sides<'a, Kind, V> {
    pub ours: &'a Values<Kind, V>,
    pub our_changes: &'a Changes<Kind, V>,
    pub theirs: &'a Values<Kind, V>,
    pub their_changes: &'a Changes<Kind, V>,
    pub alike: bool,
}

/// The seal once more, if there is one.
fn seal_again<V: Version>(seal: &Option<Seal<V>>) -> Result<Option<Seal<V>>, AllocError>
    ensures { IfOk result (λ copy. copy ≡ seal.now) }
{
    match seal {
        Some(seal) => Ok(Some(seal.try_clone()?)),
        None => Ok(None),
    }
}

/// Whether there are seals, and they are the same: of the same entries, then.
fn same_seal<V: Version>(one: &Option<Seal<V>>, other: &Option<Seal<V>>) -> bool
    ensures { IsTrue result ↔ IsSameSeal one.now other.now }
{
    match (one, other) {
        (Some(one), Some(other)) => one.same(other),
        _ => false,
    }
}

/// Moves all changes over to the values, if no view has either. Then the seal comes off.
fn absorb_alone<Kind: Copy, V: Version, I: Index<Kind, V>>(
    base: &mut Arc<Base<Kind, V, I>>,
    seal: &mut Option<Seal<V>>,
    changes: &mut Arc<Changes<Kind, V>>,
    spare: &mut Spare,
) -> Result<(), AllocError>
    ensures same { with_changes (arc_value changes.new).entries (arc_value base.new)
        ≡ with_changes (arc_value changes.old).entries (arc_value base.old) }
    ensures ordered { AreInOrder (arc_value base.old) → AreInOrder (arc_value base.new) }
    ensures changes_ordered { AreInOrder (arc_value changes.old).entries
        → AreInOrder (arc_value changes.new).entries }
    ensures sealed { IsSealOf V.numbers (arc_value base.old) seal.old
        → IsSealOf V.numbers (arc_value base.new) seal.new }
{
    if changes.is_empty() {
        return Ok(());
    }
    if let Some(base) = Arc::get_mut(base) {
        if let Some(changes) = Arc::get_mut(changes) {
            *seal = None;
            base.absorb(changes, spare)?;
        }
    }
    Ok(())
}

/// Keeps an earlier change, unless there is another one under its name.
fn keep<Kind: Copy, V: Version>(
    changes: &mut Changes<Kind, V>,
    name: &Name<Kind>,
    change: &Option<V>,
) -> Result<(), AllocError>
    ensures ordered { AreInOrder changes.old.entries → AreInOrder changes.new.entries }
    ensures kept { OnOk result ((q : Text) →
        at_name changes.new.entries q
        ≡ option_or (at_name changes.old.entries q)
        (if same_text name.now q then Some change.now else None)) }
{
    if changes.contains_key(name) {
        return Ok(());
    }
    let change = match change {
        Some(value) => Some(value.try_clone()?),
        None => None,
    };
    changes.insert(*name, change)?;
    Ok(())
}

/// Keeps earlier changes, but for those under whose names there are others.
fn keep_others<Kind: Copy, V: Version>(
    changes: &mut Changes<Kind, V>,
    earlier: &Changes<Kind, V>,
) -> Result<(), AllocError>
    ensures were_ordered { AreInOrder changes.old.entries }
    ensures ordered { AreInOrder changes.new.entries }
    ensures kept { OnOk result ((q : Text) →
        at_name changes.new.entries q
        ≡ option_or (at_name changes.old.entries q) (at_name earlier.now.entries q)) }
{
    // That the names ascend is known of a map from its length.
    let _count = changes.len();
    for (name, change) in earlier {
        keep(changes, name, change)?;
    }
    Ok(())
}

/// All values of a table, as they stood when they were shared.
///
/// Contracts see the entries.
pub struct Shared<Kind, V: Version, I: Index<Kind, V>> {
    pub(crate) base: Arc<Base<Kind, V, I>>,
    seal: Option<Seal<V>>,
    pub(crate) recent: Arc<Changes<Kind, V>>,
}

impl<Kind, V: Version, I: Index<Kind, V>> Model for Shared<Kind, V, I> {
    ghost use Rattle.std.specs.Prelude.{List};
    ghost use Rattle.std.specs.Arc.{arc_value};
    ghost use Rattle.casa_filing.specs.Text.{Text};
    ghost use Rattle.casa_flight.specs.Good.{AreInOrder};
    ghost use Rattle.casa_table.specs.Laid.{with_changes};
    ghost use Rattle.casa_table.specs.Sealed.{IsSealOf};

    ghost Value = { List (Text × V) };

    ghost view = { λ s. with_changes (arc_value s.recent).entries (arc_value s.base) };

    ghost invariant = { λ s. AreInOrder (arc_value s.base) × AreInOrder (arc_value s.recent).entries
        × IsSealOf V.numbers (arc_value s.base) s.seal };
}

impl<Kind, V: Version, I: Index<Kind, V>> Drop for Shared<Kind, V, I> {
    fn drop(self) {
        let Shared {
            base: _,
            seal: _,
            recent: _,
        } = self;
    }
}

impl<Kind, V: Version, I: Index<Kind, V>> Shared<Kind, V, I> {
    /// The value under a name.
    pub fn get(&self, name: &Name<Kind>) -> Option<&V>
        ensures value { option_copied result ≡ at_name self.now name.now }
        ensures ordered { AreInOrder self.now }
    {
        match self.recent.get(name) {
            Some(change) => change.as_ref(),
            None => self.base.get(name),
        }
    }

    /// The values of the base, and the changes that lie beside it.
    pub fn layers(&self) -> (&Values<Kind, V>, &Changes<Kind, V>)
        ensures laid { with_changes result.1.now.entries result.0.now.entries ≡ self.now }
        ensures ordered { AreInOrder result.0.now.entries × AreInOrder result.1.now.entries }
    {
        (self.base.values(), &self.recent)
    }
}

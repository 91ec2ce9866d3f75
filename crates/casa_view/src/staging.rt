//! How a change is written: its versions are made, and then they are adopted.

ghost use Rattle.std.specs.Prelude.{◌≡◌, [], OnOk, OnErr, IfOk, unwrap_or};
ghost use Rattle.std.specs.Option.{option_map};
ghost use Rattle.casa_filing.specs.Text.{Text, at_name, put};
ghost use Rattle.casa_flight.specs.Listing.{Listing};
ghost use Rattle.casa_flight.specs.Good.{AreInOrder};
ghost use Rattle.casa_plan_spec.specs.Sight.{says, with_flight};
ghost use Rattle.casa_view.specs.Board.{versions, next_versions, catalogue_written};
ghost use Rattle.casa_view.specs.Change.{IsApplied};
ghost use Rattle.casa_item.specs.Versions.{IsInOrder, moment_of, regulations_of, list_at};
ghost use Rattle.casa_item.specs.Stood.{DoneOr};
ghost use Rattle.casa_view.specs.Next.{AreAlike, NextOne, NextRow, NextList, NextStand, OthersAreReady, TurnsTo, listed, list_among};

use crate::change::Change;
use crate::contents::shared_list_in;
use crate::items::Items;
use casa_flight::{Key, Name, OfFlight, OfRegulation, RegId, Row};
use casa_list::SharedList;
use casa_named::{Few, Sorted};
use casa_stance::with_flight;
use casa_table::{Changes, Item, NoIndex, Spare, Stand, Store, Table, Version};
use casa_time::Moment;
use std::alloc::{AllocError, Global};
use std::mem;
use std::sync::Arc;

/// The version of an item.
fn version<K: Store>(
    store: &mut K,
    spare: &mut Spare,
    position: usize,
    item: Item,
) -> Result<K::Version, AllocError>
    ensures item { IfOk result (λ v. K.Version.item_of v ≡ item) }
    ensures number { IfOk result (λ v. K.Version.stamp_of v ≡ position) }
{
    store.put(position, spare.put(item)?)
}

/// The version of the clock, if it is written.
fn clock_version<K: Store>(
    store: &mut K,
    spare: &mut Spare,
    position: usize,
    clock: Option<Moment>,
) -> Result<Option<K::Version>, AllocError>
    ensures { IfOk result (NextOne K.Version.item_of K.Version.stamp_of position moment_of clock) }
{
    match clock {
        Some(at) => Ok(Some(version(store, spare, position, Item::Clock(at))?)),
        None => Ok(None),
    }
}

/// The version of the catalogue, if it is written.
fn catalogue_version<K: Store>(
    store: &mut K,
    position: usize,
    catalogue: &Option<Arc<Item>>,
) -> Result<Option<K::Version>, AllocError>
    ensures { IfOk result (NextOne K.Version.item_of K.Version.stamp_of position regulations_of
        (catalogue_written catalogue.now)) }
{
    match catalogue {
        Some(item) => Ok(Some(store.put(position, Arc::try_clone(item)?)?)),
        None => Ok(None),
    }
}

/// The version of a flight's row. An absent row has none.
fn row_version<K: Store>(
    store: &mut K,
    spare: &mut Spare,
    position: usize,
    key: Key,
    row: &Option<Row>,
) -> Result<Option<K::Version>, AllocError>
    ensures { IfOk result (NextRow K.Version.item_of K.Version.stamp_of position row.now) }
{
    let Some(row) = row else {
        return Ok(None);
    };
    let item = Item::Row(key, Some(row.clone()?));
    Ok(Some(version(store, spare, position, item)?))
}

/// The version of a list, or of its absence, which keeps the number of the close.
fn list_version<K: Store>(
    store: &mut K,
    spare: &mut Spare,
    position: usize,
    id: RegId,
    list: &Option<SharedList>,
) -> Result<Option<K::Version>, AllocError>
    ensures { IfOk result (NextList K.Version.item_of K.Version.stamp_of position list.now) }
{
    let list = match list {
        Some(list) => Some(list.share()?),
        None => None,
    };
    Ok(Some(version(store, spare, position, Item::List(id, list))?))
}

/// Puts a version, or that there is none, under a name.
fn put_version<Kind, V: Drop>(
    versions: &mut Changes<Kind, V>,
    name: Name<Kind>,
    version: Option<V>,
) -> Result<(), AllocError>
    ensures put { OnOk result (versions.new.entries ≡ put versions.old.entries name version) }
    ensures ordered { AreInOrder versions.new.entries }
{
    versions.insert(name, version)?;
    Ok(())
}

/// The versions of the rows of a change, in memory that is to spare.
fn row_versions<K: Store>(
    store: &mut K,
    spare: &mut Spare,
    position: usize,
    rows: &Few<OfFlight, Option<Row>>,
    empty: Changes<OfFlight, K::Version>,
) -> Result<Changes<OfFlight, K::Version>, AllocError>
    requires { empty.entries ≡ [] }
    ensures versions { IfOk result (λ versions.
        AreAlike (NextRow K.Version.item_of K.Version.stamp_of position) rows.now
        versions.entries) }
    ensures ordered { IfOk result (λ versions. AreInOrder versions.entries) }
{
    let mut versions = empty;
    for (key, row) in rows.iter() {
        let version = row_version(store, spare, position, *key, row)?;
        put_version(&mut versions, *key, version)?;
    }
    Ok(versions)
}

/// The versions of the lists of a change, in memory that is to spare.
fn list_versions<K: Store>(
    store: &mut K,
    spare: &mut Spare,
    position: usize,
    lists: &Few<OfRegulation, Option<SharedList>>,
    empty: Changes<OfRegulation, K::Version>,
) -> Result<Changes<OfRegulation, K::Version>, AllocError>
    requires { empty.entries ≡ [] }
    ensures versions { IfOk result (λ versions.
        AreAlike (NextList K.Version.item_of K.Version.stamp_of position) lists.now
        versions.entries) }
    ensures ordered { IfOk result (λ versions. AreInOrder versions.entries) }
{
    let mut versions = empty;
    for (id, list) in lists.iter() {
        let version = list_version(store, spare, position, *id, list)?;
        put_version(&mut versions, *id, version)?;
    }
    Ok(versions)
}

/// The list in which a flight stands so, or not at all, as a table has it, if it has it. `AllocError` where there is no
/// memory for it.
fn stood<V: Version>(
    alloc: Global,
    table: &Table<OfRegulation, V, NoIndex>,
    id: &RegId,
    stand: &Stand,
) -> Result<Option<SharedList>, AllocError>
    ensures { IfOk result (λ list. list ≡
        option_map (λ (l : Listing). with_flight l stand.now.0 stand.now.1)
        (list_among V.item_of table.now.entries id.now)) }
{
    match table.get(id) {
        Some(version) => match shared_list_in(version.item()) {
            Some(list) => Ok(Some(with_flight(alloc, list.share()?, stand.0, stand.1)?)),
            None => Ok(None),
        },
        None => Ok(None),
    }
}

/// The version of the list in which a flight stands so, or not at all, as a table has it, or of its absence.
fn stood_version<K: Store>(
    alloc: Global,
    store: &mut K,
    spare: &mut Spare,
    position: usize,
    table: &Table<OfRegulation, K::Version, NoIndex>,
    id: &RegId,
    stand: &Stand,
) -> Result<Option<K::Version>, AllocError>
    ensures { IfOk result (NextList K.Version.item_of K.Version.stamp_of position
        (option_map (λ (l : Listing). with_flight l stand.now.0 stand.now.1)
        (list_among K.Version.item_of table.now.entries id.now))) }
{
    let list = stood(alloc, table, id, stand)?;
    list_version(store, spare, position, *id, &list)
}

/// These versions, with those of the lists in which a flight is to stand so, each as the table has it.
fn with_stood<K: Store>(
    alloc: Global,
    store: &mut K,
    spare: &mut Spare,
    position: usize,
    table: &Table<OfRegulation, K::Version, NoIndex>,
    stands: &Sorted<OfRegulation, Stand>,
    versions: Changes<OfRegulation, K::Version>,
) -> Result<Changes<OfRegulation, K::Version>, AllocError>
    ensures versions { IfOk result (λ all. (q : Text) →
        NextStand K.Version.item_of K.Version.stamp_of position
        (list_among K.Version.item_of table.now.entries) q (at_name stands.now q)
        (at_name versions.entries q) (at_name all.entries q)) }
    ensures ordered { AreInOrder versions.entries → IfOk result (λ all. AreInOrder all.entries) }
{
    let mut all = versions;
    for (id, stand) in stands.iter() {
        let version = stood_version(alloc, store, spare, position, table, id, stand)?;
        put_version(&mut all, *id, version)?;
    }
    Ok(all)
}

/// Puts the next version in place of the present one, if there is a next one, and that one in place of the next.
fn adopt_next<V: Drop>(version: &mut V, next: &mut Option<V>)
    ensures { version.new ≡ unwrap_or next.old version.old }
{
    if let Some(next) = next {
        mem::swap(version, next);
    }
}

impl<V: Version> Items<V> {
    /// Moves in what lies beside the rows and the lists, where no view has them. `AllocError` where there is no memory for
    /// it.
    pub(crate) fn consolidate(&mut self) -> Result<(), AllocError>
        ensures { versions self.new ≡ versions self.old }
    {
        self.rows.consolidate(&mut self.spare)?;
        self.lists.consolidate(&mut self.spare)
    }

    /// Seals the rows and the lists, so that views of all items that are taken now are told by their seals, and no item is
    /// compared. `AllocError` where there is no memory for it.
    pub(crate) fn seal<K: Store<Version = V>>(&mut self, store: &mut K) -> Result<(), AllocError>
        ensures { versions self.new ≡ versions self.old }
    {
        self.rows.seal(store)?;
        self.lists.seal(store)
    }

    /// Adopts the versions that were made ready, but for those of lists.
    fn adopt_others(&mut self)
        ensures others { versions self.new ≡ record (next_versions self.old) {
          lists = self.old.lists.entries;
        } }
        ensures lists { self.new.lists ≡ self.old.lists }
    {
        adopt_next(&mut self.clock, &mut self.next_clock);
        adopt_next(&mut self.catalogue, &mut self.next_catalogue);
        self.rows.adopt();
    }

    /// Adopts the versions that were made ready. It takes no memory, and no longer for many items than for one.
    pub(crate) fn adopt(&mut self)
        ensures { versions self.new ≡ next_versions self.old }
    {
        self.adopt_others();
        self.lists.adopt();
    }
}

/// Makes ready what a change writes besides lists, as the entry at this position. `AllocError` where there is no memory for
/// it; the versions are then as they were.
fn fit_others<K: Store>(
    store: &mut K,
    items: &mut Items<K::Version>,
    position: usize,
    change: &Change,
) -> Result<(), AllocError>
    ensures same { versions items.new ≡ versions items.old }
    ensures ready { OnOk result (OthersAreReady K.Version.item_of K.Version.stamp_of position
        change.now items.new.next_clock items.new.next_catalogue items.new.rows.entries
        items.new.rows.next) }
{
    items.consolidate()?;
    items.spare.keep_replaced(items.next_clock.take())?;
    items.spare.keep_replaced(items.next_catalogue.take())?;
    items.next_clock = clock_version(store, &mut items.spare, position, change.clock())?;
    items.next_catalogue = catalogue_version(store, position, change.catalogue())?;
    let empty = items.rows.spare();
    let rows = row_versions(store, &mut items.spare, position, change.rows(), empty)?;
    items.rows.fit(rows)
}

/// Makes ready what a change writes of lists, as the entry at this position. `AllocError` where there is no memory for it;
/// the versions are then as they were.
fn fit_lists<K: Store>(
    alloc: Global,
    store: &mut K,
    spare: &mut Spare,
    position: usize,
    lists: &mut Table<OfRegulation, K::Version, NoIndex>,
    change: &Change,
) -> Result<(), AllocError>
    requires { AreInOrder lists.old.entries }
    ensures same { lists.new.entries ≡ lists.old.entries }
    ensures ready { OnOk result (AreInOrder lists.new.next × ((q : Text) →
        TurnsTo K.Version.item_of K.Version.stamp_of position
        (listed (list_among K.Version.item_of lists.old.entries) change.now q)
        (at_name lists.old.entries q) (at_name lists.new.next q))) }
{
    let empty = lists.spare();
    let versions = list_versions(store, spare, position, change.lists(), empty)?;
    let stands = change.stands();
    let all = with_stood(alloc, store, spare, position, lists, stands, versions)?;
    lists.fit(all)
}

/// Makes ready what a change writes as the entry at this position. `AllocError` where there is no memory for it; the
/// versions are then as they were.
pub(crate) fn fit<K: Store>(
    alloc: Global,
    store: &mut K,
    items: &mut Items<K::Version>,
    position: usize,
    change: &Change,
) -> Result<(), AllocError>
    requires { IsInOrder (versions items.old) }
    ensures same { versions items.new ≡ versions items.old }
    ensures room { OnOk result (IsApplied K.Version.item_of K.Version.stamp_of
        (says (list_at K.Version.item_of (versions items.new)) change.now) position
        (versions items.new) (next_versions items.new)) }
{
    fit_others(store, items, position, change)?;
    fit_lists(
        alloc,
        store,
        &mut items.spare,
        position,
        &mut items.lists,
        change,
    )
}

/// Has a flight stand so in lists where they lie, as the entry at this position writes them, and says whether: not where a
/// change says nothing of that, or writes other lists too, or where one can't be changed where it lies. `AllocError` where
/// there is no memory for it. The versions are as they were where it isn't done.
fn stand_in_place<K: Store>(
    store: &mut K,
    position: usize,
    lists: &mut Table<OfRegulation, K::Version, NoIndex>,
    change: &Change,
    place: &K::Version,
) -> Result<bool, AllocError>
    ensures stood { DoneOr result
        ((q : Text) → TurnsTo K.Version.item_of K.Version.stamp_of position
        (listed (list_among K.Version.item_of lists.old.entries) change.now q)
        (at_name lists.old.entries q) (at_name lists.new.entries q))
        (lists.new.entries ≡ lists.old.entries) }
    ensures ordered { AreInOrder lists.old.entries → AreInOrder lists.new.entries }
{
    if change.stands().is_empty() || !change.lists().is_empty() {
        return Ok(false);
    }
    lists.stand(store, position, change.stands().as_slice(), place)
}

/// Writes a change as the entry at this position: its lists where they lie, if they can be changed there, and all else by
/// versions that are made ready and adopted. `AllocError` where there is no memory for it; the versions are then as they
/// were.
pub(crate) fn write<K: Store>(
    alloc: Global,
    store: &mut K,
    items: &mut Items<K::Version>,
    position: usize,
    change: &Change,
) -> Result<(), AllocError>
    requires { IsInOrder (versions items.old) }
    ensures written { OnOk result (IsApplied K.Version.item_of K.Version.stamp_of
        (says (list_at K.Version.item_of (versions items.old)) change.now) position
        (versions items.old) (versions items.new)) }
    ensures same { OnErr result (versions items.new ≡ versions items.old) }
{
    fit_others(store, items, position, change)?;
    if stand_in_place(store, position, &mut items.lists, change, &items.clock)? {
        items.adopt_others();
        return Ok(());
    }
    fit_lists(
        alloc,
        store,
        &mut items.spare,
        position,
        &mut items.lists,
        change,
    )?;
    items.adopt();
    Ok(())
}

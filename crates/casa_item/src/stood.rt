//! Lists that are changed where they lie, so that a flight stands in each as is said: all of them, or none.

ghost use Rattle.std.specs.Prelude.{◌≡◌, IfOk, OnOk, OnErr, option_map};
ghost use Rattle.std.specs.Arc.{arc_value};
ghost use Rattle.casa_filing.specs.Text.{at_name};
ghost use Rattle.casa_plan_spec.specs.Sight.{with_flight};
ghost use Rattle.casa_item.specs.Versions.{list_of};
ghost use Rattle.casa_item.specs.Stood.{AreStood, DoneOr, IsListWith, IsStood, in_place};

use crate::copies::Copied;
use crate::item::Item;
use crate::version::{Stand, Version};
use casa_flight::RegId;
use casa_list::{SharedList, SlotList};
use casa_stance::{Edit, with_flight};
use std::alloc::{AllocError, Global};
use std::collections::BTreeMap;
use std::mem;
use std::sync::Arc;

/// Lists in which flights are to stand as is said, and what it takes to have them stand so.
#[derive(Drop)]
pub(crate) struct Stands<'a> {
    /// Where memory is taken.
    pub alloc: Global,
    /// The position of the entry that writes them.
    pub position: usize,
    /// By the list, how a flight is to stand there.
    pub stands: &'a [(RegId, Stand)],
    /// Any version, which stands in for one that is being changed.
    pub place: &'a Copied,
}

/// Takes a version of a list out, if there is one, and puts this one in its place. `AllocError` where there is no memory
/// for that; nothing has changed then.
fn taken(
    lists: &mut BTreeMap<RegId, Copied>,
    id: &RegId,
    place: &Copied,
) -> Result<Option<Copied>, AllocError>
    ensures version { IfOk result (λ version. version ≡ at_name lists.old.entries id.now) }
    ensures placed { OnOk result (lists.new.entries ≡ in_place lists.old.entries id.now place.now) }
    ensures unchanged { OnErr result (lists.new.entries ≡ lists.old.entries) }
{
    let place = place.try_clone()?;
    match lists.get_mut(id) {
        Some(version) => Ok(Some(mem::replace(version, place))),
        None => Ok(None),
    }
}

/// Puts a version of a list in place of the one that is there, if there is one.
fn put_back(lists: &mut BTreeMap<RegId, Copied>, id: &RegId, version: Copied)
    ensures { lists.new.entries ≡ in_place lists.old.entries id.now version }
{
    if let Some(place) = lists.get_mut(id) {
        *place = version;
    }
}

/// The item of a list, with a flight standing so, or not at all, apart from the one that is there; `None` where the item is
/// none of a list. `AllocError` where there is no memory for it.
fn item_with_flight(
    alloc: Global,
    item: &Item,
    stand: &Stand,
) -> Result<Option<Arc<Item>>, AllocError>
    ensures { IfOk result (λ copy. option_map (λ copy. list_of (arc_value copy)) copy
        ≡ option_map (λ list. Some (with_flight list stand.now.0 stand.now.1)) (list_of item.now)) }
{
    let Item::List(id, Some(shared)) = item else {
        return Ok(None);
    };
    let list = with_flight(alloc, shared.share()?, stand.0, stand.1)?;
    Ok(Some(Arc::new(alloc, Item::List(*id, Some(list)))?))
}

/// Has a flight stand so in a list, or not at all, and flights in the rest of the lists as is said there; or in none, where
/// one of them is not there. `AllocError` where there is no memory for it; nothing has changed then either.
#[cycle(stood)]
fn stand_in_list(
    list: &mut SlotList,
    stand: &Stand,
    lists: &mut BTreeMap<RegId, Copied>,
    rest: &Stands,
) -> Result<bool, AllocError>
    ensures list { DoneOr result (list.new ≡ with_flight list.old stand.now.0 stand.now.1)
        (list.new ≡ list.old) }
    ensures lists { DoneOr result
        (AreStood (λ c. c.1) (λ c. c.0) rest.now.position rest.now.stands.now lists.old.entries
        lists.new.entries) (lists.new.entries ≡ lists.old.entries) }
{
    let edit = Edit::ready(list, stand.0, stand.1)?;
    let done = stand_in_all(lists, rest);
    match done {
        Ok(true) => edit.finish(list),
        _ => edit.undo(list),
    }
    done
}

/// The same with a list that others may have: it is copied where they do.
#[cycle(stood)]
fn stand_in_shared(
    shared: &mut SharedList,
    stand: &Stand,
    lists: &mut BTreeMap<RegId, Copied>,
    rest: &Stands,
) -> Result<bool, AllocError>
    ensures list { DoneOr result (shared.new ≡ with_flight shared.old stand.now.0 stand.now.1)
        (shared.new ≡ shared.old) }
    ensures lists { DoneOr result
        (AreStood (λ c. c.1) (λ c. c.0) rest.now.position rest.now.stands.now lists.old.entries
        lists.new.entries) (lists.new.entries ≡ lists.old.entries) }
{
    if let Some(list) = shared.alone() {
        return stand_in_list(list, stand, lists, rest);
    }
    let copy = with_flight(rest.alloc, shared.share()?, stand.0, stand.1)?;
    let done = stand_in_all(lists, rest)?;
    if done {
        *shared = copy;
    }
    Ok(done)
}

/// The same with an item, if it is one of a list.
#[cycle(stood)]
fn stand_in_item(
    item: &mut Item,
    stand: &Stand,
    lists: &mut BTreeMap<RegId, Copied>,
    rest: &Stands,
) -> Result<bool, AllocError>
    ensures item { DoneOr result (IsListWith stand.now item.old item.new) (item.new ≡ item.old) }
    ensures lists { DoneOr result
        (AreStood (λ c. c.1) (λ c. c.0) rest.now.position rest.now.stands.now lists.old.entries
        lists.new.entries) (lists.new.entries ≡ lists.old.entries) }
{
    match item {
        Item::List(_, Some(shared)) => stand_in_shared(shared, stand, lists, rest),
        _ => Ok(false),
    }
}

/// The same with a version that shares its item: it comes to be of a copy.
#[cycle(stood)]
fn stand_in_copy(
    version: &mut Copied,
    stand: &Stand,
    lists: &mut BTreeMap<RegId, Copied>,
    rest: &Stands,
) -> Result<bool, AllocError>
    ensures version { DoneOr result
        (IsStood (λ c. c.1) (λ c. c.0) rest.now.position stand.now version.old version.new)
        (version.new ≡ version.old) }
    ensures lists { DoneOr result
        (AreStood (λ c. c.1) (λ c. c.0) rest.now.position rest.now.stands.now lists.old.entries
        lists.new.entries) (lists.new.entries ≡ lists.old.entries) }
{
    let Some(item) = item_with_flight(rest.alloc, &version.item, stand)? else {
        return Ok(false);
    };
    let done = stand_in_all(lists, rest)?;
    if done {
        *version = Copied {
            stamp: rest.position,
            item,
        };
    }
    Ok(done)
}

/// The same with a version of a list, which comes to be of the position of the rest.
#[cycle(stood)]
fn stand_in_version(
    version: &mut Copied,
    stand: &Stand,
    lists: &mut BTreeMap<RegId, Copied>,
    rest: &Stands,
) -> Result<bool, AllocError>
    ensures version { DoneOr result
        (IsStood (λ c. c.1) (λ c. c.0) rest.now.position stand.now version.old version.new)
        (version.new ≡ version.old) }
    ensures lists { DoneOr result
        (AreStood (λ c. c.1) (λ c. c.0) rest.now.position rest.now.stands.now lists.old.entries
        lists.new.entries) (lists.new.entries ≡ lists.old.entries) }
{
    let Some(item) = Arc::get_mut(&mut version.item) else {
        return stand_in_copy(version, stand, lists, rest);
    };
    let done = stand_in_item(item, stand, lists, rest)?;
    if done {
        version.stamp = rest.position;
    }
    Ok(done)
}

/// Has a flight stand in each of these lists as is said there, and says whether: not where one of them is not there.
/// `AllocError` where there is no memory for it. Nothing has changed where it isn't done.
///
/// Each list is made ready before the next, and changed, or as it was again, once the next is.
#[cycle(stood)]
pub(crate) fn stand_in_all(
    lists: &mut BTreeMap<RegId, Copied>,
    all: &Stands,
) -> Result<bool, AllocError>
    ensures { DoneOr result
        (AreStood (λ c. c.1) (λ c. c.0) all.now.position all.now.stands.now lists.old.entries
        lists.new.entries) (lists.new.entries ≡ lists.old.entries) }
{
    let Some(((id, stand), behind)) = all.stands.split_first() else {
        return Ok(true);
    };
    let Some(mut version) = taken(lists, id, all.place)? else {
        return Ok(false);
    };
    let rest = Stands {
        alloc: all.alloc,
        position: all.position,
        stands: behind,
        place: all.place,
    };
    let done = stand_in_version(&mut version, stand, lists, &rest);
    put_back(lists, id, version);
    done
}

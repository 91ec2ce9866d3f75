//! The one way in which a flight is written.

ghost use Rattle.std.specs.Prelude.{◌≡◌, ◌++◌, [], ◌∷◌, List, true, IfOk, OnOk, option_copied};
ghost use Rattle.std.specs.Option.{option_map};
ghost use Rattle.casa_flight.specs.State.{is_governed_by};
ghost use Rattle.casa_flight.specs.Listing.{Listing, stance};
ghost use Rattle.casa_filing.specs.Text.{without};
ghost use Rattle.casa_filing.specs.declared.regulation.Regulation.{Regulation};
ghost use Rattle.casa_flight.specs.Good.{AreInOrder};
ghost use Rattle.casa_plan_spec.specs.Sight.{Sight, regulations_in, list_with, with_flight};
ghost use Rattle.casa_plan_spec.specs.Write.{with_stances, with_stands, crossed_by, stances_gone, stances_now, write_flight, write_stands};
ghost use Rattle.casa_plan_spec.specs.OneFlight.{flight_written};

use crate::shown::Shown;
use casa_flight::{Key, RegId, Row, Stance};
use casa_list::SharedList;
use casa_stance::with_flight;
use casa_time::Moment;
use casa_view::{Change, Crossings, Version};
use std::alloc::{AllocError, Global};

/// Takes out the list of a regulation as it is written; what the view shows where it is not written. `AllocError` where it
/// is shared too often to count.
fn take_shared<V: Version>(
    view: &Shown<V>,
    draft: &mut Change,
    id: &RegId,
) -> Result<Option<SharedList>, AllocError>
    ensures list { IfOk result (λ list. list ≡ list_with view.now draft.old id.now) }
    ensures left { OnOk result (draft.new
        ≡ record draft.old { lists = without draft.old.lists id.now }) }
    ensures ordered { AreInOrder draft.old.lists }
{
    match draft.take_list(id) {
        Some(list) => Ok(list),
        None => shared(view.shared_list(id)),
    }
}

/// The same list, not copied, if there is one. `AllocError` where it is shared too often to count.
fn shared(list: Option<&SharedList>) -> Result<Option<SharedList>, AllocError>
    ensures { IfOk result (λ same. same ≡ option_copied list.entry) }
{
    match list {
        Some(list) => Ok(Some(list.share()?)),
        None => Ok(None),
    }
}

/// The list with a flight standing so, or not at all, if there is a list. `AllocError` where there is no memory for it.
fn stood(
    alloc: Global,
    list: Option<SharedList>,
    key: Key,
    stance: Option<Stance>,
) -> Result<Option<SharedList>, AllocError>
    ensures { IfOk result (λ new. new
        ≡ option_map (λ (l : Listing). with_flight l key stance) list) }
{
    match list {
        Some(list) => Ok(Some(with_flight(alloc, list, key, stance)?)),
        None => Ok(None),
    }
}

/// Whether a flight stands so already, or not at all, in a list as it is written.
fn stands_so(draft: &Change, key: &Key, id: &RegId, stance: &Option<Stance>) -> bool
    ensures { result ≡ true → (v : Sight) →
        with_stances v key.now draft.now.lists ((id.now, stance.now) ∷ []) ≡ draft.now.lists }
{
    match draft.lists().get(id) {
        Some(Some(shared)) => shared.list().stance_of(key) == *stance,
        _ => false,
    }
}

/// Has a flight stand so in a list, or not at all. `AllocError` where there is no memory for the list.
pub(crate) fn stand<V: Version>(
    alloc: Global,
    view: &Shown<V>,
    draft: &mut Change,
    key: Key,
    id: RegId,
    stance: Option<Stance>,
) -> Result<(), AllocError>
    ensures { OnOk result (draft.new ≡ record draft.old {
      lists = with_stances view.now key draft.old.lists ((id, stance) ∷ []);
    }) }
{
    if stands_so(draft, &key, &id, &stance) {
        return Ok(());
    }
    let list = take_shared(view, draft, &id)?;
    let list = stood(alloc, list, key, stance)?;
    draft.set_list(id, list)
}

/// How a flight stands in the list of a regulation that it passes at this time, as its row says.
fn stance_by(row: &Row, id: RegId, eto: Moment) -> Stance
    ensures { result ≡ stance (is_governed_by id row.now) row.now.issued eto }
{
    Stance::of(row.is_governed_by(id), row.issued, eto)
}

/// Has a flight stand in the lists that it has, if there is a flight, as its row says. `AllocError` where there is no memory
/// for them.
fn stand_in_lists<V: Version>(
    alloc: Global,
    view: &Shown<V>,
    draft: &mut Change,
    key: Key,
    now: Option<&Row>,
    has: &Crossings,
) -> Result<(), AllocError>
    ensures stands { OnOk result (draft.new ≡ record draft.old {
      lists = with_stances view.now key draft.old.lists
          (stances_now (option_copied now.entry) has.now);
    }) }
    ensures ordered { AreInOrder has.now }
{
    let over = has.as_slice();
    let Some(row) = now else {
        return Ok(());
    };
    for (id, eto) in over {
        let stance = stance_by(row, *id, *eto);
        stand(alloc, view, draft, key, *id, Some(stance))?;
    }
    Ok(())
}

/// Writes a flight that crosses the regulations that it crossed: its row, or that there is none, and in each of their lists
/// how it stands. `AllocError` where there is no memory for that.
pub(crate) fn write_again<V: Version>(
    alloc: Global,
    view: &Shown<V>,
    draft: &mut Change,
    key: Key,
    now: Option<Row>,
    has: &Crossings,
) -> Result<(), AllocError>
    ensures { OnOk result (draft.new ≡ write_flight view.now draft.old key now
        (stances_gone has.now has.now ++ stances_now now has.now)) }
{
    stand_in_lists(alloc, view, draft, key, now.as_ref(), has)?;
    draft.set_row(key, now)
}

/// The regulations to which a flight is subject, if there is a flight. `AllocError` where there is no memory for them.
fn crossed_by<V: Version>(
    alloc: Global,
    view: &Shown<V>,
    row: Option<&Row>,
) -> Result<Crossings, AllocError>
    ensures { IfOk result (λ found.
        found ≡ crossed_by (regulations_in view.now) (option_copied row.entry)) }
{
    match row {
        Some(row) => view.crossed(alloc, &row.plan),
        None => Ok(Crossings::new(alloc)),
    }
}

/// Whether a flight stood with the plan that it has now, and so was subject to the same regulations.
fn keeps_plan(was: Option<&Row>, now: &Option<Row>) -> bool
    ensures { result ≡ true → (all : List Regulation) →
        crossed_by all (option_copied was.entry) ≡ crossed_by all now.now }
{
    match (was, now) {
        (Some(was), Some(now)) => was.plan == now.plan,
        _ => false,
    }
}

/// Says of a flight that it stands no more in the lists that it had and has not now. `AllocError` where there is no memory
/// for that.
fn leave_lists(
    draft: &mut Change,
    key: Key,
    had: &Crossings,
    has: &Crossings,
) -> Result<(), AllocError>
    ensures { OnOk result (draft.new ≡ record draft.old {
      stands = with_stands key draft.old.stands (stances_gone had.now has.now);
    }) }
{
    for (id, _) in had.as_slice() {
        if !has.contains(id) {
            draft.stand(*id, key, None)?;
        }
    }
    Ok(())
}

/// Says of a flight that it stands in the lists that it has, if there is a flight, as its row says. `AllocError` where there
/// is no memory for that.
fn take_lists(
    draft: &mut Change,
    key: Key,
    now: Option<&Row>,
    has: &Crossings,
) -> Result<(), AllocError>
    ensures stands { OnOk result (draft.new ≡ record draft.old {
      stands = with_stands key draft.old.stands
          (stances_now (option_copied now.entry) has.now);
    }) }
    ensures ordered { AreInOrder has.now }
{
    let over = has.as_slice();
    let Some(row) = now else {
        return Ok(());
    };
    for (id, eto) in over {
        let stance = stance_by(row, *id, *eto);
        draft.stand(*id, key, Some(stance))?;
    }
    Ok(())
}

/// Writes a flight that crossed these regulations and crosses those: its row, or that there is none, and how it is to stand
/// in each of their lists. `AllocError` where there is no memory for that.
fn write_anew(
    draft: &mut Change,
    key: Key,
    now: Option<Row>,
    had: &Crossings,
    has: &Crossings,
) -> Result<(), AllocError>
    ensures { OnOk result (draft.new ≡ write_stands draft.old key now
        (stances_gone had.now has.now ++ stances_now now has.now)) }
{
    leave_lists(draft, key, had, has)?;
    take_lists(draft, key, now.as_ref(), has)?;
    draft.set_row(key, now)
}

/// Writes a flight that crosses the regulations that it crossed: its row, or that there is none, and how it is to stand in
/// each of their lists. `AllocError` where there is no memory for that.
fn write_moved(
    draft: &mut Change,
    key: Key,
    now: Option<Row>,
    has: &Crossings,
) -> Result<(), AllocError>
    ensures { OnOk result (draft.new ≡ write_stands draft.old key now
        (stances_gone has.now has.now ++ stances_now now has.now)) }
{
    take_lists(draft, key, now.as_ref(), has)?;
    draft.set_row(key, now)
}

/// What is written of a flight that stood so and now stands so, subject to these regulations: its row, and how it is to
/// stand in each of the lists that it had or has. `AllocError` where there is no memory for that.
pub(crate) fn flight_written<V: Version>(
    alloc: Global,
    view: &Shown<V>,
    key: Key,
    was: Option<&Row>,
    now: Option<Row>,
    has: &Crossings,
) -> Result<Change, AllocError>
    requires { has.now ≡ crossed_by (regulations_in view.now) now }
    ensures { IfOk result (λ draft.
        draft ≡ flight_written view.now key (option_copied was.entry) now) }
{
    let mut draft = Change::new(alloc);
    if keeps_plan(was, &now) {
        write_moved(&mut draft, key, now, has)?;
        return Ok(draft);
    }
    let had = crossed_by(alloc, view, was)?;
    write_anew(&mut draft, key, now, &had, has)?;
    Ok(draft)
}

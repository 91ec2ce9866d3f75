//! How a flight is written at the time at which it is issued.

ghost use Rattle.std.specs.Prelude.{◌≡◌, OnOk, option_copied};
ghost use Rattle.std.specs.Option.{option_and_then};
ghost use Rattle.casa_plan_spec.specs.Write.{with_stances};
ghost use Rattle.casa_plan_spec.specs.Issue.{governed_stance, governed_stances, with_issued_row};

use crate::shown::Shown;
use crate::write::stand;
use casa_flight::{Key, Row, Stance};
use casa_list::SlotList;
use casa_view::{Change, Version};
use std::alloc::{AllocError, Global};

/// How a flight with this row stands in a list that governs it, by the time over that it has there.
fn governed_stance(list: Option<&SlotList>, key: &Key, row: &Row) -> Option<Stance>
    ensures { result ≡ option_and_then (governed_stance key.now row.now)
        (option_copied list.entry) }
{
    let stance = list?.stance_of(key)?;
    Some(Stance::of(true, row.issued, stance.eto()))
}

/// Has a flight stand as this row says in the list that governs it. `AllocError` where there is no memory for that.
fn stand_governed<V: Version>(
    alloc: Global,
    view: &Shown<V>,
    draft: &mut Change,
    key: Key,
    row: &Row,
) -> Result<(), AllocError>
    ensures { OnOk result (draft.new ≡ record draft.old {
      lists = with_stances view.now key draft.old.lists (governed_stances view.now key row.now);
    }) }
{
    let Some(id) = row.governing else {
        return Ok(());
    };
    let stance = governed_stance(view.list(&id), &key, row);
    stand(alloc, view, draft, key, id, stance)
}

/// Writes a flight that is issued, as this row says, and how it stands in the list that governs it; its other lists stay as
/// they are. `AllocError` where there is no memory for that.
pub(crate) fn write_issued<V: Version>(
    alloc: Global,
    view: &Shown<V>,
    draft: &mut Change,
    key: Key,
    row: Row,
) -> Result<(), AllocError>
    ensures { OnOk result (draft.new ≡ with_issued_row view.now draft.old key row) }
{
    stand_governed(alloc, view, draft, key, &row)?;
    draft.set_row(key, Some(row))
}

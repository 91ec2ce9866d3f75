//! The planner of the clock.

ghost use Rattle.std.specs.Prelude.{◌≡◌, IfOk, OnOk};
ghost use Rattle.std.specs.Option.{option_and_then};
ghost use Rattle.casa_flight.specs.Listing.{Listing, cto_of};
ghost use Rattle.casa_plan_spec.specs.Sight.{list_in};
ghost use Rattle.casa_plan_spec.specs.Issue.{with_issue, with_issues, tick};

use crate::issuing::write_issued;
use crate::replies::{answer_done, refused};
use crate::shown::Shown;
use casa_flight::{Key, Refusal, Reply, Row};
use casa_time::Moment;
use casa_view::{Change, Version};
use std::alloc::{AllocError, Global};

/// The calculated time over that a flight has in the list that governs it, as the view shows that.
fn time_shown<V: Version>(view: &Shown<V>, key: &Key, row: &Row) -> Option<Moment>
    ensures { result ≡ option_and_then (λ (l : Listing). cto_of l key.now)
        (option_and_then (list_in view.now) row.now.governing) }
{
    let list = view.list(&row.governing?)?;
    let stance = list.stance_of(key)?;
    Some(list.cto_of(key).unwrap_or(stance.eto()))
}

/// Issues a flight. `AllocError` where there is no memory for that.
fn issue<V: Version>(
    alloc: Global,
    view: &Shown<V>,
    draft: &mut Change,
    key: Key,
) -> Result<(), AllocError>
    ensures { OnOk result (draft.new ≡ with_issue view.now draft.old key) }
{
    let Some(row) = view.row(&key) else {
        return Ok(());
    };
    let mut new = row.clone()?;
    new.issued = time_shown(view, &key, row);
    write_issued(alloc, view, draft, key, new)
}

/// Issues these flights, one by one. `AllocError` where there is no memory for that.
fn issue_each<V: Version>(
    alloc: Global,
    view: &Shown<V>,
    draft: &mut Change,
    keys: &[Key],
) -> Result<(), AllocError>
    ensures { OnOk result (draft.new ≡ with_issues view.now draft.old keys.now) }
{
    for key in keys {
        issue(alloc, view, draft, *key)?;
    }
    Ok(())
}

/// The clock moves, and what is due by then is issued, at the times that it has. `AllocError` where there is no memory
/// for the answer.
pub(crate) fn tick<V: Version>(
    alloc: Global,
    view: &Shown<V>,
    at: Moment,
) -> Result<(Reply, Change), AllocError>
    ensures { IfOk result (λ p. p ≡ tick view.now at) }
{
    if at < view.clock() {
        return Ok(refused(alloc, Refusal::BackInTime));
    }
    let due = view.due(alloc, at)?;
    let mut draft = Change::new(alloc);
    draft.set_clock(at);
    issue_each(alloc, view, &mut draft, due.as_slice())?;
    answer_done(alloc, view, draft)
}

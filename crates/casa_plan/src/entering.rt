//! Flights that enter one by one, each after those before it have.

ghost use Rattle.std.specs.Prelude.{◌≡◌, IfOk, OnOk, option_copied};
ghost use Rattle.casa_flight.specs.Entry.{row_after_entry};
ghost use Rattle.casa_footprint.specs.Finding.{crossed};
ghost use Rattle.casa_plan_spec.specs.Sight.{row_with, row_in};
ghost use Rattle.casa_plan_spec.specs.Enter.{situation_with, with_reentry, with_entries};

use crate::one_flight::best_offer;
use crate::shown::{Shown, row_with};
use crate::write::write_again;
use casa_flight::{Comp, Key, Row};
use casa_time::Moment;
use casa_view::{Catalogue, Change, Crossings, Version};
use std::alloc::{AllocError, Global};

/// An ungoverned flight as it stands once it has entered, where these regulations are open.
fn row_after_entry<V: Version>(
    view: &Shown<V>,
    draft: &Change,
    clock: Moment,
    _catalogue: &Catalogue,
    key: Key,
    row: Row,
    over: &Crossings,
) -> Row
    requires { over.now ≡ crossed row.plan _catalogue.now }
    ensures { result ≡
        row_after_entry (situation_with clock _catalogue.now view.now draft.now) key row }
{
    if row.is_exempt() || row.plan.is_gone(clock) {
        return row;
    }
    match best_offer(view, draft, key, over) {
        Some(offer) => row.governed(clock, offer),
        None => row,
    }
}

/// The flight under a key enters anew, if there is one: with the row that is written, or else with this one, as which the
/// view shows it. `AllocError` where there is no memory for that.
pub(crate) fn reenter<V: Version>(
    alloc: Global,
    view: &Shown<V>,
    draft: &mut Change,
    clock: Moment,
    catalogue: &Catalogue,
    key: Key,
    shown: Option<&Row>,
) -> Result<(), AllocError>
    requires { option_copied shown ≡ row_in view.now key }
    ensures { OnOk result (draft.new ≡
        with_reentry clock catalogue.now view.now draft.old key
        (row_with view.now draft.old key)) }
{
    let Some(row) = row_with(draft, &key, shown) else {
        return Ok(());
    };
    let row = row.ungoverned()?;
    let over = catalogue.crossed(alloc, &row.plan)?;
    let new = row_after_entry(view, draft, clock, catalogue, key, row, &over);
    write_again(alloc, view, draft, key, Some(new), &over)
}

/// These flights enter one by one, where these regulations are open. `AllocError` where there is no memory for that.
pub(crate) fn enter_all<V: Version>(
    alloc: Global,
    view: &Shown<V>,
    draft: &mut Change,
    clock: Moment,
    catalogue: &Catalogue,
    comps: &[Comp],
) -> Result<(), AllocError>
    ensures { OnOk result (draft.new ≡
        with_entries clock catalogue.now view.now draft.old comps.now) }
{
    for comp in comps {
        let row = view.row(&comp.key);
        reenter(alloc, view, draft, clock, catalogue, comp.key, row)?;
    }
    Ok(())
}

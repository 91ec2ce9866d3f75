//! Whole lists in a change, in place of how flights are to stand in them.

ghost use Rattle.std.specs.Prelude.{◌≡◌, IfOk, OnOk};
ghost use Rattle.casa_plan_spec.specs.Sight.{list_in};
ghost use Rattle.casa_plan.specs.WholeLists.{settled_in, SayTheSame, HasWholeLists};

use crate::shown::Shown;
use casa_flight::{Key, RegId, Stance};
use casa_stance::with_flight;
use casa_view::{Change, Version};
use std::alloc::{AllocError, Global};

/// Has a flight stand so in a list, or not at all: in a copy of the list that the view shows. Where it shows none, only says
/// so. `AllocError` where there is no memory for that.
fn settle<V: Version>(
    alloc: Global,
    view: &Shown<V>,
    change: &mut Change,
    id: RegId,
    key: Key,
    stance: Option<Stance>,
) -> Result<(), AllocError>
    ensures { OnOk result (change.new
        ≡ settled_in (list_in view.now id) change.old id (key, stance)) }
{
    match view.shared_list(&id) {
        Some(list) => {
            let list = with_flight(alloc, list.share()?, key, stance)?;
            change.set_list(id, Some(list))
        }
        None => change.stand(id, key, stance),
    }
}

/// The same change with whole lists: each list that the view shows, and in which a flight is to stand so, is copied with
/// the flight standing there so. `AllocError` where there is no memory for them.
pub(crate) fn settled<V: Version>(
    alloc: Global,
    view: &Shown<V>,
    change: Change,
) -> Result<Change, AllocError>
    ensures same { IfOk result (λ settled. SayTheSame view.now settled change) }
    ensures whole { IfOk result (HasWholeLists view.now) }
{
    let mut settled = change;
    let stands = settled.take_stands();
    for (id, stand) in stands.iter() {
        settle(alloc, view, &mut settled, *id, stand.0, stand.1)?;
    }
    Ok(settled)
}

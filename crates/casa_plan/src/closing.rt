//! The planner of a regulation that closes.

ghost use Rattle.std.specs.Prelude.{◌≡◌, [], List, IfOk, OnOk, option_copied};
ghost use Rattle.std.specs.List.{filter_map};
ghost use Rattle.casa_flight.specs.declared.row.Stance.{Stance};
ghost use Rattle.casa_filing.specs.Text.{Text};
ghost use Rattle.casa_plan_spec.specs.Sight.{regulations_in};
ghost use Rattle.casa_plan_spec.specs.Closing.{without_regulation, governed_comp, governed_flights};
ghost use Rattle.casa_plan_spec.specs.Closing.{after_closing, close_reg};

use crate::entering::enter_all;
use crate::replies::{answer_done, refused};
use crate::shown::Shown;
use casa_flight::{Comp, Key, Refusal, RegId, Reply, Stance, sort_comps};
use casa_list::SlotList;
use casa_view::{Catalogue, Change, Version};
use std::alloc::{AllocError, Global};

/// The catalogue of what a view shows, but for one regulation. `AllocError` where there is no memory for it.
fn without_regulation<V: Version>(
    alloc: Global,
    view: &Shown<V>,
    id: &RegId,
) -> Result<Catalogue, AllocError>
    ensures { IfOk result (λ all. all ≡ without_regulation id.now (regulations_in view.now)) }
{
    match view.catalogue() {
        Some(catalogue) => catalogue.without(alloc, id),
        None => Ok(Catalogue::new(alloc)),
    }
}

/// The time over of a flight that a list governs.
fn governed_comp(key: Key, stance: &Stance) -> Option<Comp>
    ensures { result ≡ governed_comp key stance.now }
{
    match *stance {
        Stance::Competing { eto } | Stance::Issued { eto, .. } => Some(Comp { eto, key }),
        Stance::Forced { .. } => None,
    }
}

/// The flights that a list governs, by time over and key. `AllocError` where there is no memory for them.
fn governed_flights(alloc: Global, list: &SlotList) -> Result<Vec<Comp>, AllocError>
    ensures { IfOk result (λ comps. comps.items ≡ governed_flights list.now) }
{
    let mut comps = Vec::new(alloc);
    for member in list.flights() {
        if let Some(comp) = governed_comp(member.key(), &member.stance()) {
            comps.push(comp)?;
        }
    }
    sort_comps(&mut comps);
    Ok(comps)
}

/// What is written where a regulation closes, whose list this is, and its flights enter anew. `AllocError` where there is
/// no memory for that.
fn after_closing<V: Version>(
    alloc: Global,
    view: &Shown<V>,
    id: RegId,
    list: &SlotList,
) -> Result<Change, AllocError>
    ensures { IfOk result (λ draft. draft ≡ after_closing view.now id list.now) }
{
    let catalogue = without_regulation(alloc, view, &id)?;
    let comps = governed_flights(alloc, list)?;
    let comps = comps.as_slice();
    let mut draft = Change::new(alloc);
    draft.set_list(id, None)?;
    enter_all(alloc, view, &mut draft, view.clock(), &catalogue, comps)?;
    draft.set_catalogue(catalogue)?;
    Ok(draft)
}

/// A regulation closes, and the flights that it governed enter anew. `AllocError` where there is no memory for the answer.
pub(crate) fn close_reg<V: Version>(
    alloc: Global,
    view: &Shown<V>,
    id: RegId,
) -> Result<(Reply, Change), AllocError>
    ensures { IfOk result (λ p. p ≡ close_reg view.now id) }
{
    let Some(list) = view.list(&id) else {
        return Ok(refused(alloc, Refusal::NoRegulation));
    };
    let draft = after_closing(alloc, view, id, list)?;
    answer_done(alloc, view, draft)
}

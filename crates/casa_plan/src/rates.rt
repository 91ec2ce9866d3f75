//! The planner of new rates.

ghost use Rattle.std.specs.Prelude.{◌≡◌, IfOk};
ghost use Rattle.casa_plan_spec.specs.NewRates.{rates_written, extend_regulation, rates};

use crate::replies::{answer_done, no_messages, refused};
use crate::shown::Shown;
use crate::taking_in::taking_in;
use casa_flight::{Answer, Refusal, RegId, Regulation, Reply, ends_later, keeps_span};
use casa_grid::{Grid, Profile};
use casa_list::{SharedList, SlotList};
use casa_view::{Change, Version};
use std::alloc::{AllocError, Global};

/// The list with a new profile, to be written. `AllocError` where there is no memory for it.
fn rates_written(
    alloc: Global,
    id: RegId,
    profile: &Profile,
    list: &SlotList,
) -> Result<Change, AllocError>
    ensures { IfOk result (λ draft. draft ≡ rates_written id profile.now list.now) }
{
    let mut list = list.try_clone()?;
    list.regrid(Grid::of(alloc, profile)?)?;
    let mut draft = Change::new(alloc);
    draft.set_list(id, Some(SharedList::new(alloc, list)?))?;
    Ok(draft)
}

/// The regulation with the later end of this profile takes flights in. `AllocError` where there is no memory for the answer.
fn extend_regulation<V: Version>(
    alloc: Global,
    view: &Shown<V>,
    profile: &Profile,
    regulation: &Regulation,
) -> Result<(Reply, Change), AllocError>
    ensures { IfOk result (λ p. p ≡ extend_regulation view.now profile.now regulation.now) }
{
    let (_, end) = profile.span();
    let later = Regulation { end, ..*regulation };
    let draft = taking_in(alloc, view, later, profile)?;
    answer_done(alloc, view, draft)
}

/// New rates replace the profile of a regulation, and keep its start. Issued times stay. With the same end nobody is told;
/// with a later one the regulation takes in the flights that nothing governs and that may compete. `AllocError` where there
/// is no memory for the answer.
pub(crate) fn rates<V: Version>(
    alloc: Global,
    view: &Shown<V>,
    id: RegId,
    profile: &Profile,
) -> Result<(Reply, Change), AllocError>
    ensures { IfOk result (λ p. p ≡ rates view.now id profile.now) }
{
    let Some(list) = view.list(&id) else {
        return Ok(refused(alloc, Refusal::NoRegulation));
    };
    let old = list.grid().profile();
    if !keeps_span(profile, old) {
        return Ok(refused(alloc, Refusal::SpanChanged));
    }
    if !ends_later(profile, old) {
        let draft = rates_written(alloc, id, profile, list)?;
        return Ok((Reply::Answered(Answer::Done, no_messages(alloc)?), draft));
    }
    match view.regulation(&id) {
        Some(regulation) => extend_regulation(alloc, view, profile, regulation),
        None => Ok(refused(alloc, Refusal::NoRegulation)),
    }
}

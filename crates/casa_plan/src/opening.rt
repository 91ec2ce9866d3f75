//! The planner of a regulation that opens.

ghost use Rattle.std.specs.Prelude.{◌≡◌, IfOk};
ghost use Rattle.casa_filing.specs.Subject.{regulation};
ghost use Rattle.casa_plan_spec.specs.Opening.{open_reg};

use crate::replies::{answer_done, refused};
use crate::shown::Shown;
use crate::taking_in::taking_in;
use casa_flight::{Loc, MAX_REGULATIONS, Refusal, RegId, Regulation, Reply};
use casa_grid::Profile;
use casa_view::{Change, Version};
use std::alloc::{AllocError, Global};

/// A regulation as the catalogue has it.
fn regulation(id: RegId, loc: Loc, profile: &Profile) -> Regulation
    ensures { result ≡ regulation id (record { loc = loc; profile = profile.now }) }
{
    let (start, end) = profile.span();
    Regulation {
        id,
        loc,
        start,
        end,
    }
}

/// A regulation opens, and takes in the flights that nothing governs and that may compete. `AllocError` where there is no
/// memory for the answer.
pub(crate) fn open_reg<V: Version>(
    alloc: Global,
    view: &Shown<V>,
    id: RegId,
    loc: Loc,
    profile: &Profile,
) -> Result<(Reply, Change), AllocError>
    ensures { IfOk result (λ p. p ≡ open_reg view.now id loc profile.now) }
{
    if view.list(&id).is_some() {
        return Ok(refused(alloc, Refusal::DuplicateRegulation));
    }
    if MAX_REGULATIONS <= view.regulations().len() {
        return Ok(refused(alloc, Refusal::TooManyRegulations));
    }
    let regulation = regulation(id, loc, profile);
    let draft = taking_in(alloc, view, regulation, profile)?;
    answer_done(alloc, view, draft)
}

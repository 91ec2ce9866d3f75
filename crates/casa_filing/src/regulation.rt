ghost use Rattle.std.specs.Prelude.{◌≡◌, IfOk};
ghost use Rattle.casa_filing.specs.Subject.{regulation};

use crate::name::{Loc, RegId};
use casa_grid::Profile;
use casa_time::Moment;
use std::alloc::AllocError;

/// How many regulations may be open.
pub const MAX_REGULATIONS: usize = 256;

/// An open regulation as the catalogue has it: the location that it protects, and its span from `start` to
/// before `end`.
#[derive(Clone, Copy, PartialEq, Eq, Debug)]
pub struct Regulation {
    pub id: RegId,
    pub loc: Loc,
    pub start: Moment,
    pub end: Moment,
}

/// What a regulation does: it protects this location at the rates of this profile.
#[derive(Drop, Debug)]
pub struct Measure {
    pub loc: Loc,
    pub profile: Profile,
}

impl Regulation {
    /// The regulation with this identifier and measure: its span is that of the measure's profile.
    pub fn of(id: RegId, measure: &Measure) -> Regulation
        ensures { result ≡ regulation id measure.now }
    {
        let (start, end) = measure.profile.span();
        Regulation {
            id,
            loc: measure.loc,
            start,
            end,
        }
    }
}

impl Clone for Measure {
    ghost is_clone = { λ measure copy. copy ≡ measure };

    /// The same measure; what owns memory in it is shared, so that it takes none of its own. `AllocError` where it is shared
    /// too often to be counted.
    fn clone(&self) -> Result<Measure, AllocError>
        ensures { IfOk result (λ copy. copy ≡ self.now) }
    {
        Ok(Measure {
            loc: self.loc,
            profile: self.profile.clone()?,
        })
    }
}

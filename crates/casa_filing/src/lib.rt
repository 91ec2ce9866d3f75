//! What desks file: names, flight plans and regulations, and which flights are subject to a regulation.
#![tactic(auto)]

mod name;
mod plan;
mod regulation;
mod shared;

pub use name::{Key, Loc, Name, OfFlight, OfLocation, OfRegulation, RegId};
pub use plan::{Crossing, Plan, PlanFault, Sts};
pub use regulation::{MAX_REGULATIONS, Measure, Regulation};
pub use shared::{Shared, SharedSlice};

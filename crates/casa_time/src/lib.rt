//! Moments of the day that one engine serves, and the times that are read off them.
//!
//! The day is one operational day in UTC. A flight of that day may still be in the air after the next
//! midnight, so moments run over two days: from second 0 to second 172,799.
#![tactic(auto)]

mod clock;
mod moment;

pub use clock::{due, hhmm};
pub use moment::{Moment, TimeFault};

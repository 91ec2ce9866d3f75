//! What stands behind the page of a running server.
//!
//! A browser is shown what an engine has to look at, with no call: the state, a list, a flight, what came of calls, and
//! metrics. The lines that it sends are answered by a desk of its own. What it is shown is of one history, which begins with
//! all that it was shown and answered before.
#![tactic(auto)]

mod all_seen;
mod answering;
mod browser;
mod counting;
mod gauges;
mod looking;
mod metrics;
mod seen;
mod tally;
mod trying;

pub use browser::{Browser, EngineBrowser};
pub use gauges::{Gauges, Reading};
pub use trying::Turn;

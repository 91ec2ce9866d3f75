//! What a flow manager asks before acting: where demand is above capacity, what each regulation costs, why a flight waits,
//! and with which flights it could exchange its slot.
//!
//! The figures of the answers, as data; texts are made of them elsewhere. Each question has its module and its
//! definitions.
#![tactic(auto)]

mod exchanging;
mod explaining;
mod laws;
mod load;
mod shown;
mod summary;
mod why;

pub use exchanging::{PossibleExchange, exchanges};
pub use explaining::explain;
pub use laws::{possible_exchanges_are_accepted, summary_tells_what_flights_wait};
pub use load::{Load, Span, Step, steps_have_each_once};
pub use shown::{Shown, ShownLists, ShownRows};
pub use summary::Cost;
pub use why::{Holding, Reasons, Rule, delay_in, holdings, offer, rule_of};

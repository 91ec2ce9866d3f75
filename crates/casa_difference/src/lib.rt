//! What differs between two days, by what is shown of each: what all their regulations cost, and the flights that do not
//! stand alike on both.
//!
//! The figures, as data; texts are made of them elsewhere. Either may be the same day before and after some calls.
#![tactic(auto)]

mod comparison;
mod flights;
mod laws;
mod standing;
mod totals;

pub use comparison::{Comparison, compare};
pub use flights::{Difference, ShownFlights, differences};
pub use laws::{a_day_does_not_differ_from_itself, flights_that_differ_are_told};
pub use standing::Standing;
pub use totals::Totals;

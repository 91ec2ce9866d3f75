//! One flight in the list of a regulation: how it comes, goes or stands otherwise.
#![tactic(auto)]

mod edit;
mod stance;

pub use edit::Edit;
pub use stance::with_flight;

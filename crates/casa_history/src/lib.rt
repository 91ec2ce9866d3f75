//! The history of answered calls, and the receipts that each desk has of its own.
//!
//! A history is a list of entries, each a desk's call with the reply that it got. A desk has a pass, which keeps
//! a receipt of each of its entries. At the end `settle` says whether history and passes tell the same story.
#![tactic(auto)]

mod entry;
mod history;
mod pass;
mod settlement;
mod shared;

pub use entry::{Entry, Receipt};
pub use history::History;
pub use pass::{Holds, Pass};
pub use settlement::{Settled, Torn, settle};
pub use shared::SharedEntry;

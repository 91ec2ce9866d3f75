//! The file of a journal, and what it has had on the disk at each moment that was noted.
//!
//! What the file has, and when, is noted in a history of its own, which stands in proofs alone. Who has seen a beginning of the
//! notes knows of a moment since which a crash leaves all that the file had then, whoever has the file now.
#![tactic(auto)]

mod kept;
mod synced;

pub use kept::{Kept, Unkept};
pub use synced::Synced;

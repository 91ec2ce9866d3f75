//! A store of versions that only grows, for boards that many threads read.
#![tactic(auto)]

mod shelf;

pub use casa_item::Seals;
pub use shelf::{Shelf, Shelved, Shelving};

//! What a board keeps under a name: a row, a list, the catalogue or the clock, and the versions of it that stores keep.
#![tactic(auto)]

mod catalogue;
mod copies;
mod crossings;
mod item;
mod seal;
mod spare;
mod stood;
mod version;

pub use catalogue::Catalogue;
pub use copies::{Copied, Copies};
pub use crossings::Crossings;
pub use item::{Item, row_in};
pub use seal::{Seal, Seals};
pub use spare::Spare;
pub use version::{Stand, Store, Version};

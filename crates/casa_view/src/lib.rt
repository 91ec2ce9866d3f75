//! The board: all items of the allocator's state with their versions, views of what a call reads, and changes that are
//! applied whole.
#![tactic(auto)]

mod asking;
mod board;
mod catalogue_seen;
mod change;
mod contents;
mod current;
mod items;
mod laws;
mod read_set;
mod rows;
mod staging;
mod view;

pub use board::Board;
pub use casa_table::{Catalogue, Copied, Copies, Crossings, FlightOver, Item, Store, Version};
pub use catalogue_seen::CatalogueSeen;
pub use change::Change;
pub use laws::rows_are_those_shown;
pub use rows::Rows;
pub use view::View;

//! Versions of items under their names: the table that views share, and the indexes beside it.
#![tactic(auto)]

mod asking;
mod flights;
mod index;
mod table;
mod validation;

pub use asking::{FlightOver, due_named, flights_over_named};
pub use casa_item::{
    Catalogue, Copied, Copies, Crossings, Item, Spare, Stand, Store, Version, row_in,
};
pub use flights::FlightIndex;
pub use index::{Index, NoIndex};
pub use table::{Changes, Shared, Table, Values};
pub use validation::{same_all, same_named, same_version};

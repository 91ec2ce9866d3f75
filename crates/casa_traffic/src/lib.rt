//! Command lines of files of traffic: their columns by titles, the calls that their rows make, and what is told of them.
#![tactic(auto)]

mod fault;
mod files;
mod importing;
mod laws;
mod lines;
mod making;
mod sheets;
mod telling;
mod titles;

pub use fault::{ColumnFault, ReadFault, TrafficFault};
pub use files::{Names, import_files};
pub use importing::{Imported, import};
pub use laws::calls_are_taken;
pub use making::{Asked, Order};
pub use sheets::{ImportFault, Kind, Source, Sources};
pub use titles::{Title, TitleFault};

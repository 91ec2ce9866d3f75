//! Values under names: few of them, and changes over them, in the order of the names.
#![tactic(auto)]

mod entries;
mod few;
mod others;
mod overlaid;
mod sorted;

pub use entries::Entries;
pub use few::Few;
pub use overlaid::Overlaid;
pub use sorted::Sorted;

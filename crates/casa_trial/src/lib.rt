//! What would come of lines behind the history of an engine, of which the engine has nothing.
#![tactic(auto)]

mod trial;
mod tried;

pub use trial::Trial;
pub use tried::{Tried, try_lines};

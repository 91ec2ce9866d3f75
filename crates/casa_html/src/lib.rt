//! The page on which a day is looked at: one text of HTML, with no other resource.
//!
//! It asks the casa that serves it, or shows what stands in it.
#![tactic(auto)]

mod laws;
mod page;
mod text;

pub use laws::scripts_are_not_ended;
pub use text::{live_page, recorded_page};

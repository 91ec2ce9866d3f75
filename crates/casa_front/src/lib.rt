//! One history that a type names: a keeper makes it longer, and many know a beginning of it.
//!
//! It exists in proofs alone: no entry is kept for it, and what is known of it takes no bytes. There is one keeper, who
//! knows all of the history; each front knows a beginning. So what any two fronts know agrees, whoever has them.
#![tactic(auto)]

mod front;
mod keeper;
mod line;
mod opened;
mod rule;

pub use front::Front;
pub use keeper::Keeper;
pub use line::Line;
pub use opened::Opened;
pub use rule::{Law, Named, Notes};

//! The validated commit: an answer that was worked out on a view is accepted where nothing that it read has changed.
//!
//! It is generic over the world, whatever its data are. A worker takes a view of what a call reads, works out the
//! reply and the change on it with nobody waiting, and hands both in. They are accepted if all versions of the view
//! are still the present ones; then the call stands in the history as if it had been answered in that instant.
#![tactic(auto)]

mod commits;
mod desk;
mod fault;
mod gate;
mod planning;
mod prepared;
mod room;
mod tally;
mod world;

pub use commits::commit;
pub use desk::Desk;
pub use fault::{CallFault, CommitFault, DeskFault};
pub use gate::Gate;
pub use planning::prepare;
pub use prepared::Prepared;
pub use room::Room;
pub use world::World;

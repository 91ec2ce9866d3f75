//! A day that outlasts the program: a room, and a journal of the calls that it has answered.
//!
//! Entries stand in the room's history first. A flush writes those that the journal does not have, and syncs. A reply is
//! told only where the journal has its call on the disk. So a crash at any moment leaves lines that say the first calls of
//! the history, and among them each one whose reply was told. A line has an entry's call, and vouches for its reply: who
//! answers the calls again finds the same replies, or the line at which they differ.
#![tactic(auto)]

mod day;
mod event;
mod journal;
mod laws;
mod opening;
mod script;
mod text;
mod whole_day;

pub use day::Day;
pub use event::{DayFault, Event, OpenFault};
pub use journal::{Journal, Told};
pub use laws::{nothing_told_is_lost, replies_follow_from_calls, what_is_kept_is_read};
pub use script::Script;
pub use text::text_of;
pub use whole_day::live_in_memory;

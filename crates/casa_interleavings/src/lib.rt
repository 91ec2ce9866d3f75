//! Interleavings: every order in which up to 1,024 workers read, compute, commit and abandon, one event at a time.
//!
//! `play` has them do so on one room, a board with its history, and no thread runs. `live` does the same with a journal, on a
//! tape that may be cut short at any moment. A life begins with what a crash left of it: the calls of its whole lines are
//! answered again, by worker 0. Then events follow, of three kinds: a worker does something; a flush writes the entries that
//! the journal does not have yet; a reply is told where the journal has its call.
#![tactic(auto)]

mod board;
mod day_event;
mod day_laws;
mod desk;
mod desks;
mod event;
mod hand_in;
mod laws;
mod living;
mod opening;
mod playing;
mod run;
mod stamped;
mod whole_life;
mod worker;

pub use day_event::DayEvent;
pub use day_laws::told_replies_come_back;
pub use event::{Event, Outcome};
pub use laws::{
    events_lead_to_one_scene, refused_commits_have_causes, runs_are_of_one_thread,
    turns_are_accepted,
};
pub use living::{Ended, happen, live};
pub use opening::open;
pub use playing::play;
pub use run::Run;
pub use whole_life::live_in_memory;

//! Serves an engine: connections that are answered by desks of their own, and the timer that moves its clock.
#![tactic(auto)]

mod begun;
mod connection;
mod day_clock;
mod fault;
mod guard;
mod moments;
mod seat;
mod server;
mod source;
mod staying;
mod timed;
mod watcher;

pub use day_clock::{DayClock, keep_time, timer};
pub use fault::{SeatFault, ServeFault, TimerFault};
pub use guard::Guarded;
pub use moments::moment_at;
pub use seat::Sat;
pub use server::{Served, serve};
pub use source::{Connections, StreamEnd};
pub use staying::{Stayed, stay, stay_with_timer};
pub use timed::serve_with_timer;
pub use watcher::Watcher;

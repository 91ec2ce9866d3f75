//! Desks that are answered over connections, for as long as there are some or until the server is ended, and with a journal
//! from one life of the program to the next.
#![tactic(auto)]

mod addresses;
mod browsers;
mod checking;
mod door;
mod ending;
mod fault;
mod journal;
mod log;
mod running;
mod serving;
mod staying;
mod torn;
mod whole_day;

pub use checking::check_journal;
pub use fault::{JournalFault, ServiceFault, Trouble};
pub use running::run_journaled;
pub use serving::{Timing, serve_desks};
pub use staying::stay_desks;

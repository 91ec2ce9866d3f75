//! What is picked out of a day to be printed: the rows of lists, as they stand or by delay, and the messages that calls caused.
#![tactic(auto)]

mod messages;
mod rows;

pub use messages::{CausedMessage, caused_messages};
pub use rows::{ReportRow, delay_in_list, rows_in, rows_in_all, sort_by_delay};

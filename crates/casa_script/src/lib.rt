//! The lines of a journal: the text of a call with what stands beside it, and what such a text says.
#![tactic(auto)]

mod fault;
mod laws;
mod line;
mod reading;
mod script;
mod sum;
mod writing;

pub use casa_lines::{read_calls_are_sayable, sayable};
pub use fault::LineFault;
pub use laws::{
    calls_at_positions_are_read, entries_are_read_again, lines_are_read_again,
    lines_tell_calls_apart,
};
pub use line::{Label, Line, RULES};
pub use reading::{call_at, line_vouches_for, read_line};
pub use script::CallScript;
pub use sum::{reply_sum, sum_of};
pub use writing::{push_entry, push_line};

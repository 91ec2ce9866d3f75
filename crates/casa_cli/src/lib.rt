//! The words of the command line: what they ask for, and what the program ends with.
#![tactic(auto)]

mod choices;
mod clashes;
mod imports;
mod journals;
mod laws;
mod reports;
mod serving;
mod tasks;
mod values;
mod words;

pub use laws::words_have_the_first_wrong_value;
pub use tasks::{
    Format, Import, Journal, Order, PagePort, Service, Socket, Sort, Task, TaskFault, Ticking,
};
pub use words::task;

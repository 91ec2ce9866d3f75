//! What the program ends with: why it did not do what it was asked for, with which exit status, and the name to print.
#![tactic(auto)]

mod fault;

pub use fault::{ProgramFault, outcome};

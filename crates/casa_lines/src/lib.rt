//! Calls as command lines: their texts, also with other members beside theirs.
#![tactic(auto)]

mod calls;
mod laws;
mod object;
mod writing;

pub use calls::sayable;
pub use laws::{calls_are_read_again, read_calls_are_sayable};
pub use object::Member;
pub use writing::{push_call, push_call_beside};

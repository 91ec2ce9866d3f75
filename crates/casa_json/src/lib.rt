//! JSON of values, and of why a flight waits, written behind the bytes of a vector.
//!
//! A value is written in compact form, an object with its members in the byte order of their names. Times are seconds from
//! midnight UTC, delays are seconds.
#![tactic(auto)]

mod flights;
mod lists;
mod values;

pub use flights::rule_name;
pub use values::{Json, push_array, push_figure, push_name};

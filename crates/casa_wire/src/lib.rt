//! Command lines and reply lines: what bytes mean as calls, and the exact bytes that replies and faults are written as.
//!
//! Lines are JSON, as `serde_json` reads it; what is written is JSON in compact form, and LF.
#![tactic(auto)]

mod fault;
mod laws;
mod member;
mod parts;
mod reading;
mod reply_lines;
mod reply_values;

pub use fault::{Field, WireFault};
pub use laws::line_has_its_first_fault;
pub use parts::{Part, push_parts, push_text};
pub use reading::read_call;
pub use reply_lines::{
    push_fault, push_flight, push_list, push_messages, push_reply, push_reply_at, reply_line,
};
pub use reply_values::{fault_text, field_text, kind_name, reply_value, too_long_line};

//! What differs between two days, as a text: tables under a heading, comma-separated values, and JSON.
//!
//! Each is a text that is made whole, to be written at once.
#![tactic(auto)]

mod changes;
mod figures_json;
mod standings;
mod table;
mod values;

pub use figures_json::compare_json;
pub use table::compare_text;
pub use values::compare_csv;

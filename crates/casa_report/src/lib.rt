//! What a flow manager reads: the rows of lists, slot messages, demand and capacity, what regulations cost, and why a flight
//! waits.
//!
//! Each is a text that is made whole, to be written at once. What tables, comma-separated values and JSON are written by is
//! public, for texts that other crates make.
#![tactic(auto)]

mod columns;
mod costs_csv;
mod costs_json;
mod csv;
mod heading_line;
mod holdings_csv;
mod json;
mod laws;
mod list_csv;
mod list_json;
mod load;
mod messages;
mod moments;
mod reasons_json;
mod steps_csv;
mod summary;
mod table;
mod why;

pub use columns::{
    push_left, push_name, push_number, push_number_or_hyphen, push_right, push_time,
};
pub use costs_csv::summary_csv;
pub use costs_json::{push_mean, summary_json};
pub use csv::{Value, number_or_absent, push_values};
pub use holdings_csv::why_csv;
pub use laws::csv_is_read_back;
pub use list_csv::report_csv;
pub use list_json::{load_json, report_json, reports_json, rows_json};
pub use load::load_text;
pub use messages::{messages_csv, messages_json};
pub use moments::date_text;
pub use reasons_json::why_json;
pub use steps_csv::load_csv;
pub use summary::{day_line, summary_text};
pub use table::{report_table, report_text};
pub use why::why_text;

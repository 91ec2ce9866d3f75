//! Rows of comma-separated values (RFC 4180): a header, and rows with their lines.
//!
//! What the records of a text are, csv says. It does not say where one begins, so a walk beside it finds where each
//! ends, and is proved to end where csv does.
#![tactic(auto)]

mod row;
mod separator;
mod table;
mod walk;

pub use row::Row;
pub use table::{Table, read_table};

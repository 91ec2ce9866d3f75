//! `casa` with its subcommands and their options, as clap is told of them, and the texts of its help.
#![tactic(auto)]

mod arguments;
mod commands;
mod help;
mod subcommands;
mod tables;

pub use commands::{
    casa_command, compare_command, import_command, journal_command, load_command, messages_command,
    report_command, run_command, serve_command, summary_command, why_command,
};

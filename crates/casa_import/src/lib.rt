//! Rows of files as calls: what a row of flights says, with its crossings, and a row of regulations, and why it makes none.
//!
//! Nothing is guessed, cut or mended: a row makes the filing that it says, or it is left out for a reason.
#![tactic(auto)]

mod columns;
mod crossings;
mod fields;
mod filing;
mod filings;
mod laws;
mod periods;
mod reason;
mod regulations;
mod times;

pub use columns::{CrossingColumns, EntryColumns, FlightColumns, ImportOptions, RegulationColumns};
pub use crossings::{Crossings, CrossingsRead, Keys, named, read_crossings};
pub use filing::filing_of;
pub use filings::{Filings, filings_of};
pub use laws::{
    filings_are_taken, locations_stand_once, openings_may_stand, rows_are_filed_or_left_out,
};
pub use reason::{LeftOut, Reason, RowFault};
pub use regulations::{Opening, Regulations, regulations_of};
pub use times::{TimeFault, moment_on};

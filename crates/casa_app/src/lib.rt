//! Prints what stands after all lines of an input: reports, demand, costs, slot messages, why a flight waits, and the page of a
//! day.
#![tactic(auto)]

mod after_calls;
mod comparing;
mod costs;
mod demand;
mod fault;
mod input;
mod laws;
mod notes;
mod pages;
mod printing;
mod reasons;
mod remarks;
mod reports;
mod slot_messages;
mod trail;

pub use comparing::{CompareOf, compare};
pub use costs::summary;
pub use demand::load;
pub use fault::PrintFault;
pub use input::Input;
pub use laws::{answers_are_not_told, faults_are_told, refusals_are_told};
pub use pages::page;
pub use reasons::why;
pub use reports::{ReportOf, report};
pub use slot_messages::messages;

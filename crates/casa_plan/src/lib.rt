//! One planner for each call: from a view alone, the reply and the change that are right in every good state that shows
//! the view.
#![tactic(auto)]

mod closing;
mod entering;
mod flight_reply;
mod issuing;
mod laws;
mod list_reply;
mod one_flight;
mod opening;
mod planning;
mod rates;
mod recalling;
mod replies;
mod rooms;
mod settled;
mod shown;
mod swapping;
mod taking_in;
mod tick;
mod write;

pub use laws::views_show_what_is_read;
pub use planning::{Direct, plan, plan_whole};
pub use recalling::{Recalling, RecallingShared};
pub use rooms::{board_of, competitor_of};

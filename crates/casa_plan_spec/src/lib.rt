//! What a planner answers to each call by what a view shows, and that this is the answer in every good state of which the
//! view shows what the call reads: definitions and laws.
#![tactic(auto)]

mod flight_laws;
mod laws;
mod opening_laws;
mod regulation_laws;

pub use flight_laws::{best_offer_is_the_choice, flight_calls_are_answered};
pub use laws::{nothing_is_said, reads_decide_replies};
pub use opening_laws::{
    close_is_planned, list_has_each_flight_over, newcomers_are_among_all, open_is_planned,
};
pub use regulation_laws::{list_is_planned, rates_is_planned, swap_is_planned, tick_is_planned};

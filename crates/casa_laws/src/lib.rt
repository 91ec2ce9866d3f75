//! Laws of the sequential allocator: what the definitions of casa_flight mean.
//!
//! Each law stands on a function that does nothing. `proofs/` has their lemmas, which the proofs of other crates cite.
#![tactic(auto)]

mod laws;

pub use laws::{
    assignment_is_right, calls_without_messages, choice_is_most_penalising,
    competitors_are_in_order, delay_is_of_the_place, entering_flights_are_in_order,
    exchange_moves_nobody, good_states_are_kept, issue_moves_nobody, issued_times_stay,
    later_competitors_change_nothing, messages_of_calls, offer_is_the_delay_there,
    offers_are_of_open_regulations, only_waiting_flights_are_served, places_rise,
    rows_are_in_order, subject_is_by_the_crossing, tick_moves_nobody, valid_plan_has_no_fault,
    written_row_changes_its_entries,
};

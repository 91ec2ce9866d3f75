//! What first planned, first served is good for. Each law stands on a function that does nothing.
#![tactic(auto)]

mod laws;

pub use laws::{
    an_exchange_keeps_the_sum_of_delays, nothing_is_served_better, what_is_not_promised,
    who_is_filed_shortens_no_delay, who_leaves_delays_nobody,
};

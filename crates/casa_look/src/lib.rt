//! What can be looked at, as JSON: the state, a regulation's list, a flight, what came of calls, what lines that are tried
//! would change, and a whole day.
//!
//! Each is a text in compact form that is made whole, with the members in the byte order of their names and no line end.
#![tactic(auto)]

mod day;
mod flight;
mod laws;
mod list;
mod since;
mod state;
mod tried;

pub use day::{DayRecord, PlannedFlight, day_text};
pub use flight::flight_text;
pub use laws::state_shows_what_flights_wait;
pub use list::list_text;
pub use since::{News, since_text};
pub use state::{OpenRegulation, open_regulations, shown_text, state_text};
pub use tried::push_states;

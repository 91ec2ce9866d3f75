//! Flights as the allocator keeps them, calls and replies, and what the calls mean.
//!
//! The definitions in `specs/` are those of the sequential allocator: for every state and call, the reply and
//! the next state. Whatever else in casa allocates is proved against them.
#![tactic(auto)]

mod call;
mod comp;
mod equality;
mod offer;
mod order;
mod reply;
mod row;
mod slot;
mod span;
mod state;

pub use call::{Call, Refusal};
pub use casa_filing::{
    Crossing, Key, Loc, MAX_REGULATIONS, Measure, Name, OfFlight, OfLocation, OfRegulation, Plan,
    PlanFault, RegId, Regulation, Shared, SharedSlice, Sts,
};
pub use comp::{Assigned, Comp};
pub use equality::{call_equality, reply_equality, row_equality};
pub use offer::{Offer, more_penalising, most_penalising};
pub use order::{put_in_order, sort_comps, sort_rows};
pub use reply::{
    Answer, FlightReply, Kind, ListReply, ListRow, Message, Messages, Reply, Rows, slot_number,
};
pub use row::{Row, Stance, is_issued, subject};
pub use slot::SlotNumber;
pub use span::{ends_later, keeps_span};
pub use state::State;

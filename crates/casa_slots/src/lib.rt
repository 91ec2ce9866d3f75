//! The slots of a regulation's list: which of them issued flights block, and the walk that gives each competitor its place.
//!
//! A governed flight is kept as a seat: a competitor with its place, an issued flight with its calculated time over. The
//! walk goes along the competitors in their order: each in turn has the first clear slot from the one that it asks for and
//! behind the place of the one before it. It can begin at any of them and ends at the first whose place stays, so that a
//! change of a list moves only those that it displaces. That these places are those of the definitions in casa_flight is
//! a lemma of `proofs/Rightly.antt`.
#![tactic(auto)]

mod blocked;
mod copies;
mod grid;
mod seat;
mod standing;
mod walk;

pub use blocked::{Blocked, block, counted, slot_of, unblock};
pub use copies::copied;
pub use grid::SharedGrid;
pub use seat::Seat;
pub use standing::Standing;
pub use walk::{
    count_below, cto_at, place_behind, place_from, place_once_moved, walk_all, walk_on,
};

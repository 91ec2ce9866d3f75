//! The slow sequential allocator: it does what the definitions say, and nothing else.
//!
//! It keeps the clock, the open regulations and the flights. Every list, slot and delay is computed anew from
//! these, competitor by competitor in their order, so that each function reads like the definition that it
//! computes. Faster allocators are compared with it.
#![tactic(auto)]

mod assignment;
mod entry;
mod flights;
mod issuing;
mod plain;
mod plain_list;
mod replies;
mod steps;
mod swapping;

pub use plain::Plain;

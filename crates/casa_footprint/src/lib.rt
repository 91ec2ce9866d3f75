//! The items of which the allocator's state consists: what each call reads and writes of them, and when what was
//! seen of them still holds.
#![tactic(auto)]

mod laws;

pub use laws::{
    equal_stamps_show_equal_items, other_items_stay, reads_decide_reads,
    stamps_change_where_written,
};

//! A journal on a tape: lines at the end of a file, each on the disk before anybody is told.
//!
//! A crash may leave any beginning of what was written since the last sync, with holes of NUL. What counts are the whole
//! lines before the first hole: no line has a NUL, so nothing that was torn is taken for a line.
#![tactic(auto)]

mod found;
mod journal;
mod laws;
mod lines;
mod memory;
mod recovery;
mod tape;

pub use found::Found;
pub use journal::append;
pub use laws::whole_lines_are;
pub use lines::{first_line, whole_end};
pub use memory::MemoryTape;
pub use recovery::{look, mend};
pub use tape::{Tape, TapeError};

//! Desks in threads: a room of a board behind a lock, and the passes of the desks that make calls there.
//!
//! What the lock holds is a history with its board, as casa_commit keeps it. Answers are worked out outside the lock, on a
//! view; inside it they are accepted or refused. No receipt is had without an entry: that is counted. And each desk sees a
//! beginning of that one history, in which its receipts stand.
#![tactic(auto)]

mod audit;
mod branch;
mod counted;
mod desk;
mod engine;
mod laws;
mod lists;
mod look;
mod name;
mod parts;
mod pass;
mod shared;

pub use audit::{Audit, audit_lists, audit_shared};
pub use desk::SharedDesk;
pub use engine::{DeskPass, Engine, EngineDesk};
pub use laws::legal_histories_are_sequential;
pub use look::{Look, look_on};
pub use name::{Blank, EngineName};
pub use parts::blank;
pub use pass::CountedPass;
pub use shared::{Shareable, SharedRoom};

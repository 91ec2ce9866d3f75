//! Sessions: the lines of an input are read, answered by a desk, and the replies are written.
//!
//! What a session writes is the transcript of its lines, whatever the desk answers, or the beginning of it.
#![tactic(auto)]

mod asked;
mod fault;
mod lines;
mod lone;
mod replies;
mod sending;
mod session;

pub use fault::SessionFault;
pub use lone::Lone;
pub use sending::{Unsent, send};
pub use session::run;

//! The journal of an engine: a file of the system, and who writes it for the desks of all threads.
//!
//! Nobody waits for the disk under the engine's lock. Who finds the journal idle writes all entries that it lacks, with one
//! write and one sync, and the others wait for that. Whatever was handed out as synced, a crash at any moment since leaves.
#![tactic(auto)]

mod file;
mod held;
mod opening;
mod recovery;
mod sealed;
mod shared;
mod torn;

pub use casa_kept::{Synced, Unkept};
pub use file::{FileFault, FileTape, LastError, sync_name};
pub use held::{Held, JournalKeeper, Keeper, NoKeeper, Syncs};
pub use opening::{Aside, open};
pub use recovery::{RecoveryFault, replay};
pub use shared::SharedJournal;
pub use torn::is_torn_line;

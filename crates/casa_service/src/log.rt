//! What is said on standard error while desks are answered.

use jiff::Timestamp;
use std::fmt::Display;
use std::io::Eprint;
use std::time::Clock;

/// Says what goes on, each in a line of its own behind the time, as `2025-06-01T06:20:00Z casa: ..`.
///
/// A line that can't be written is lost, and nothing else changes.
#[derive(Drop)]
pub(crate) struct Log<'a, R> {
    rt: &'a R,
    is_quiet: bool,
}

impl<'a, R: Eprint + Clock> Log<'a, R> {
    /// A log of this runtime, which leaves out all but faults where it is to be quiet.
    pub(crate) fn new(rt: &'a R, is_quiet: bool) -> Log<'a, R> {
        Log { rt, is_quiet }
    }

    /// Says what goes on.
    pub(crate) fn tell<D: Display + Drop>(&self, what: D) {
        if !self.is_quiet {
            self.warn(what);
        }
    }

    /// Says what is at fault.
    pub(crate) fn warn<D: Display + Drop>(&self, what: D) {
        let _ = match this_second(self.rt) {
            Some(now) => eprintln!(self.rt; "{now} casa: {what}"),
            None => eprintln!(self.rt; "casa: {what}"),
        };
    }
}

/// The present instant, its fraction of a second cut off; `None` where the system's clock tells none.
fn this_second<R: Clock>(rt: &R) -> Option<Timestamp> {
    let now = Timestamp::now(rt).ok()?;
    Timestamp::from_second(now.as_second()).ok()
}

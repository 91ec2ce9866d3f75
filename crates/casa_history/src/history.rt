ghost use Rattle.std.specs.Prelude.{◌≡◌, [], ◌∷◌, ◌++◌, length, OnOk};
ghost use Rattle.std.specs.Option.{option_copied};
ghost use Rattle.casa_history.specs.Entries.{entries, entry_at, HasRoomForEntry};

use crate::entry::Entry;
use crate::shared::SharedEntry;
use std::alloc::{AllocError, Global};

/// The calls that were answered, oldest first, each with its desk and reply.
///
/// A history only grows.
#[derive(Debug)]
pub struct History<C, R> {
    entries: Vec<SharedEntry<C, R>>,
}

impl<C: Drop, R: Drop> Drop for History<C, R> {
    fn drop(self) {
        let History { entries: _ } = self;
    }
}

impl<C, R> History<C, R> {
    /// The history without an entry.
    pub fn new(alloc: Global) -> History<C, R>
        ensures { entries result ≡ [] }
    {
        History {
            entries: Vec::new(alloc),
        }
    }

    /// How many entries there are.
    pub fn len(&self) -> usize
        ensures { result ≡ length (entries self.now) }
    {
        self.entries.len()
    }

    /// The entry at a position, counted from 1; `None` for 0 and beyond the last.
    pub fn entry(&self, position: usize) -> Option<&Entry<C, R>>
        ensures { option_copied result ≡ entry_at position (entries self.now) }
    {
        let entry = self.entries.get(position.checked_sub(1)?)?;
        Some(entry)
    }

    /// The entries, oldest first.
    pub fn entries(&self) -> &[SharedEntry<C, R>]
        ensures { result.now ≡ entries self.now }
    {
        self.entries.as_slice()
    }

    /// Makes room for one more entry, or answers `AllocError` where there is no memory for it.
    pub fn reserve(&mut self) -> Result<(), AllocError>
        ensures same { entries self.new ≡ entries self.old }
        ensures room { OnOk result (HasRoomForEntry self.new) }
    {
        self.entries.reserve(1)
    }

    /// Appends an entry, for which `reserve` has made room.
    pub fn push(&mut self, entry: SharedEntry<C, R>)
        requires { HasRoomForEntry self.old }
        ensures { entries self.new ≡ entries self.old ++ entry ∷ [] }
    {
        self.entries.push_reserved(entry);
    }
}

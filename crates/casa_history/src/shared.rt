//! An entry that many may have.

ghost use Rattle.std.specs.Prelude.{◌≡◌, IfOk};

use crate::entry::Entry;
use std::alloc::{AllocError, Global};
use std::fmt;
use std::marker::Model;
use std::ops::Deref;
use std::sync::Arc;

/// An entry, shared and so never changed: history, pass and receipt have one in common.
///
/// Contracts see it as the entry, and a reference to it is one to the entry.
pub struct SharedEntry<C, R> {
    entry: Arc<Entry<C, R>>,
}

impl<C, R> Model for SharedEntry<C, R> {
    ghost use Rattle.std.specs.Arc.{arc_value};
    ghost use Rattle.casa_history.specs.declared.entry.Entry.{Entry};

    ghost Value = { Entry C R };

    ghost view = { λ s. arc_value s.entry };
}

impl<C: Drop, R: Drop> Drop for SharedEntry<C, R> {
    fn drop(self) {
        let SharedEntry { entry: _ } = self;
    }
}

impl<C: fmt::Debug, R: fmt::Debug> fmt::Debug for SharedEntry<C, R> {
    /// Shows the entry.
    fn fmt<W: fmt::Write>(&self, f: &mut fmt::Formatter<W>) -> fmt::Result {
        fmt::Debug::fmt(&*self.entry, f)
    }
}

impl<C, R> Deref for SharedEntry<C, R> {
    type Target = Entry<C, R>;

    ghost deref_gives = { λ shared entry. entry ≡ shared };

    fn deref(&self) -> &Entry<C, R>
        ensures { result.now ≡ self.now }
    {
        &self.entry
    }
}

impl<C: Drop, R: Drop> SharedEntry<C, R> {
    /// The entry, to be shared, or `AllocError` where there is no memory for that.
    pub fn new(alloc: Global, entry: Entry<C, R>) -> Result<SharedEntry<C, R>, AllocError>
        ensures { IfOk result (λ shared. shared ≡ entry) }
    {
        Ok(SharedEntry {
            entry: Arc::new(alloc, entry)?,
        })
    }

    /// The same entry, not copied. `AllocError` where it is shared too often to count.
    pub fn share(&self) -> Result<SharedEntry<C, R>, AllocError>
        ensures { IfOk result (λ shared. shared ≡ self.now) }
    {
        Ok(SharedEntry {
            entry: Arc::try_clone(&self.entry)?,
        })
    }
}

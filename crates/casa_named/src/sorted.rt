//! Values under names, one behind the other in memory.

ghost use Rattle.std.specs.Prelude.{◌≡◌, ◌↔◌, [], length, true, false, IsTrue, OnOk, IfErr, MatchOption, ◌∷◌};
ghost use Rattle.std.specs.List.{slice_get};
ghost use Rattle.std.specs.Option.{option_copied, option_map_or};
ghost use Rattle.casa_filing.specs.Text.{Text, at_name, put, same_text, without};
ghost use Rattle.casa_flight.specs.Good.{AreInOrder};
ghost use Rattle.casa_list.specs.Standings.{count_before, sought};

use crate::entries::Entries;
use casa_flight::Name;
use std::alloc::{AllocFailed, Global};
use std::marker::Model;

/// Values under names, which stand in the order of the names one behind the other: quickly gone through, and added to where
/// they come in this order.
///
/// Contracts see the entries.
pub struct Sorted<Kind, X> {
    entries: Vec<(Name<Kind>, X)>,
}

impl<Kind, X> Model for Sorted<Kind, X> {
    ghost use Rattle.std.specs.Prelude.{List};
    ghost use Rattle.casa_filing.specs.Text.{Text};
    ghost use Rattle.casa_flight.specs.Good.{AreInOrder};

    ghost Value = { List (Text × X) };

    ghost view = { λ s. s.entries.items };

    ghost invariant = { λ s. AreInOrder s.entries.items };
}

impl<Kind, X: Drop> Drop for Sorted<Kind, X> {
    fn drop(self) {
        let Sorted { entries: _ } = self;
    }
}

impl<Kind, X> Sorted<Kind, X> {
    /// No values. It takes no memory.
    pub fn new(alloc: Global) -> Sorted<Kind, X>
        ensures { result ≡ [] }
    {
        Sorted {
            entries: Vec::new(alloc),
        }
    }

    /// Whether there are no values.
    pub fn is_empty(&self) -> bool
        ensures { IsTrue result ↔ self.now ≡ [] }
    {
        self.entries.is_empty()
    }

    /// The entries, to be gone through in the order of the names.
    pub fn iter(&self) -> Entries<'_, Kind, X>
        ensures entries { result ≡ self.now }
        ensures ordered { AreInOrder self.now }
    {
        Entries::of_row(self.as_slice())
    }

    /// The entries, in the order of the names.
    pub fn as_slice(&self) -> &[(Name<Kind>, X)]
        ensures entries { result.now ≡ self.now }
        ensures ordered { AreInOrder self.now }
    {
        &self.entries
    }

    /// Whether all names come before this one, as where they come in their order.
    fn are_before(&self, name: &Name<Kind>) -> bool
        ensures { result ≡ true → length self.now ≡ count_before self.now name.now }
    {
        match self.entries.last() {
            Some(last) => last.0.is_before(name),
            None => true,
        }
    }

    /// How many names come before this one.
    fn count_before(&self, name: &Name<Kind>) -> usize
        ensures number { result ≡ count_before self.now name.now }
        ensures ordered { AreInOrder self.now }
    {
        if self.are_before(name) {
            return self.entries.len();
        }
        self.entries
            .partition_point(|entry| entry.0.is_before(name))
    }

    /// Whether entry number `at` has this name.
    fn has_at(&self, at: usize, name: &Name<Kind>) -> bool
        ensures { result ≡ option_map_or (λ (e : Text × X). same_text e.0 name.now)
            (slice_get self.now at) false }
    {
        match self.entries.get(at) {
            Some(entry) => entry.0 == *name,
            None => false,
        }
    }

    /// Where the entry with this name stands, or else where it goes.
    fn find(&self, name: &Name<Kind>) -> Result<usize, usize>
        ensures place { result ≡ sought self.now name.now }
        ensures ordered { AreInOrder self.now }
    {
        let at = self.count_before(name);
        if self.has_at(at, name) {
            Ok(at)
        } else {
            Err(at)
        }
    }

    /// The value under a name.
    pub(crate) fn get(&self, name: &Name<Kind>) -> Option<&X>
        ensures { option_copied result ≡ at_name self.now name.now }
    {
        match self.find(name) {
            Ok(at) => Some(&self.entries[at].1),
            Err(_) => None,
        }
    }
}

impl<Kind, X: Drop> Sorted<Kind, X> {
    /// Puts a value under a name. The entry comes back where there is no memory for it; the values are then as they were.
    pub fn put(&mut self, name: Name<Kind>, value: X) -> Result<(), AllocFailed<(Name<Kind>, X)>>
        ensures put { OnOk result (self.new ≡ put self.old name value) }
        ensures refused { IfErr result (λ refused. (refused.value ≡ (name, value))
            × (self.new ≡ self.old)) }
    {
        match self.find(&name) {
            Ok(at) => {
                self.entries[at] = (name, value);
                Ok(())
            }
            Err(at) => Ok(self.entries.insert(at, (name, value))?),
        }
    }

    /// Takes out the value under a name.
    pub(crate) fn take(&mut self, name: &Name<Kind>) -> Option<X>
        ensures value { result ≡ at_name self.old name.now }
        ensures left { self.new ≡ without self.old name.now }
    {
        match self.find(name) {
            Ok(at) => Some(self.entries.remove(at).1),
            Err(_) => None,
        }
    }

    /// Takes out the first entry, if there is one.
    pub(crate) fn pop_first(&mut self) -> Option<(Name<Kind>, X)>
        ensures { MatchOption result ((self.old ≡ []) × (self.new ≡ []))
            (λ e. self.old ≡ e ∷ self.new) }
    {
        if self.entries.is_empty() {
            None
        } else {
            Some(self.entries.remove(0))
        }
    }
}

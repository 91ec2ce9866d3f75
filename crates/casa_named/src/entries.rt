//! Entries of names and values, gone through in the order of the names.

ghost use Rattle.std.specs.Prelude.{◌≡◌, ◌∷◌, [], length, drop, MatchOption};
ghost use Rattle.std.specs.Option.{option_map};
ghost use Rattle.std.specs.Iterator.{at_most};
ghost use Rattle.std.specs.Map.Iter.{TakesFirst, deref_pair};
ghost use Rattle.casa_flight.specs.Good.{AreInOrder};
ghost use Rattle.casa_named.specs.Named.{ahead, held, left};

use crate::others::Others;
use casa_flight::Name;
use std::collections::{BTreeMap, btree_map};
use std::marker::Model;

/// What is left of entries, by how they are kept.
#[derive(Drop)]
enum Left<'a, Kind, X> {
    /// Of those that stand one behind the other.
    Row(&'a [(Name<Kind>, X)]),
    /// Of a map.
    Map(btree_map::Iter<'a, Name<Kind>, X>),
    /// Nothing.
    Nothing,
}

impl<'a, Kind, X> Left<'a, Kind, X> {
    /// The next entry, if one is left.
    fn pass(&mut self) -> Option<(&'a Name<Kind>, &'a X)>
        ensures { ahead (option_map deref_pair result) (left self.new) ≡ left self.old }
    {
        match self {
            Left::Row(entries) => {
                let (entry, behind) = entries.split_first()?;
                *entries = behind;
                Some((&entry.0, &entry.1))
            }
            Left::Map(entries) => entries.next(),
            Left::Nothing => None,
        }
    }
}

/// Entries of which the first can be looked at before it is passed.
///
/// Contracts see those that are left.
#[derive(Drop)]
pub struct Entries<'a, Kind, X> {
    first: Option<(&'a Name<Kind>, &'a X)>,
    others: Left<'a, Kind, X>,
}

impl<'a, Kind, X> Model for Entries<'a, Kind, X> {
    ghost use Rattle.std.specs.Prelude.{List};
    ghost use Rattle.std.specs.Map.Iter.{deref_pair};
    ghost use Rattle.std.specs.Option.{option_map};
    ghost use Rattle.casa_filing.specs.Text.{Text};
    ghost use Rattle.casa_flight.specs.Good.{AreInOrder};
    ghost use Rattle.casa_named.specs.Named.{ahead, left};

    ghost Value = { List (Text × X) };

    ghost view = { λ a. ahead (option_map deref_pair a.first) (left a.others) };

    ghost invariant = { λ a. AreInOrder (ahead (option_map deref_pair a.first) (left a.others)) };
}

impl<'a, Kind, X> Entries<'a, Kind, X> {
    /// No entries.
    pub(crate) fn none() -> Entries<'a, Kind, X>
        ensures { result ≡ [] }
    {
        Entries {
            first: None,
            others: Left::Nothing,
        }
    }

    /// These entries, which stand one behind the other.
    pub(crate) fn of_row(entries: &'a [(Name<Kind>, X)]) -> Entries<'a, Kind, X>
        requires { AreInOrder entries.now }
        ensures { result ≡ entries.now }
    {
        let mut others = Left::Row(entries);
        let first = others.pass();
        Entries { first, others }
    }

    /// The first entry, if there is one, and others behind it.
    pub(crate) fn behind(
        first: &'a Option<(Name<Kind>, X)>,
        others: &'a Others<Kind, X>,
    ) -> Entries<'a, Kind, X>
        requires { AreInOrder (ahead first.now (held others.now)) }
        ensures { result ≡ ahead first.now (held others.now) }
    {
        let first = match first {
            Some((name, value)) => Some((name, value)),
            None => None,
        };
        let others = match others {
            Others::Row(row) => Left::Row(row.as_slice()),
            Others::Map(map) => Left::Map(map.iter()),
        };
        Entries { first, others }
    }

    /// The entries of a map.
    pub(crate) fn of(map: &'a BTreeMap<Name<Kind>, X>) -> Entries<'a, Kind, X>
        ensures entries { result ≡ map.now.entries }
        ensures ordered { AreInOrder map.now.entries }
    {
        let mut entries = map.iter();
        Entries {
            first: entries.next(),
            others: Left::Map(entries),
        }
    }

    /// The first entry that is left.
    pub(crate) fn first(&self) -> Option<(&'a Name<Kind>, &'a X)>
        ensures first { MatchOption result (self.now ≡ [])
            (λ e. self.now ≡ deref_pair e ∷ drop 1 self.now) }
        ensures ordered { AreInOrder self.now }
    {
        self.first
    }

    /// Passes the first entry, if one is left.
    pub(crate) fn pass(&mut self)
        ensures { self.new ≡ drop 1 self.old }
    {
        if self.first.is_some() {
            self.first = self.others.pass();
        }
    }
}

impl<'a, Kind, X> Iterator for Entries<'a, Kind, X> {
    type Item = (&'a Name<Kind>, &'a X);

    ghost next_gives = { TakesFirst deref_pair };

    ghost remaining = { λ s. at_most (length s) };

    fn next(&mut self) -> Option<(&'a Name<Kind>, &'a X)> {
        let first = self.first;
        self.pass();
        first
    }
}

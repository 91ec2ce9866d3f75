//! Changes over values, gone through in the order of the names.

ghost use Rattle.std.specs.Prelude.{◌≡◌, ◌∷◌, [], MatchOption};
ghost use Rattle.std.specs.Iterator.{YieldsFirstBy, item_count};
ghost use Rattle.std.specs.Option.{option_copied};
ghost use Rattle.casa_named.specs.Overlaid.{overlay, some_values};

use crate::entries::Entries;
use crate::few::Few;
use casa_flight::Name;
use std::cmp::Ordering;
use std::collections::BTreeMap;
use std::marker::Model;

/// Each name that values or the changes over them have, once, with the value that stands under it, if one does.
///
/// Contracts see what is left, in the order of the names.
#[derive(Drop)]
pub struct Overlaid<'a, Kind, V> {
    values: Entries<'a, Kind, V>,
    changes: Entries<'a, Kind, Option<V>>,
}

impl<'a, Kind, V> Model for Overlaid<'a, Kind, V> {
    ghost use Rattle.std.specs.Prelude.{List, Option};
    ghost use Rattle.casa_filing.specs.Text.{Text};
    ghost use Rattle.casa_named.specs.Overlaid.{overlay, some_values};

    ghost Value = { List (Text × Option V) };

    ghost view = { λ s. overlay s.changes (some_values s.values) };
}

impl<'a, Kind, V> Overlaid<'a, Kind, V> {
    /// Changes over values.
    pub fn over(
        values: &'a BTreeMap<Name<Kind>, V>,
        changes: &'a BTreeMap<Name<Kind>, Option<V>>,
    ) -> Overlaid<'a, Kind, V>
        ensures { result ≡ overlay changes.now.entries (some_values values.now.entries) }
    {
        Overlaid {
            values: Entries::of(values),
            changes: Entries::of(changes),
        }
    }

    /// Changes alone.
    pub fn alone(changes: &'a Few<Kind, Option<V>>) -> Overlaid<'a, Kind, V>
        ensures { result ≡ changes.now }
    {
        Overlaid {
            values: Entries::none(),
            changes: changes.iter(),
        }
    }

    /// Takes the first name that is left.
    fn take(&mut self) -> Option<(&'a Name<Kind>, Option<&'a V>)>
        ensures { MatchOption result ((self.old ≡ []) × (self.new ≡ []))
            (λ item. self.old ≡ (item.0.now, option_copied item.1) ∷ self.new) }
    {
        match (self.values.first(), self.changes.first()) {
            (None, None) => None,
            (Some((name, value)), None) => {
                self.values.pass();
                Some((name, Some(value)))
            }
            (None, Some((name, change))) => {
                self.changes.pass();
                Some((name, change.as_ref()))
            }
            (Some((name, value)), Some((other, change))) => match name.cmp(other) {
                Ordering::Less => {
                    self.values.pass();
                    Some((name, Some(value)))
                }
                Ordering::Equal => {
                    self.values.pass();
                    self.changes.pass();
                    Some((name, change.as_ref()))
                }
                Ordering::Greater => {
                    self.changes.pass();
                    Some((other, change.as_ref()))
                }
            },
        }
    }
}

impl<'a, Kind, V> Iterator for Overlaid<'a, Kind, V> {
    type Item = (&'a Name<Kind>, Option<&'a V>);

    ghost next_gives = { YieldsFirstBy (λ item. (item.0.now, option_copied item.1)) (λ rest. rest) };

    ghost remaining = { item_count (λ rest. rest) };

    fn next(&mut self) -> Option<(&'a Name<Kind>, Option<&'a V>)> {
        self.take()
    }
}

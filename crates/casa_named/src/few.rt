//! Few values under names.

ghost use Rattle.std.specs.Prelude.{◌≡◌, ◌↔◌, [], IsTrue, OnOk, OnErr};
ghost use Rattle.std.specs.Option.{option_copied};
ghost use Rattle.casa_filing.specs.Text.{at_name, put, without};
ghost use Rattle.casa_flight.specs.Good.{AreInOrder};

use crate::entries::Entries;
use crate::others::Others;
use crate::sorted::Sorted;
use casa_flight::Name;
use std::alloc::{AllocError, Global};
use std::cmp::Ordering;
use std::collections::BTreeMap;
use std::marker::Model;

/// Values under names, in the order of the names. One alone takes no memory, and mostly there is no other: so is what a
/// call on a flight reads, and what it writes. Others stand one behind the other, or in a map where it was asked for.
///
/// Contracts see the entries.
pub struct Few<Kind, X> {
    first: Option<(Name<Kind>, X)>,
    others: Others<Kind, X>,
}

impl<Kind, X> Model for Few<Kind, X> {
    ghost use Rattle.std.specs.Prelude.{List};
    ghost use Rattle.casa_filing.specs.Text.{Text};
    ghost use Rattle.casa_named.specs.Named.{ahead, held, IsFew};

    ghost Value = { List (Text × X) };

    ghost view = { λ f. ahead f.first (held f.others) };

    ghost invariant = { λ f. IsFew f.first (held f.others) };
}

impl<Kind, X: Drop> Drop for Few<Kind, X> {
    fn drop(self) {
        let Few {
            first: _,
            others: _,
        } = self;
    }
}

impl<Kind, X> Few<Kind, X> {
    /// No values. Those that are put will mostly come in the order of their names, or be few.
    pub fn new(alloc: Global) -> Few<Kind, X>
        ensures { result ≡ [] }
    {
        Few {
            first: None,
            others: Others::Row(Sorted::new(alloc)),
        }
    }

    /// No values, for thousands of them, which come in any order.
    pub fn in_any_order(alloc: Global) -> Few<Kind, X>
        ensures { result ≡ [] }
    {
        Few {
            first: None,
            others: Others::Map(BTreeMap::new(alloc)),
        }
    }

    /// The value under a name.
    pub fn get(&self, name: &Name<Kind>) -> Option<&X>
        ensures value { option_copied result ≡ at_name self.now name.now }
        ensures ordered { AreInOrder self.now }
    {
        match &self.first {
            None => None,
            Some((first, value)) => {
                if first == name {
                    Some(value)
                } else {
                    self.others.get(name)
                }
            }
        }
    }

    /// Whether there are no values.
    pub fn is_empty(&self) -> bool
        ensures { IsTrue result ↔ self.now ≡ [] }
    {
        self.first.is_none()
    }

    /// The entries, in the order of the names.
    pub fn iter(&self) -> Entries<'_, Kind, X>
        ensures entries { result ≡ self.now }
        ensures ordered { AreInOrder self.now }
    {
        Entries::behind(&self.first, &self.others)
    }
}

impl<Kind, X: Drop> Few<Kind, X> {
    /// Puts a value under a name. `AllocError` where there is no memory for it; the values are then as they were.
    pub fn put(&mut self, name: Name<Kind>, value: X) -> Result<(), AllocError>
        ensures put { OnOk result (self.new ≡ put self.old name value) }
        ensures unchanged { OnErr result (self.new ≡ self.old) }
    {
        let Some((first, held)) = self.first.take() else {
            self.first = Some((name, value));
            return Ok(());
        };
        match name.cmp(&first) {
            Ordering::Less => match self.others.put(first, held) {
                Ok(()) => {
                    self.first = Some((name, value));
                    Ok(())
                }
                Err(refused) => {
                    self.first = Some(refused.value);
                    Err(AllocError)
                }
            },
            Ordering::Equal => {
                self.first = Some((first, value));
                Ok(())
            }
            Ordering::Greater => {
                self.first = Some((first, held));
                self.others.put(name, value)?;
                Ok(())
            }
        }
    }

    /// Takes out the value under a name.
    pub fn take(&mut self, name: &Name<Kind>) -> Option<X>
        ensures value { result ≡ at_name self.old name.now }
        ensures left { self.new ≡ without self.old name.now }
        ensures ordered { AreInOrder self.old }
    {
        let (first, value) = self.first.take()?;
        if first == *name {
            self.first = self.others.pop_first();
            Some(value)
        } else {
            self.first = Some((first, value));
            self.others.take(name)
        }
    }
}

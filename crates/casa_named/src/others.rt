//! What stands behind the first of few values.

ghost use Rattle.std.specs.Prelude.{◌≡◌, [], None, OnOk, IfErr};
ghost use Rattle.std.specs.Option.{option_copied};
ghost use Rattle.casa_filing.specs.Text.{at_name, put, without};
ghost use Rattle.casa_named.specs.Named.{ahead, held};

use crate::sorted::Sorted;
use casa_flight::Name;
use std::alloc::AllocFailed;
use std::collections::BTreeMap;

/// Values under names, by how they are kept.
pub(crate) enum Others<Kind, X> {
    /// One behind the other.
    Row(Sorted<Kind, X>),
    /// In a map: no value is moved for another, in whichever order they come.
    Map(BTreeMap<Name<Kind>, X>),
}

impl<Kind, X: Drop> Drop for Others<Kind, X> {
    fn drop(self) {
        match self {
            Others::Row(_) => {}
            Others::Map(_) => {}
        }
    }
}

impl<Kind, X> Others<Kind, X> {
    /// The value under a name.
    pub(crate) fn get(&self, name: &Name<Kind>) -> Option<&X>
        ensures { option_copied result ≡ at_name (held self.now) name.now }
    {
        match self {
            Others::Row(row) => row.get(name),
            Others::Map(map) => map.get(name),
        }
    }
}

impl<Kind, X: Drop> Others<Kind, X> {
    /// Puts a value under a name. The entry comes back where there is no memory for it; the values are then as they were.
    pub(crate) fn put(
        &mut self,
        name: Name<Kind>,
        value: X,
    ) -> Result<(), AllocFailed<(Name<Kind>, X)>>
        ensures put { OnOk result (held self.new ≡ put (held self.old) name value) }
        ensures refused { IfErr result (λ refused. (refused.value ≡ (name, value))
            × (held self.new ≡ held self.old)) }
    {
        match self {
            Others::Row(row) => row.put(name, value),
            Others::Map(map) => {
                map.insert(name, value)?;
                Ok(())
            }
        }
    }

    /// Takes out the value under a name.
    pub(crate) fn take(&mut self, name: &Name<Kind>) -> Option<X>
        ensures value { result ≡ at_name (held self.old) name.now }
        ensures left { held self.new ≡ without (held self.old) name.now }
    {
        match self {
            Others::Row(row) => row.take(name),
            Others::Map(map) => map.remove(name),
        }
    }

    /// Takes out the first entry, if there is one.
    pub(crate) fn pop_first(&mut self) -> Option<(Name<Kind>, X)>
        ensures first { ahead result (held self.new) ≡ held self.old }
        ensures alone { result ≡ None → held self.new ≡ [] }
    {
        match self {
            Others::Row(row) => row.pop_first(),
            Others::Map(map) => map.pop_first(),
        }
    }
}

ghost use Rattle.std.specs.Prelude.{◌≡◌, List, Option, None, Some, OnOk};
ghost use Rattle.std.specs.Option.{option_copied};
ghost use Rattle.casa_filing.specs.Text.{Text};
ghost use Rattle.casa_table.specs.Laid.{where_put};

use casa_flight::Name;
use std::alloc::{AllocError, Global};

/// What is kept beside values under names, so that those that are asked for are found without going through all.
///
/// An index gives candidates, and whoever asks looks at the values themselves: it must have everything that has to be
/// found, and may have more.
pub trait Index<Kind, V>: Drop {
    /// Everything that has to be found among the values under these names is found.
    ghost covers: { Self → (Text → Option V) → Type 0 };

    /// An index of nothing.
    fn new(alloc: Global) -> Self
        ensures { covers result (λ name. None) };

    /// Has this value found under the name, where `earlier` stands now, and whatever else was found. `AllocError` where
    /// there is no memory for it.
    fn note(&mut self, name: &Name<Kind>, value: &V, earlier: Option<&V>) -> Result<(), AllocError>
        ensures stays { (at : Text → Option V) → covers self.old at → covers self.new at }
        ensures noted { OnOk result ((at : Text → Option V)
            → at name.now ≡ option_copied earlier.entry →
            covers self.old at → covers self.new (where_put at name.now (Some value.now))) };

    /// Takes out what only the value needed that is gone from under this name, where `present` stands now. It may leave
    /// more in.
    fn forget(&mut self, name: &Name<Kind>, gone: &V, present: Option<&V>)
        ensures { (at : Text → Option V) → at name.now ≡ option_copied present.entry
            → covers self.old at → covers self.new at };

    /// Where less has to be found, the index need not change.
    ghost fewer: { (index : Self) (at : Text → Option V) (name : Text) → covers index at
        → covers index (where_put at name None) };
}

/// No index, for values that are only looked up by their names.
#[derive(Drop)]
pub struct NoIndex;

impl<Kind, V> Index<Kind, V> for NoIndex {
    ghost covers = { λ index at. Unit {0} };

    fn new(_alloc: Global) -> NoIndex {
        NoIndex
    }

    fn note(
        &mut self,
        _name: &Name<Kind>,
        _value: &V,
        _earlier: Option<&V>,
    ) -> Result<(), AllocError> {
        Ok(())
    }

    fn forget(&mut self, _name: &Name<Kind>, _gone: &V, _present: Option<&V>) {}

    ghost fewer = { λ index at name covers. covers };
}

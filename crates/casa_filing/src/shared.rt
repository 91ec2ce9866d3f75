ghost use Rattle.std.specs.Prelude.{◌≡◌, IfOk};

use std::alloc::{AllocError, Global};
use std::fmt;
use std::marker::Model;
use std::ops::Deref;
use std::sync::{Arc, ArcSlice};

/// A value that copies share by reference count, and so is never changed.
///
/// Contracts see it as the value, and a reference to it is one to the value.
pub struct Shared<T> {
    value: Arc<T>,
}

impl<T> Model for Shared<T> {
    ghost use Rattle.std.specs.Arc.{arc_value};

    ghost Value = { T };

    ghost view = { λ s. arc_value s.value };
}

impl<T: Drop> Drop for Shared<T> {
    fn drop(self) {
        let Shared { value: _ } = self;
    }
}

impl<T: fmt::Debug> fmt::Debug for Shared<T> {
    /// Shows the value.
    fn fmt<W: fmt::Write>(&self, f: &mut fmt::Formatter<W>) -> fmt::Result {
        fmt::Debug::fmt(&*self.value, f)
    }
}

impl<T> Deref for Shared<T> {
    type Target = T;

    ghost deref_gives = { λ shared value. value ≡ shared };

    fn deref(&self) -> &T
        ensures { result.now ≡ self.now }
    {
        &self.value
    }
}

impl<T: Drop> Shared<T> {
    /// The value, to be shared, or `AllocError` where there is no memory for that.
    pub fn new(alloc: Global, value: T) -> Result<Shared<T>, AllocError>
        ensures { IfOk result (λ shared. shared ≡ value) }
    {
        Ok(Shared {
            value: Arc::new(alloc, value)?,
        })
    }

    /// The same value, which the copy shares: it takes no memory of its own. `AllocError` where it is shared too often to
    /// be counted.
    pub fn try_clone(&self) -> Result<Shared<T>, AllocError>
        ensures { IfOk result (λ copy. copy ≡ self.now) }
    {
        Ok(Shared {
            value: Arc::try_clone(&self.value)?,
        })
    }
}

impl<T: PartialEq> PartialEq for Shared<T> {
    ghost eq = { T.eq };

    ghost laws = { T.PartialEq.laws };

    fn eq(&self, other: &Shared<T>) -> bool {
        *self.value == *other.value
    }
}

impl<T: Eq> Eq for Shared<T> {
    ghost laws = { T.Eq.laws };
}

/// Values in their order, which copies share by reference count; no values take no memory.
///
/// Contracts see them as their list.
#[derive(Debug)]
pub struct SharedSlice<T> {
    items: Option<ArcSlice<T>>,
}

impl<T> Model for SharedSlice<T> {
    ghost use Rattle.std.specs.Prelude.{List, []};
    ghost use Rattle.std.specs.Arc.{arc_slice_items};
    ghost use Rattle.std.specs.Option.{option_map_or};

    ghost Value = { List T };

    ghost view = { λ s. option_map_or arc_slice_items s.items [] };
}

impl<T: Drop> Drop for SharedSlice<T> {
    fn drop(self) {
        let SharedSlice { items: _ } = self;
    }
}

impl<T> SharedSlice<T> {
    /// The values, in order.
    pub fn as_slice(&self) -> &[T]
        ensures { result.now ≡ self.now }
    {
        match &self.items {
            Some(items) => items.as_slice(),
            None => &[],
        }
    }
}

impl<T: Drop> SharedSlice<T> {
    /// These values, or `AllocError` where there is no memory for the count of their copies.
    pub fn from_vec(items: Vec<T>) -> Result<SharedSlice<T>, AllocError>
        ensures { IfOk result (λ shared. shared ≡ items.items) }
    {
        if items.is_empty() {
            return Ok(SharedSlice { items: None });
        }

        Ok(SharedSlice {
            items: Some(ArcSlice::from_vec(items)?),
        })
    }

    /// The same values, which the copy shares: it takes no memory of its own. `AllocError` where they are shared too
    /// often to be counted.
    pub fn try_clone(&self) -> Result<SharedSlice<T>, AllocError>
        ensures { IfOk result (λ copy. copy ≡ self.now) }
    {
        let items = match &self.items {
            Some(items) => Some(items.clone()?),
            None => None,
        };

        Ok(SharedSlice { items })
    }
}

impl<T: PartialEq> PartialEq for SharedSlice<T> {
    ghost use Rattle.std.specs.Cmp.Lexicographic.{pointwise, lists_per};

    ghost eq = { pointwise T.eq };

    ghost laws = { lists_per T.PartialEq.laws };

    fn eq(&self, other: &SharedSlice<T>) -> bool {
        self.as_slice() == other.as_slice()
    }
}

impl<T: Eq> Eq for SharedSlice<T> {
    ghost use Rattle.std.proofs.lemmas.Cmp.{lists_equiv};

    ghost laws = { lists_equiv T.Eq.laws };
}

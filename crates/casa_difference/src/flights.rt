//! The flights that do not stand alike on two days.

ghost use Rattle.std.specs.Prelude.{◌≡◌, IfOk};
ghost use Rattle.casa_flight.specs.declared.state.State.{State};
ghost use Rattle.casa_difference.specs.Differences.{difference, differences, differs};
ghost use Rattle.casa_difference.specs.Standings.{standing_in};

use crate::standing::Standing;
use casa_flight::Key;
use casa_inquiry::ShownRows;
use std::alloc::{AllocError, Global};
use std::collections::BTreeSet;

/// What is shown of a state with its flights and their keys.
pub trait ShownFlights: ShownRows {
    ghost use Rattle.std.specs.Prelude.{◌≡◌, IfOk};
    ghost use Rattle.std.specs.Map.{keys_of};
    ghost use Rattle.casa_flight.specs.declared.state.State.{State};

    /// The keys of the flights. `AllocError` where there is no memory for them.
    fn keys(&self, alloc: Global) -> Result<BTreeSet<Key>, AllocError>
        ensures { IfOk result (λ keys. (m : State) → Self.shows self.now m →
            keys.keys ≡ keys_of m.rows) };
}

/// A flight with how it stands on two days.
#[derive(Clone, Copy)]
pub struct Difference {
    pub key: Key,
    /// How it stands on the first day; `None` where there is no such flight.
    pub base: Option<Standing>,
    /// How it stands on the second one, likewise.
    pub variant: Option<Standing>,
}

impl Difference {
    /// The flight with this key, by what is shown of both days.
    pub fn of<B: ShownFlights, V: ShownFlights>(base: &B, variant: &V, key: Key) -> Difference
        ensures { (m n : State) → B.shows base.now m → V.shows variant.now n →
            result ≡ difference m n key }
    {
        Difference {
            key,
            base: standing_in(base, &key),
            variant: standing_in(variant, &key),
        }
    }

    /// Whether it does not stand alike on both: another regulation governs it, it has another calculated take-off time or
    /// delay, or one of the days has no such flight.
    pub fn differs(&self) -> bool
        ensures { result ≡ differs self.now }
    {
        match (&self.base, &self.variant) {
            (Some(base), Some(variant)) => !base.is_same(variant),
            (None, None) => false,
            _ => true,
        }
    }
}

/// The flights that do not stand alike on two days, by what is shown of both, in the order of their keys.
///
/// `AllocError` where there is no memory for them.
pub fn differences<B: ShownFlights, V: ShownFlights>(
    alloc: Global,
    base: &B,
    variant: &V,
) -> Result<Vec<Difference>, AllocError>
    ensures { IfOk result (λ all. (m n : State) → B.shows base.now m → V.shows variant.now n →
        all.items ≡ differences m n) }
{
    let base_keys = base.keys(alloc)?;
    let variant_keys = variant.keys(alloc)?;
    let mut all = Vec::new(alloc);
    for key in base_keys.union(&variant_keys) {
        let difference = Difference::of(base, variant, *key);
        if difference.differs() {
            all.push(difference)?;
        }
    }
    Ok(all)
}

/// How the flight with this key stands, by what is shown; `None` where there is none.
fn standing_in<S: ShownRows>(shown: &S, key: &Key) -> Option<Standing>
    ensures { (m : State) → S.shows shown.now m → result ≡ standing_in m key.now }
{
    let row = shown.row(key)?;
    Some(Standing::of(shown, key, row))
}

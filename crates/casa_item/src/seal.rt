ghost use Rattle.std.specs.Prelude.{◌≡◌, ◌↔◌, IfOk, IsTrue};
ghost use Rattle.std.specs.Arc.{arc_value};
ghost use Rattle.boxcar.specs.Table.{Shows};

use crate::version::Version;
use boxcar::Pushed;
use boxcar::tag::Tag;
use std::alloc::AllocError;
use std::marker::{Model, PhantomData};
use std::sync::Arc;

/// Positions in a vector that only grows, each of which says, in proofs alone, what it was given for. They have no bytes.
pub type Seals = boxcar::Vec<Tag>;

/// Tells what was sealed from all else that was: a position in the vector of seals that its versions name. Equal seals are
/// of the same, so that what is sealed need not be compared.
///
/// Contracts see the position, and the numbers that stand for what was sealed.
#[derive(Drop)]
pub struct Seal<V: Version> {
    token: Pushed<Tag>,
    seals: Arc<Seals>,
    name: PhantomData<V>,
}

impl<V: Version> Model for Seal<V> {
    ghost use Rattle.std.specs.Prelude.{◌≡◌, ℕ, List};
    ghost use Rattle.std.specs.Arc.{arc_value};
    ghost use Rattle.boxcar.specs.Table.{Shows};

    ghost Value = { ℕ × List ℕ };

    ghost view = { λ s. (s.token.index, s.token.value.numbers) };

    ghost invariant = { λ s. Shows V.seals s.token × (arc_value s.seals ≡ V.seals) };
}

impl<V: Version> Seal<V> {
    /// The seal at this position of the vector.
    pub fn of(token: Pushed<Tag>, seals: Arc<Seals>) -> Seal<V>
        requires there { Shows V.seals token }
        requires named { arc_value seals ≡ V.seals }
        ensures { result ≡ (token.index, token.value.numbers) }
    {
        Seal {
            token,
            seals,
            name: PhantomData,
        }
    }

    /// The same seal once more. `AllocError` where there is no memory to count it.
    pub fn try_clone(&self) -> Result<Seal<V>, AllocError>
        ensures { IfOk result (λ seal. seal ≡ self.now) }
    {
        Ok(Seal {
            token: self.token.again(),
            seals: Arc::try_clone(&self.seals)?,
            name: PhantomData,
        })
    }

    /// Whether the seals are the same: of one position, and so of the same.
    pub fn same(&self, other: &Seal<V>) -> bool
        ensures { IsTrue result ↔ (self.now ≡ other.now) }
    {
        if self.token.index() != other.token.index() {
            return false;
        }
        self.seals.agrees(&self.token, &other.token);
        true
    }
}

//! What a journal has of a history.

ghost use Rattle.std.specs.Prelude.{◌≡◌};

use casa_day::Told;
use casa_front::{Front, Named, Notes};
use std::marker::Model;

/// What a tape of the type T had on the disk, at a moment that was noted, of the history that L names: a beginning of it.
///
/// The journal's file alone makes one, and who has one can repeat it. It has no bytes, and can be handed to other threads.
pub struct Synced<C, R, L: Named, T> {
    pub(crate) front: Front<C, R, L>,
    pub(crate) notes: Front<Told<T>, (), Notes<L>>,
}

impl<C, R, L: Named, T> Model for Synced<C, R, L, T> {
    ghost use Rattle.std.specs.Prelude.{length};
    ghost use Rattle.casa_kept.specs.Notes.{IsNoted, Shown};

    ghost Value = { Shown C R T };

    ghost view = { λ s. record { front = s.front; notes = s.notes } };

    ghost invariant = { λ s. IsNoted s.notes (length s.front) };
}

impl<C, R, L: Named, T> Drop for Synced<C, R, L, T> {
    fn drop(self) {
        let Synced { front: _, notes: _ } = self;
    }
}

impl<C, R, L: Named, T> Synced<C, R, L, T> {
    /// The same once more.
    pub fn again(&self) -> Synced<C, R, L, T>
        ensures { result ≡ self.now }
    {
        Synced {
            front: self.front.again(),
            notes: self.notes.again(),
        }
    }

    /// A front that has seen just this.
    pub fn front(&self) -> Front<C, R, L>
        ensures { result ≡ self.now.front }
    {
        self.front.again()
    }
}

//! A file that only grows at its end, as a journal sees it.

ghost use Rattle.std.specs.Prelude.{◌≡◌, ◌↔◌, ◌≤◌, ◌++◌, List, ℕ, length, take, drop, IfOk, OnOk};
ghost use Rattle.casa_tape.specs.declared.tape.TapeError.TheVariants.{NoMemory};
ghost use Rattle.casa_tape.specs.Tape.{Elapses, Follows, HasCause, IsSynced, TornBehind, CutTo};

use std::alloc::{AllocError, AllocFailed, Global};
use thiserror::Error;

/// Why a call of a tape failed.
#[derive(Clone, Copy, PartialEq, Eq, Debug, Error)]
pub enum TapeError {
    /// There is no memory for it.
    #[error("there is no memory for it")]
    NoMemory,
    /// The file could not be read, written, cut or synced.
    #[error("the file could not be read, written, cut or synced")]
    Failed,
}

impl From<AllocError> for TapeError {
    ghost from_gives = { λ _ e. e ≡ NoMemory };

    fn from(_: AllocError) -> Self {
        TapeError::NoMemory
    }
}

impl<T: Drop> From<AllocFailed<T>> for TapeError {
    ghost from_gives = { λ _ e. e ≡ NoMemory };

    fn from(_: AllocFailed<T>) -> Self {
        TapeError::NoMemory
    }
}

/// A file that is read, appended to, cut and synced.
///
/// What it holds, what a crash may leave and whether it has failed are what clauses know of it. A file in memory holds its
/// bytes. Of a file of the system nothing is known, so that there each clause says no more than that the code is the same.
pub trait Tape {
    /// A read may return these bytes.
    ghost holds: { Self → List ℕ → Type 0 };

    /// A crash at this moment may leave these bytes.
    ghost may_leave: { Self → List ℕ → Type 0 };

    /// The moment, as a number that doesn't fall.
    ghost moment: { Self → ℕ };

    /// A crash at some moment from that one on might have left these bytes, during a call or between two.
    ghost left_since: { Self → ℕ → List ℕ → Type 0 };

    /// The file itself has failed, in some call.
    ghost has_failed: { Self → Type 0 };

    /// All the bytes. `NoMemory` where there is no memory for them, `Failed` where the file fails.
    fn read(&mut self, alloc: Global) -> Result<Vec<u8>, TapeError>
        ensures bytes { IfOk result (λ bytes. (xs : List ℕ) → holds self.old xs → bytes.items ≡ xs) }
        ensures held { (xs : List ℕ) → holds self.new xs ↔ holds self.old xs }
        ensures crash { (c : List ℕ) → may_leave self.new c → may_leave self.old c }
        ensures time { Elapses (moment self.old) (moment self.new) (left_since self.old)
            (left_since self.new) (may_leave self.new) }
        ensures cause { HasCause (has_failed self.old) (has_failed self.new) result };

    /// Writes at the end. Until a sync, a crash leaves a beginning of it, perhaps with holes. `NoMemory` where there is no
    /// memory for it, `Failed` where the file fails; at both some of it may be written.
    fn append(&mut self, bytes: &[u8]) -> Result<(), TapeError>
        requires { IsSynced holds may_leave self.old }
        ensures written { OnOk result ((ys : List ℕ) → holds self.new ys →
            (xs : List ℕ) × holds self.old xs × (ys ≡ xs ++ bytes.now)) }
        ensures crash { Follows (TornBehind bytes.now) (may_leave self.old) (may_leave self.new) }
        ensures time { Elapses (moment self.old) (moment self.new) (left_since self.old)
            (left_since self.new) (may_leave self.new) }
        ensures cause { HasCause (has_failed self.old) (has_failed self.new) result };

    /// Cuts the file to a length. Until a sync, a crash leaves some of what stood behind it, perhaps with holes. `NoMemory`
    /// where there is no memory for it, `Failed` where the file fails; at both it may be cut.
    fn cut(&mut self, len: usize) -> Result<(), TapeError>
        requires synced { IsSynced holds may_leave self.old }
        requires within { (xs : List ℕ) → holds self.old xs → len ≤ length xs }
        ensures cut { OnOk result ((ys : List ℕ) → holds self.new ys →
            (xs : List ℕ) × holds self.old xs × (ys ≡ take len xs)) }
        ensures crash { Follows (CutTo len) (may_leave self.old) (may_leave self.new) }
        ensures time { Elapses (moment self.old) (moment self.new) (left_since self.old)
            (left_since self.new) (may_leave self.new) }
        ensures cause { HasCause (has_failed self.old) (has_failed self.new) result };

    /// Puts all on the disk: after it, a crash leaves what a read returns. `NoMemory` where there is no memory for it,
    /// `Failed` where the file fails.
    fn sync(&mut self) -> Result<(), TapeError>
        ensures durable { OnOk result (IsSynced holds may_leave self.new) }
        ensures held { (xs : List ℕ) → holds self.new xs ↔ holds self.old xs }
        ensures crash { (c : List ℕ) → may_leave self.new c → may_leave self.old c }
        ensures time { Elapses (moment self.old) (moment self.new) (left_since self.old)
            (left_since self.new) (may_leave self.new) }
        ensures cause { HasCause (has_failed self.old) (has_failed self.new) result };

    /// A crash may leave all that a read returns.
    ghost may_leave_all: { (tape : Self) (xs : List ℕ) → holds tape xs → may_leave tape xs };

    /// This moment is one of those since an earlier one.
    ghost counts_now: { (tape : Self) (t : ℕ) (c : List ℕ) → t ≤ moment tape → may_leave tape c
        → left_since tape t c };

    /// Since this moment there is no other.
    ghost only_now: { (tape : Self) (c : List ℕ) → left_since tape (moment tape) c
        → may_leave tape c };

    /// What a crash might have left since a moment, it might have left since an earlier one.
    ghost since_earlier: { (tape : Self) (t u : ℕ) (c : List ℕ) → t ≤ u → left_since tape u c
        → left_since tape t c };
}

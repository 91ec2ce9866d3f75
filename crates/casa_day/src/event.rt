//! What happens in a day, and why a day could not be opened or go on.

ghost use Rattle.casa_day.specs.Faults.{day_fault, open_fault};
ghost use Rattle.std.specs.Prelude.{◌≡◌};
ghost use Rattle.casa_day.specs.declared.event.DayFault.TheVariants as day;
ghost use Rattle.casa_day.specs.declared.event.OpenFault.TheVariants as opening;

use casa_tape::TapeError;
use std::alloc::AllocError;
use thiserror::Error;

/// What happens in a day.
#[derive(Debug, Drop)]
pub enum Event<C> {
    /// The desk of this number makes this call, and it is answered; nothing where the desk is not open.
    Answer(u32, C),
    /// What the journal does not have yet is written, and put on the disk.
    Flush,
    /// The reply to the call at this position, counted from 1, is told; nothing where the journal does not have it.
    Tell(usize),
}

/// Why a day could not be opened.
#[derive(Clone, Copy, PartialEq, Eq, Debug, Error)]
pub enum OpenFault {
    /// The journal could not be read, cut or synced.
    #[error("the journal could not be read, cut or synced")]
    NotRead,
    /// This line of the journal, counted from 1, says no call at its position.
    #[error("line {0} of the journal says no call at its position")]
    BadLine(usize),
    /// The call of this line of the journal, counted from 1, is answered otherwise than the line vouches.
    #[error("the call of line {0} of the journal is answered otherwise than the line vouches")]
    ReplayDiffers(usize),
    /// There is no memory for it.
    #[error("there is no memory for it")]
    NoMemory,
}

impl From<TapeError> for OpenFault {
    ghost from_gives = { λ e fault. fault ≡ open_fault e };

    fn from(error: TapeError) -> Self {
        match error {
            TapeError::NoMemory => OpenFault::NoMemory,
            TapeError::Failed => OpenFault::NotRead,
        }
    }
}

impl From<AllocError> for OpenFault {
    ghost from_gives = { λ _ fault. fault ≡ opening.NoMemory };

    fn from(_: AllocError) -> Self {
        OpenFault::NoMemory
    }
}

/// Why a day could not go on.
#[derive(Clone, Copy, PartialEq, Eq, Debug, Error)]
pub enum DayFault {
    /// The journal could not be written or synced. What it has is known only after it is opened again.
    #[error("the journal could not be written or synced")]
    NotWritten,
    /// There is no memory for it.
    #[error("there is no memory for it")]
    NoMemory,
}

impl From<TapeError> for DayFault {
    ghost from_gives = { λ e fault. fault ≡ day_fault e };

    fn from(error: TapeError) -> Self {
        match error {
            TapeError::NoMemory => DayFault::NoMemory,
            TapeError::Failed => DayFault::NotWritten,
        }
    }
}

impl From<AllocError> for DayFault {
    ghost from_gives = { λ _ fault. fault ≡ day.NoMemory };

    fn from(_: AllocError) -> Self {
        DayFault::NoMemory
    }
}

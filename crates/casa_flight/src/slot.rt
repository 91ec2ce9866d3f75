ghost use Rattle.std.specs.Prelude.{◌≡◌, ◌≤◌, ◌^◌, IfOk, IfErr};
ghost use Rattle.casa_flight.specs.SlotNumbers.{number_behind};

use std::alloc::AllocError;
use std::fmt;
use std::marker::Model;

/// The number of a slot, or that there is none, in four bytes, since the rows of a list are many.
///
/// Contracts see it as the number, if there is one.
#[derive(Clone, Copy, PartialEq, Eq)]
pub struct SlotNumber {
    /// The number and one; zero where there is none.
    next: u32,
}

impl Model for SlotNumber {
    ghost use Rattle.std.specs.Prelude.{ℕ, Option};
    ghost use Rattle.casa_flight.specs.SlotNumbers.{number_before, number_behind};

    ghost Value = { Option ℕ };

    ghost view = { λ s. number_before s.next };

    ghost inverse = { λ slot. record { next = number_behind slot } };
}

impl SlotNumber {
    /// The slot of this number, if there is one. There is no memory, `AllocError`, for a number that four bytes do not
    /// hold; no profile has so many slots.
    pub fn of(slot: Option<usize>) -> Result<SlotNumber, AllocError>
        ensures number { IfOk result (λ number. number ≡ slot) }
        ensures too_large { IfErr result (λ _. 2 ^ 32 ≤ number_behind slot) }
    {
        let Some(slot) = slot else {
            return Ok(SlotNumber { next: 0 });
        };
        match u32::try_from(slot) {
            Ok(slot) if slot < u32::MAX => Ok(SlotNumber { next: slot + 1 }),
            _ => Err(AllocError),
        }
    }

    /// The number; `None` where there is no slot.
    pub fn get(self) -> Option<usize>
        ensures { result ≡ self }
    {
        match self.next {
            0 => None,
            next => Some((next - 1) as usize),
        }
    }
}

impl fmt::Debug for SlotNumber {
    /// Shows the number.
    fn fmt<W: fmt::Write>(&self, f: &mut fmt::Formatter<W>) -> fmt::Result {
        fmt::Debug::fmt(&self.get(), f)
    }
}

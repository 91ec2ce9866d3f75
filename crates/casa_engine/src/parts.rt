ghost use Rattle.std.specs.Prelude.{◌≡◌};
ghost use Rattle.casa_engine.specs.Ledgers.{all_parts};

use crate::name::Blank;
use casa_front::Opened;
use std::marker::PhantomData;
use std::sync::ledger;
use std::sync::ledger::Ledger;

/// How many parts an engine's ledger has: one for each desk that may be open, and one that is never given.
const PARTS: u64 = 1025;

/// A new ledger and a new history, as an engine takes them.
pub fn blank() -> Blank
    ensures { result.ledger.parts ≡ all_parts }
{
    Blank {
        ledger: ledger::Blank::new(PARTS),
        history: Opened::new(),
    }
}

/// Says of a ledger that it has as many parts as an engine's.
#[derive(Drop)]
pub(crate) struct AllParts<L: Ledger> {
    ledger: PhantomData<L>,
    ghost all: { L.parts ≡ all_parts },
}

impl<L: Ledger> AllParts<L> {
    /// Keeps it of this ledger.
    pub(crate) fn new() -> AllParts<L>
        requires { L.parts ≡ all_parts }
    {
        AllParts {
            ledger: PhantomData,
        }
    }

    /// Tells what the type keeps.
    pub(crate) fn tell(&self)
        ensures { L.parts ≡ all_parts }
    {}
}

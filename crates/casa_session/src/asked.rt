//! What lines ask that were read and are not answered yet.

ghost use Rattle.std.specs.Prelude.{◌≡◌, ◌≤◌, ◌↔◌, ◌++◌, ◌∷◌, [], length, IsTrue, OnOk, OnErr};
ghost use Rattle.casa_session.specs.LineReader.{most_asked};
ghost use Rattle.casa_wire.specs.Commands.{line_call};

use casa_flight::Call;
use casa_wire::{WireFault, read_call};
use std::alloc::{AllocError, Global};
use std::marker::Model;

/// So many lines are read, where they are there, before the first of them is answered.
const MOST: usize = 64;

/// What some lines ask: of each the call that it is, or why it is none.
///
/// Lines are read one behind the other, and then answered one behind the other. So the code that reads is still in the
/// processor's first cache when the next line is read, which has no room for that and for the code that answers.
///
/// Contracts see what each line means.
#[derive(Drop)]
pub struct Asked {
    meanings: Vec<Result<Call, WireFault>>,
}

impl Model for Asked {
    ghost use Rattle.std.specs.Prelude.{List, Result};
    ghost use Rattle.casa_flight.specs.declared.call.Call.{Call};
    ghost use Rattle.casa_wire.specs.declared.fault.WireFault.{WireFault};

    ghost Value = { List (Result Call WireFault) };

    ghost view = { λ a. a.meanings.items };
}

impl Asked {
    /// Nothing.
    pub fn new(alloc: Global) -> Asked
        ensures { result ≡ [] }
    {
        Asked {
            meanings: Vec::new(alloc),
        }
    }

    /// Whether so many lines were read that they are answered before the next one is read.
    pub fn is_full(&self) -> bool
        ensures { IsTrue result ↔ most_asked ≤ length self.now }
    {
        self.meanings.len() >= MOST
    }

    /// Reads a line behind the others. `AllocError` where there is no memory for what it asks; nothing has changed then.
    pub fn read(&mut self, alloc: Global, line: &[u8]) -> Result<(), AllocError>
        ensures read { OnOk result (self.new ≡ self.old ++ line_call line.now ∷ []) }
        ensures unchanged { OnErr result (self.new ≡ self.old) }
    {
        match read_call(alloc, line) {
            Err(WireFault::NoMemory) => Err(AllocError),
            meaning => Ok(self.meanings.push(meaning)?),
        }
    }

    /// What the lines ask.
    pub fn as_slice(&self) -> &[Result<Call, WireFault>]
        ensures { result.now ≡ self.now }
    {
        &self.meanings
    }

    /// Forgets the lines.
    pub fn clear(&mut self)
        ensures { self.new ≡ [] }
    {
        self.meanings.clear();
    }
}

ghost use Rattle.std.specs.Prelude.{◌≡◌, [], ◌∷◌, ◌++◌, length, OnOk};
ghost use Rattle.std.specs.Option.{option_copied};
ghost use Rattle.casa_history.specs.Entries.{receipts, latest, number_of, desk_of, HasRoomForReceipt};

use crate::entry::Receipt;
use std::alloc::{AllocError, Global};

/// What a desk has in hand: its engine's number, its own, and the receipts of its calls, oldest first.
///
/// A pass can't be cloned, so a desk has one.
#[derive(Debug)]
pub struct Pass<C, R> {
    number: u32,
    desk: u32,
    receipts: Vec<Receipt<C, R>>,
}

impl<C: Drop, R: Drop> Drop for Pass<C, R> {
    fn drop(self) {
        let Pass {
            number: _,
            desk: _,
            receipts: _,
        } = self;
    }
}

impl<C, R> Pass<C, R> {
    /// The pass of a desk that made no call yet.
    pub fn new(alloc: Global, number: u32, desk: u32) -> Pass<C, R>
        ensures number { number_of result ≡ number }
        ensures desk { desk_of result ≡ desk }
        ensures empty { receipts result ≡ [] }
    {
        Pass {
            number,
            desk,
            receipts: Vec::new(alloc),
        }
    }

    /// The number of the engine that gave it.
    pub fn number(&self) -> u32
        ensures { result ≡ number_of self.now }
    {
        self.number
    }

    /// The number of the desk.
    pub fn desk(&self) -> u32
        ensures { result ≡ desk_of self.now }
    {
        self.desk
    }

    /// How many receipts it has.
    pub fn calls(&self) -> usize
        ensures { result ≡ length (receipts self.now) }
    {
        self.receipts.len()
    }

    /// The latest receipt; `None` where it has none.
    pub fn last(&self) -> Option<&Receipt<C, R>>
        ensures { option_copied result ≡ latest (receipts self.now) }
    {
        self.receipts.last()
    }

    /// The receipts, oldest first.
    pub(crate) fn receipts(&self) -> &[Receipt<C, R>]
        ensures { result.now ≡ receipts self.now }
    {
        self.receipts.as_slice()
    }

    /// Makes room for one more receipt, or answers `AllocError` where there is no memory for it.
    pub fn reserve(&mut self) -> Result<(), AllocError>
        ensures number { number_of self.new ≡ number_of self.old }
        ensures desk { desk_of self.new ≡ desk_of self.old }
        ensures same { receipts self.new ≡ receipts self.old }
        ensures room { OnOk result (HasRoomForReceipt self.new) }
    {
        self.receipts.reserve(1)
    }

    /// Appends a receipt, for which `reserve` has made room.
    pub fn push(&mut self, receipt: Receipt<C, R>)
        requires { HasRoomForReceipt self.old }
        ensures number { number_of self.new ≡ number_of self.old }
        ensures desk { desk_of self.new ≡ desk_of self.old }
        ensures pushed { receipts self.new ≡ receipts self.old ++ receipt ∷ [] }
    {
        self.receipts.push_reserved(receipt);
    }
}

/// What is a pass, or has one.
pub trait Holds<C, R> {
    ghost use Rattle.casa_history.specs.declared.pass.Pass.{Pass};

    /// The pass that it holds.
    ghost held: { Self → Pass C R };

    /// The pass that it holds.
    fn pass(&self) -> &Pass<C, R>
        ensures { result.now ≡ held self.now };
}

impl<C, R> Holds<C, R> for Pass<C, R> {
    ghost held = { λ pass. pass };

    fn pass(&self) -> &Pass<C, R> {
        self
    }
}

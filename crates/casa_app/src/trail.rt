//! Bytes of which contracts alone know.

ghost use Rattle.std.specs.Prelude.{◌≡◌, [], ◌++◌, ℕ, List};
ghost use Rattle.std.specs.Borrow.{ftrue};

use std::marker::Model;

/// Bytes that were written, of which proofs alone know. It takes no memory, and its methods do nothing when they run.
#[derive(Drop)]
pub(crate) struct Trail {
    pub ghost bytes: { List ℕ },
}

impl Model for Trail {
    ghost also_owns = { λ _. ftrue };
}

impl Trail {
    /// No bytes.
    pub(crate) fn new() -> Trail
        ensures { result.bytes ≡ [] }
    {
        Trail {}
    }

    /// The bytes, and more behind them.
    pub(crate) fn and(&self, _more: &[u8]) -> Trail
        ensures { result.bytes ≡ self.now.bytes ++ _more.now }
    {
        Trail {}
    }
}

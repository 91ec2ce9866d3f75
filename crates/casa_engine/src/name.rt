use casa_flight::{Call, Reply};
use casa_front::{Named, Opened};
use std::marker::Brand;
use std::sync::ledger;
use std::sync::ledger::Ledger;

/// Names an engine: its ledger, and its history.
pub trait EngineName: Ledger + Named {}

impl EngineName for Brand {}

/// What an engine keeps in proofs alone, before a type names it.
#[derive(Drop)]
pub struct Blank {
    /// The ledger in which entries and receipts are counted.
    pub ledger: ledger::Blank,
    /// The history of which all its desks see a beginning.
    pub history: Opened<Call, Reply>,
}

use crate::shared::SharedEntry;

/// A call of a desk with the reply that it got.
#[derive(Debug, Drop)]
pub struct Entry<C, R> {
    /// The number of the desk.
    pub desk: u32,
    pub call: C,
    pub reply: R,
}

/// An entry with its position in the history.
#[derive(Debug, Drop)]
pub struct Receipt<C, R> {
    /// How many entries the history has up to and with this one.
    pub position: usize,
    pub entry: SharedEntry<C, R>,
}

//! What a server tells of itself.

/// Tells how many desks and connections a server has.
pub trait Gauges {
    /// How many there are now.
    fn read(&self) -> Reading;
}

/// How many desks and connections a server has.
#[derive(Clone, Copy, PartialEq, Eq, Debug)]
pub struct Reading {
    /// How many desks have a connection.
    pub desks: u64,
    /// How many connections are open.
    pub connections: u64,
}

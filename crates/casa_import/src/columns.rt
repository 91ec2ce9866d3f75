//! Where the columns stand by which rows are read. Each is told by its place in the header, from 0.

use casa_filing::Loc;
use jiff::civil::Date;

/// What rows are read by, beside their columns.
#[derive(Drop)]
pub struct ImportOptions {
    /// The day whose midnight is second 0.
    pub day: Date,
    /// The taxi time of a flight that gives none, in seconds, where it has so much before its earliest entry.
    pub taxi: u32,
    /// The locations that alone are kept of a flight that enters more than 32. With none here, all are kept.
    pub locations: Vec<Loc>,
}

/// The columns of a file of flights.
#[derive(Drop)]
pub struct FlightColumns {
    /// How many columns there are.
    pub width: usize,
    pub key: usize,
    pub eobt: usize,
    pub taxi: Option<usize>,
    pub sts: Option<usize>,
    pub entries: Vec<EntryColumns>,
    /// The location from which a flight takes off, where it enters that at its take-off.
    pub departure: Option<usize>,
}

/// The columns of an entry: the location, and the time over it.
#[derive(Clone, Copy)]
pub struct EntryColumns {
    pub loc: usize,
    pub eto: usize,
    /// Whether a row whose fields are both empty has no such entry.
    pub may_be_empty: bool,
}

/// The columns of a file of crossings.
#[derive(Clone, Copy)]
pub struct CrossingColumns {
    /// How many columns there are.
    pub width: usize,
    pub key: usize,
    pub loc: usize,
    pub eto: usize,
}

/// The columns of a file of regulations.
#[derive(Clone, Copy, PartialEq, Eq, Debug)]
pub struct RegulationColumns {
    /// How many columns there are.
    pub width: usize,
    pub reg: usize,
    pub loc: usize,
    pub from: usize,
    pub to: usize,
    pub rate: usize,
}

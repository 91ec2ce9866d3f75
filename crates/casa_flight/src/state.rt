use crate::row::Row;
use casa_filing::{Key, Measure, RegId};
use casa_time::Moment;
use std::collections::LinkedList;

/// The state of the sequential allocator. Contracts speak of it; no value of it is made.
///
/// It has no slots of flights that are not issued: these follow from it.
pub struct State {
    pub clock: Moment,
    /// The open regulations, in the order of their identifiers.
    pub regs: LinkedList<(RegId, Measure)>,
    /// The flights, in the order of their keys.
    pub rows: LinkedList<(Key, Row)>,
}

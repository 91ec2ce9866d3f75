use casa_grid::Place;
use casa_time::Moment;

/// How a flight stands in a list.
#[derive(Clone, Copy, PartialEq, Eq, Debug)]
pub enum Standing {
    /// A competitor, in the place that is pre-allocated to it.
    Pre(Place),
    /// Issued, with this calculated time over.
    Issued(Moment),
    /// Another regulation governs the flight, or none: it takes no slot.
    Forced,
}

use casa_filing::Key;
use casa_grid::Place;
use casa_time::Moment;

/// A flight in a regulation's sequence: by estimated time over and, among equal times, by key. This is the
/// order of the type.
#[derive(Clone, Copy, PartialEq, Eq, PartialOrd, Ord, Debug)]
pub struct Comp {
    pub eto: Moment,
    pub key: Key,
}

/// A competitor with the place that it has.
#[derive(Clone, Copy, PartialEq, Eq, PartialOrd, Ord, Debug)]
pub struct Assigned {
    pub comp: Comp,
    pub place: Place,
}

//! Laws of the definitions, each on a function that does nothing.

ghost use Rattle.casa_traffic.specs.Laws.{CallsAreTaken};

/// A session that begins with the calls that files of traffic make takes them one after another, and refuses none.
pub fn calls_are_taken()
    ensures { CallsAreTaken }
{}

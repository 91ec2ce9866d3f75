ghost use Rattle.std.specs.Prelude.{◌≡◌, IfOk, string_bytes};
ghost use Rattle.casa_report.specs.Heading.{heading_line};

use casa_flight::Name;
use jiff::civil::Date;
use std::alloc::{AllocError, Global};

/// The line above what is told of a regulation or of a flight, as `CASA R1 2025-06-01`.
pub(crate) fn heading_line<Kind>(
    alloc: Global,
    day: Date,
    name: &Name<Kind>,
) -> Result<String, AllocError>
    ensures { IfOk result (λ line. string_bytes line ≡ heading_line name.now day) }
{
    format!(in alloc; "CASA {name} {day}\n")
}

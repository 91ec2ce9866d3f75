//! Demand and capacity of a regulation as comma-separated values.

ghost use Rattle.std.specs.Prelude.{◌≡◌, IfOk};
ghost use Rattle.jiff_core.specs.declared.civil.date.Date.{Date as Plain};
ghost use Rattle.casa_report.specs.Csv.{or_empty};
ghost use Rattle.casa_report.specs.LoadCsv.{load_csv, step_fields};
ghost use Rattle.casa_report.specs.Moments.{moment_text};
ghost use Rattle.casa_report.specs.Values.{value_text};

use crate::csv::{Record, Value, csv, push_values};
use casa_inquiry::{Load, Step};
use casa_time::Moment;
use jiff::civil::Date;
use std::alloc::{AllocError, Global};

/// Demand and capacity of a regulation as comma-separated values: a line of titles, and a line for each step. Times are dates
/// with times of day in UTC, as `2025-06-01T10:00:05`; the last line, of what is behind the end, has no TO.
///
/// `AllocError` where there is no memory for it.
pub fn load_csv(alloc: Global, day: Date, load: &Load) -> Result<Vec<u8>, AllocError>
    ensures { IfOk result (λ text. text.items ≡ load_csv day load.now.steps.items) }
{
    csv(
        alloc,
        day,
        b"FROM,TO,PLANNED,SLOTS,CALCULATED\n",
        load.steps.as_slice(),
    )
}

impl Record for Step {
    ghost fields = { step_fields };

    fn push(&self, alloc: Global, out: &mut Vec<u8>, day: Date) -> Result<(), AllocError> {
        push_values(
            alloc,
            out,
            day,
            &[
                Value::Moment(self.span.from.secs()),
                moment_or_absent(self.span.until),
                Value::Number(self.planned as u128),
                Value::Number(self.slots as u128),
                Value::Number(self.calculated as u128),
            ],
        )
    }
}

/// A moment, if there is one.
fn moment_or_absent(moment: Option<Moment>) -> Value<'static>
    ensures { (day : Plain) → value_text day result ≡ or_empty (moment_text day) moment }
{
    match moment {
        Some(moment) => Value::Moment(moment.secs()),
        None => Value::Absent,
    }
}

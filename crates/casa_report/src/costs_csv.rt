//! What each regulation costs, as comma-separated values.

ghost use Rattle.std.specs.Prelude.{◌≡◌, IfOk};
ghost use Rattle.casa_report.specs.SummaryCsv.{cost_fields, summary_csv};

use crate::csv::{Record, Value, csv, number_or_absent, push_values};
use casa_flight::ListReply;
use casa_inquiry::Cost;
use jiff::civil::Date;
use std::alloc::{AllocError, Global};

/// What regulations cost, by their lists, as comma-separated values: a line of titles, and a line for each regulation. Times
/// are dates with times of day in UTC, as `2025-06-01T10:00:05`, delays seconds, and the mean delay is empty where there is none.
///
/// `AllocError` where there is no memory for it.
pub fn summary_csv(alloc: Global, day: Date, lists: &[ListReply]) -> Result<Vec<u8>, AllocError>
    ensures { IfOk result (λ text. text.items ≡ summary_csv day lists.now) }
{
    csv(
        alloc,
        day,
        b"REG,LOC,FROM,TO,SLOTS,GOVERNED,ISSUED,FORCED,OVER,DELAY,MEAN,LONGEST\n",
        lists,
    )
}

impl Record for ListReply {
    ghost fields = { cost_fields };

    fn push(&self, alloc: Global, out: &mut Vec<u8>, day: Date) -> Result<(), AllocError> {
        let cost = Cost::of(self);
        push_values(
            alloc,
            out,
            day,
            &[
                Value::Plain(self.reg.as_bytes()),
                Value::Plain(self.loc.as_bytes()),
                Value::Moment(self.start.secs()),
                Value::Moment(self.end.secs()),
                Value::Number(cost.slots),
                Value::Number(cost.governed),
                Value::Number(cost.issued),
                Value::Number(cost.forced),
                Value::Number(cost.over),
                Value::Number(cost.delay),
                number_or_absent(cost.mean()),
                Value::Number(cost.longest as u128),
            ],
        )
    }
}

//! Who has the slots that a flight waits for, as comma-separated values.

ghost use Rattle.std.specs.Prelude.{◌≡◌, ◌++◌, IfOk, None, OnOk, Some};
ghost use Rattle.casa_report.specs.Csv.{record_line};
ghost use Rattle.casa_report.specs.WhyCsv.{holding_fields, why_csv};

use crate::csv::{Record, Value, csv, push_values};
use crate::list_csv::kind_text;
use casa_flight::{Key, Stance};
use casa_inquiry::{Holding, Reasons};
use jiff::civil::Date;
use std::alloc::{AllocError, Global};

/// Why a flight waits, as comma-separated values: a line of titles, and a line for each slot from the one that it asks for to
/// the one that it has, and for each flight that has it. Times are dates with times of day in UTC, as `2025-06-01T10:00:05`;
/// KEY, ETO and KIND are empty where nobody has the slot. There is no line but the titles where nothing governs the flight.
///
/// `AllocError` where there is no memory for it.
pub fn why_csv(alloc: Global, day: Date, why: &Reasons) -> Result<Vec<u8>, AllocError>
    ensures { IfOk result (λ text. text.items ≡ why_csv day why.now) }
{
    csv(
        alloc,
        day,
        b"SLOT,BEGIN,KEY,ETO,KIND\n",
        why.holdings.as_slice(),
    )
}

impl Record for Holding {
    ghost fields = { holding_fields };

    fn push(&self, alloc: Global, out: &mut Vec<u8>, day: Date) -> Result<(), AllocError> {
        match &self.holder {
            Some(member) => push_held(alloc, out, day, self, &member.key(), &member.stance()),
            None => push_free(alloc, out, day, self),
        }
    }
}

/// Appends the line of a slot that the flight with this key has, which stands so.
fn push_held(
    alloc: Global,
    out: &mut Vec<u8>,
    day: Date,
    holding: &Holding,
    key: &Key,
    stance: &Stance,
) -> Result<(), AllocError>
    requires { holding.now.holder ≡ Some (key.now, stance.now) }
    ensures { OnOk result (out.new.items
        ≡ out.old.items ++ record_line (holding_fields day) holding.now) }
{
    push_values(
        alloc,
        out,
        day,
        &[
            Value::Number(holding.slot as u128),
            Value::Moment(holding.begin.secs()),
            Value::Plain(key.as_bytes()),
            Value::Moment(stance.eto().secs()),
            Value::Plain(kind_text(stance.kind())),
        ],
    )
}

/// Appends the line of a slot that nobody has.
fn push_free(
    alloc: Global,
    out: &mut Vec<u8>,
    day: Date,
    holding: &Holding,
) -> Result<(), AllocError>
    requires { holding.now.holder ≡ None }
    ensures { OnOk result (out.new.items
        ≡ out.old.items ++ record_line (holding_fields day) holding.now) }
{
    push_values(
        alloc,
        out,
        day,
        &[
            Value::Number(holding.slot as u128),
            Value::Moment(holding.begin.secs()),
            Value::Absent,
            Value::Absent,
            Value::Absent,
        ],
    )
}

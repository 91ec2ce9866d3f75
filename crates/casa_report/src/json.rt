//! JSON: the beginning of an object, with the day.

ghost use Rattle.std.specs.Prelude.{◌≡◌, ◌++◌, OnOk, codes};
ghost use Rattle.serde_json.specs.Written.{compact_text};
ghost use Rattle.casa_report.specs.Json.{day_data};

use crate::moments::date_text;
use casa_wire::{Part, push_parts};
use jiff::civil::Date;
use std::alloc::{AllocError, Global};

/// Appends the beginning of an object, with the day as its first member.
///
/// `AllocError` where there is no memory for it; some of it may then stand there.
pub(crate) fn push_day(alloc: Global, out: &mut Vec<u8>, day: Date) -> Result<(), AllocError>
    ensures { OnOk result (out.new.items
        ≡ out.old.items ++ (codes "{\"day\":" ++ compact_text (day_data day))) }
{
    let text = date_text(alloc, day)?;
    push_parts(
        out,
        &[Part::Text(b"{\"day\":"), Part::Name(text.as_bytes())],
    )?;
    Ok(())
}

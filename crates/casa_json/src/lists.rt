//! Lists and their rows, and what is said of a regulation from step to step and from period to period.

ghost use Rattle.std.specs.Prelude.{◌≡◌};
ghost use Rattle.serde_json.specs.Written.{compact_text};
ghost use Rattle.casa_wire.specs.LineTexts.{count, list_data, or_null};
ghost use Rattle.casa_wire.specs.Parts.{part_text};
ghost use Rattle.casa_json.specs.Lists.{period_data, report_row_data, step_data};

use crate::values::Json;
use casa_flight::ListReply;
use casa_grid::Period;
use casa_inquiry::Step;
use casa_selection::{ReportRow, delay_in_list};
use casa_time::Moment;
use casa_wire::{Part, kind_name, push_list, push_parts};
use std::alloc::AllocError;

impl Json for ListReply {
    ghost value = { list_data };

    fn push_json(&self, out: &mut Vec<u8>) -> Result<(), AllocError> {
        push_list(out, self)?;
        Ok(())
    }
}

impl Json for ReportRow {
    ghost value = { report_row_data };

    fn push_json(&self, out: &mut Vec<u8>) -> Result<(), AllocError> {
        let row = &self.row;
        push_parts(
            out,
            &[
                Part::Text(b"{\"cto\":"),
                Part::Number(row.cto as u64),
                Part::Text(b",\"delay\":"),
                Part::Number(delay_in_list(row) as u64),
                Part::Text(b",\"eto\":"),
                Part::Number(row.eto.secs() as u64),
                Part::Text(b",\"key\":"),
                Part::Name(row.key.as_bytes()),
                Part::Text(b",\"kind\":"),
                Part::Name(kind_name(row.kind).as_bytes()),
                Part::Text(b",\"reg\":"),
                Part::Name(self.reg.as_bytes()),
                Part::Text(b",\"slot\":"),
                number_or_null(row.slot.get()),
                Part::Text(b"}"),
            ],
        )?;
        Ok(())
    }
}

/// A number, if there is one.
fn number_or_null(number: Option<usize>) -> Part<'static>
    ensures { part_text result ≡ compact_text (or_null count number) }
{
    match number {
        Some(number) => Part::Number(number as u64),
        None => Part::Text(b"null"),
    }
}

impl Json for Step {
    ghost value = { step_data };

    fn push_json(&self, out: &mut Vec<u8>) -> Result<(), AllocError> {
        push_parts(
            out,
            &[
                Part::Text(b"{\"calculated\":"),
                Part::Number(self.calculated as u64),
                Part::Text(b",\"from\":"),
                Part::Number(self.span.from.secs() as u64),
                Part::Text(b",\"planned\":"),
                Part::Number(self.planned as u64),
                Part::Text(b",\"slots\":"),
                Part::Number(self.slots as u64),
                Part::Text(b",\"to\":"),
                moment_or_null(self.span.until),
                Part::Text(b"}"),
            ],
        )?;
        Ok(())
    }
}

/// A moment, if there is one.
fn moment_or_null(moment: Option<Moment>) -> Part<'static>
    ensures { part_text result ≡ compact_text (or_null count moment) }
{
    match moment {
        Some(moment) => Part::Number(moment.secs() as u64),
        None => Part::Text(b"null"),
    }
}

impl Json for Period {
    ghost value = { period_data };

    fn push_json(&self, out: &mut Vec<u8>) -> Result<(), AllocError> {
        push_parts(
            out,
            &[
                Part::Text(b"{\"from\":"),
                Part::Number(self.begin.secs() as u64),
                Part::Text(b",\"rate\":"),
                Part::Number(self.rate as u64),
                Part::Text(b",\"to\":"),
                Part::Number(self.until.secs() as u64),
                Part::Text(b"}"),
            ],
        )?;
        Ok(())
    }
}

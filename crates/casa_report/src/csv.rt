//! Comma-separated values: a line of titles, and a line for each record.

ghost use Rattle.std.specs.Prelude.{◌≡◌, ◌++◌, IfOk, OnOk, decimal};
ghost use Rattle.jiff_core.specs.declared.civil.date.Date.{Date as Plain};
ghost use Rattle.casa_report.specs.Csv.{csv, or_empty, record_line, titles_line};
ghost use Rattle.casa_report.specs.Values.{behind_comma, more_values, value_text, values_line};
ghost use Rattle.std.specs.List.{flat_map};

use crate::moments::push_moment;
use itoa::Buffer;
use jiff::civil::Date;
use std::alloc::{AllocError, Global};

/// A value of a record. None needs quotation marks.
#[derive(Clone, Copy)]
pub enum Value<'a> {
    /// These characters, none of which is a comma, a quotation mark or a line end.
    Plain(&'a [u8]),
    Number(u128),
    /// A time in seconds from midnight UTC of the day.
    Moment(u32),
    Absent,
}

/// What is a record.
pub(crate) trait Record {
    ghost use Rattle.std.specs.Prelude.{◌≡◌, ◌++◌, List, OnOk};
    ghost use Rattle.jiff_core.specs.declared.civil.date.Date.{Date};
    ghost use Rattle.casa_report.specs.Csv.{Field, record_line};

    /// Its fields on a day.
    ghost fields: { Date → List (Field Self) };

    /// Appends its line. `AllocError` where there is no memory for it; some of it may then stand there.
    fn push(&self, alloc: Global, out: &mut Vec<u8>, day: Date) -> Result<(), AllocError>
        ensures { OnOk result (out.new.items ≡ out.old.items ++ record_line (fields day) self.now) };
}

/// These titles, and a line for each record.
///
/// `AllocError` where there is no memory for it.
pub(crate) fn csv<T: Record>(
    alloc: Global,
    day: Date,
    titles: &[u8],
    records: &[T],
) -> Result<Vec<u8>, AllocError>
    requires { titles.now ≡ titles_line (T.fields day) }
    ensures { IfOk result (λ text. text.items ≡ csv (T.fields day) records.now) }
{
    let mut text = Vec::from_slice(alloc, titles)?;
    push_records(alloc, &mut text, day, records)?;
    Ok(text)
}

/// Appends the line of each record.
fn push_records<T: Record>(
    alloc: Global,
    out: &mut Vec<u8>,
    day: Date,
    records: &[T],
) -> Result<(), AllocError>
    ensures { OnOk result (out.new.items
        ≡ out.old.items ++ flat_map (record_line (T.fields day)) records.now) }
{
    for record in records {
        record.push(alloc, out, day)?;
    }
    Ok(())
}

/// Appends the line of these values. `AllocError` where there is no memory for it; some of it may then stand there.
pub fn push_values(
    alloc: Global,
    out: &mut Vec<u8>,
    day: Date,
    values: &[Value<'_>],
) -> Result<(), AllocError>
    ensures { OnOk result (out.new.items ≡ out.old.items ++ values_line day values.now) }
{
    let Some((first, rest)) = values.split_first() else {
        out.push(b'\n')?;
        return Ok(());
    };
    push_value(alloc, out, day, *first)?;
    push_more(alloc, out, day, rest)?;
    out.push(b'\n')?;
    Ok(())
}

/// Appends these values, each behind a comma.
fn push_more(
    alloc: Global,
    out: &mut Vec<u8>,
    day: Date,
    values: &[Value<'_>],
) -> Result<(), AllocError>
    ensures { OnOk result (out.new.items ≡ out.old.items ++ more_values day values.now) }
{
    for value in values {
        push_behind_comma(alloc, out, day, *value)?;
    }
    Ok(())
}

fn push_behind_comma(
    alloc: Global,
    out: &mut Vec<u8>,
    day: Date,
    value: Value<'_>,
) -> Result<(), AllocError>
    ensures { OnOk result (out.new.items ≡ out.old.items ++ behind_comma day value.entry) }
{
    out.push(b',')?;
    push_value(alloc, out, day, value)
}

fn push_value(
    alloc: Global,
    out: &mut Vec<u8>,
    day: Date,
    value: Value<'_>,
) -> Result<(), AllocError>
    ensures { OnOk result (out.new.items ≡ out.old.items ++ value_text day value.entry) }
{
    match value {
        Value::Plain(text) => out.extend_from_slice(text),
        Value::Number(number) => out.extend_from_slice(Buffer::new().format(number).as_bytes()),
        Value::Moment(secs) => push_moment(alloc, out, day, secs),
        Value::Absent => Ok(()),
    }
}

/// A number, if there is one.
pub fn number_or_absent(number: Option<u128>) -> Value<'static>
    ensures { (day : Plain) → value_text day result ≡ or_empty decimal number }
{
    match number {
        Some(number) => Value::Number(number),
        None => Value::Absent,
    }
}

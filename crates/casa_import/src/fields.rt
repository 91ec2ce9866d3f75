//! The fields of a row, by what they say.

ghost use Rattle.std.specs.Prelude.{◌≡◌, Ok, IfOk, option_map};
ghost use Rattle.casa_import.specs.Fields.{crossing_of, entry_in, even, key_in, location_in, moment_in, number_of, status_named, sts_in, taxi_in};

use crate::columns::CrossingColumns;
use crate::reason::Reason;
use crate::times::{digit_at, four_digits_at, has_shape, moment_on, two_digits_at};
use casa_filing::{Crossing, Key, Loc, Sts};
use casa_rows::Row;
use casa_time::Moment;
use jiff::civil::Date;

/// `Uneven` where a row has not so many fields.
pub(crate) fn even(width: usize, row: &Row) -> Result<(), Reason>
    ensures { result ≡ even width row.now }
{
    if row.fields.len() == width {
        Ok(())
    } else {
        Err(Reason::Uneven)
    }
}

/// The key in a column.
pub(crate) fn key_in(column: usize, row: &Row) -> Result<Key, Reason>
    ensures { result ≡ key_in column row.now }
{
    match Key::new(row.text(column)) {
        Some(key) => Ok(key),
        None => Err(Reason::BadKey(column)),
    }
}

/// The location in a column.
pub(crate) fn location_in(column: usize, row: &Row) -> Result<Loc, Reason>
    ensures { result ≡ location_in column row.now }
{
    match Loc::new(row.text(column)) {
        Some(loc) => Ok(loc),
        None => Err(Reason::BadLocation(column)),
    }
}

/// The moment of a day in a column.
pub(crate) fn moment_in(day: Date, column: usize, row: &Row) -> Result<Moment, Reason>
    ensures { result ≡ moment_in day column row.now }
{
    match moment_on(day, row.text(column)) {
        Ok(moment) => Ok(moment),
        Err(fault) => Err(Reason::Time(fault, column)),
    }
}

/// The entry of which the location and the time stand in two columns.
pub(crate) fn entry_in(day: Date, loc: usize, eto: usize, row: &Row) -> Result<Crossing, Reason>
    ensures { result ≡ entry_in day loc eto row.now }
{
    let loc = location_in(loc, row)?;
    let eto = moment_in(day, eto, row)?;
    Ok(Crossing { loc, eto })
}

/// The taxi time in a column, where there is such a column with something in it.
pub(crate) fn taxi_in(column: Option<usize>, row: &Row) -> Result<Option<u32>, Reason>
    ensures { result ≡ taxi_in column row.now }
{
    let Some(column) = column else {
        return Ok(None);
    };
    let text = row.text(column);
    if text.is_empty() {
        return Ok(None);
    }
    match number_of(text) {
        Some(taxi) => Ok(Some(taxi)),
        None => Err(Reason::BadTaxi(column)),
    }
}

/// The special status in a column; the plain one where there is no such column, or nothing in it.
pub(crate) fn sts_in(column: Option<usize>, row: &Row) -> Result<Sts, Reason>
    ensures { result ≡ sts_in column row.now }
{
    let Some(column) = column else {
        return Ok(Sts::Plain);
    };
    let text = row.text(column);
    if text.is_empty() {
        return Ok(Sts::Plain);
    }
    match status_named(text) {
        Some(sts) => Ok(sts),
        None => Err(Reason::BadSts(column)),
    }
}

/// The special status with this name.
fn status_named(text: &[u8]) -> Option<Sts>
    ensures { result ≡ status_named text.now }
{
    if text == b"HEAD".as_slice() {
        Some(Sts::Head)
    } else if text == b"SAR".as_slice() {
        Some(Sts::Sar)
    } else if text == b"MEDEVAC".as_slice() {
        Some(Sts::Medevac)
    } else if text == b"FFR".as_slice() {
        Some(Sts::Ffr)
    } else if text == b"ATFMX".as_slice() {
        Some(Sts::Atfmx)
    } else {
        None
    }
}

/// The number that a text of one to four digits is.
pub(crate) fn number_of(text: &[u8]) -> Option<u32>
    ensures { result ≡ number_of text.now }
{
    if has_shape(b"0", text) {
        Some(digit_at(0, text))
    } else if has_shape(b"00", text) {
        Some(two_digits_at(0, text))
    } else if has_shape(b"000", text) {
        Some(10 * two_digits_at(0, text) + digit_at(2, text))
    } else if has_shape(b"0000", text) {
        Some(four_digits_at(0, text))
    } else {
        None
    }
}

/// The key of the flight of a row of crossings, and the crossing.
pub(crate) fn crossing_of(
    day: Date,
    columns: &CrossingColumns,
    row: &Row,
) -> Result<(Key, Crossing), Reason>
    ensures { result ≡ crossing_of day columns.now row.now }
{
    even(columns.width, row)?;
    let key = key_in(columns.key, row)?;
    let entry = entry_in(day, columns.loc, columns.eto, row)?;
    Ok((key, entry))
}

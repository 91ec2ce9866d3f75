//! Tables: a header, and rows with their lines.

ghost use Rattle.std.specs.Prelude.{◌≡◌, ◌<◌, [], drop, length, slice_index_or, IfOk, true};
ghost use Rattle.csv.specs.Reading.{Ready, is_flexible, reader_config, reader_state, reader_trim, source_of, strip_bom};
ghost use Rattle.csv.specs.declared.parser.State.TheVariants as st;
ghost use Rattle.csv.specs.declared.reader.Trim.TheVariants as trim;
ghost use Rattle.csv.specs.Records.{fields_of};
ghost use Rattle.casa_rows.specs.Lines.{BeginsOnLine, from_first_line};
ghost use Rattle.casa_rows.specs.Rows.{AreRows, IsTable, config, fields, texts};
ghost use Rattle.casa_rows.specs.Walk.{IsPlace};

use crate::row::Row;
use crate::separator::{behind_mark, separator};
use crate::walk::{Place, record_begin, record_end};
use csv::{ByteRecord, Reader, ReaderBuilder};
use std::alloc::{AllocError, Global};

/// A header and the rows below it.
#[derive(Drop)]
pub struct Table {
    /// The titles of the columns.
    pub header: Vec<Vec<u8>>,
    pub rows: Vec<Row>,
}

/// The table of a text: the header and all rows, also those that have more fields than the header, or fewer.
///
/// `AllocError` where there is no memory for it.
pub fn read_table(alloc: Global, file: &[u8]) -> Result<Table, AllocError>
    ensures { IfOk result (λ table. IsTable file.now table) }
{
    let mut rows = all_rows(alloc, file)?;
    if rows.is_empty() {
        return Ok(Table {
            header: Vec::new(alloc),
            rows,
        });
    }
    let Row { line: _, fields } = rows.remove(0);
    Ok(Table {
        header: fields,
        rows,
    })
}

/// The rows of a text, the header too.
fn all_rows(alloc: Global, file: &[u8]) -> Result<Vec<Row>, AllocError>
    ensures { IfOk result (λ rows. AreRows file.now rows.items) }
{
    let text = behind_mark(file);
    let separator = separator(text);
    let mut rows = Vec::new(alloc);
    let mut behind = Place::BEGINNING;
    for read in reader(alloc, file, separator).into_byte_records() {
        // A reader of a text in memory fails where there is no memory, and nowhere else.
        let Ok(read) = read else {
            return Err(AllocError);
        };
        let row = row_of(alloc, text, behind, &read)?;
        rows.push(row)?;
        behind = record_end(text, behind, separator);
    }
    Ok(rows)
}

/// A reader of all records of a text, however many fields each has.
fn reader(alloc: Global, file: &[u8], separator: u8) -> Reader<&[u8]>
    ensures config { reader_config result ≡ config separator }
    // So no record is refused for its number of fields.
    ensures flexible { is_flexible result ≡ true }
    ensures trim { reader_trim result ≡ trim.None }
    ensures ready { Ready result }
    ensures state { reader_state result ≡ st.StartRecord }
    ensures source { source_of (λ s. Some s.now) result ≡ Some (strip_bom file.now) }
{
    ReaderBuilder::new()
        .has_headers(false)
        .flexible(true)
        .delimiter(separator)
        .from_reader(alloc, file)
}

/// The row of the record that is the next one from a place on.
fn row_of(alloc: Global, text: &[u8], from: Place, read: &ByteRecord) -> Result<Row, AllocError>
    requires { IsPlace text.now from }
    ensures fields { IfOk result (λ row. fields row ≡ fields_of read.now) }
    ensures line { IfOk result (λ row.
        BeginsOnLine text.now (from_first_line (drop from.at text.now)) row.line) }
{
    Ok(Row {
        line: record_begin(text, from).line,
        fields: fields_of(alloc, read)?,
    })
}

/// The fields of a record.
fn fields_of(alloc: Global, read: &ByteRecord) -> Result<Vec<Vec<u8>>, AllocError>
    ensures { IfOk result (λ fields. texts fields.items ≡ fields_of read.now) }
{
    let mut fields = Vec::new(alloc);
    for i in 0..read.len() {
        fields.push(Vec::from_slice(alloc, field(read, i))?)?;
    }
    Ok(fields)
}

/// The field at a place.
fn field(read: &ByteRecord, at: usize) -> &[u8]
    requires { at < length (fields_of read.now) }
    ensures { result.now ≡ slice_index_or (fields_of read.now) at [] }
{
    match read.get(at) {
        Some(field) => field,
        None => &[],
    }
}

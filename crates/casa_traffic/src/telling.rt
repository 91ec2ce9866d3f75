//! What is told of files of traffic.

ghost use Rattle.std.specs.Prelude.{◌≡◌, ◌++◌, IfOk, OnOk, flat_map, length};
ghost use Rattle.casa_traffic.specs.Parts.{part_text, parts_text};
ghost use Rattle.casa_traffic.specs.Told.{crossing_figures, figures, flight_figures, gap, is_whole, regulation_figures, row_line, row_lines, title_at, told};

use crate::making::Made;
use crate::sheets::{Sheet, Sheets};
use casa_import::LeftOut;
use itoa::Buffer;
use std::alloc::{AllocError, Global};

/// A part of a line.
#[derive(Clone, Copy)]
enum Part<'a> {
    Words(&'a [u8]),
    Number(u64),
}

/// A line for each row that is left out, and then the figures of each file.
pub(crate) fn told(alloc: Global, sheets: &Sheets<'_>, made: &Made) -> Result<Vec<u8>, AllocError>
    ensures { IfOk result (λ text. text.items ≡ told sheets.now made.now) }
{
    let mut text = Vec::new(alloc);
    push_rows(&mut text, &sheets.regs, &made.regulations.left_out)?;
    push_rows(&mut text, &sheets.crossings, &made.crossings.left_out)?;
    push_rows(&mut text, &sheets.flights, &made.filings.left_out)?;
    push_regulation_figures(&mut text, &sheets.regs, made)?;
    push_crossing_figures(&mut text, &sheets.crossings, made)?;
    push_flight_figures(&mut text, &sheets.flights, made)?;
    Ok(text)
}

/// Whether no row is left out.
pub(crate) fn is_whole(made: &Made) -> bool
    ensures { result ≡ is_whole made.now }
{
    made.regulations.left_out.is_empty()
        && made.crossings.left_out.is_empty()
        && made.filings.left_out.is_empty()
}

/// Appends a line for each row of a file that is left out.
fn push_rows(
    text: &mut Vec<u8>,
    sheet: &Option<Sheet<'_>>,
    left_out: &[LeftOut],
) -> Result<(), AllocError>
    ensures { OnOk result (text.new.items ≡ text.old.items ++ row_lines sheet.now left_out.now) }
{
    match sheet {
        Some(sheet) => push_rows_of(text, sheet, left_out),
        None => Ok(()),
    }
}

fn push_rows_of(
    text: &mut Vec<u8>,
    sheet: &Sheet<'_>,
    left_out: &[LeftOut],
) -> Result<(), AllocError>
    ensures { OnOk result (text.new.items
        ≡ text.old.items ++ flat_map (row_line sheet.now) left_out.now) }
{
    for row in left_out {
        push_row(text, sheet, row)?;
    }
    Ok(())
}

/// Appends the line of a row that is left out.
fn push_row(text: &mut Vec<u8>, sheet: &Sheet<'_>, row: &LeftOut) -> Result<(), AllocError>
    ensures { OnOk result (text.new.items ≡ text.old.items ++ row_line sheet.now row.now) }
{
    let column = row.reason.column();
    push_parts(
        text,
        &[
            Part::Words(b"casa: "),
            Part::Words(sheet.name.as_bytes()),
            Part::Words(b":"),
            Part::Number(row.line),
            Part::Words(b": "),
            Part::Words(row.reason.name().as_bytes()),
            Part::Words(gap(column)),
            Part::Words(title_at(&sheet.table.header, column)),
            Part::Words(b"\n"),
        ],
    )
}

/// What stands before the title of a column, where there is one.
fn gap(column: Option<usize>) -> &'static [u8]
    ensures { result.now ≡ gap column }
{
    match column {
        Some(_) => b" ",
        None => b"",
    }
}

/// The title of a column, where there is one.
fn title_at(header: &[Vec<u8>], column: Option<usize>) -> &[u8]
    ensures { result.now ≡ title_at header.now column }
{
    let Some(column) = column else {
        return b"";
    };
    match header.get(column) {
        Some(title) => title.as_slice(),
        None => b"",
    }
}

/// Appends the figures of the file of regulations.
fn push_regulation_figures(
    text: &mut Vec<u8>,
    sheet: &Option<Sheet<'_>>,
    made: &Made,
) -> Result<(), AllocError>
    ensures { OnOk result (text.new.items
        ≡ text.old.items ++ figures (regulation_figures made.now) sheet.now) }
{
    let Some(sheet) = sheet else {
        return Ok(());
    };
    push_parts(
        text,
        &[
            Part::Words(b"casa: "),
            Part::Words(sheet.name.as_bytes()),
            Part::Words(b": "),
            Part::Number(rows_of(sheet) as u64),
            Part::Words(b" rows, "),
            Part::Number(opened(made) as u64),
            Part::Words(b" regulations, "),
            Part::Number(not_opened(made) as u64),
            Part::Words(b" left out\n"),
        ],
    )
}

/// How many rows a file has.
fn rows_of(sheet: &Sheet<'_>) -> usize
    ensures { result ≡ length sheet.now.table.rows.items }
{
    sheet.table.rows.len()
}

/// How many rows of regulations are left out.
fn not_opened(made: &Made) -> usize
    ensures { result ≡ length made.now.regulations.left_out.items }
{
    made.regulations.left_out.len()
}

/// How many regulations open.
fn opened(made: &Made) -> usize
    ensures { result ≡ length made.now.regulations.openings.items }
{
    made.regulations.openings.len()
}

/// Appends the figures of the file of crossings.
fn push_crossing_figures(
    text: &mut Vec<u8>,
    sheet: &Option<Sheet<'_>>,
    made: &Made,
) -> Result<(), AllocError>
    ensures { OnOk result (text.new.items
        ≡ text.old.items ++ figures (crossing_figures made.now) sheet.now) }
{
    let Some(sheet) = sheet else {
        return Ok(());
    };
    push_parts(
        text,
        &[
            Part::Words(b"casa: "),
            Part::Words(sheet.name.as_bytes()),
            Part::Words(b": "),
            Part::Number(sheet.table.rows.len() as u64),
            Part::Words(b" rows, "),
            Part::Number(made.crossings.left_out.len() as u64),
            Part::Words(b" left out, "),
            Part::Number(made.crossings.of_no_flight as u64),
            Part::Words(b" of no flight, "),
            Part::Number(made.crossings.entered_again as u64),
            Part::Words(b" entered again\n"),
        ],
    )
}

/// Appends the figures of the file of flights.
fn push_flight_figures(
    text: &mut Vec<u8>,
    sheet: &Option<Sheet<'_>>,
    made: &Made,
) -> Result<(), AllocError>
    ensures { OnOk result (text.new.items
        ≡ text.old.items ++ figures (flight_figures made.now) sheet.now) }
{
    let Some(sheet) = sheet else {
        return Ok(());
    };
    push_parts(
        text,
        &[
            Part::Words(b"casa: "),
            Part::Words(sheet.name.as_bytes()),
            Part::Words(b": "),
            Part::Number(sheet.table.rows.len() as u64),
            Part::Words(b" rows, "),
            Part::Number(made.filings.plans.len() as u64),
            Part::Words(b" filings, "),
            Part::Number(made.filings.left_out.len() as u64),
            Part::Words(b" left out\n"),
        ],
    )
}

fn push_parts(text: &mut Vec<u8>, parts: &[Part<'_>]) -> Result<(), AllocError>
    ensures { OnOk result (text.new.items ≡ text.old.items ++ parts_text parts.now) }
{
    for part in parts {
        push_part(text, part)?;
    }
    Ok(())
}

fn push_part(text: &mut Vec<u8>, part: &Part<'_>) -> Result<(), AllocError>
    ensures { OnOk result (text.new.items ≡ text.old.items ++ part_text part.now) }
{
    match part {
        Part::Words(words) => text.extend_from_slice(words),
        Part::Number(number) => {
            let mut buffer = Buffer::new();
            text.extend_from_slice(buffer.format(*number).as_bytes())
        }
    }
}

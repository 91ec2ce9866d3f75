//! Where records end, found without their fields.

ghost use Rattle.std.specs.Prelude.{◌≡◌, ◌≤◌, ◌+◌, ℕ, length, drop};
ghost use Rattle.std.specs.List.{count_by};
ghost use Rattle.csv.specs.Machine.{in_field, start_field, start_record, step};
ghost use Rattle.csv.specs.declared.parser.State.TheVariants as st;
ghost use Rattle.casa_rows.specs.Lines.{from_first_line, is_line_feed};
ghost use Rattle.casa_rows.specs.Rows.{config};
ghost use Rattle.casa_rows.specs.Walk.{GoesOn, IsPlace, behind_record, state};

use crate::separator::{ends_before, is_line_end};

/// Where in a record a walk stands.
#[derive(Clone, Copy)]
pub(crate) enum Within {
    /// Before its first byte.
    Before,
    FieldStart,
    /// In a field without quotation marks.
    Plain,
    /// Between the quotation marks of a field.
    Quoted,
    /// Behind a quotation mark, which ends the field or is the first of two.
    Quote,
}

/// A place of a text, and its line.
#[derive(Clone, Copy)]
pub(crate) struct Place {
    pub(crate) at: usize,
    pub(crate) line: u64,
}

impl Place {
    /// The beginning of a text.
    pub(crate) const BEGINNING: Place = Place { at: 0, line: 1 };
}

/// Where a byte of a field without quotation marks leads; `None` where it ends the record.
fn after_plain(byte: u8, separator: u8) -> Option<Within>
    ensures { GoesOn (in_field (config separator) byte) result }
{
    if byte == separator {
        Some(Within::FieldStart)
    } else if is_line_end(byte) {
        None
    } else {
        Some(Within::Plain)
    }
}

/// The same of the byte with which a field begins.
fn after_field_start(byte: u8, separator: u8) -> Option<Within>
    ensures { GoesOn (start_field (config separator) byte) result }
{
    if byte == b'"' {
        Some(Within::Quoted)
    } else {
        after_plain(byte, separator)
    }
}

/// The same of a byte before a record: line ends are passed over.
fn after_before(byte: u8, separator: u8) -> Option<Within>
    ensures { GoesOn (start_record (config separator) byte) result }
{
    if is_line_end(byte) {
        Some(Within::Before)
    } else {
        after_field_start(byte, separator)
    }
}

/// The same of a byte behind a quotation mark in a field that began with one.
fn after_quote(byte: u8, separator: u8) -> Option<Within>
    ensures { GoesOn (step (config separator) st.AfterQuote byte) result }
{
    if byte == b'"' {
        Some(Within::Quoted)
    } else {
        after_plain(byte, separator)
    }
}

fn after_quoted(byte: u8) -> Within
    ensures { (separator : ℕ) → GoesOn (step (config separator) st.InQuoted byte) (Some result) }
{
    if byte == b'"' {
        Within::Quote
    } else {
        Within::Quoted
    }
}

/// Where a byte leads; `None` where it ends the record.
fn after(within: Within, byte: u8, separator: u8) -> Option<Within>
    ensures { GoesOn (step (config separator) (state within) byte) result }
{
    match within {
        Within::Before => after_before(byte, separator),
        Within::FieldStart => after_field_start(byte, separator),
        Within::Plain => after_plain(byte, separator),
        Within::Quoted => Some(after_quoted(byte)),
        Within::Quote => after_quote(byte, separator),
    }
}

/// How many bytes the first record of a text takes, with the line ends before it and the byte that ends it.
fn record_len(text: &[u8], separator: u8) -> usize
    ensures within { result ≤ length text.now }
    ensures behind { drop result text.now ≡ behind_record (config separator) st.StartRecord text.now }
{
    let mut within = Within::Before;
    for (i, byte) in text.iter().enumerate() {
        let Some(to) = after(within, *byte, separator) else {
            return i + 1;
        };
        within = to;
    }
    text.len()
}

/// How many bytes are line feeds.
fn line_feeds(text: &[u8]) -> usize
    ensures value { result ≡ count_by is_line_feed text.now }
    ensures within { result ≤ length text.now }
{
    text.iter().filter(|byte| **byte == b'\n').count()
}

/// The place so many bytes ahead.
fn ahead(text: &[u8], from: Place, bytes: usize) -> Place
    requires place { IsPlace text.now from }
    requires within { from.at + bytes ≤ length text.now }
    ensures at { result.at ≡ from.at + bytes }
    ensures place { IsPlace text.now result }
{
    let at = from.at + bytes;
    let passed = line_feeds(&text[from.at..at]);
    Place {
        at,
        line: from.line + passed as u64,
    }
}

/// Where the next record begins.
pub(crate) fn record_begin(text: &[u8], from: Place) -> Place
    requires { IsPlace text.now from }
    ensures place { IsPlace text.now result }
    ensures begin { drop result.at text.now ≡ from_first_line (drop from.at text.now) }
{
    ahead(text, from, ends_before(&text[from.at..]))
}

/// The place behind the next record.
pub(crate) fn record_end(text: &[u8], from: Place, separator: u8) -> Place
    requires { IsPlace text.now from }
    ensures place { IsPlace text.now result }
    ensures behind { drop result.at text.now ≡ behind_record (config separator) st.StartRecord (drop from.at text.now) }
{
    ahead(text, from, record_len(&text[from.at..], separator))
}

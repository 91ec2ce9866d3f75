//! What stands at the beginning of a text: a byte order mark, empty lines, and the line that tells the separator.

ghost use Rattle.std.specs.Prelude.{◌≡◌, ◌≤◌, ◌==◌, length, not};
ghost use Rattle.std.specs.List.{list_any, prefix_len};
ghost use Rattle.csv.specs.Reading.{strip_bom};
ghost use Rattle.casa_rows.specs.Lines.{ends_before, from_first_line, is_line_end};
ghost use Rattle.casa_rows.specs.Separator.{header_line, separator};

/// The byte order mark U+FEFF in UTF-8.
const MARK: [u8; 3] = [0xEF, 0xBB, 0xBF];

/// A text behind its byte order mark, if it has one.
pub(crate) fn behind_mark(file: &[u8]) -> &[u8]
    ensures { result.now ≡ strip_bom file.now }
{
    match file.strip_prefix(MARK.as_slice()) {
        Some(text) => text,
        None => file,
    }
}

pub(crate) fn is_line_end(byte: u8) -> bool
    ensures { result ≡ is_line_end byte }
{
    byte == b'\r' || byte == b'\n'
}

/// How many bytes at the beginning end lines that have no other byte.
pub(crate) fn ends_before(text: &[u8]) -> usize
    ensures value { result ≡ ends_before text.now }
    ensures within { result ≤ length text.now }
{
    text.iter().take_while(|byte| is_line_end(**byte)).count()
}

/// A text from its first byte that ends no line.
fn from_first_line(text: &[u8]) -> &[u8]
    ensures { result.now ≡ from_first_line text.now }
{
    &text[ends_before(text)..]
}

/// How many bytes stand before the first that ends a line.
fn line_len(text: &[u8]) -> usize
    ensures value { result ≡ prefix_len (λ byte. not (is_line_end byte)) text.now }
    ensures within { result ≤ length text.now }
{
    text.iter().take_while(|byte| !is_line_end(**byte)).count()
}

/// The first line that is not empty.
fn header_line(text: &[u8]) -> &[u8]
    ensures { result.now ≡ header_line text.now }
{
    let line = from_first_line(text);
    &line[..line_len(line)]
}

fn has_semicolon(line: &[u8]) -> bool
    ensures { result ≡ list_any (λ byte. byte == 59) line.now }
{
    line.iter().any(|byte| *byte == b';')
}

/// `;` where the header line has one, else `,`.
pub(crate) fn separator(text: &[u8]) -> u8
    ensures { result ≡ separator text.now }
{
    if has_semicolon(header_line(text)) {
        b';'
    } else {
        b','
    }
}

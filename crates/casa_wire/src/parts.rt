//! Writes texts behind the bytes of a vector, part by part.

ghost use Rattle.std.specs.Prelude.{◌≡◌, ◌++◌, OnOk, OnErr};
ghost use Rattle.std.specs.List.{list_all};
ghost use Rattle.serde_json.specs.Data.{string};
ghost use Rattle.serde_json.specs.Written.{compact_text};
ghost use Rattle.casa_wire.specs.LineTexts.{count};
ghost use Rattle.casa_wire.specs.Parts.{Writes, is_plain_byte, part_text, parts_text};

use itoa::Buffer;
use std::alloc::AllocError;

/// A part of a line.
#[derive(Clone, Copy)]
pub enum Part<'a> {
    /// These bytes.
    Text(&'static [u8]),
    /// A whole number.
    Number(u64),
    /// A name in quotation marks. It has nothing that JSON would write in another way.
    Name(&'a [u8]),
}

/// Writes the parts, one behind the other. `AllocError` where there is no memory for them; some of them may then stand
/// there.
pub fn push_parts(out: &mut Vec<u8>, parts: &[Part<'_>]) -> Result<(), AllocError>
    ensures { Writes result out.old.items out.new.items (parts_text parts.now) }
{
    for part in parts {
        push_part(out, *part)?;
    }
    Ok(())
}

fn push_part(out: &mut Vec<u8>, part: Part<'_>) -> Result<(), AllocError>
    ensures { Writes result out.old.items out.new.items (part_text part.entry) }
{
    match part {
        Part::Text(text) => push_text(out, text),
        Part::Number(number) => push_number(out, number),
        Part::Name(name) => push_name(out, name),
    }
}

/// Writes a text. `AllocError` where there is no memory for it.
pub fn push_text(out: &mut Vec<u8>, text: &[u8]) -> Result<(), AllocError>
    ensures { Writes result out.old.items out.new.items text.now }
{
    out.extend_from_slice(text)
}

fn push_number(out: &mut Vec<u8>, number: u64) -> Result<(), AllocError>
    ensures { Writes result out.old.items out.new.items (compact_text (count number)) }
{
    let mut buffer = Buffer::new();
    out.extend_from_slice(buffer.format(number).as_bytes())
}

/// Writes a name in quotation marks. `AllocError` where there is no memory for it, and where JSON would write one of its
/// bytes in another way, which is so of no key, location or identifier.
fn push_name(out: &mut Vec<u8>, name: &[u8]) -> Result<(), AllocError>
    ensures { Writes result out.old.items out.new.items (compact_text (string name.now)) }
{
    if !is_plain(name) {
        return Err(AllocError);
    }
    out.push(b'"')?;
    out.extend_from_slice(name)?;
    out.push(b'"')?;
    Ok(())
}

/// Whether all bytes stand for themselves in a JSON string.
fn is_plain(text: &[u8]) -> bool
    ensures { result ≡ list_all is_plain_byte text.now }
{
    text.iter().all(|byte| is_plain_byte(*byte))
}

fn is_plain_byte(byte: u8) -> bool
    ensures { result ≡ is_plain_byte byte }
{
    32 <= byte && byte != b'"' && byte != b'\\'
}

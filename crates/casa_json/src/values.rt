//! Values, and arrays of them.

ghost use Rattle.std.specs.Prelude.{◌≡◌, ◌∷◌, ◌++◌, OnOk};
ghost use Rattle.serde_json.specs.Data.{Data, string};
ghost use Rattle.serde_json.specs.Written.{compact_text};
ghost use Rattle.casa_wire.specs.LineTexts.{count, list_of};
ghost use Rattle.casa_wire.specs.Parts.{more_text};

use casa_wire::{Part, push_parts, push_text};
use itoa::Buffer;
use std::alloc::AllocError;

/// What is written as JSON.
pub trait Json {
    ghost use Rattle.std.specs.Prelude.{◌≡◌, ◌++◌, OnOk};
    ghost use Rattle.serde_json.specs.Data.{Data};
    ghost use Rattle.serde_json.specs.Written.{compact_text};

    /// Its value.
    ghost value: { Self → Data };

    /// Writes it behind the bytes that stand there. `AllocError` where there is no memory for it; some of it may then stand
    /// there.
    fn push_json(&self, out: &mut Vec<u8>) -> Result<(), AllocError>
        ensures { OnOk result (out.new.items ≡ out.old.items ++ compact_text (value self.now)) };
}

/// Writes an array of these behind the bytes that stand there. `AllocError` where there is no memory for it; some of it may
/// then stand there.
pub fn push_array<T: Json>(out: &mut Vec<u8>, items: &[T]) -> Result<(), AllocError>
    ensures { OnOk result (out.new.items
        ≡ out.old.items ++ compact_text (list_of T.value items.now)) }
{
    let Some((first, rest)) = items.split_first() else {
        push_text(out, b"[]")?;
        return Ok(());
    };
    push_text(out, b"[")?;
    first.push_json(out)?;
    push_more(out, rest)?;
    push_text(out, b"]")?;
    Ok(())
}

/// Writes these, each behind a comma.
fn push_more<T: Json>(out: &mut Vec<u8>, items: &[T]) -> Result<(), AllocError>
    ensures { OnOk result (out.new.items ≡ out.old.items ++ more_text T.value items.now) }
{
    for item in items {
        push_behind_comma(out, item)?;
    }
    Ok(())
}

fn push_behind_comma<T: Json>(out: &mut Vec<u8>, item: &T) -> Result<(), AllocError>
    ensures { OnOk result (out.new.items ≡ out.old.items ++ (44 ∷ compact_text (T.value item.now))) }
{
    push_text(out, b",")?;
    item.push_json(out)
}

/// Writes what stands before a name, and the name in quotation marks, behind the bytes that stand there. `AllocError` where
/// there is no memory for it, and where JSON would write a byte of the name in another way, which is so of no key, location or
/// identifier; some of it may then stand there.
pub fn push_name(out: &mut Vec<u8>, before: &'static [u8], name: &[u8]) -> Result<(), AllocError>
    ensures { OnOk result (out.new.items
        ≡ out.old.items ++ (before.now ++ compact_text (string name.now))) }
{
    push_parts(out, &[Part::Text(before), Part::Name(name)])?;
    Ok(())
}

/// Writes what stands before a number, and the number, behind the bytes that stand there. `AllocError` where there is no memory
/// for it; some of it may then stand there.
pub fn push_figure(out: &mut Vec<u8>, before: &'static [u8], figure: u128) -> Result<(), AllocError>
    ensures { OnOk result (out.new.items
        ≡ out.old.items ++ (before.now ++ compact_text (count figure))) }
{
    let mut buffer = Buffer::new();
    out.extend_from_slice(before)?;
    out.extend_from_slice(buffer.format(figure).as_bytes())
}

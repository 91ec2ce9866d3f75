//! JSON objects, written behind the bytes of a vector.

ghost use Rattle.std.specs.Prelude.{◌≡◌, ◌∷◌, ◌++◌, List, ℕ, map};
ghost use Rattle.std.specs.List.{list_all};
ghost use Rattle.serde_json.specs.Data.{string};
ghost use Rattle.serde_json.specs.Written.{comma_if, compact_text, members_text};
ghost use Rattle.casa_grid.specs.declared.period.Period.{Period};
ghost use Rattle.casa_filing.specs.declared.plan.Crossing.{Crossing};
ghost use Rattle.casa_wire.specs.LineTexts.{count, list_of, members_of, object_of};
ghost use Rattle.casa_wire.specs.Parts.{Writes, is_plain_byte};
ghost use Rattle.casa_lines.specs.Lines.{crossing_data, period_data};
ghost use Rattle.casa_lines.specs.Texts.{behind_commas, between, both_rows, joined, member_of, member_text, value_data};

use casa_flight::Crossing;
use casa_grid::Period;
use itoa::Buffer;
use std::alloc::AllocError;
use std::cmp::Ordering;

/// A member of a JSON object.
#[derive(Clone, Copy)]
pub struct Member<'a> {
    pub name: &'static str,
    pub value: Value<'a>,
}

/// What a member is.
#[derive(Clone, Copy)]
pub enum Value<'a> {
    Null,
    Number(u64),
    /// A text with nothing in it that JSON would write in another way.
    Name(&'a [u8]),
    Crossings(&'a [Crossing]),
    Periods(&'a [Period]),
}

impl Member<'_> {
    /// A member with this name that is a number.
    pub fn number(name: &'static str, number: u64) -> Member<'static>
        ensures { member_of result ≡ (name.now, count number) }
    {
        Member {
            name,
            value: Value::Number(number),
        }
    }
}

/// What has a text.
trait Texts {
    ghost use Rattle.casa_wire.specs.Parts.{Writes};

    /// The text.
    ghost text: { Self → List ℕ };

    /// Writes the text behind the bytes that stand there. `AllocError` where there is no memory for it; some of it may then
    /// stand there.
    fn push(&self, out: &mut Vec<u8>) -> Result<(), AllocError>
        ensures { Writes result out.old.items out.new.items (text self.now) };
}

impl Texts for Crossing {
    ghost text = { λ crossing. compact_text (crossing_data crossing) };

    fn push(&self, out: &mut Vec<u8>) -> Result<(), AllocError> {
        out.extend_from_slice(b"{\"eto\":")?;
        push_number(out, self.eto.secs() as u64)?;
        out.extend_from_slice(b",\"loc\":")?;
        push_name(out, self.loc.as_bytes())?;
        out.push(b'}')?;
        Ok(())
    }
}

impl Texts for Period {
    ghost text = { λ period. compact_text (period_data period) };

    fn push(&self, out: &mut Vec<u8>) -> Result<(), AllocError> {
        out.extend_from_slice(b"{\"from\":")?;
        push_number(out, self.begin.secs() as u64)?;
        out.extend_from_slice(b",\"rate\":")?;
        push_number(out, self.rate as u64)?;
        out.extend_from_slice(b",\"to\":")?;
        push_number(out, self.until.secs() as u64)?;
        out.push(b'}')?;
        Ok(())
    }
}

fn push_number(out: &mut Vec<u8>, number: u64) -> Result<(), AllocError>
    ensures { Writes result out.old.items out.new.items (compact_text (count number)) }
{
    let mut buffer = Buffer::new();
    out.extend_from_slice(buffer.format(number).as_bytes())
}

/// Writes an object with the members of two rows, of which each is in the order of the names. `AllocError` where there is
/// no memory for it; some of it may then stand there.
pub(crate) fn push_object(
    out: &mut Vec<u8>,
    members: &[Member<'_>],
    beside: &[Member<'_>],
) -> Result<(), AllocError>
    ensures { Writes result out.old.items out.new.items
        (compact_text (object_of (both_rows members.now beside.now))) }
{
    out.push(b'{')?;
    push_members(out, false, members, beside)
}

/// Writes the members of two rows as one, and the bracket behind them. Whether others stand before them `later` tells.
#[tactic(auto, unfolding(crate::specs::Texts::merged))]
fn push_members(
    out: &mut Vec<u8>,
    later: bool,
    members: &[Member<'_>],
    beside: &[Member<'_>],
) -> Result<(), AllocError>
    ensures { Writes result out.old.items out.new.items
        (members_text later (members_of (both_rows members.now beside.now))) }
{
    let Some((first, rest)) = members.split_first() else {
        return push_row(out, later, beside);
    };
    let Some((other, others)) = beside.split_first() else {
        return push_row(out, later, members);
    };
    if first.name.cmp(other.name) == Ordering::Less {
        push_next(out, later, first)?;
        push_members(out, true, rest, beside)
    } else {
        push_next(out, later, other)?;
        push_members(out, true, members, others)
    }
}

/// Writes the members of one row, and the bracket behind them.
fn push_row(out: &mut Vec<u8>, later: bool, members: &[Member<'_>]) -> Result<(), AllocError>
    ensures { Writes result out.old.items out.new.items
        (members_text later (members_of (map member_of members.now))) }
{
    let Some((first, rest)) = members.split_first() else {
        out.push(b'}')?;
        return Ok(());
    };
    push_next(out, later, first)?;
    push_row(out, true, rest)
}

/// Writes a member, behind a comma where others stand before it.
fn push_next(out: &mut Vec<u8>, later: bool, member: &Member<'_>) -> Result<(), AllocError>
    ensures { Writes result out.old.items out.new.items
        (comma_if later ++ member_text (member_of member.now)) }
{
    if later {
        out.push(b',')?;
    }
    push_member(out, member)
}

fn push_member(out: &mut Vec<u8>, member: &Member<'_>) -> Result<(), AllocError>
    ensures { Writes result out.old.items out.new.items (member_text (member_of member.now)) }
{
    push_name(out, member.name.as_bytes())?;
    out.push(b':')?;
    push_value(out, member.value)
}

fn push_value(out: &mut Vec<u8>, value: Value<'_>) -> Result<(), AllocError>
    ensures { Writes result out.old.items out.new.items (compact_text (value_data value.entry)) }
{
    match value {
        Value::Null => out.extend_from_slice(b"null"),
        Value::Number(number) => push_number(out, number),
        Value::Name(name) => push_name(out, name),
        Value::Crossings(via) => push_between(out, b'[', via, b']'),
        Value::Periods(periods) => push_between(out, b'[', periods, b']'),
    }
}

fn push_between<T: Texts>(
    out: &mut Vec<u8>,
    opening: u8,
    items: &[T],
    closing: u8,
) -> Result<(), AllocError>
    ensures { Writes result out.old.items out.new.items (between T.text opening items.now closing) }
{
    out.push(opening)?;
    push_joined(out, items)?;
    out.push(closing)?;
    Ok(())
}

fn push_joined<T: Texts>(out: &mut Vec<u8>, items: &[T]) -> Result<(), AllocError>
    ensures { Writes result out.old.items out.new.items (joined T.text items.now) }
{
    let Some((first, rest)) = items.split_first() else {
        return Ok(());
    };
    first.push(out)?;
    push_behind_commas(out, rest)
}

fn push_behind_commas<T: Texts>(out: &mut Vec<u8>, items: &[T]) -> Result<(), AllocError>
    ensures { Writes result out.old.items out.new.items (behind_commas T.text items.now) }
{
    for item in items {
        push_behind_comma(out, item)?;
    }
    Ok(())
}

fn push_behind_comma<T: Texts>(out: &mut Vec<u8>, item: &T) -> Result<(), AllocError>
    ensures { Writes result out.old.items out.new.items (44 ∷ T.text item.now) }
{
    out.push(b',')?;
    item.push(out)
}

/// Writes a name in quotation marks. `AllocError` where there is no memory for it, and where JSON would write one of its
/// bytes in another way, which is so of no key, location or identifier.
fn push_name(out: &mut Vec<u8>, name: &[u8]) -> Result<(), AllocError>
    ensures { Writes result out.old.items out.new.items (compact_text (string name.now)) }
{
    if !is_word(name) {
        return Err(AllocError);
    }
    out.push(b'"')?;
    out.extend_from_slice(name)?;
    out.push(b'"')?;
    Ok(())
}

/// Whether JSON writes the text as it stands.
fn is_word(text: &[u8]) -> bool
    ensures { result ≡ list_all is_plain_byte text.now }
{
    text.iter()
        .all(|byte| 32 <= *byte && *byte != b'"' && *byte != b'\\')
}

//! What differs between the days of two inputs.

ghost use Rattle.std.specs.Prelude.{◌≡◌, IfErr, IfOk};
ghost use Rattle.casa_difference.specs.Comparisons.{comparison};
ghost use Rattle.casa_session.specs.Played.{state_after_calls};
ghost use Rattle.casa_app.specs.Inputs.{is_marked};
ghost use Rattle.casa_app.specs.Compared.{BaseEnds, CompareEnds, CompareSays, IsSaidOf, SaysBelow, compare_after, compare_as, headed};
ghost use Rattle.casa_app.specs.Printed.{IsWhole, PrintEnds};

use crate::after_calls::AfterCalls;
use crate::fault::PrintFault;
use crate::input::Input;
use crate::printing::{Question, answer_lines, print};
use casa_cli::Format;
use casa_compare::{compare_csv, compare_json, compare_text};
use casa_difference::Comparison;
use casa_session::{Lone, send};
use jiff::civil::Date;
use std::alloc::{AllocError, Global};
use std::io::{Read, Write};

/// The line above what is said of the lines of the base, and of those of the variant.
const OF_BASE: &[u8] = b"casa: base:\n";

const OF_VARIANT: &[u8] = b"casa: variant:\n";

/// What a comparison is asked for.
#[derive(Clone, Copy)]
pub struct CompareOf {
    pub day: Date,
    pub format: Format,
}

/// Answers the command lines of two inputs, each as a session does from the opening on, without its replies; says at `errors`
/// which lines of each had faults or were refused, below a line with the word of the input, `casa: base:` or `casa: variant:`;
/// and then writes what differs between the days after both, in the form that is asked for.
///
/// The fault of the base's session comes first, then `FaultyLines` where it has such lines and `strict` is true, or `NoMemory`
/// where there is none for its desk; the variant is not read then. The same of the variant comes next, and nothing is written
/// at any of them. `NoMemory` where there is none for the text, and then nothing is written. `WriteFailed` where the writer
/// fails or takes no byte before it has the whole text; it then has the beginning of it. Where `errors` fails, or where there is
/// no memory for what is to be said, nothing else changes.
pub fn compare<B: Read + Drop, V: Read + Drop, W: Write, E: Write>(
    alloc: Global,
    asked: CompareOf,
    strict: bool,
    base: &mut Input<B>,
    variant: &mut Input<V>,
    writer: &mut W,
    errors: &mut E,
) -> Result<(), PrintFault>
    ensures ends { CompareEnds asked.day asked.format result
        (B.remaining base.old.source) (B.remaining base.new.source)
        (V.remaining variant.old.source) (V.remaining variant.new.source)
        (W.contents writer.old) (W.contents writer.new) }
    ensures says { CompareSays strict (is_marked base.new.first.items) (is_marked variant.new.first.items) result
        (B.remaining base.old.source) (B.remaining base.new.source)
        (V.remaining variant.old.source) (V.remaining variant.new.source)
        (E.contents errors.old) (E.contents errors.new) }
{
    let base = answered_below(alloc, OF_BASE, strict, base, errors)?;
    let question = DifferenceTo { base, asked };
    printed_below(
        alloc, OF_VARIANT, &question, strict, variant, writer, errors,
    )
}

/// A new desk that has answered all lines of the input, as of `answer_lines`. What is to be said of them is said below this
/// line.
fn answered_below<R: Read + Drop, E: Write>(
    alloc: Global,
    line: &'static [u8],
    strict: bool,
    input: &mut Input<R>,
    errors: &mut E,
) -> Result<Lone, PrintFault>
    ensures whole { IfOk result (λ lone. IsWhole (R.remaining input.old.source) lone) }
    ensures err { IfErr result (λ fault. BaseEnds fault (R.remaining input.old.source)
        (R.remaining input.new.source)) }
    ensures says { SaysBelow line.now strict (is_marked input.new.first.items) result
        (R.remaining input.old.source) (R.remaining input.new.source)
        (E.contents errors.old) (E.contents errors.new) }
{
    let mut said = Vec::new(alloc);
    let answered = answer_lines(alloc, strict, input, &mut said);
    say_of(alloc, line, &said, errors);
    answered
}

/// Answers the lines of the input and writes the text that answers the question, as of `print`. What is to be said of the lines
/// is said below this line.
fn printed_below<Q: Question, R: Read + Drop, W: Write, E: Write>(
    alloc: Global,
    line: &'static [u8],
    question: &Q,
    strict: bool,
    input: &mut Input<R>,
    writer: &mut W,
    errors: &mut E,
) -> Result<(), PrintFault>
    ensures ends { PrintEnds (Q.text_after question.now) result (R.remaining input.old.source)
        (R.remaining input.new.source) (W.contents writer.old) (W.contents writer.new) }
    ensures says { SaysBelow line.now strict (is_marked input.new.first.items) result
        (R.remaining input.old.source) (R.remaining input.new.source)
        (E.contents errors.old) (E.contents errors.new) }
{
    let mut said = Vec::new(alloc);
    let printed = print(alloc, question, strict, input, writer, &mut said);
    say_of(alloc, line, &said, errors);
    printed
}

/// Says a text below this line, if there is anything to say.
fn say_of<E: Write>(alloc: Global, line: &'static [u8], text: &[u8], errors: &mut E)
    ensures { IsSaidOf line.now (E.contents errors.old) (E.contents errors.new) text.now }
{
    // Nothing else changes where it cannot be said.
    let Ok(whole) = headed(alloc, line, text) else {
        return;
    };
    let _ = send(errors, &whole, 0);
}

/// A text with this line above it; nothing where it is empty. `AllocError` where there is no memory for it.
fn headed(alloc: Global, line: &'static [u8], text: &[u8]) -> Result<Vec<u8>, AllocError>
    ensures { IfOk result (λ whole. whole.items ≡ headed line.now text.now) }
{
    if text.is_empty() {
        return Ok(Vec::new(alloc));
    }
    let mut whole = Vec::from_slice(alloc, line)?;
    whole.extend_from_slice(text)?;
    Ok(whole)
}

/// Asks what differs from the day of a desk.
#[derive(Drop)]
struct DifferenceTo {
    base: Lone,
    asked: CompareOf,
}

impl Question for DifferenceTo {
    ghost text_after = { λ question. compare_after question.base question.asked.day question.asked.format };

    fn text(&self, alloc: Global, lone: &mut Lone) -> Result<Vec<u8>, PrintFault> {
        let found = compared(alloc, &self.base, lone)?;
        let text = text_of(alloc, self.asked, &found)?;
        Ok(text)
    }
}

/// What differs, in the form that is asked for. `AllocError` where there is no memory for it.
fn text_of(alloc: Global, asked: CompareOf, found: &Comparison) -> Result<Vec<u8>, AllocError>
    ensures { IfOk result (λ text. text.items ≡ compare_as asked.format asked.day found.now) }
{
    match asked.format {
        Format::Table => compare_text(alloc, asked.day, found),
        Format::Csv => compare_csv(alloc, asked.day, found),
        Format::Json => compare_json(alloc, asked.day, found),
    }
}

/// What differs between the states after the calls of two desks.
fn compared(alloc: Global, base: &Lone, variant: &Lone) -> Result<Comparison, AllocError>
    ensures { IfOk result (λ found. found
        ≡ comparison (state_after_calls base.now) (state_after_calls variant.now)) }
{
    casa_difference::compare(
        alloc,
        &AfterCalls { lone: base },
        &AfterCalls { lone: variant },
    )
}

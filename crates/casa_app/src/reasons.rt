//! Why a flight waits.

ghost use Rattle.std.specs.Prelude.{◌≡◌, IfOk, Some};
ghost use Rattle.casa_flight.specs.State.{row_of};
ghost use Rattle.casa_inquiry.specs.Why.{why};
ghost use Rattle.casa_session.specs.Played.{state_after_calls};
ghost use Rattle.casa_app.specs.Inputs.{is_marked};
ghost use Rattle.casa_app.specs.Printed.{PrintEnds};
ghost use Rattle.casa_app.specs.Remarked.{Says};
ghost use Rattle.casa_app.specs.Whys.{exchanges_after, why_after, why_as};

use crate::after_calls::AfterCalls;
use crate::fault::PrintFault;
use crate::input::Input;
use crate::printing::{Question, print};
use casa_cli::Format;
use casa_flight::{Key, Row, SharedSlice};
use casa_inquiry::{PossibleExchange, Reasons, exchanges, explain};
use casa_report::{why_csv, why_json, why_text};
use casa_session::Lone;
use jiff::civil::Date;
use std::alloc::{AllocError, Global};
use std::io::{Read, Write};

/// Answers the command lines of the input as a session does, without its replies, says at `errors` which lines had
/// faults or were refused, and then writes why the flight with this key stands as it does: what it is shown with, the
/// rule by which a regulation governs it, what each regulation to which it is subject would offer it, who holds the slots
/// that it waits for, and with which flights it could exchange its slot; as comma-separated values who holds the slots
/// alone. It ends as `report` does, by `NoFlight` where there is no such flight after all lines.
pub fn why<R: Read + Drop, W: Write, E: Write>(
    alloc: Global,
    key: &Key,
    day: Date,
    format: Format,
    strict: bool,
    input: &mut Input<R>,
    writer: &mut W,
    errors: &mut E,
) -> Result<(), PrintFault>
    ensures ends { PrintEnds (why_after key.now day format) result (R.remaining input.old.source)
        (R.remaining input.new.source) (W.contents writer.old) (W.contents writer.new) }
    ensures says { Says strict (is_marked input.new.first.items) result
        (R.remaining input.old.source) (R.remaining input.new.source)
        (E.contents errors.old) (E.contents errors.new) }
{
    let question = WhyOf {
        key: *key,
        day,
        format,
    };
    print(alloc, &question, strict, input, writer, errors)
}

/// Asks why a flight stands as it does.
#[derive(Drop)]
struct WhyOf {
    key: Key,
    day: Date,
    format: Format,
}

impl Question for WhyOf {
    ghost text_after = { λ question. why_after question.key question.day question.format };

    fn text(&self, alloc: Global, lone: &mut Lone) -> Result<Vec<u8>, PrintFault> {
        let Some(row) = lone.row(&self.key) else {
            return Err(PrintFault::NoFlight);
        };
        let reasons = reasons(alloc, lone, self.key, row)?;
        let possible = exchanges_of(alloc, lone, self.key, row)?;
        let text = self.text_of(alloc, &reasons, possible.as_slice())?;
        Ok(text)
    }
}

impl WhyOf {
    /// Why a flight waits, and with which flights it could exchange its slot, in the form that is asked for.
    fn text_of(
        &self,
        alloc: Global,
        reasons: &Reasons,
        possible: &[PossibleExchange],
    ) -> Result<Vec<u8>, AllocError>
        ensures { IfOk result (λ text.
            text.items ≡ why_as self.now.format self.now.day possible.now reasons.now) }
    {
        match self.format {
            Format::Table => why_text(alloc, self.day, reasons, possible),
            Format::Csv => why_csv(alloc, self.day, reasons),
            Format::Json => why_json(alloc, self.day, reasons, possible),
        }
    }
}

/// Why a flight that stands so after the desk's calls does.
fn reasons(alloc: Global, lone: &Lone, key: Key, row: &Row) -> Result<Reasons, AllocError>
    ensures { IfOk result (λ reasons. reasons ≡ why (state_after_calls lone.now) key row.now) }
{
    explain(alloc, &AfterCalls { lone }, key, row)
}

/// With which flights a flight that stands so after the desk's calls could exchange its slot.
fn exchanges_of(
    alloc: Global,
    lone: &Lone,
    key: Key,
    row: &Row,
) -> Result<SharedSlice<PossibleExchange>, AllocError>
    requires { row_of (state_after_calls lone.now) key ≡ Some row.now }
    ensures { IfOk result (λ possible. possible ≡ exchanges_after lone.now key) }
{
    exchanges(alloc, &AfterCalls { lone }, key, row)
}

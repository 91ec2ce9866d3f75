//! The slot messages of a day.

ghost use Rattle.casa_app.specs.Inputs.{is_marked};
ghost use Rattle.casa_app.specs.Messages.{messages_after};
ghost use Rattle.casa_app.specs.Printed.{PrintEnds};
ghost use Rattle.casa_app.specs.Remarked.{Says};

use crate::fault::PrintFault;
use crate::input::Input;
use crate::printing::{Question, print};
use casa_cli::Format;
use casa_report::{messages_csv, messages_json};
use casa_selection::caused_messages;
use casa_session::Lone;
use jiff::civil::Date;
use std::alloc::Global;
use std::io::{Read, Write};

/// Answers the command lines of the input as a session does, without its replies, says at `errors` which lines had
/// faults or were refused, and then writes the slot messages of all calls, each with the number of the call that caused it,
/// as JSON or as comma-separated values; there is no table of them. It ends as `report` does, but never by `NoRegulation`.
pub fn messages<R: Read + Drop, W: Write, E: Write>(
    alloc: Global,
    day: Date,
    format: Format,
    strict: bool,
    input: &mut Input<R>,
    writer: &mut W,
    errors: &mut E,
) -> Result<(), PrintFault>
    ensures ends { PrintEnds (messages_after day format) result (R.remaining input.old.source)
        (R.remaining input.new.source) (W.contents writer.old) (W.contents writer.new) }
    ensures says { Says strict (is_marked input.new.first.items) result
        (R.remaining input.old.source) (R.remaining input.new.source)
        (E.contents errors.old) (E.contents errors.new) }
{
    print(
        alloc,
        &MessagesOf { day, format },
        strict,
        input,
        writer,
        errors,
    )
}

/// Asks for the slot messages of a day.
#[derive(Drop)]
struct MessagesOf {
    day: Date,
    format: Format,
}

impl Question for MessagesOf {
    ghost text_after = { λ question. messages_after question.day question.format };

    fn text(&self, alloc: Global, lone: &mut Lone) -> Result<Vec<u8>, PrintFault> {
        let messages = caused_messages(alloc, lone.entries())?;
        Ok(match self.format {
            Format::Json => messages_json(alloc, messages.as_slice())?,
            Format::Table | Format::Csv => messages_csv(alloc, self.day, messages.as_slice())?,
        })
    }
}

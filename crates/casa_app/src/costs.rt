//! What all open regulations cost.

ghost use Rattle.std.specs.Prelude.{◌≡◌, IfErr, IfOk, OnOk};
ghost use Rattle.casa_session.specs.Played.{state_after_calls};
ghost use Rattle.casa_app.specs.Inputs.{is_marked};
ghost use Rattle.casa_app.specs.Printed.{PrintEnds};
ghost use Rattle.casa_app.specs.Remarked.{Says};
ghost use Rattle.casa_app.specs.Summaries.{lists_after, summary_after};

use crate::fault::PrintFault;
use crate::input::Input;
use crate::printing::{Question, print};
use crate::reports::ask_list;
use casa_cli::Format;
use casa_flight::ListReply;
use casa_report::{summary_csv, summary_json, summary_text};
use casa_session::Lone;
use jiff::civil::Date;
use std::alloc::Global;
use std::io::{Read, Write};

/// Answers the command lines of the input as a session does, without its replies, says at `errors` which lines had
/// faults or were refused, and then writes what each open regulation costs, in this form. A table has a heading with the
/// day, and what all of them cost together. It ends as `report` does, but never by `NoRegulation`.
pub fn summary<R: Read + Drop, W: Write, E: Write>(
    alloc: Global,
    day: Date,
    format: Format,
    strict: bool,
    input: &mut Input<R>,
    writer: &mut W,
    errors: &mut E,
) -> Result<(), PrintFault>
    ensures ends { PrintEnds (summary_after day format) result (R.remaining input.old.source)
        (R.remaining input.new.source) (W.contents writer.old) (W.contents writer.new) }
    ensures says { Says strict (is_marked input.new.first.items) result
        (R.remaining input.old.source) (R.remaining input.new.source)
        (E.contents errors.old) (E.contents errors.new) }
{
    print(
        alloc,
        &SummaryOf { day, format },
        strict,
        input,
        writer,
        errors,
    )
}

/// Asks for what all open regulations cost.
#[derive(Drop)]
struct SummaryOf {
    day: Date,
    format: Format,
}

impl Question for SummaryOf {
    ghost text_after = { λ question. summary_after question.day question.format };

    fn text(&self, alloc: Global, lone: &mut Lone) -> Result<Vec<u8>, PrintFault> {
        let lists = ask_all_lists(alloc, lone)?;
        Ok(match self.format {
            Format::Table => summary_text(alloc, self.day, lists.as_slice())?,
            Format::Csv => summary_csv(alloc, self.day, lists.as_slice())?,
            Format::Json => summary_json(alloc, self.day, lists.as_slice())?,
        })
    }
}

/// The lists of all open regulations as the desk shows them, in the order of the regulations, which changes nothing.
pub(crate) fn ask_all_lists(alloc: Global, lone: &mut Lone) -> Result<Vec<ListReply>, PrintFault>
    ensures told { IfOk result (λ lists. lists.items ≡ lists_after lone.old) }
    ensures stays { OnOk result (state_after_calls lone.new ≡ state_after_calls lone.old) }
    ensures no_memory { IfErr result (λ fault. fault ≡ PrintFault.NoMemory) }
{
    let regulations = Vec::from_slice(alloc, lone.catalogue())?;
    let mut lists = Vec::with_capacity(alloc, regulations.len())?;
    for regulation in regulations.as_slice() {
        let list = ask_list(alloc, lone, regulation.id)?;
        let Ok(()) = lists.push(list) else {
            return Err(PrintFault::NoMemory);
        };
    }
    Ok(lists)
}

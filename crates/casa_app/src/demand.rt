//! Demand and capacity of a regulation.

ghost use Rattle.std.specs.Prelude.{◌≡◌, ◌⊎◌, IfErr, IfOk, None, Some};
ghost use Rattle.casa_app.specs.Inputs.{is_marked};
ghost use Rattle.casa_app.specs.Loads.{load_after, load_as, periods_after};
ghost use Rattle.casa_app.specs.Printed.{PrintEnds};
ghost use Rattle.casa_app.specs.Remarked.{Says};

use crate::fault::PrintFault;
use crate::input::Input;
use crate::printing::{Question, print};
use crate::reports::ask_list;
use casa_cli::Format;
use casa_flight::RegId;
use casa_grid::Grid;
use casa_inquiry::Load;
use casa_report::{load_csv, load_json, load_text};
use casa_session::Lone;
use jiff::civil::Date;
use std::alloc::{AllocError, Global};
use std::io::{Read, Write};

/// Answers the command lines of the input as a session does, without its replies, says at `errors` which lines had
/// faults or were refused, and then writes demand and capacity of the regulation in this form, by steps of so many minutes;
/// 0 counts as one. A table has bars, and a heading with the day. It ends as `report` does.
pub fn load<R: Read + Drop, W: Write, E: Write>(
    alloc: Global,
    reg: &RegId,
    day: Date,
    step: u32,
    format: Format,
    strict: bool,
    input: &mut Input<R>,
    writer: &mut W,
    errors: &mut E,
) -> Result<(), PrintFault>
    ensures ends { PrintEnds (load_after reg.now day step format) result (R.remaining input.old.source)
        (R.remaining input.new.source) (W.contents writer.old) (W.contents writer.new) }
    ensures says { Says strict (is_marked input.new.first.items) result
        (R.remaining input.old.source) (R.remaining input.new.source)
        (E.contents errors.old) (E.contents errors.new) }
{
    let question = LoadOf {
        reg: *reg,
        day,
        step,
        format,
    };
    print(alloc, &question, strict, input, writer, errors)
}

/// Asks for demand and capacity of a regulation, by steps of so many minutes.
#[derive(Drop)]
struct LoadOf {
    reg: RegId,
    day: Date,
    step: u32,
    format: Format,
}

impl Question for LoadOf {
    ghost text_after = { λ question.
        load_after question.reg question.day question.step question.format };

    fn text(&self, alloc: Global, lone: &mut Lone) -> Result<Vec<u8>, PrintFault> {
        let grid = slots_of(lone, &self.reg)?;
        let list = ask_list(alloc, lone, self.reg)?;
        let load = Load::of(alloc, &grid, list.rows.as_slice(), self.step)?;
        Ok(load_in(self.format, alloc, self.day, &self.reg, &load)?)
    }
}

/// Demand and capacity of the regulation, in this form.
fn load_in(
    format: Format,
    alloc: Global,
    day: Date,
    reg: &RegId,
    load: &Load,
) -> Result<Vec<u8>, AllocError>
    ensures { IfOk result (λ text. text.items
        ≡ load_as format reg.now day load.now.steps.items load.now.flights load.now.slots) }
{
    match format {
        Format::Table => load_text(alloc, day, reg, load),
        Format::Csv => load_csv(alloc, day, load),
        Format::Json => load_json(alloc, day, reg, load),
    }
}

/// The slots of a regulation as the desk has them; `NoRegulation` where it is not open.
fn slots_of(lone: &Lone, reg: &RegId) -> Result<Grid, PrintFault>
    ensures slots { IfOk result (λ grid. periods_after lone.now reg.now ≡ Some grid) }
    ensures untold { IfErr result (λ fault. (fault ≡ PrintFault.NoMemory)
        ⊎ ((fault ≡ PrintFault.NoRegulation) × (periods_after lone.now reg.now ≡ None))) }
{
    match lone.list(reg) {
        Some(list) => Ok(list.grid().clone()?),
        None => Err(PrintFault::NoRegulation),
    }
}

//! Reports: the list of a regulation, or the lists of all.

ghost use Rattle.std.specs.Prelude.{◌≡◌, ◌⊎◌, IfErr, IfOk, None, OnOk, Some};
ghost use Rattle.std.specs.Option.{option_copied};
ghost use Rattle.casa_session.specs.Played.{state_after_calls};
ghost use Rattle.casa_app.specs.Inputs.{is_marked};
ghost use Rattle.casa_app.specs.Listed.{list_in};
ghost use Rattle.casa_app.specs.Printed.{PrintEnds};
ghost use Rattle.casa_app.specs.Remarked.{Says};
ghost use Rattle.casa_app.specs.Reports.{is_whole, list_after, list_report, lists_report, report_after, rows_report, shown_rows, sorted_rows};

use crate::costs::ask_all_lists;
use crate::fault::PrintFault;
use crate::input::Input;
use crate::printing::{Question, print};
use casa_cli::{Format, Sort};
use casa_commit::{CallFault, Desk};
use casa_flight::{Answer, Call, ListReply, RegId, Reply};
use casa_report::{report_csv, report_json, report_text, reports_json, rows_json};
use casa_selection::{ReportRow, rows_in, rows_in_all, sort_by_delay};
use casa_session::{Lone, SessionFault};
use jiff::civil::Date;
use std::alloc::{AllocError, Global};
use std::io::{Read, Write};

/// What a report is asked for.
#[derive(Clone, Copy)]
pub struct ReportOf {
    /// The regulation of which the list is told; `None` for the lists of all open regulations.
    pub reg: Option<RegId>,
    pub day: Date,
    /// The order of the rows.
    pub sort: Sort,
    /// How many rows there are at most.
    pub top: Option<u32>,
    pub format: Format,
}

/// Answers the command lines of the input as a session does, without its replies, says at `errors` which lines had
/// faults or were refused, and then writes the report that is asked for: the rows of a regulation's list, or those of the
/// lists of all open regulations in the order of their identifiers, in the order and up to the number that is asked for. A
/// table has a heading with the day. As JSON a list is told whole where its rows are neither sorted nor cut.
///
/// The session's fault comes first, then `FaultyLines` where there were such lines and `strict` is true, then
/// `NoRegulation` where the regulation is not open after all lines, and nothing is written at any of them. `NoMemory` where
/// there is none for the desk, the lists or the text, and then nothing is written. `WriteFailed` where the writer fails or
/// takes no byte before it has the whole text; it then has the beginning of it. Where `errors` fails, nothing else changes.
pub fn report<R: Read + Drop, W: Write, E: Write>(
    alloc: Global,
    asked: &ReportOf,
    strict: bool,
    input: &mut Input<R>,
    writer: &mut W,
    errors: &mut E,
) -> Result<(), PrintFault>
    ensures ends { PrintEnds (report_after asked.now) result (R.remaining input.old.source)
        (R.remaining input.new.source) (W.contents writer.old) (W.contents writer.new) }
    ensures says { Says strict (is_marked input.new.first.items) result
        (R.remaining input.old.source) (R.remaining input.new.source)
        (E.contents errors.old) (E.contents errors.new) }
{
    print(alloc, asked, strict, input, writer, errors)
}

impl Question for ReportOf {
    ghost text_after = { report_after };

    fn text(&self, alloc: Global, lone: &mut Lone) -> Result<Vec<u8>, PrintFault> {
        match &self.reg {
            Some(reg) => {
                let list = ask_list(alloc, lone, *reg)?;
                Ok(self.list_report(alloc, reg, &list)?)
            }
            None => {
                let lists = ask_all_lists(alloc, lone)?;
                Ok(self.lists_report(alloc, lists.as_slice())?)
            }
        }
    }
}

impl ReportOf {
    /// The report on a regulation, by its list.
    fn list_report(
        &self,
        alloc: Global,
        reg: &RegId,
        list: &ListReply,
    ) -> Result<Vec<u8>, AllocError>
        ensures { IfOk result (λ text. text.items ≡ list_report self.now reg.now list.now) }
    {
        if self.is_whole() {
            return report_json(alloc, self.day, reg, list);
        }
        self.rows_report(alloc, rows_in(alloc, list)?)
    }

    /// The report on all open regulations, by their lists.
    fn lists_report(&self, alloc: Global, lists: &[ListReply]) -> Result<Vec<u8>, AllocError>
        ensures { IfOk result (λ text. text.items ≡ lists_report self.now lists.now) }
    {
        if self.is_whole() {
            return reports_json(alloc, self.day, lists);
        }
        self.rows_report(alloc, rows_in_all(alloc, lists)?)
    }

    /// Whether lists are told whole.
    fn is_whole(&self) -> bool
        ensures { result ≡ is_whole self.now.format self.now.sort self.now.top }
    {
        match (self.format, self.sort, self.top) {
            (Format::Json, Sort::List, None) => true,
            _ => false,
        }
    }

    /// The report of these rows.
    fn rows_report(&self, alloc: Global, rows: Vec<ReportRow>) -> Result<Vec<u8>, AllocError>
        ensures { IfOk result (λ text. text.items ≡ rows_report self.now rows.items) }
    {
        let shown = self.shown_rows(rows)?;
        match self.format {
            Format::Table => report_text(alloc, self.day, &self.reg, shown.as_slice()),
            Format::Csv => report_csv(alloc, self.day, &self.reg, shown.as_slice()),
            Format::Json => rows_json(alloc, self.day, shown.as_slice()),
        }
    }

    /// Those of these rows that are shown, in their order.
    fn shown_rows(&self, rows: Vec<ReportRow>) -> Result<Vec<ReportRow>, AllocError>
        ensures { IfOk result (λ shown. shown.items ≡ shown_rows self.now rows.items) }
    {
        let mut shown = self.sorted_rows(rows)?;
        let Some(top) = self.top else {
            return Ok(shown);
        };
        shown.truncate(top as usize);
        Ok(shown)
    }

    /// These rows in the order that is asked for.
    fn sorted_rows(&self, rows: Vec<ReportRow>) -> Result<Vec<ReportRow>, AllocError>
        ensures { IfOk result (λ sorted. sorted.items ≡ sorted_rows self.now.sort rows.items) }
    {
        let mut sorted = rows;
        match self.sort {
            Sort::List => Ok(sorted),
            Sort::Delay => {
                sort_by_delay(&mut sorted)?;
                Ok(sorted)
            }
        }
    }
}

/// The list of a regulation as the desk shows it, which changes nothing; `NoRegulation` where it shows none.
pub(crate) fn ask_list(alloc: Global, lone: &mut Lone, reg: RegId) -> Result<ListReply, PrintFault>
    ensures told { IfOk result (λ list. list_after lone.old reg ≡ Some list) }
    ensures stays { OnOk result (state_after_calls lone.new ≡ state_after_calls lone.old) }
    ensures untold { IfErr result (λ fault. (fault ≡ PrintFault.NoMemory)
        ⊎ ((fault ≡ PrintFault.NoRegulation) × (list_after lone.old reg ≡ None))) }
{
    let receipt = match lone.answer(alloc, &Call::List(reg)) {
        Ok(receipt) => receipt,
        Err(CallFault::NoMemory) => return Err(PrintFault::NoMemory),
        Err(CallFault::ForeignPass) => {
            return Err(PrintFault::Session(SessionFault::ForeignPass));
        }
    };
    match list_in(&receipt.entry.reply) {
        Some(list) => Ok(list.try_clone()?),
        None => Err(PrintFault::NoRegulation),
    }
}

/// The list that a reply tells, if it tells one.
fn list_in(reply: &Reply) -> Option<&ListReply>
    ensures { option_copied result ≡ list_in reply.now }
{
    match reply {
        Reply::Answered(answer, _) => match answer {
            Answer::List(list) => Some(list),
            _ => None,
        },
        Reply::Refused(_) => None,
    }
}

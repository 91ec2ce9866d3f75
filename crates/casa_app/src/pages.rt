//! A page of the day.

ghost use Rattle.std.specs.Prelude.{◌≡◌, ◌≤◌, ◌+◌, ◌<◌, ◌^◌, length, IfErr, IfOk};
ghost use Rattle.casa_time.specs.Moment.{last_moment};
ghost use Rattle.casa_flight.specs.Listing.{delay_of};
ghost use Rattle.casa_flight.specs.State.{empty};
ghost use Rattle.casa_look.specs.StateText.{open_regulations};
ghost use Rattle.casa_session.specs.Played.{sequential_history, state_after_calls};
ghost use Rattle.casa_app.specs.Inputs.{is_marked};
ghost use Rattle.casa_app.specs.Pages.{day_after, opened, page_after, planned_flight, planned_flights};
ghost use Rattle.casa_app.specs.Printed.{PrintEnds};
ghost use Rattle.casa_app.specs.Remarked.{Says};
ghost use Rattle.casa_app.specs.Summaries.{lists_after};

use crate::costs::ask_all_lists;
use crate::fault::PrintFault;
use crate::input::Input;
use crate::printing::{Question, print};
use casa_flight::{Call, FlightReply, Key, ListReply, Measure, Reply, Row, SharedSlice};
use casa_history::SharedEntry;
use casa_html::recorded_page;
use casa_inquiry::delay_in;
use casa_look::{DayRecord, OpenRegulation, PlannedFlight, day_text};
use casa_session::Lone;
use jiff::civil::Date;
use std::alloc::{AllocError, Global};
use std::io::{Read, Write};

/// Answers the command lines of the input as a session does, without its replies, says at `errors` which lines had
/// faults or were refused, and then writes a page of HTML that shows the day: the state with its lists and flights, and the
/// messages of all calls. It ends as `report` does, but never by `NoRegulation`.
pub fn page<R: Read + Drop, W: Write, E: Write>(
    alloc: Global,
    day: Date,
    strict: bool,
    input: &mut Input<R>,
    writer: &mut W,
    errors: &mut E,
) -> Result<(), PrintFault>
    ensures ends { PrintEnds (page_after day) result (R.remaining input.old.source)
        (R.remaining input.new.source) (W.contents writer.old) (W.contents writer.new) }
    ensures says { Says strict (is_marked input.new.first.items) result
        (R.remaining input.old.source) (R.remaining input.new.source)
        (E.contents errors.old) (E.contents errors.new) }
{
    print(alloc, &PageOf { day }, strict, input, writer, errors)
}

/// Asks for a page of the day.
#[derive(Drop)]
struct PageOf {
    day: Date,
}

impl Question for PageOf {
    ghost text_after = { λ question. page_after question.day };

    fn text(&self, alloc: Global, lone: &mut Lone) -> Result<Vec<u8>, PrintFault> {
        let record = day_text(alloc, &record_of(alloc, lone, self.day)?)?;
        Ok(recorded_page(alloc, record.as_slice())?)
    }
}

/// What is kept of the day after the desk's calls.
fn record_of(alloc: Global, lone: &mut Lone, day: Date) -> Result<DayRecord, PrintFault>
    ensures told { IfOk result (λ kept. kept ≡ day_after day lone.old) }
    ensures counted { IfOk result (λ kept. kept.position + length kept.entries < 2 ^ 64) }
    ensures no_memory { IfErr result (λ fault. fault ≡ PrintFault.NoMemory) }
{
    // Before the lists are asked for, which are calls of the desk, too.
    let entries = shared_entries(alloc, lone)?;
    let calls = entries.len();
    let flights = planned_flights(alloc, lone)?;
    let lists = ask_all_lists(alloc, lone)?;
    let regulations = open_regulations(alloc, lone, lists.as_slice())?;
    Ok(DayRecord {
        day,
        calls,
        clock: lone.clock(),
        regulations: SharedSlice::from_vec(regulations)?,
        lists: SharedSlice::from_vec(lists)?,
        flights: SharedSlice::from_vec(flights)?,
        position: 0,
        entries: SharedSlice::from_vec(entries)?,
    })
}

/// The entries of the desk's history.
fn shared_entries(alloc: Global, lone: &Lone) -> Result<Vec<SharedEntry<Call, Reply>>, AllocError>
    ensures { IfOk result (λ entries. entries.items ≡ sequential_history empty lone.now) }
{
    let kept = lone.entries();
    let mut entries = Vec::with_capacity(alloc, kept.len())?;
    for entry in kept {
        entries.push(entry.share()?)?;
    }
    Ok(entries)
}

/// The flights as they stand after the desk's calls, in the order of their keys.
fn planned_flights(alloc: Global, lone: &Lone) -> Result<Vec<PlannedFlight>, AllocError>
    ensures { IfOk result (λ flights. flights.items
        ≡ planned_flights (state_after_calls lone.now)) }
{
    let keys = lone.keys(alloc)?;
    let mut flights = Vec::with_capacity(alloc, keys.len())?;
    for key in &keys {
        if let Some(row) = lone.row(key) {
            flights.push(planned_flight(lone, key, row)?)?;
        }
    }
    Ok(flights)
}

/// A flight that stands so after the desk's calls, as `show` answers it, with its plan.
fn planned_flight(lone: &Lone, key: &Key, row: &Row) -> Result<PlannedFlight, AllocError>
    ensures { IfOk result (λ flight. flight
        ≡ planned_flight (state_after_calls lone.now) key.now row.now) }
{
    Ok(PlannedFlight {
        plan: row.plan.try_clone()?,
        flight: FlightReply::of(*key, row, delay(lone, key, row)),
    })
}

/// The delay of a flight in the list that governs it, in seconds; 0 where none does.
fn delay(lone: &Lone, key: &Key, row: &Row) -> u32
    ensures value { result ≡ delay_of (state_after_calls lone.now) key.now row.now }
    ensures in_range { result ≤ last_moment }
{
    let Some(id) = &row.governing else {
        return 0;
    };
    match lone.list(id) {
        Some(list) => delay_in(list, key),
        None => 0,
    }
}

/// The open regulations after the desk's calls, by their lists.
fn open_regulations(
    alloc: Global,
    lone: &Lone,
    lists: &[ListReply],
) -> Result<Vec<OpenRegulation>, AllocError>
    requires { lists.now ≡ lists_after lone.now }
    ensures { IfOk result (λ all. all.items ≡ open_regulations (state_after_calls lone.now)) }
{
    let mut all = Vec::with_capacity(alloc, lists.len())?;
    for list in lists {
        if let Some(regulation) = opened(lone, list)? {
            all.push(regulation)?;
        }
    }
    Ok(all)
}

/// The regulation of a list, with what it costs by it; `None` where it is not open.
fn opened(lone: &Lone, list: &ListReply) -> Result<Option<OpenRegulation>, AllocError>
    ensures { IfOk result (λ regulation. regulation
        ≡ opened (state_after_calls lone.now) list.now) }
{
    let Some(kept) = lone.list(&list.reg) else {
        return Ok(None);
    };
    let measure = Measure {
        loc: list.loc,
        profile: kept.grid().profile().clone()?,
    };
    Ok(Some(OpenRegulation::of(list.reg, measure, list)))
}

//! A day that is kept, to be looked at later.

ghost use Rattle.std.specs.Prelude.{◌≡◌, ◌+◌, ◌<◌, ◌^◌, length, IfOk, string_bytes};
ghost use Rattle.jiff.specs.Words.{date_text};
ghost use Rattle.casa_look.specs.DayText.{day_text, planned_data};

use crate::flight::push_plan;
use crate::since::push_since;
use crate::state::{OpenRegulation, push_state};
use casa_flight::{Call, FlightReply, ListReply, Plan, Reply, SharedSlice};
use casa_history::SharedEntry;
use casa_json::{Json, push_array};
use casa_time::Moment;
use casa_wire::{Part, push_flight, push_list, push_parts, push_text};
use jiff::civil::Date;
use std::alloc::{AllocError, Global};

/// What is kept of a day, after some calls.
#[derive(Drop)]
pub struct DayRecord {
    pub day: Date,
    /// How many calls there were.
    pub calls: usize,
    pub clock: Moment,
    /// The open regulations, in the order of their identifiers.
    pub regulations: SharedSlice<OpenRegulation>,
    /// Their lists.
    pub lists: SharedSlice<ListReply>,
    /// The flights, in the order of their keys.
    pub flights: SharedSlice<PlannedFlight>,
    /// The position in the history behind which the entries stand.
    pub position: usize,
    /// The entries of which messages are kept.
    pub entries: SharedSlice<SharedEntry<Call, Reply>>,
}

/// A flight as it stands, with its plan.
#[derive(Drop)]
pub struct PlannedFlight {
    pub plan: Plan,
    pub flight: FlightReply,
}

/// A day's record.
///
/// An object with `day`, as `"2025-06-01"`; `flights`, an object for each flight with `flight` and `plan` as of `flight_text`;
/// `lists`, each list as a reply has it; `since`, as of `since_text`; and `state`, as of `state_text`. `AllocError` where there
/// is no memory for it.
pub fn day_text(alloc: Global, kept: &DayRecord) -> Result<Vec<u8>, AllocError>
    requires { kept.now.position + length kept.now.entries < 2 ^ 64 }
    ensures { IfOk result (λ text. text.items ≡ day_text kept.now) }
{
    let mut text = Vec::new(alloc);
    let day = date_text(alloc, kept.day)?;
    push_parts(
        &mut text,
        &[
            Part::Text(b"{\"day\":"),
            Part::Name(day.as_bytes()),
            Part::Text(b",\"flights\":"),
        ],
    )?;
    push_array(&mut text, kept.flights.as_slice())?;
    push_text(&mut text, b",\"lists\":")?;
    push_array(&mut text, kept.lists.as_slice())?;
    push_text(&mut text, b",\"since\":")?;
    push_since(alloc, &mut text, kept.position, kept.entries.as_slice())?;
    push_text(&mut text, b",\"state\":")?;
    push_state(
        &mut text,
        kept.calls,
        kept.clock,
        kept.regulations.as_slice(),
    )?;
    push_text(&mut text, b"}")?;
    Ok(text)
}

/// A day, as `2025-06-01`.
fn date_text(alloc: Global, day: Date) -> Result<String, AllocError>
    ensures { IfOk result (λ text. string_bytes text ≡ date_text day) }
{
    format!(in alloc; "{day}")
}

impl Json for PlannedFlight {
    ghost value = { planned_data };

    fn push_json(&self, out: &mut Vec<u8>) -> Result<(), AllocError> {
        push_text(out, b"{\"flight\":")?;
        push_flight(out, &self.flight)?;
        push_text(out, b",\"plan\":")?;
        push_plan(out, &self.plan.key(), &self.plan)?;
        push_text(out, b"}")?;
        Ok(())
    }
}

//! The state: the clock, and what each open regulation costs.

ghost use Rattle.std.specs.Prelude.{◌≡◌, ◌++◌, IfOk, OnOk};
ghost use Rattle.casa_filing.specs.declared.regulation.Regulation.{Regulation};
ghost use Rattle.casa_flight.specs.declared.state.State.{State};
ghost use Rattle.casa_flight.specs.Replies.{list_reply};
ghost use Rattle.casa_inquiry.specs.Shown.{AreShownOf};
ghost use Rattle.casa_look.specs.StateText.{open_regulation, open_regulations, regulation_data, state_text};

use casa_flight::{ListReply, Measure, RegId, Regulation};
use casa_inquiry::{Cost, ShownLists};
use casa_json::{Json, push_array, push_figure, push_name};
use casa_list::SlotList;
use casa_time::Moment;
use casa_wire::{Part, push_parts, push_text};
use std::alloc::{AllocError, Global};

/// Room for a state without its regulations, in bytes.
const STATE_ROOM: usize = 64;

/// Room for a regulation with three periods, in bytes.
const REGULATION_ROOM: usize = 320;

/// An open regulation as a state shows it: what it protects, at which rates, and what it costs.
#[derive(Drop, Debug)]
pub struct OpenRegulation {
    pub id: RegId,
    pub measure: Measure,
    pub cost: Cost,
}

impl OpenRegulation {
    /// The regulation with this identifier and measure, with what it costs by its list.
    pub fn of(id: RegId, measure: Measure, list: &ListReply) -> OpenRegulation
        ensures { result ≡ open_regulation id measure list.now }
    {
        OpenRegulation {
            id,
            measure,
            cost: Cost::of(list),
        }
    }

    /// The same by the list as the allocator keeps it: what `of` gives of the reply to the question for it, in whichever
    /// state.
    pub fn of_list(id: RegId, measure: Measure, list: &SlotList) -> OpenRegulation
        ensures { (m : State) (r : Regulation) →
            result ≡ open_regulation id measure (list_reply m r list.now) }
    {
        OpenRegulation {
            id,
            measure,
            cost: Cost::of_list(list),
        }
    }
}

/// The open regulations of the state whose clock, regulations and lists these are, each with what it costs, in the order of
/// their identifiers. `AllocError` where there is no memory for it, or where what a profile owns is shared too often to be
/// counted.
pub fn open_regulations(
    alloc: Global,
    shown: &ShownLists<'_>,
) -> Result<Vec<OpenRegulation>, AllocError>
    ensures { IfOk result (λ all. (m : State) → AreShownOf m shown.now →
        all.items ≡ open_regulations m) }
{
    let mut all = Vec::with_capacity(alloc, shown.regulations.len())?;
    for (number, regulation) in shown.regulations.iter().enumerate() {
        if let Some(list) = shown.lists.get(number) {
            all.push(listed_regulation(regulation, list.list())?)?;
        }
    }
    Ok(all)
}

/// An open regulation with what it costs by its list, which has its profile. `AllocError` where what the profile owns is
/// shared too often to be counted.
fn listed_regulation(regulation: &Regulation, list: &SlotList) -> Result<OpenRegulation, AllocError>
    ensures { IfOk result (λ shown. (m : State) (r : Regulation) →
        shown ≡ open_regulation regulation.now.id
        (record { loc = regulation.now.loc; profile = list.now.profile })
        (list_reply m r list.now)) }
{
    let measure = Measure {
        loc: regulation.loc,
        profile: list.grid().profile().clone()?,
    };
    Ok(OpenRegulation::of_list(regulation.id, measure, list))
}

/// The state whose clock, regulations and lists these are, after so many calls, as `state_text` writes it. `AllocError` where
/// there is no memory for it.
pub fn shown_text(
    alloc: Global,
    calls: usize,
    shown: &ShownLists<'_>,
) -> Result<Vec<u8>, AllocError>
    ensures { IfOk result (λ text. (m : State) → AreShownOf m shown.now →
        text.items ≡ state_text calls m.clock (open_regulations m)) }
{
    let regulations = open_regulations(alloc, shown)?;
    state_text(alloc, calls, shown.clock, regulations.as_slice())
}

/// The state after so many calls, at this clock, with these open regulations in the order of their identifiers.
///
/// An object with `clock`, in seconds from midnight UTC; `n`, the number of the calls; and `regs`, an object for each
/// regulation with its identifier `reg`, its location `loc`, its `periods` as in a command line, and the figures of its line
/// in a summary, of which `delay` and `longest` are seconds: `slots`, `governed`, `issued`, `forced`, `over`, `delay` and
/// `longest`. `AllocError` where there is no memory for it.
pub fn state_text(
    alloc: Global,
    calls: usize,
    clock: Moment,
    regulations: &[OpenRegulation],
) -> Result<Vec<u8>, AllocError>
    ensures { IfOk result (λ text. text.items ≡ state_text calls clock regulations.now) }
{
    let mut text = Vec::with_capacity(alloc, room_for(regulations.len()))?;
    push_state(&mut text, calls, clock, regulations)?;
    Ok(text)
}

/// Writes a state, as of `state_text`, behind the bytes that stand there. `AllocError` where there is no memory for it; some
/// of it may then stand there.
pub(crate) fn push_state(
    out: &mut Vec<u8>,
    calls: usize,
    clock: Moment,
    regulations: &[OpenRegulation],
) -> Result<(), AllocError>
    ensures { OnOk result (out.new.items
        ≡ out.old.items ++ state_text calls clock regulations.now) }
{
    push_parts(
        out,
        &[
            Part::Text(b"{\"clock\":"),
            Part::Number(clock.secs() as u64),
            Part::Text(b",\"n\":"),
            Part::Number(calls as u64),
            Part::Text(b",\"regs\":"),
        ],
    )?;
    push_array(out, regulations)?;
    push_text(out, b"}")?;
    Ok(())
}

/// About how many bytes a state with so many regulations takes.
fn room_for(regulations: usize) -> usize {
    STATE_ROOM.saturating_add(regulations.saturating_mul(REGULATION_ROOM))
}

impl Json for OpenRegulation {
    ghost value = { regulation_data };

    fn push_json(&self, out: &mut Vec<u8>) -> Result<(), AllocError> {
        push_figure(out, b"{\"delay\":", self.cost.delay)?;
        push_figure(out, b",\"forced\":", self.cost.forced)?;
        push_figure(out, b",\"governed\":", self.cost.governed)?;
        push_figure(out, b",\"issued\":", self.cost.issued)?;
        push_name(out, b",\"loc\":", self.measure.loc.as_bytes())?;
        push_figure(out, b",\"longest\":", self.cost.longest as u128)?;
        push_figure(out, b",\"over\":", self.cost.over)?;
        push_text(out, b",\"periods\":")?;
        push_array(out, self.measure.profile.periods())?;
        push_name(out, b",\"reg\":", self.id.as_bytes())?;
        push_figure(out, b",\"slots\":", self.cost.slots)?;
        push_text(out, b"}")?;
        Ok(())
    }
}

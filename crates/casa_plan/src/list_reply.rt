//! The planner of the question for a list.

ghost use Rattle.std.specs.Prelude.{◌≡◌, ◌≤◌, IfOk, map};
ghost use Rattle.std.specs.Option.{option_map_or};
ghost use Rattle.casa_time.specs.Moment.{last_moment};
ghost use Rattle.casa_flight.specs.declared.comp.Comp.{Comp};
ghost use Rattle.casa_flight.specs.Good.{AreInOrder};
ghost use Rattle.casa_slots.specs.declared.standing.Standing.{Standing};
ghost use Rattle.casa_plan_spec.specs.Sight.{list_in, row_in};
ghost use Rattle.casa_plan_spec.specs.Messages.{delay_by};
ghost use Rattle.casa_plan_spec.specs.Look.{rows_shown, list_shown, list};
ghost use Rattle.casa_plan.specs.Rows.{row_as, flights_told};

use crate::flight_reply::delay_shown;
use crate::replies::{no_messages, refused};
use crate::shown::Shown;
use casa_flight::{
    Answer, Comp, Key, Kind, ListReply, ListRow, Refusal, RegId, Regulation, Reply, Rows, Shared,
    SlotNumber, Stance, slot_number, sort_rows,
};
use casa_list::{SlotList, Standing};
use casa_view::{Change, Version};
use std::alloc::{AllocError, Global};

/// The delay that a flight is shown with, in seconds; none where the view does not show it.
fn forced_delay<V: Version>(view: &Shown<V>, key: &Key) -> u32
    ensures value { result ≡
        option_map_or (delay_by (list_in view.now) key.now) (row_in view.now key.now) 0 }
    ensures in_range { result ≤ last_moment }
{
    match view.row(key) {
        Some(row) => delay_shown(view, *key, row),
        None => 0,
    }
}

/// A flight as its list shows it, by how it stands there. `AllocError` where there is no memory for the number of its slot.
fn row_shown<V: Version>(
    view: &Shown<V>,
    list: &SlotList,
    comp: Comp,
    standing: Standing,
) -> Result<ListRow, AllocError>
    ensures { IfOk result (λ row. row ≡ row_as view.now list.now comp standing) }
{
    let (kind, cto, slot) = match standing {
        Standing::Pre(place) => {
            let cto = list.grid().cto(comp.eto, place);
            (Kind::Pre, cto.secs(), slot_number(place))
        }
        Standing::Issued(cto) => (Kind::Issued, cto.secs(), list.grid().window_of(cto)),
        Standing::Forced => {
            let delay = forced_delay(view, &comp.key);
            (Kind::Forced, comp.eto.secs() + delay, None)
        }
    };
    Ok(ListRow {
        key: comp.key,
        eto: comp.eto,
        cto,
        kind,
        slot: SlotNumber::of(slot)?,
    })
}

/// The flights of a list as it shows them: those that it governs, in the order in which they stand there, and behind them
/// the forced ones by key. `AllocError` where there is no memory for them.
fn flights_shown<V: Version>(
    alloc: Global,
    view: &Shown<V>,
    list: &SlotList,
) -> Result<Vec<ListRow>, AllocError>
    ensures rows { IfOk result (λ rows. rows.items ≡
        map (λ (f : Comp × Standing). row_as view.now list.now f.0 f.1)
        (flights_told list.now)) }
    ensures keys { AreInOrder list.now.flights }
{
    let mut rows = Vec::with_capacity(alloc, list.flights().len())?;
    for n in 0..list.governed() {
        let (comp, standing) = list.nth(n).unwrap();
        let row = row_shown(view, list, comp, standing)?;
        rows.push(row)?;
    }
    for member in list.flights() {
        if let Stance::Forced { eto } = member.stance() {
            let key = member.key();
            let row = row_shown(view, list, Comp { eto, key }, Standing::Forced)?;
            rows.push(row)?;
        }
    }
    Ok(rows)
}

/// The flights of a list as it shows them, in their order. `AllocError` where there is no memory for them.
fn rows_shown<V: Version>(
    alloc: Global,
    view: &Shown<V>,
    list: &SlotList,
) -> Result<Rows, AllocError>
    ensures { IfOk result (λ rows. rows ≡ rows_shown view.now list.now) }
{
    let mut rows = flights_shown(alloc, view, list)?;
    sort_rows(&mut rows)?;
    Rows::from_vec(rows)
}

/// A regulation's list as it is answered. `AllocError` where there is no memory for it.
fn list_shown<V: Version>(
    alloc: Global,
    view: &Shown<V>,
    regulation: &Regulation,
    list: &SlotList,
) -> Result<ListReply, AllocError>
    ensures { IfOk result (λ reply. reply ≡ list_shown view.now regulation.now list.now) }
{
    Ok(ListReply {
        reg: regulation.id,
        loc: regulation.loc,
        start: regulation.start,
        end: regulation.end,
        slots: list.grid().len(),
        rows: rows_shown(alloc, view, list)?,
    })
}

/// A regulation's list as it stands. `AllocError` where there is no memory for the answer.
pub(crate) fn list<V: Version>(
    alloc: Global,
    view: &Shown<V>,
    id: RegId,
) -> Result<(Reply, Change), AllocError>
    ensures { IfOk result (λ p. p ≡ list view.now id) }
{
    let Some(regulation) = view.regulation(&id) else {
        return Ok(refused(alloc, Refusal::NoRegulation));
    };
    let Some(list) = view.list(&id) else {
        return Ok(refused(alloc, Refusal::NoRegulation));
    };
    let shown = Shared::new(alloc, list_shown(alloc, view, regulation, list)?)?;
    let reply = Reply::Answered(Answer::List(shown), no_messages(alloc)?);
    Ok((reply, Change::new(alloc)))
}

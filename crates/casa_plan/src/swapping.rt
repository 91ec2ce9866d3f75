//! The planner of an exchange of slots.

ghost use Rattle.std.specs.Prelude.{◌≡◌, ◌≤◌, IfOk, OnOk, option_copied};
ghost use Rattle.std.specs.Option.{option_and_then};
ghost use Rattle.casa_time.specs.Moment.{last_moment};
ghost use Rattle.casa_flight.specs.Steps.{with_issued_time, eto_in, is_too_early, is_shared};
ghost use Rattle.casa_plan_spec.specs.Sight.{clock_in, list_in};
ghost use Rattle.casa_plan_spec.specs.Issue.{with_issued_row};
ghost use Rattle.casa_plan_spec.specs.Swapping.{swap};

use crate::issuing::write_issued;
use crate::replies::{answer_done, refused};
use crate::shown::Shown;
use casa_flight::{Key, Refusal, Reply, Row};
use casa_list::SlotList;
use casa_time::Moment;
use casa_view::{Change, Version};
use std::alloc::{AllocError, Global};

/// The time over that a flight has in a list, in seconds from midnight UTC: midnight where there is no list, and where the
/// flight is not there.
fn eto_in(list: Option<&SlotList>, key: &Key) -> u32
    ensures value { result ≡ eto_in (option_copied list.entry) key.now }
    ensures in_range { result ≤ last_moment }
{
    let Some(list) = list else {
        return 0;
    };
    match list.stance_of(key) {
        Some(stance) => stance.eto().secs(),
        None => 0,
    }
}

/// The list that governs a flight with this row, as the view shows it.
fn governing_list<'a, V: Version>(view: &'a Shown<V>, row: &Row) -> Option<&'a SlotList>
    ensures { option_copied result ≡ option_and_then (list_in view.now) row.now.governing }
{
    view.list(&row.governing?)
}

/// Whether a time is too early for a flight with this row: it is before the time over that the flight has in the list that
/// governs it, or the flight would have to take off before the clock.
fn is_too_early<V: Version>(view: &Shown<V>, key: &Key, row: &Row, time: Moment) -> bool
    ensures { result ≡ is_too_early (clock_in view.now)
        (option_and_then (list_in view.now) row.now.governing) key.now row.now time }
{
    let eto = eto_in(governing_list(view, row), key);
    let cto = time.secs();
    cto < eto || row.plan.etot() + (cto - eto) < view.clock().secs()
}

/// Whether the regulation that governs a flight governs the other one too.
fn is_shared(row: &Row, mate: &Row) -> bool
    ensures { result ≡ is_shared row.now mate.now }
{
    match row.governing {
        Some(id) => mate.is_governed_by(id),
        None => false,
    }
}

/// Writes an issued flight at another time. `AllocError` where there is no memory for that.
fn reissue<V: Version>(
    alloc: Global,
    view: &Shown<V>,
    draft: &mut Change,
    key: Key,
    row: &Row,
    time: Moment,
) -> Result<(), AllocError>
    ensures { OnOk result (draft.new ≡
        with_issued_row view.now draft.old key (with_issued_time row.now time)) }
{
    let mut new = row.clone()?;
    new.issued = Some(time);
    write_issued(alloc, view, draft, key, new)
}

/// Two issued flights of one regulation exchange their times; a flight with itself stays as it is. `AllocError` where there
/// is no memory for the answer.
pub(crate) fn swap<V: Version>(
    alloc: Global,
    view: &Shown<V>,
    key: Key,
    other: Key,
) -> Result<(Reply, Change), AllocError>
    ensures { IfOk result (λ p. p ≡ swap view.now key other) }
{
    let Some(row) = view.row(&key) else {
        return Ok(refused(alloc, Refusal::NoFlight));
    };
    let Some(mate) = view.row(&other) else {
        return Ok(refused(alloc, Refusal::NoFlight));
    };
    let Some(cto) = row.issued else {
        return Ok(refused(alloc, Refusal::NotIssued));
    };
    let Some(time) = mate.issued else {
        return Ok(refused(alloc, Refusal::NotIssued));
    };
    if !is_shared(row, mate) {
        return Ok(refused(alloc, Refusal::OtherRegulation));
    }
    if is_too_early(view, &key, row, time) || is_too_early(view, &other, mate, cto) {
        return Ok(refused(alloc, Refusal::TooEarly));
    }
    let mut draft = Change::new(alloc);
    reissue(alloc, view, &mut draft, key, row, time)?;
    reissue(alloc, view, &mut draft, other, mate, cto)?;
    answer_done(alloc, view, draft)
}

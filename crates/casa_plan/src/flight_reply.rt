//! What is replied about one flight.

ghost use Rattle.std.specs.Prelude.{◌≡◌, ◌≤◌, IfOk, is_some, option_copied};
ghost use Rattle.casa_time.specs.Moment.{last_moment};
ghost use Rattle.casa_flight.specs.Listing.{delay_in};
ghost use Rattle.casa_flight.specs.Replies.{message_of, is_issued};
ghost use Rattle.casa_plan_spec.specs.Sight.{list_in};
ghost use Rattle.casa_plan_spec.specs.OneFlight.{ctot_shown_if, reply_to_change};
ghost use Rattle.casa_plan_spec.specs.Messages.{delay_by, ctot_by};

use crate::shown::Shown;
use casa_flight::{Answer, FlightReply, Key, Message, Messages, Reply, Row, is_issued};
use casa_list::SlotList;
use casa_view::Version;
use std::alloc::{AllocError, Global};

/// The delay that a flight has in a list, in seconds; none where it is not there.
pub(crate) fn delay_in(list: &SlotList, key: &Key) -> u32
    ensures value { result ≡ delay_in list.now key.now }
    ensures in_range { result ≤ last_moment }
{
    let Some(stance) = list.stance_of(key) else {
        return 0;
    };
    let eto = stance.eto();
    let cto = list.cto_of(key).unwrap_or(eto);
    cto.secs().saturating_sub(eto.secs())
}

/// The delay that a flight is shown with, in the list of the regulation that governs it, in seconds.
pub(crate) fn delay_shown<V: Version>(view: &Shown<V>, key: Key, row: &Row) -> u32
    ensures value { result ≡ delay_by (list_in view.now) key row.now }
    ensures in_range { result ≤ last_moment }
{
    let Some(id) = row.governing else {
        return 0;
    };
    let Some(list) = view.list(&id) else {
        return 0;
    };
    delay_in(list, &key)
}

/// The calculated take-off time that a flight is shown with, in seconds from midnight UTC.
pub(crate) fn ctot_shown<V: Version>(view: &Shown<V>, key: Key, row: &Row) -> u32
    ensures { result ≡ ctot_by (list_in view.now) key row.now }
{
    let delay = delay_shown(view, key, row);
    row.plan.etot() + delay
}

/// The same, and midnight where there is no flight.
pub(crate) fn ctot_shown_if<V: Version>(view: &Shown<V>, key: Key, was: Option<&Row>) -> u32
    ensures { result ≡ ctot_shown_if view.now key (option_copied was.entry) }
{
    match was {
        Some(row) => ctot_shown(view, key, row),
        None => 0,
    }
}

/// The message to the operator of a flight that stood so and now has this calculated take-off time. That before is worked
/// out only where the message could depend on it.
fn message_to<V: Version>(
    view: &Shown<V>,
    key: Key,
    was: Option<&Row>,
    row: &Row,
    ctot: u32,
) -> Option<Message>
    ensures { result ≡ message_of key row.now.governing (is_issued (option_copied was.entry))
        (is_some row.now.issued) (ctot_shown_if view.now key (option_copied was.entry)) ctot }
{
    let was_issued = is_issued(was);
    let is_issued = row.issued.is_some();
    let before = if was_issued && is_issued {
        ctot_shown_if(view, key, was)
    } else {
        0
    };
    Message::of(key, row.governing, was_issued, is_issued, before, ctot)
}

/// The reply where a flight stood so, and now stands so with this delay in seconds: the flight and its message.
/// `AllocError` where there is no memory for the message.
pub(crate) fn reply_to_change<V: Version>(
    alloc: Global,
    view: &Shown<V>,
    key: Key,
    was: Option<&Row>,
    row: &Row,
    delay: u32,
) -> Result<Reply, AllocError>
    requires { delay ≤ last_moment }
    ensures { IfOk result (λ reply.
        reply ≡ reply_to_change view.now key (option_copied was.entry) row.now delay) }
{
    let flight = FlightReply::of(key, row, delay);
    let mut messages = Vec::new(alloc);
    if let Some(message) = message_to(view, key, was, row, flight.ctot) {
        messages.reserve_exact(1)?;
        messages.push(message)?;
    }
    let messages = Messages::from_vec(messages)?;
    Ok(Reply::Answered(Answer::Flight(flight), messages))
}

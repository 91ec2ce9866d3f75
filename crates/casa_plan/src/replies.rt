//! Replies that calls have in common, and the messages of a change.

ghost use Rattle.std.specs.Prelude.{◌≡◌, ◌≤◌, [], IfOk, option_copied};
ghost use Rattle.std.specs.Option.{option_map_or, option_and_then};
ghost use Rattle.casa_time.specs.Moment.{last_moment};
ghost use Rattle.casa_flight.specs.Listing.{Listing, delay_in};
ghost use Rattle.casa_plan_spec.specs.Sight.{nothing_written, list_with};
ghost use Rattle.casa_plan_spec.specs.Messages.{ctot_by, message_shown, messages_shown, answer_done};

use crate::flight_reply::{ctot_shown_if, delay_in};
use crate::shown::Shown;
use casa_flight::{Answer, Key, Message, Messages, Refusal, Reply, Row, is_issued};
use casa_list::SlotList;
use casa_view::{Change, Version};
use std::alloc::{AllocError, Global};

/// A refused call, which writes nothing.
pub(crate) fn refused(alloc: Global, refusal: Refusal) -> (Reply, Change)
    ensures { result ≡ (Reply.Refused refusal, nothing_written) }
{
    (Reply::Refused(refusal), Change::new(alloc))
}

/// No message. `AllocError` where there is no memory for the count of its copies.
pub(crate) fn no_messages(alloc: Global) -> Result<Messages, AllocError>
    ensures { IfOk result (λ messages. messages ≡ []) }
{
    Messages::from_vec(Vec::new(alloc))
}

/// The delay of a flight in its governing list, in seconds; none without one.
fn delay_at(list: Option<&SlotList>, key: &Key) -> u32
    ensures value { result ≡ option_map_or (λ (l : Listing). delay_in l key.now)
        (option_copied list.entry) 0 }
    ensures in_range { result ≤ last_moment }
{
    match list {
        Some(list) => delay_in(list, key),
        None => 0,
    }
}

/// The calculated take-off time of a flight with a draft laid over the view, in seconds from midnight UTC.
fn ctot_drafted<V: Version>(view: &Shown<V>, draft: &Change, key: &Key, row: &Row) -> u32
    ensures { result ≡ ctot_by (list_with view.now draft.now) key.now row.now }
{
    let Some(id) = row.governing else {
        return row.plan.etot();
    };
    row.plan.etot() + delay_at(view.list_with(draft, &id), key)
}

/// The message to the operator of a flight that a draft writes. Take-off times are worked out only where it depends on
/// them.
fn message_to<V: Version>(view: &Shown<V>, draft: &Change, key: &Key, row: &Row) -> Option<Message>
    ensures { result ≡ message_shown view.now draft.now key.now row.now }
{
    let was_issued = is_issued(view.row(key));
    let is_issued = row.issued.is_some();
    let before = if was_issued && is_issued {
        ctot_shown_if(view, *key, view.row(key))
    } else {
        0
    };
    let ctot = if is_issued {
        ctot_drafted(view, draft, key, row)
    } else {
        0
    };
    Message::of(*key, row.governing, was_issued, is_issued, before, ctot)
}

/// The message of a row that a draft writes, if it writes one.
fn message_of_row<V: Version>(
    view: &Shown<V>,
    draft: &Change,
    key: &Key,
    row: &Option<Row>,
) -> Option<Message>
    ensures { result ≡ option_and_then (message_shown view.now draft.now key.now) row.now }
{
    message_to(view, draft, key, row.as_ref()?)
}

/// The messages to the operators of the flights that a draft writes, in the order of their keys, in no more memory than
/// they need, since the history keeps them. `AllocError` where there is none.
fn messages<V: Version>(
    alloc: Global,
    view: &Shown<V>,
    draft: &Change,
) -> Result<Vec<Message>, AllocError>
    ensures { IfOk result (λ all. all.items ≡ messages_shown view.now draft.now) }
{
    let mut all = Vec::new(alloc);
    for (key, row) in draft.rows().iter() {
        if let Some(message) = message_of_row(view, draft, key, row) {
            all.push(message)?;
        }
    }
    all.shrink_to_fit();
    Ok(all)
}

/// What is answered to a call that writes this and is done: no more than that, and the messages. `AllocError` where
/// there is no memory for them.
pub(crate) fn answer_done<V: Version>(
    alloc: Global,
    view: &Shown<V>,
    draft: Change,
) -> Result<(Reply, Change), AllocError>
    ensures { IfOk result (λ p. p ≡ answer_done view.now draft) }
{
    let messages = Messages::from_vec(messages(alloc, view, &draft)?)?;
    Ok((Reply::Answered(Answer::Done, messages), draft))
}

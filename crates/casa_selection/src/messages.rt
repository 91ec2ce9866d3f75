//! The slot messages of a day, each with the call that caused it.

ghost use Rattle.std.specs.Prelude.{◌≡◌, ◌++◌, IfOk, OnOk};
ghost use Rattle.casa_selection.specs.Messages.{caused_by, caused_from, messages_in};

use casa_flight::{Call, Message, Reply};
use casa_history::{Entry, SharedEntry};
use std::alloc::{AllocError, Global};

/// A message, and the call that caused it.
#[derive(Clone, Copy, PartialEq, Eq, Debug)]
pub struct CausedMessage {
    /// The number of the call, counted from 1 over all calls.
    pub call: usize,
    pub message: Message,
}

/// The messages that the calls of a history caused, in their order, by its entries from the first one on.
///
/// `AllocError` where there is no memory for them.
pub fn caused_messages(
    alloc: Global,
    entries: &[SharedEntry<Call, Reply>],
) -> Result<Vec<CausedMessage>, AllocError>
    ensures { IfOk result (λ messages. messages.items ≡ caused_from 0 entries.now) }
{
    let mut messages = Vec::new(alloc);
    let mut number = 0;
    for entry in entries {
        number += 1;
        push_caused(&mut messages, number, entry)?;
    }
    Ok(messages)
}

/// Appends the messages that the call with this number caused.
fn push_caused(
    messages: &mut Vec<CausedMessage>,
    number: usize,
    entry: &Entry<Call, Reply>,
) -> Result<(), AllocError>
    ensures { OnOk result (messages.new.items
        ≡ messages.old.items ++ caused_by number entry.now) }
{
    for message in messages_in(&entry.reply) {
        messages.push(CausedMessage {
            call: number,
            message: *message,
        })?;
    }
    Ok(())
}

/// The messages of a reply; a refused call has none.
fn messages_in(reply: &Reply) -> &[Message]
    ensures { result.now ≡ messages_in reply.now }
{
    match reply {
        Reply::Answered(_, messages) => messages.as_slice(),
        Reply::Refused(_) => &[],
    }
}

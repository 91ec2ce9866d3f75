//! What came of the calls behind a position.

ghost use Rattle.std.specs.Prelude.{◌≡◌, ◌+◌, ◌<◌, ◌^◌, ◌++◌, length, IfOk, OnOk};
ghost use Rattle.serde_json.specs.Written.{compact_text};
ghost use Rattle.casa_wire.specs.LineTexts.{count, or_null};
ghost use Rattle.casa_wire.specs.Parts.{part_text};
ghost use Rattle.casa_look.specs.SinceText.{clock_set, news_behind, news_data, news_of, since_text};

use casa_flight::{Call, Messages, Reply};
use casa_history::{Entry, SharedEntry};
use casa_json::{Json, push_array};
use casa_time::Moment;
use casa_wire::{Part, push_messages, push_parts, push_text};
use std::alloc::{AllocError, Global};

/// What came of a call that others than its desk want to know.
#[derive(Drop, Debug)]
pub struct News {
    /// The position of the call's entry in the history, counted from 1.
    pub position: usize,
    /// The number of the desk that made the call.
    pub desk: u32,
    /// Where the call set the clock; `None` where it did not.
    pub clock: Option<Moment>,
    /// The messages that it caused.
    pub messages: Messages,
}

impl News {
    /// What came of the entry at this position; `None` where it is refused, and where it caused no message and did not set
    /// the clock. The messages are shared; `AllocError` where they are shared too often to be counted.
    pub fn of(position: usize, entry: &Entry<Call, Reply>) -> Result<Option<News>, AllocError>
        ensures { IfOk result (λ news. news ≡ news_of position entry.now) }
    {
        let Reply::Answered(_, messages) = &entry.reply else {
            return Ok(None);
        };
        let clock = clock_set(&entry.call);
        if clock.is_none() && messages.as_slice().is_empty() {
            return Ok(None);
        }
        Ok(Some(News {
            position,
            desk: entry.desk,
            clock,
            messages: messages.try_clone()?,
        }))
    }
}

/// Where an accepted call sets the clock; `None` where it does not.
fn clock_set(call: &Call) -> Option<Moment>
    ensures { result ≡ clock_set call.now }
{
    match call {
        Call::Tick(at) => Some(*at),
        _ => None,
    }
}

/// What came of these entries, of which the first stands right behind this position in the history.
///
/// An object with `n`, the position of the last of them, and `news`, an object for each that caused messages or set the
/// clock, in their order: `at`, where it set the clock, in seconds from midnight UTC, and null where it did not; `desk`, the
/// number of the desk that made the call; `msgs`, the messages as a reply has them; and `n`, its position. `AllocError` where
/// there is no memory for it.
pub fn since_text(
    alloc: Global,
    position: usize,
    entries: &[SharedEntry<Call, Reply>],
) -> Result<Vec<u8>, AllocError>
    requires { position + length entries.now < 2 ^ 64 }
    ensures { IfOk result (λ text. text.items ≡ since_text position entries.now) }
{
    let mut text = Vec::new(alloc);
    push_since(alloc, &mut text, position, entries)?;
    Ok(text)
}

/// Writes what came of entries, as of `since_text`, behind the bytes that stand there. `AllocError` where there is no memory
/// for it; some of it may then stand there.
pub(crate) fn push_since(
    alloc: Global,
    out: &mut Vec<u8>,
    position: usize,
    entries: &[SharedEntry<Call, Reply>],
) -> Result<(), AllocError>
    requires { position + length entries.now < 2 ^ 64 }
    ensures { OnOk result (out.new.items ≡ out.old.items ++ since_text position entries.now) }
{
    let news = news_behind(alloc, position, entries)?;
    push_parts(
        out,
        &[
            Part::Text(b"{\"n\":"),
            Part::Number((position + entries.len()) as u64),
            Part::Text(b",\"news\":"),
        ],
    )?;
    push_array(out, news.as_slice())?;
    push_text(out, b"}")?;
    Ok(())
}

/// What came of these entries, which stand behind this position.
fn news_behind(
    alloc: Global,
    position: usize,
    entries: &[SharedEntry<Call, Reply>],
) -> Result<Vec<News>, AllocError>
    requires { position + length entries.now < 2 ^ 64 }
    ensures { IfOk result (λ news. news.items ≡ news_behind position entries.now) }
{
    let mut all = Vec::new(alloc);
    let mut next = position;
    for entry in entries {
        next += 1;
        if let Some(news) = News::of(next, entry)? {
            all.push(news)?;
        }
    }
    Ok(all)
}

impl Json for News {
    ghost value = { news_data };

    fn push_json(&self, out: &mut Vec<u8>) -> Result<(), AllocError> {
        push_parts(
            out,
            &[
                Part::Text(b"{\"at\":"),
                time_or_null(self.clock),
                Part::Text(b",\"desk\":"),
                Part::Number(self.desk as u64),
                Part::Text(b",\"msgs\":"),
            ],
        )?;
        push_messages(out, self.messages.as_slice())?;
        push_parts(
            out,
            &[
                Part::Text(b",\"n\":"),
                Part::Number(self.position as u64),
                Part::Text(b"}"),
            ],
        )?;
        Ok(())
    }
}

/// A time in seconds from midnight UTC, or `null` where there is none.
fn time_or_null(time: Option<Moment>) -> Part<'static>
    ensures { part_text result ≡ compact_text (or_null count time) }
{
    match time {
        None => Part::Text(b"null"),
        Some(time) => Part::Number(time.secs() as u64),
    }
}

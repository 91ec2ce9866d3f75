//! Metrics, in the text format of Prometheus.

ghost use Rattle.std.specs.Prelude.{◌≡◌, ℕ, [], ◌++◌, List, codes, map, IfOk, OnOk};
ghost use Rattle.casa_filing.specs.Text.{Text};
ghost use Rattle.casa_flight.specs.declared.call.Call.{Call};
ghost use Rattle.casa_flight.specs.declared.reply.Reply.{Reply};
ghost use Rattle.casa_footprint.specs.Stamps.{state_after};
ghost use Rattle.casa_history.specs.declared.entry.Entry.{Entry};
ghost use Rattle.casa_live.specs.Metrics.{command_sample, commands, counter, gauge, heading, metrics_text, sample};
ghost use Rattle.casa_live.specs.Tallies.{IsTallyOf};

use crate::gauges::Reading;
use crate::tally::{COUNT, Counts, Tally, command};
use casa_time::Moment;
use itoa::Buffer;
use std::alloc::{AllocError, Global};

/// Room for the metrics, in bytes.
const ROOM: usize = 2048;

/// The metrics behind a history with this tally, at this clock, by what the server tells of itself. `AllocError` where there is
/// no memory for them.
pub(crate) fn metrics_text(
    alloc: Global,
    tally: &Tally,
    clock: Moment,
    reading: Reading,
) -> Result<Vec<u8>, AllocError>
    ensures { IfOk result (λ text. (history : List (Entry Call Reply)) → IsTallyOf history tally.now →
        clock ≡ (state_after history).clock → text.items ≡ metrics_text history reading) }
{
    let mut text = Vec::with_capacity(alloc, ROOM)?;
    push_counter(
        &mut text,
        "casa_calls_total",
        "Calls that were answered, refused ones too.",
        &tally.calls,
    )?;
    push_counter(
        &mut text,
        "casa_refusals_total",
        "Calls that were refused.",
        &tally.refusals,
    )?;
    push_gauge(
        &mut text,
        "casa_entries",
        "Entries of the history.",
        tally.position as u64,
    )?;
    push_gauge(
        &mut text,
        "casa_clock_seconds",
        "The clock, in seconds from midnight UTC.",
        clock.secs() as u64,
    )?;
    push_gauge(
        &mut text,
        "casa_desks",
        "Desks that have a connection.",
        reading.desks,
    )?;
    push_gauge(
        &mut text,
        "casa_connections",
        "Connections that are open.",
        reading.connections,
    )?;
    Ok(text)
}

/// Writes a metric with a value for each command.
fn push_counter(
    out: &mut Vec<u8>,
    name: &str,
    help: &str,
    counts: &Counts,
) -> Result<(), AllocError>
    ensures { OnOk result ((value : Text → ℕ) → counts.now ≡ map value commands →
        out.new.items ≡ out.old.items ++ counter name.now help.now value) }
{
    push_heading(out, name, "counter", help)?;
    for number in 0..COUNT {
        push_command_sample(out, name, command(number), counts[number])?;
    }
    Ok(())
}

/// Writes a metric with one value.
fn push_gauge(out: &mut Vec<u8>, name: &str, help: &str, value: u64) -> Result<(), AllocError>
    ensures { OnOk result (out.new.items ≡ out.old.items ++ gauge name.now help.now value) }
{
    push_heading(out, name, "gauge", help)?;
    push_text(out, name)?;
    push_value(out, value)
}

/// Writes what a metric says, and its kind.
fn push_heading(out: &mut Vec<u8>, name: &str, kind: &str, help: &str) -> Result<(), AllocError>
    ensures { OnOk result (out.new.items
        ≡ out.old.items ++ heading name.now kind.now help.now) }
{
    push_text(out, "# HELP ")?;
    push_text(out, name)?;
    push_text(out, " ")?;
    push_text(out, help)?;
    push_text(out, "\n# TYPE ")?;
    push_text(out, name)?;
    push_text(out, " ")?;
    push_text(out, kind)?;
    push_text(out, "\n")
}

/// Writes the value of a metric for a command.
fn push_command_sample(
    out: &mut Vec<u8>,
    name: &str,
    command: &str,
    value: u64,
) -> Result<(), AllocError>
    ensures { OnOk result (out.new.items ≡ out.old.items
        ++ sample (name.now ++ codes "{command=\"" ++ command.now ++ codes "\"}") value) }
{
    push_text(out, name)?;
    push_text(out, "{command=\"")?;
    push_text(out, command)?;
    push_text(out, "\"}")?;
    push_value(out, value)
}

/// Writes a value behind its series.
fn push_value(out: &mut Vec<u8>, value: u64) -> Result<(), AllocError>
    ensures { OnOk result (out.new.items ≡ out.old.items ++ sample [] value) }
{
    let mut buffer = Buffer::new();
    push_text(out, " ")?;
    push_text(out, buffer.format(value))?;
    push_text(out, "\n")
}

/// Writes a text.
fn push_text(out: &mut Vec<u8>, text: &str) -> Result<(), AllocError>
    ensures { OnOk result (out.new.items ≡ out.old.items ++ text.now) }
{
    out.extend_from_slice(text.as_bytes())
}

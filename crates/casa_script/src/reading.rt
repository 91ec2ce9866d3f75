//! From the bytes of a line to what it says.

ghost use Rattle.std.specs.Prelude.{◌≡◌, IfOk};
ghost use Rattle.serde_json.specs.View.{view};
ghost use Rattle.casa_wire.specs.Commands.{line_call, line_value};
ghost use Rattle.casa_wire.specs.Members.{number_of};
ghost use Rattle.casa_script.specs.declared.fault.LineFault.TheVariants.{NoPosition};
ghost use Rattle.casa_script.specs.Said.{Gives, GivesAs, call_at, call_if_at, call_or_fault, is_at, label_of, label_said, line_said, line_vouches_for, or_fault, vouches_for};

use crate::fault::LineFault;
use crate::line::{Label, Line, RULES};
use crate::sum::reply_sum;
use casa_flight::{Call, Reply};
use casa_wire::{WireFault, read_call};
use serde_json::Value;
use std::alloc::{AllocError, Global};

/// The greatest number that a member may be, the position aside.
const MAX_NUMBER: u64 = 4_294_967_295;

/// What a line says, without its line end, or the first fault that holds, in the order of `LineFault`.
///
/// `NoMemory` says that a growth was refused; nothing else is claimed of the line then.
#[tactic(auto, unfolding(crate::specs::Said::line_said))]
pub fn read_line(alloc: Global, line: &[u8]) -> Result<Line, LineFault>
    ensures { Gives result (line_said line.now) }
{
    let call = call_of(alloc, line)?;
    let label = read_label(alloc, line)?;
    Ok(Line { label, call })
}

/// The label of a line, without its line end, or the first fault that holds, in the order of `LineFault`. Whether the line is a
/// call too is not looked at. `NoMemory` as of `read_line`.
#[tactic(auto, unfolding(crate::specs::Said::label_said))]
fn read_label(alloc: Global, line: &[u8]) -> Result<Label, LineFault>
    ensures { Gives result (label_said line.now) }
{
    let value = value_of(alloc, line)?;
    label_of(&value)
}

/// The call that a line says at a position: `None` where its label is of another position or of other rules, and where it
/// says nothing. `AllocError` where there is no memory for what it says.
pub fn call_at(alloc: Global, position: usize, line: &[u8]) -> Result<Option<Call>, AllocError>
    ensures { IfOk result (λ call. call ≡ call_at position line.now) }
{
    match read_line(alloc, line) {
        Ok(line) => Ok(line.call_if_at(position)),
        Err(LineFault::NoMemory) => Err(AllocError),
        Err(_) => Ok(None),
    }
}

/// Whether a line vouches for the reply to the call at this position: its label has the reply's sum. A text without a label
/// vouches for none. `AllocError` where there is no memory for what it says, or for the line of the reply.
pub fn line_vouches_for(
    alloc: Global,
    position: usize,
    line: &[u8],
    reply: &Reply,
) -> Result<bool, AllocError>
    ensures { IfOk result (λ vouches. vouches ≡ line_vouches_for position line.now reply.now) }
{
    match read_label(alloc, line) {
        Ok(label) => label.vouches_for(alloc, reply, position),
        Err(LineFault::NoMemory) => Err(AllocError),
        Err(_) => Ok(false),
    }
}

impl Line {
    /// The call, if the label is of this position and of the present rules.
    fn call_if_at(self, position: usize) -> Option<Call>
        ensures { result ≡ call_if_at position self }
    {
        if self.label.is_at(position) {
            Some(self.call)
        } else {
            None
        }
    }
}

impl Label {
    /// Whether it is of this position and of the present rules.
    pub fn is_at(&self, position: usize) -> bool
        ensures { result ≡ is_at position self.now }
    {
        self.position == position && self.rules == RULES
    }

    /// Whether it has the sum of the reply to the call at this position. `AllocError` where there is no memory for the line
    /// of that.
    pub fn vouches_for(
        &self,
        alloc: Global,
        reply: &Reply,
        position: usize,
    ) -> Result<bool, AllocError>
        ensures { IfOk result (λ vouches. vouches ≡ vouches_for reply.now position self.now) }
    {
        Ok(self.sum == reply_sum(alloc, reply, position)?)
    }
}

fn call_of(alloc: Global, line: &[u8]) -> Result<Call, LineFault>
    ensures { Gives result (call_or_fault (line_call line.now)) }
{
    match read_call(alloc, line) {
        Ok(call) => Ok(call),
        Err(WireFault::NoMemory) => Err(LineFault::NoMemory),
        Err(fault) => Err(LineFault::NoCall(fault)),
    }
}

/// The JSON value of a line, or `NoPosition` where it has none.
fn value_of(alloc: Global, line: &[u8]) -> Result<Value, LineFault>
    ensures { GivesAs view result (or_fault NoPosition (line_value line.now)) }
{
    match Value::from_slice(alloc, line) {
        Ok(value) => Ok(value),
        Err(error) => {
            if error.is_memory() {
                Err(LineFault::NoMemory)
            } else {
                Err(LineFault::NoPosition)
            }
        }
    }
}

#[tactic(auto, unfolding(crate::specs::Said::label_of))]
fn label_of(value: &Value) -> Result<Label, LineFault>
    ensures { Gives result (label_of (view value.now)) }
{
    let Some(position) = value.get("n").and_then(Value::as_u64) else {
        return Err(LineFault::NoPosition);
    };
    let Some(desk) = value.get("desk").and_then(number_of) else {
        return Err(LineFault::NoDesk);
    };
    let Some(rules) = value.get("rules").and_then(number_of) else {
        return Err(LineFault::NoRules);
    };
    let Some(sum) = value.get("sum").and_then(number_of) else {
        return Err(LineFault::NoSum);
    };
    Ok(Label {
        position: position as usize,
        desk,
        rules,
        sum,
    })
}

fn number_of(value: &Value) -> Option<u32>
    ensures { result ≡ number_of (view value.now) }
{
    match value.as_u64() {
        Some(number) if number <= MAX_NUMBER => Some(number as u32),
        _ => None,
    }
}

//! Lines, written behind the bytes of a vector.

ghost use Rattle.std.specs.Prelude.{◌≡◌, ◌++◌, ◌≤◌, ℕ, All, codes, true, Ok, Some, OnOk, OnErr};
ghost use Rattle.casa_wire.specs.LineTexts.{count};
ghost use Rattle.casa_lines.specs.Texts.{member_of};
ghost use Rattle.casa_script.specs.Lines.{entry_text, line_text};
ghost use Rattle.casa_script.specs.Said.{call_at, line_said, line_vouches_for};

use crate::line::{Label, RULES};
use crate::sum::sum_behind;
use casa_flight::{Call, Reply};
use casa_history::Entry;
use casa_lines::{Member, push_call_beside, sayable};
use std::alloc::AllocError;

/// Writes the line of an entry at its position in the history, counted from 1, without a line end, behind the bytes that
/// stand there.
///
/// It is of the present rules, and has the sum of the entry's reply; at this position it says the entry's call, and vouches
/// for the reply. `AllocError` as `push_line`, and where there is no memory for the line of the reply, which stands there for
/// a while; then the bytes are as they were.
pub fn push_entry(
    out: &mut Vec<u8>,
    position: usize,
    entry: &Entry<Call, Reply>,
) -> Result<(), AllocError>
    ensures ok { OnOk result (out.new.items ≡ out.old.items ++ entry_text position entry.now) }
    ensures err { OnErr result (out.new.items ≡ out.old.items) }
    ensures characters { OnOk result (All (λ (byte : ℕ). (32 ≤ byte) × (byte ≤ 126))
        (entry_text position entry.now)) }
    ensures again { OnOk result (call_at position (entry_text position entry.now)
        ≡ Some entry.now.call) }
    ensures vouches { OnOk result (line_vouches_for position (entry_text position entry.now)
        entry.now.reply ≡ true) }
{
    let sum = sum_behind(out, &entry.reply, position)?;
    let label = Label {
        position,
        desk: entry.desk,
        rules: RULES,
        sum,
    };
    push_line(out, label, &entry.call)
}

/// Writes the line of a call with this label, without a line end, behind the bytes that stand there. What it says is the
/// call with the label, in characters from the space to the tilde.
///
/// `AllocError` where there is no memory for it, and where a plan or a profile is shared too often to be counted; then the
/// bytes are as they were.
pub fn push_line(out: &mut Vec<u8>, label: Label, call: &Call) -> Result<(), AllocError>
    ensures ok { OnOk result (out.new.items ≡ out.old.items ++ line_text label call.now) }
    ensures err { OnErr result (out.new.items ≡ out.old.items) }
    ensures characters { OnOk result (All (λ (byte : ℕ). (32 ≤ byte) × (byte ≤ 126))
        (line_text label call.now)) }
    ensures again { OnOk result (line_said (line_text label call.now)
        ≡ Ok (record { label = label; call = call.now })) }
{
    let label = label.in_range();
    let call = sayable(call.try_clone()?);
    push_call_beside(
        out,
        &call,
        &[
            label.desk_member(),
            label.position_member(),
            label.rules_member(),
            label.sum_member(),
        ],
    )
}

impl Label {
    fn position_member(self) -> Member<'static>
        ensures { member_of result ≡ (codes "n", count self.position) }
    {
        Member::number("n", self.position as u64)
    }

    fn desk_member(self) -> Member<'static>
        ensures { member_of result ≡ (codes "desk", count self.desk) }
    {
        Member::number("desk", self.desk as u64)
    }

    fn rules_member(self) -> Member<'static>
        ensures { member_of result ≡ (codes "rules", count self.rules) }
    {
        Member::number("rules", self.rules as u64)
    }

    fn sum_member(self) -> Member<'static>
        ensures { member_of result ≡ (codes "sum", count self.sum) }
    {
        Member::number("sum", self.sum as u64)
    }
}

//! Laws of the definitions, each on a function that does nothing.

ghost use Rattle.std.specs.Prelude.{◌≡◌, ◌≢◌, ◌<◌, ◌≤◌, ◌^◌, ℕ, List, Ok, Some, None, true, All};
ghost use Rattle.casa_flight.specs.declared.call.Call.{Call};
ghost use Rattle.casa_flight.specs.declared.reply.Reply.{Reply};
ghost use Rattle.casa_history.specs.declared.entry.Entry.{Entry};
ghost use Rattle.casa_wire.specs.Commands.{line_call};
ghost use Rattle.casa_script.specs.declared.line.Label.{Label};
ghost use Rattle.casa_script.specs.Lines.{entry_label, entry_text, line_text};
ghost use Rattle.casa_lines.specs.Sayable.{IsSayable};
ghost use Rattle.casa_script.specs.Sayable.{IsInRange};
ghost use Rattle.casa_script.specs.Said.{call_at, line_said, vouches_for};

/// A line says the call and the label that it was written of, and it is a command line that is read as the call. It has
/// only characters from the space to the tilde, so that it is one line of ASCII.
pub fn lines_are_read_again()
    ensures line { (label : Label) (call : Call) → IsInRange label → IsSayable call →
        line_said (line_text label call) ≡ Ok (record { label = label; call = call }) }
    ensures command { (label : Label) (call : Call) → IsInRange label → IsSayable call →
        line_call (line_text label call) ≡ Ok call }
    ensures characters { (label : Label) (call : Call) → IsInRange label → IsSayable call →
        All (λ (byte : ℕ). (32 ≤ byte) × (byte ≤ 126)) (line_text label call) }
{}

/// The line of an entry says its call at the position of the entry, and at no other. Its label vouches for the reply.
pub fn entries_are_read_again()
    ensures line { (position : ℕ) (entry : Entry Call Reply) →
        position < 2 ^ 64 → entry.desk < 2 ^ 32 → IsSayable entry.call →
        line_said (entry_text position entry)
        ≡ Ok (record { label = entry_label position entry; call = entry.call }) }
    ensures call { (position : ℕ) (entry : Entry Call Reply) →
        position < 2 ^ 64 → entry.desk < 2 ^ 32 → IsSayable entry.call →
        call_at position (entry_text position entry) ≡ Some entry.call }
    ensures nowhere_else { (position other : ℕ) (entry : Entry Call Reply) →
        position < 2 ^ 64 → entry.desk < 2 ^ 32 → IsSayable entry.call → other ≢ position →
        call_at other (entry_text position entry) ≡ None }
    ensures vouches { (position : ℕ) (entry : Entry Call Reply) →
        vouches_for entry.reply position (entry_label position entry) ≡ true }
{}

/// A call that a line says at a position is the one that the line is read as by itself.
pub fn calls_at_positions_are_read()
    ensures { (position : ℕ) (line : List ℕ) (call : Call) →
        call_at position line ≡ Some call → line_call line ≡ Ok call }
{}

/// One text is of one call with one label.
pub fn lines_tell_calls_apart()
    ensures { (label other : Label) (call another : Call) →
        IsInRange label → IsSayable call → IsInRange other → IsSayable another →
        line_text label call ≡ line_text other another → (label ≡ other) × (call ≡ another) }
{}

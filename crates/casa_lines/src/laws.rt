//! Laws of the definitions, each on a function that does nothing.

ghost use Rattle.std.specs.Prelude.{◌≡◌, ◌≤◌, ℕ, List, Ok, All};
ghost use Rattle.casa_flight.specs.declared.call.Call.{Call};
ghost use Rattle.casa_wire.specs.Commands.{line_call};
ghost use Rattle.casa_lines.specs.Lines.{call_text};
ghost use Rattle.casa_lines.specs.Sayable.{IsSayable};

/// The command line of a call is read as this call. It has only characters from the space to the tilde, so that it is one
/// line of ASCII. One text is of one call.
pub fn calls_are_read_again()
    ensures call { (call : Call) → IsSayable call → line_call (call_text call) ≡ Ok call }
    ensures characters { (call : Call) → IsSayable call →
        All (λ (byte : ℕ). (32 ≤ byte) × (byte ≤ 126)) (call_text call) }
    ensures apart { (call another : Call) → IsSayable call → IsSayable another →
        call_text call ≡ call_text another → call ≡ another }
{}

/// A call that is read from a line is as its type keeps it.
pub fn read_calls_are_sayable()
    ensures { (line : List ℕ) (call : Call) → line_call line ≡ Ok call → IsSayable call }
{}

//! The law of the definition of a line, on a function that does nothing.

ghost use Rattle.std.specs.Prelude.{◌≡◌, ◌↔◌, ℕ, List, Ok, Err, Some, None};
ghost use Rattle.casa_flight.specs.declared.call.Call.{Call};
ghost use Rattle.casa_wire.specs.declared.fault.WireFault.{WireFault};
ghost use Rattle.casa_wire.specs.Checks.{first_fault, line_checks, said_call};
ghost use Rattle.casa_wire.specs.Commands.{line_call};

/// A line has a fault exactly where a check of it holds, and then that of the first one that does, in the order of
/// the list. Where none holds it is a call, the one that the command and the members of its JSON value make.
pub fn line_has_its_first_fault()
    ensures fault { (line : List ℕ) (fault : WireFault) →
        (line_call line ≡ Err fault) ↔ (first_fault (line_checks line) ≡ Some fault) }
    ensures call { (line : List ℕ) (call : Call) →
        (line_call line ≡ Ok call)
        ↔ ((first_fault (line_checks line) ≡ None) × (said_call line ≡ Some call)) }
{}

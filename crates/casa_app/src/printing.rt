//! What is printed after all lines of an input.

ghost use Rattle.std.specs.Prelude.{◌≡◌, ◌⊎◌, List, Result, Ok, IfErr, IfOk};
ghost use Rattle.casa_filing.specs.Text.{Text};
ghost use Rattle.casa_flight.specs.declared.call.Call.{Call};
ghost use Rattle.casa_app.specs.declared.fault.PrintFault.{PrintFault};
ghost use Rattle.casa_app.specs.Inputs.{is_marked};
ghost use Rattle.casa_app.specs.Printed.{IsUnanswered, IsWhole, PrintEnds, SessionEnds};
ghost use Rattle.casa_app.specs.Remarked.{Says};

use crate::fault::PrintFault;
use crate::input::Input;
use crate::remarks::Remarks;
use casa_session::{Lone, SessionFault, send};
use std::alloc::Global;
use std::io::{Read, Write};

/// What is asked after all lines, and answered by a text.
pub(crate) trait Question {
    /// The text after these calls of the sequential allocator, or the fault that says what is not there.
    ghost text_after: { Self → List Call → Result Text PrintFault };

    /// The text after the calls of the desk. `NoRegulation` or `NoFlight` where what is asked for is not there; `NoMemory`
    /// where there is none for the text.
    fn text(&self, alloc: Global, lone: &mut Lone) -> Result<Vec<u8>, PrintFault>
        ensures some { IfOk result (λ text. text_after self.now lone.old ≡ Ok text.items) }
        ensures none { IfErr result (IsUnanswered (text_after self.now lone.old)) };
}

/// Answers the command lines of the input as a session does, without its replies, says at `errors` which lines had faults or
/// were refused, and then writes the text that answers the question.
///
/// The session's fault comes first, then `FaultyLines` where there were such lines and `strict` is true, then the fault that
/// says what is not there after all lines, and nothing is written at any of them. `NoMemory` where there is none for the desk
/// or for the text, and then nothing is written. `WriteFailed` where the writer fails or takes no byte before it has the whole
/// text; it then has the beginning of it. Where `errors` fails, nothing else changes.
pub(crate) fn print<Q: Question, R: Read + Drop, W: Write, E: Write>(
    alloc: Global,
    question: &Q,
    strict: bool,
    input: &mut Input<R>,
    writer: &mut W,
    errors: &mut E,
) -> Result<(), PrintFault>
    ensures ends { PrintEnds (Q.text_after question.now) result (R.remaining input.old.source)
        (R.remaining input.new.source) (W.contents writer.old) (W.contents writer.new) }
    ensures says { Says strict (is_marked input.new.first.items) result
        (R.remaining input.old.source) (R.remaining input.new.source)
        (E.contents errors.old) (E.contents errors.new) }
{
    let mut lone = answer_lines(alloc, strict, input, errors)?;
    let text = question.text(alloc, &mut lone)?;
    match send(writer, &text, 0) {
        Ok(_) => Ok(()),
        Err(_) => Err(PrintFault::WriteFailed),
    }
}

/// A new desk that has answered all lines of the input. Which lines had faults or were refused is said at `errors`;
/// where `strict` is true and there were any, `FaultyLines`.
pub(crate) fn answer_lines<R: Read + Drop, E: Write>(
    alloc: Global,
    strict: bool,
    input: &mut Input<R>,
    errors: &mut E,
) -> Result<Lone, PrintFault>
    ensures whole { IfOk result (λ lone. IsWhole (R.remaining input.old.source) lone) }
    ensures err { IfErr result (λ fault. (fault ≡ PrintFault.NoMemory)
        ⊎ ((fault ≡ PrintFault.FaultyLines)
        ⊎ ((cause : SessionFault) × (fault ≡ PrintFault.Session cause)
        × SessionEnds cause (R.remaining input.old.source) (R.remaining input.new.source)))) }
    ensures says { Says strict (is_marked input.new.first.items) result
        (R.remaining input.old.source) (R.remaining input.new.source)
        (E.contents errors.old) (E.contents errors.new) }
{
    let mut lone = Lone::new(alloc)?;
    let mut remarks = Remarks::new();
    let ended = lone.run(alloc, input, &mut remarks);
    // Nothing else changes where it cannot be said.
    let _ = remarks.say(input.is_marked(), errors);
    ended?;
    if strict && !remarks.is_empty() {
        return Err(PrintFault::FaultyLines);
    }
    Ok(lone)
}

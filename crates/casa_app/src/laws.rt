//! Laws of what is said of replies, on functions that do nothing.

ghost use Rattle.std.specs.Prelude.{◌≡◌, ◌≢◌, ◌^◌, ◌<◌, [], ◌++◌, ℕ, List, codes};
ghost use Rattle.serde_json.specs.Written.{compact_text};
ghost use Rattle.casa_flight.specs.declared.call.Refusal.{Refusal};
ghost use Rattle.casa_flight.specs.declared.reply.Answer.{Answer};
ghost use Rattle.casa_flight.specs.declared.reply.Message.{Message};
ghost use Rattle.casa_flight.specs.declared.reply.Reply.TheVariants.{Answered, Refused};
ghost use Rattle.casa_flight.specs.Refusals.{name_of};
ghost use Rattle.casa_wire.specs.declared.fault.WireFault.{WireFault};
ghost use Rattle.casa_wire.specs.declared.fault.WireFault.TheVariants.{NoMemory};
ghost use Rattle.casa_wire.specs.LineTexts.{fault_text, reply_data};
ghost use Rattle.casa_app.specs.Remarks.{head, remark_on};
ghost use Rattle.casa_app.specs.Told.{IsTold, fault_told};

/// Of a line with a fault the fault's name is told, and the member's behind it where it is one of a member.
pub fn faults_are_told()
    ensures { (fault : WireFault) → fault ≢ NoMemory
        → IsTold (fault_text fault) (fault_told fault) }
{}

/// Of a refused call it is told that it is refused, and the refusal's name.
pub fn refusals_are_told()
    ensures { (refusal : Refusal) (n : ℕ) → n < 2 ^ 64
        → IsTold (compact_text (reply_data (Refused refusal) n))
        (codes "refused " ++ name_of refusal) }
{}

/// Of a call that is answered nothing is said.
pub fn answers_are_not_told()
    ensures { (answer : Answer) (messages : List Message) (n number : ℕ)
        → remark_on number (head (compact_text (reply_data (Answered answer messages) n))) ≡ [] }
{}

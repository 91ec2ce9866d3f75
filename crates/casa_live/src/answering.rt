//! How a browser's lines are answered.

ghost use Rattle.std.specs.Prelude.{◌≡◌, IfOk, OnErr, None, Some};
ghost use Rattle.casa_history.specs.Entries.{receipts};
ghost use Rattle.casa_engine.specs.Passes.{pass_of};
ghost use Rattle.casa_live.specs.Answered.{AreSequential, IsAnswered, text_told};

use casa_commit::Gate;
use casa_engine::{
    CountedPass, DeskPass, Engine, EngineName, Shareable, SharedDesk, SharedRoom,
    legal_histories_are_sequential,
};
use casa_flight::{Call, Reply};
use casa_front::Front;
use casa_plan::Direct;
use casa_session::{SessionFault, run};
use casa_view::{Board, Store};
use std::alloc::{AllocError, Global};
use std::sync::Wait;

/// Answers the lines by the desk of this pass, as a session does, and gives the pass back. The front then sees a history with
/// the calls. `AllocError` where the session did not come to the end of the lines, or to one that is too long: there was no
/// memory for a line, for its reply, or for the text.
pub(crate) fn answer_lines<K: Store, L: EngineName, G: Gate<Board<K>> + Drop, R: Wait>(
    rt: &R,
    alloc: Global,
    engine: &Engine<K, L, G>,
    pass: DeskPass<K, L>,
    lines: &[u8],
    front: &mut Front<Call, Reply, L>,
) -> (Result<Vec<u8>, AllocError>, DeskPass<K, L>)
    ensures ok { IfOk result.0 (λ text. IsAnswered lines.now (Some text.items)
        (receipts (pass_of pass)) (receipts (pass_of result.1)) front.old front.new) }
    ensures err { OnErr result.0 (IsAnswered lines.now None
        (receipts (pass_of pass)) (receipts (pass_of result.1)) front.old front.new) }
{
    legal_histories_are_sequential::<K>();
    answer_in(rt, alloc, engine, pass, lines, front)
}

/// The same in any room, where legal histories are of one thread.
fn answer_in<W: Shareable<Call = Call, Reply = Reply>, L: EngineName, G: Gate<W>, R: Wait>(
    rt: &R,
    alloc: Global,
    room: &SharedRoom<W, L, G>,
    pass: CountedPass<W, L>,
    lines: &[u8],
    front: &mut Front<Call, Reply, L>,
) -> (Result<Vec<u8>, AllocError>, CountedPass<W, L>)
where
    Direct: Gate<W>,
    ensures ok { IfOk result.0 (λ text. AreSequential W.World → IsAnswered lines.now (Some text.items)
        (receipts (pass_of pass)) (receipts (pass_of result.1)) front.old front.new) }
    ensures err { OnErr result.0 (AreSequential W.World → IsAnswered lines.now None
        (receipts (pass_of pass)) (receipts (pass_of result.1)) front.old front.new) }
{
    let mut reader = lines;
    let mut text = Vec::new(alloc);
    let mut desk = SharedDesk::new(room, rt, pass);
    let ended = run(alloc, &mut reader, &mut text, &mut desk);
    let mut seen = front.joined(&desk.front());
    room.see(rt, &mut seen);
    *front = seen;
    (told(ended, text), desk.into_pass())
}

/// What is told of what a session wrote that ended so.
fn told(ended: Result<u64, SessionFault>, text: Vec<u8>) -> Result<Vec<u8>, AllocError>
    ensures ok { IfOk result (λ told. text_told ended text.items ≡ Some told.items) }
    ensures err { OnErr result (text_told ended text.items ≡ None) }
{
    match ended {
        Ok(_) | Err(SessionFault::LineTooLong) => Ok(text),
        Err(_) => Err(AllocError),
    }
}

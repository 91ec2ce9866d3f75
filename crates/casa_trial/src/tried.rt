//! Lines that are tried.

ghost use Rattle.std.specs.Prelude.{◌≡◌, [], ◌++◌, IfOk, OnOk};
ghost use Rattle.casa_branch.specs.Branches.{earlier_of, given_of};
ghost use Rattle.casa_session.specs.Alone.{transcript_after};
ghost use Rattle.casa_session.specs.Lines.{lines_of};
ghost use Rattle.casa_session.specs.Played.{calls_in};
ghost use Rattle.casa_session.specs.Transcript.{calls};
ghost use Rattle.casa_trial.specs.Ended.{came_to_end};
ghost use Rattle.casa_trial.specs.Tried.{IsTriedAfter};

use crate::trial::Trial;
use casa_branch::Branch;
use casa_engine::Look;
use casa_session::SessionFault;
use casa_view::{Board, Store};
use std::alloc::{AllocError, Global};

/// What comes of lines that are tried.
#[derive(Drop)]
pub struct Tried {
    /// The replies, a line each.
    pub text: Vec<u8>,
    /// What there is to look at before the lines.
    pub before: Look,
    /// What there is to look at after them.
    pub after: Look,
}

/// Answers these lines on the branch, on which nothing was answered, and says what comes of them. The branch is let go.
/// `AllocError` where there is no memory for it.
pub fn try_lines<K: Store>(
    alloc: Global,
    branch: Branch<Board<K>>,
    lines: &[u8],
) -> Result<Tried, AllocError>
    requires { given_of branch ≡ [] }
    ensures { IfOk result (IsTriedAfter (calls_in (earlier_of branch)) lines.now) }
{
    let mut trial = Trial::on(branch);
    let before = trial.look(alloc)?;
    let text = answered(alloc, &mut trial, lines)?;
    let after = trial.look(alloc)?;
    Ok(Tried {
        text,
        before,
        after,
    })
}

/// The replies to these lines, a line each. `AllocError` where there was no memory to come to their end, or to one that is
/// too long.
fn answered<K: Store>(
    alloc: Global,
    trial: &mut Trial<Board<K>>,
    lines: &[u8],
) -> Result<Vec<u8>, AllocError>
    ensures text { IfOk result (λ text. text.items
        ≡ transcript_after trial.old (lines_of lines.now)) }
    ensures calls { OnOk result (trial.new ≡ trial.old ++ calls (lines_of lines.now)) }
{
    let mut reader = lines;
    let mut text = Vec::new(alloc);
    let ended = trial.run(alloc, &mut reader, &mut text);
    if came_to_end(&ended) {
        Ok(text)
    } else {
        Err(AllocError)
    }
}

/// Whether a session came to the end of its lines, or to one that is too long.
fn came_to_end(ended: &Result<u64, SessionFault>) -> bool
    ensures { result ≡ came_to_end ended.now }
{
    matches!(ended, Ok(_) | Err(SessionFault::LineTooLong))
}

//! What would come of a browser's lines.

ghost use Rattle.std.specs.Prelude.{◌≡◌, List, ℕ, IfOk};
ghost use Rattle.std.specs.List.{count_by};
ghost use Rattle.std.specs.Option.{option_map};
ghost use Rattle.casa_flight.specs.declared.call.Call.{Call};
ghost use Rattle.casa_http.specs.Question.{lines_tried};
ghost use Rattle.casa_live.specs.Shown.{IsShownBehind, are_too_many, tried_text};
ghost use Rattle.casa_session.specs.Lines.{is_lf};
ghost use Rattle.casa_trial.specs.Tried.{IsTriedAfter};

use crate::browser::EngineBrowser;
use crate::gauges::Gauges;
use crate::looking::shown_lists;
use casa_commit::Gate;
use casa_engine::EngineName;
use casa_flight::{Call, Reply};
use casa_front::Front;
use casa_look::push_states;
use casa_trial::{Tried, try_lines};
use casa_view::{Board, Store};
use std::alloc::{AllocError, Global};
use std::sync::{Mutex, MutexGuard, Wait};

/// The most line feeds of lines that are tried at once.
const MOST: usize = 64;

/// Whose turn it is to try lines. While some are tried, the calls of desks cost more, so one browser does at a time, and the
/// others wait.
#[derive(Drop)]
pub struct Turn {
    taken: Mutex<()>,
}

impl Turn {
    /// Nobody's.
    pub fn new() -> Turn {
        Turn {
            taken: Mutex::new(()),
        }
    }

    /// The turn, for which this waits. It lasts until the result is let go.
    fn take<R: Wait>(&self, rt: &R) -> MutexGuard<'_, ()> {
        self.taken.lock(rt)
    }
}

impl<'e, K, L, G, R, Q> EngineBrowser<'e, K, L, G, R, Q>
where
    K: Store,
    L: EngineName,
    G: Gate<Board<K>> + Drop,
    R: Wait,
    Q: Gauges,
{
    /// What would come of these lines: the replies to them, and behind these a line with the states before and after. `None`
    /// where they are too many.
    pub(crate) fn tried_text(
        &self,
        front: &mut Front<Call, Reply, L>,
        lines: &[u8],
    ) -> Result<Option<Vec<u8>>, AllocError>
        ensures { IfOk result (λ found. IsShownBehind front.old front.new (lines_tried lines.now)
            (option_map (λ text. text.items) found)) }
    {
        if are_too_many(lines) {
            self.look_on(front);
            return Ok(None);
        }
        let turn = self.turn.take(self.rt);
        let branch = self.engine.branch(self.rt, front)?;
        let tried = try_lines(self.alloc, branch, lines)?;
        drop(turn);
        Ok(Some(told(self.alloc, tried)?))
    }
}

/// Whether lines are too many to be tried at once.
fn are_too_many(lines: &[u8]) -> bool
    ensures { result ≡ are_too_many lines.now }
{
    MOST < line_feeds(lines)
}

/// How many line feeds there are.
fn line_feeds(lines: &[u8]) -> usize
    ensures { result ≡ count_by is_lf lines.now }
{
    lines.iter().filter(|byte| **byte == b'\n').count()
}

/// What is told of lines that were tried. `AllocError` where there is no memory for it.
fn told(alloc: Global, tried: Tried) -> Result<Vec<u8>, AllocError>
    ensures { IfOk result (λ text. (before : List Call) (lines : List ℕ) → IsTriedAfter before lines tried →
        text.items ≡ tried_text before lines) }
{
    let Tried {
        text,
        before,
        after,
    } = tried;
    let mut text = text;
    push_states(
        alloc,
        &mut text,
        before.calls,
        &shown_lists(&before),
        after.calls,
        &shown_lists(&after),
    )?;
    Ok(text)
}

//! Opening a day: its journal is read, and its calls are answered again.

ghost use Rattle.std.specs.Prelude.{◌≡◌, ◌↔◌, ◌+◌, ◌++◌, ◌∷◌, [], List, ℕ, length, IfErr, IfOk, IsErrOf};
ghost use Rattle.casa_flight.specs.declared.call.Call.{Call};
ghost use Rattle.casa_flight.specs.declared.reply.Reply.{Reply};
ghost use Rattle.casa_history.specs.declared.entry.Entry.{Entry};
ghost use Rattle.casa_commit.specs.Legal.{entry};
ghost use Rattle.casa_tape.specs.Lines.{AreLines, StandsAs, journal_of, whole_lines};
ghost use Rattle.casa_tape.specs.Journals.{LeavesOnly};
ghost use Rattle.casa_day.specs.Scripts.{Says, Say};
ghost use Rattle.casa_day.specs.Refusals.{IsOfLines, IsRefused, IsRefusedAt};
ghost use Rattle.casa_day.specs.Journals.{Keeps};
ghost use Rattle.casa_plan.specs.Rooms.{IsSequential};
ghost use Rattle.casa_interleavings.specs.Board.{sequential_reply};
ghost use Rattle.casa_interleavings.specs.Runs.{run_events, run_history};
ghost use Rattle.casa_interleavings.specs.Openings.{IsAgain, IsReopened, IsOpened, IsGoing};

use crate::event::Event;
use crate::run::Run;
use casa_commit::World;
use casa_day::{Journal, OpenFault, Script};
use casa_flight::{Call, Reply};
use casa_tape::{Tape, first_line, look, mend};
use casa_view::{Board, Store};
use std::alloc::{AllocError, Global};

/// The worker that answers the calls of the journal again.
const JOURNAL_WORKER: u32 = 0;

/// Opens a journal on a tape, as a crash may have left it, with an empty board over this store. The calls of its whole lines
/// are answered again, by worker 0, and what stands behind them is cut. All of them count as told.
///
/// An error hands the tape back: `NotRead` where the tape fails; `BadLine` at the first line that says no call at its
/// position, or `ReplayDiffers` at the first whose call is now answered otherwise than it vouches, whichever comes first, and
/// then the file is as it was; `NoMemory` where there is no memory.
pub fn open<K: Store, S: Script<Call, Reply>, T: Tape + Drop>(
    alloc: Global,
    store: K,
    script: &S,
    tape: T,
) -> Result<(Run<Board<K>>, Journal<T>), (OpenFault, T)>
    ensures opened { IfOk result (λ opened. (xs : List ℕ) → T.holds tape xs
        → IsOpened S.Script T.Tape (whole_lines xs) opened.0 opened.1) }
    ensures running { IfOk result (λ opened. IsGoing S.Script T.Tape opened.0 opened.1) }
    ensures refused { IfErr result (λ e. IsOfLines e.0 → (xs : List ℕ) → T.holds tape xs
        → IsRefused S.Script ⟦<Board<K> as World>⟧ (whole_lines xs) e.0) }
    ensures untouched { IfErr result (λ e. IsOfLines e.0 → (xs : List ℕ)
        → T.holds e.1 xs ↔ T.holds tape xs) }
    // No file that a life left is refused.
    ensures accepted { IfErr result (λ e. (history : List (Entry Call Reply)) (least : ℕ)
        (xs : List ℕ) → IsSequential history → T.holds tape xs → Keeps S.Script history least xs
        → ¬ (IsOfLines e.0)) }
    ensures cause { IfErr result (λ e. e.0 ≡ OpenFault.NotRead → T.has_failed e.1) }
    // A crash at any moment of it leaves a file that stands for the same lines.
    ensures any_moment { IfOk result (λ opened. LeavesOnly T.Tape tape opened.1.tape
        (StandsAs (T.may_leave tape))) }
    ensures any_moment_err { IfErr result (λ e. LeavesOnly T.Tape tape e.1
        (StandsAs (T.may_leave tape))) }
{
    let mut tape = tape;
    let run = match reopen(alloc, store, script, &mut tape) {
        Ok(run) => run,
        Err(fault) => return Err((fault, tape)),
    };
    let journaled = run.history().len();
    match Journal::begin(alloc, tape, journaled) {
        Ok(journal) => Ok((run, journal)),
        Err(tape) => Err((OpenFault::NoMemory, tape)),
    }
}

/// Reads a journal, answers the calls of its whole lines again on an empty board, and then cuts what stands behind them.
fn reopen<K: Store, S: Script<Call, Reply>, T: Tape>(
    alloc: Global,
    store: K,
    script: &S,
    tape: &mut T,
) -> Result<Run<Board<K>>, OpenFault>
    ensures reopened { IfOk result (λ run. IsReopened S.Script T.Tape tape.old tape.new run) }
    ensures refused { IfErr result (λ fault. IsOfLines fault → (xs : List ℕ) → T.holds tape.old xs
        → IsRefused S.Script ⟦<Board<K> as World>⟧ (whole_lines xs) fault) }
    ensures untouched { IfErr result (λ fault. IsOfLines fault → (xs : List ℕ)
        → T.holds tape.new xs ↔ T.holds tape.old xs) }
    ensures cause { IsErrOf result OpenFault.NotRead → T.has_failed tape.new }
    ensures any_moment { LeavesOnly T.Tape tape.old tape.new (StandsAs (T.may_leave tape.old)) }
{
    let found = look(alloc, tape)?;
    let empty = Run::open(alloc, store)?;
    let run = replay(alloc, script, empty, found.lines())?;
    mend(tape, &found)?;
    Ok(run)
}

/// Answers the calls of these lines again, one after the other.
fn replay<K: Store, S: Script<Call, Reply>>(
    alloc: Global,
    script: &S,
    empty: Run<Board<K>>,
    text: &[u8],
) -> Result<Run<Board<K>>, OpenFault>
    requires again { IsAgain empty }
    requires empty { run_history empty ≡ [] }
    ensures answered { IfOk result (λ run. IsAgain run) }
    ensures said { IfOk result (λ run. (lines : List (List ℕ)) → AreLines lines
        → text.now ≡ journal_of lines → Say S.Script 1 lines (run_history run)) }
    ensures refused { IfErr result (λ fault. (lines : List (List ℕ)) → AreLines lines
        → text.now ≡ journal_of lines
        → IsRefused S.Script ⟦<Board<K> as World>⟧ lines fault) }
    ensures read { IsErrOf result OpenFault.NotRead → ⊥ }
{
    let mut run = empty;
    let mut rest = text;
    let mut position = 0;
    while let Some((line, others)) = first_line(rest) {
        position += 1;
        run = answer_line(alloc, script, run, position, line)?;
        rest = others;
    }
    Ok(run)
}

/// Answers the call of the line at a position again, and compares its reply with the one for which the line vouches.
fn answer_line<K: Store, S: Script<Call, Reply>>(
    alloc: Global,
    script: &S,
    run: Run<Board<K>>,
    position: usize,
    line: &[u8],
) -> Result<Run<Board<K>>, OpenFault>
    requires again { IsAgain run }
    requires position { position ≡ length (run_history run) + 1 }
    ensures answered { IfOk result (λ next. IsAgain next) }
    ensures said { IfOk result (λ next. (e : Entry Call Reply) × Says S.Script position line.now e
        × (run_history next ≡ run_history run ++ e ∷ [])) }
    ensures refused { IfErr result (λ fault. IsRefusedAt S.Script ⟦<Board<K> as World>⟧
        (run_history run) position line.now fault) }
{
    let Some(call) = script.read(alloc, position, line)? else {
        return Err(OpenFault::BadLine(position));
    };
    let next = answer_again(alloc, run, call)?;
    let Some(entry) = next.history().entry(position) else {
        unreachable!();
    };
    if !script.vouches(alloc, position, line, &entry.reply)? {
        return Err(OpenFault::ReplayDiffers(position));
    }
    Ok(next)
}

/// The worker of the journal reads, computes and commits this call. `AllocError` where there is no memory for it.
fn answer_again<K: Store>(
    alloc: Global,
    run: Run<Board<K>>,
    call: Call,
) -> Result<Run<Board<K>>, AllocError>
    requires again { IsAgain run }
    ensures answered { IfOk result (λ next. IsAgain next) }
    ensures history { IfOk result (λ next. run_history next ≡ run_history run
        ++ entry 0 call (sequential_reply (run_history run) call) ∷ []) }
{
    let read = run.next(alloc, &Event::Read(JOURNAL_WORKER, call))?;
    let computed = read.next(alloc, &Event::Compute(JOURNAL_WORKER))?;
    let committed = computed.next(alloc, &Event::Commit(JOURNAL_WORKER))?;
    Ok(committed)
}

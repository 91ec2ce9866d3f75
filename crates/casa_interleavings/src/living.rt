//! A life: a journal is opened, and then things happen.

ghost use Rattle.std.specs.Prelude.{◌≡◌, ◌≤◌, ◌↔◌, ◌∷◌, ◌++◌, [], List, ℕ, length, IfErr, IfOk, IsErrOf};
ghost use Rattle.casa_flight.specs.declared.call.Call.{Call};
ghost use Rattle.casa_flight.specs.declared.reply.Reply.{Reply};
ghost use Rattle.casa_history.specs.declared.entry.Entry.{Entry};
ghost use Rattle.casa_plan.specs.Rooms.{IsSequential};
ghost use Rattle.casa_tape.specs.Lines.{StandsAs, whole_lines};
ghost use Rattle.casa_tape.specs.Journals.{LeavesOnly};
ghost use Rattle.casa_day.specs.Journals.{Grows, IsSafe, Keeps};
ghost use Rattle.casa_day.specs.Refusals.{IsOfLines, IsRefused};
ghost use Rattle.casa_interleavings.specs.Runs.{run_events, run_history};
ghost use Rattle.casa_interleavings.specs.Courses.{GoesOn};
ghost use Rattle.casa_interleavings.specs.Openings.{IsGoing};
ghost use Rattle.casa_interleavings.specs.Lives.{HasLived, HasGoneOn};

use crate::day_event::DayEvent;
use crate::opening::open;
use crate::run::Run;
use casa_commit::World;
use casa_day::{DayFault, Journal, OpenFault, Script};
use casa_flight::{Call, Reply};
use casa_tape::Tape;
use casa_view::{Board, Store};
use std::alloc::Global;

/// How a life ended: the run of its board, or why it could not go on; and the journal that it left.
pub type Ended<K, T> = (Result<Run<Board<K>>, DayFault>, Journal<T>);

/// Lives on a tape, as a crash may have left it, with a board over this store: the calls of the journal's whole lines are
/// answered again, by worker 0, and what stands behind them is cut; and then these events happen, one after the other.
///
/// The errors are those of `open`, and hand the tape back. A life ends before its events do where the tape fails
/// (`NotWritten`), or where there is no memory (`NoMemory`).
pub fn live<K: Store, S: Script<Call, Reply>, T: Tape + Drop>(
    alloc: Global,
    store: K,
    script: &S,
    tape: T,
    events: &[DayEvent<Call>],
) -> Result<Ended<K, T>, (OpenFault, T)>
    // What workers did is a run; what was told, the events say; and nothing that was told is lost. Whenever it was cut short,
    // it is a life of those of which `nothing_told_is_lost` speaks.
    ensures lived { IfOk result (λ life. (xs : List ℕ) → T.holds tape xs
        → HasLived S.Script T.Tape ⟦<Board<K> as World>⟧ tape xs events.now life.0 life.1) }
    // No file that a life left is refused.
    ensures accepted { IfErr result (λ e. (history : List (Entry Call Reply)) (least : ℕ)
        (xs : List ℕ) → IsSequential history → T.holds tape xs → Keeps S.Script history least xs
        → ¬ (IsOfLines e.0)) }
    ensures refused { IfErr result (λ e. IsOfLines e.0 → (xs : List ℕ) → T.holds tape xs
        → IsRefused S.Script ⟦<Board<K> as World>⟧ (whole_lines xs) e.0) }
    ensures untouched { IfErr result (λ e. IsOfLines e.0 → (xs : List ℕ)
        → T.holds e.1 xs ↔ T.holds tape xs) }
    ensures cause { IfErr result (λ e. e.0 ≡ OpenFault.NotRead → T.has_failed e.1) }
    // A crash at any moment of an opening that fails leaves a file that stands for the same lines.
    ensures any_moment { IfErr result (λ e. LeavesOnly T.Tape tape e.1
        (StandsAs (T.may_leave tape))) }
{
    let (run, journal) = open(alloc, store, script, tape)?;
    Ok(go_on(alloc, script, run, journal, events))
}

/// What happens, one event after the other, until one cannot.
fn go_on<K: Store, S: Script<Call, Reply>, T: Tape>(
    alloc: Global,
    script: &S,
    begun: Run<Board<K>>,
    opened: Journal<T>,
    events: &[DayEvent<Call>],
) -> Ended<K, T>
    requires { IsGoing S.Script T.Tape begun opened }
    ensures { HasGoneOn S.Script T.Tape (run_history begun)
        (record { deeds = run_events begun; journal = opened }) events.now result.0 result.1 }
{
    let mut run = begun;
    let mut journal = opened;
    for event in events {
        match happen(alloc, script, run, &mut journal, event) {
            Ok(next) => run = next,
            Err(fault) => return (Err(fault), journal),
        }
    }
    (Ok(run), journal)
}

/// What one event asks for: a deed of a worker, a flush, or a reply that is told, on the tape as it is then. `NotWritten`
/// where the tape fails, `NoMemory` where there is no memory.
pub fn happen<K: Store, S: Script<Call, Reply>, T: Tape>(
    alloc: Global,
    script: &S,
    run: Run<Board<K>>,
    journal: &mut Journal<T>,
    event: &DayEvent<Call>,
) -> Result<Run<Board<K>>, DayFault>
    requires { IsGoing S.Script T.Tape run journal.old }
    ensures going { IfOk result (λ next. IsGoing S.Script T.Tape next journal.new) }
    ensures grows { IfOk result (λ next. Grows (run_history run) (run_history next)) }
    ensures course { IfOk result (λ next. GoesOn S.Script T.Tape event.now
        (record { deeds = run_events run; journal = journal.old })
        (record { deeds = run_events next; journal = journal.new })) }
    ensures safe { IfErr result (λ _. IsSafe S.Script T.Tape (run_history run) journal.new) }
    ensures told { IfErr result (λ _. journal.new.told.items ≡ journal.old.told.items) }
    ensures not_journaled { IfErr result (λ _. journal.new.journaled ≡ journal.old.journaled) }
    ensures journaled { journal.old.journaled ≤ journal.new.journaled }
    // A crash at any moment of it leaves a file that keeps what was journaled before.
    ensures any_moment { LeavesOnly T.Tape journal.old.tape journal.new.tape
        (Keeps S.Script (run_history run) journal.old.journaled) }
    ensures cause { IsErrOf result DayFault.NotWritten → T.has_failed journal.new.tape }
{
    match event {
        DayEvent::Do(deed) => {
            let next = run.next(alloc, deed)?;
            Ok(next)
        }
        DayEvent::Flush => {
            journal.flush(alloc, script, run.history())?;
            Ok(run)
        }
        DayEvent::Tell(position) => {
            journal.tell(*position)?;
            Ok(run)
        }
    }
}

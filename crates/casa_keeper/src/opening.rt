//! Opening the journal of an engine.

ghost use Rattle.std.specs.Prelude.{◌≡◌, ◌↔◌, ◌++◌, List, ℕ, length, true, false, IfErr, IfOk, IsErrOf};
ghost use Rattle.casa_tape.specs.Lines.{StandsAs, journal_of, whole_lines};
ghost use Rattle.casa_tape.specs.Journals.{LeavesOnly};
ghost use Rattle.casa_day.specs.Days.{IsRestored};
ghost use Rattle.casa_day.specs.Refusals.{IsOfLines, IsRefused};
ghost use Rattle.casa_day.specs.Scripts.{Say};
ghost use Rattle.casa_engine.specs.Fronts.{front_of};
ghost use Rattle.casa_day.specs.Journals.{Keeps};
ghost use Rattle.casa_day.specs.declared.event.OpenFault.TheVariants.{NotRead};
ghost use Rattle.casa_flight.specs.declared.call.Call.{Call};
ghost use Rattle.casa_flight.specs.declared.reply.Reply.{Reply};
ghost use Rattle.casa_history.specs.declared.entry.Entry.{Entry};
ghost use Rattle.casa_commit.specs.Legal.{IsLegal};
ghost use Rattle.casa_front.specs.Openings.{history_name};
ghost use Rattle.casa_keeper.specs.Openings.{IsOpenedAs};
ghost use Rattle.casa_keeper.specs.Recoveries.{IfRefused, IsBeforeCut};
ghost use Rattle.casa_keeper.specs.Torn.{HasMoreThanTorn, IfMoreThanTorn, IsTornLine};
ghost use Rattle.casa_keeper.specs.declared.recovery.RecoveryFault.TheVariants.{NotSetAside, Refused};

use crate::recovery::{RecoveryFault, replay};
use crate::shared::SharedJournal;
use crate::torn::is_torn_line;
use casa_commit::{Gate, World};
use casa_day::{Script, Told};
use casa_engine::{DeskPass, Engine, EngineName};
use casa_flight::{Call, Reply};
use casa_front::Opened;
use casa_kept::Kept;
use casa_tape::{Tape, look, mend};
use casa_view::{Board, Store};
use std::alloc::Global;
use std::sync::Wait;

/// Where what stands behind the whole lines of a journal goes before it is cut.
pub trait Aside {
    /// That it has these bytes, which stood behind so many whole lines.
    ghost has: { Self → ℕ → List ℕ → Type 0 };

    /// That it has refused to set something aside.
    ghost has_refused: { Self → Type 0 };

    /// Sets aside the bytes that stand behind so many whole lines; there may be none. False where that can't be.
    fn set_aside(&mut self, lines: usize, torn: &[u8]) -> bool
        ensures kept { result ≡ true → has self.new lines torn.now }
        ensures refused { result ≡ false → has_refused self.new };
}

/// Opens the journal of an engine that nobody has asked anything: the calls of its whole lines are answered again, by this
/// desk; what stands behind them is set aside, and then cut. How many calls they were. L names the new history that these notes
/// become: of what the file has, and when.
///
/// An error hands the file back; of the engine nobody knows then which calls were answered, so it is to be given up. `Refused`
/// as `OpenFault` says; `NotAlone` where somebody has asked the engine, or asks it meanwhile; `MoreThanTorn` where more than a
/// torn line is to be cut, and not by force; and `NotSetAside` where it can't be set aside. Nothing is cut before all of that
/// went well.
pub fn open<
    K: Store,
    L: EngineName,
    G: Gate<Board<K>>,
    S: Script<Call, Reply> + Drop,
    T: Tape + Drop,
    A: Aside,
    R: Wait,
>(
    rt: &R,
    alloc: Global,
    engine: &Engine<K, L, G>,
    desk: &mut DeskPass<K, L>,
    script: S,
    tape: T,
    aside: &mut A,
    force: bool,
    notes: Opened<Told<T>, ()>,
) -> Result<(SharedJournal<S, L, T>, usize), (RecoveryFault, T)>
    requires { history_name notes ≡ L.notes }
    // The desk has then seen just what the whole lines say.
    ensures said { IfOk result (λ opened. (xs : List ℕ) → T.holds tape xs
        → Say S.Script 1 (whole_lines xs) (front_of desk.new)) }
    ensures count { IfOk result (λ opened. opened.1 ≡ length (front_of desk.new)) }
    // What stood behind them was set aside, and without force it is a torn line at most.
    ensures set_aside { IfOk result (λ opened. (xs : List ℕ) → T.holds tape xs
        → (torn : List ℕ) × (xs ≡ journal_of (whole_lines xs) ++ torn)
        × A.has aside.new opened.1 torn × (force ≡ false → IsTornLine torn)) }
    ensures refused { IfErr result (λ e. IfRefused (λ why. IsOfLines why → (xs : List ℕ)
        → T.holds tape xs → IsRefused S.Script ⟦<Board<K> as World>⟧ (whole_lines xs) why) e.0) }
    ensures more_than_torn { IfErr result (λ e. IfMoreThanTorn (λ lines bytes. (force ≡ false)
        × ((xs : List ℕ) → T.holds tape xs → HasMoreThanTorn xs lines bytes)) e.0) }
    ensures not_set_aside { IfErr result (λ e. e.0 ≡ NotSetAside → A.has_refused aside.new) }
    // Nothing is set aside where a line is at fault, somebody has asked the engine, or more than a torn line stands there.
    ensures not_asked { IfErr result (λ e. IfRefused IsOfLines e.0 → (e.0 ≡ NotSetAside → ⊥)
        → aside.new ≡ aside.old) }
    // A fault that comes before the cut leaves the file as it was.
    ensures untouched { IfErr result (λ e. IsBeforeCut e.0 → (xs : List ℕ)
        → T.holds e.1 xs ↔ T.holds tape xs) }
    // No file that a life left is refused.
    ensures accepted { IfErr result (λ e. IfRefused (λ why. (history : List (Entry Call Reply))
        (least : ℕ) (xs : List ℕ) → IsLegal ⟦<Board<K> as World>⟧.after ⟦<Board<K> as World>⟧.reply
        ⟦<Board<K> as World>⟧.opening history → T.holds tape xs
        → Keeps S.Script history least xs → ¬ (IsOfLines why)) e.0) }
    ensures cause { IfErr result (λ e. e.0 ≡ Refused NotRead → T.has_failed e.1) }
    // A crash at any moment of an opening leaves a file that stands for the same lines: also of one that fails.
    ensures opened { IfOk result (λ opened. IsOpenedAs T.Tape tape opened.0.opening.notes opened.1) }
    ensures any_moment { IfErr result (λ e. LeavesOnly T.Tape tape e.1 (StandsAs (T.may_leave tape))) }
    // What the journal has at its opening is what the desk has seen.
    ensures opening { IfOk result (λ opened. opened.0.opening.front ≡ front_of desk.new) }
{
    let mut tape = tape;
    match restore(rt, alloc, engine, desk, &script, &mut tape, aside, force) {
        Ok(count) => {
            let kept = Kept::begin(tape, &desk.front(), count, notes);
            Ok((SharedJournal::of(alloc, script, kept), count))
        }
        Err(fault) => Err((fault, tape)),
    }
}

/// Reads a journal, answers the calls of its whole lines again, sets aside what stands behind them, and then cuts that. How
/// many calls they are. Errors as of `open`.
fn restore<
    K: Store,
    L: EngineName,
    G: Gate<Board<K>>,
    S: Script<Call, Reply>,
    T: Tape,
    A: Aside,
    R: Wait,
>(
    rt: &R,
    alloc: Global,
    engine: &Engine<K, L, G>,
    desk: &mut DeskPass<K, L>,
    script: &S,
    tape: &mut T,
    aside: &mut A,
    force: bool,
) -> Result<usize, RecoveryFault>
    ensures restored { IfOk result (λ count. IsRestored S.Script T.Tape tape.old tape.new
        (front_of desk.new) count) }
    ensures set_aside { IfOk result (λ count. (xs : List ℕ) → T.holds tape.old xs
        → (torn : List ℕ) × (xs ≡ journal_of (whole_lines xs) ++ torn)
        × A.has aside.new count torn × (force ≡ false → IsTornLine torn)) }
    ensures refused { IfErr result (IfRefused (λ why. IsOfLines why → (xs : List ℕ)
        → T.holds tape.old xs → IsRefused S.Script ⟦<Board<K> as World>⟧ (whole_lines xs) why)) }
    ensures more_than_torn { IfErr result (IfMoreThanTorn (λ lines bytes. (force ≡ false)
        × ((xs : List ℕ) → T.holds tape.old xs → HasMoreThanTorn xs lines bytes))) }
    ensures not_set_aside { IsErrOf result NotSetAside → A.has_refused aside.new }
    ensures not_asked { IfErr result (λ fault. IfRefused IsOfLines fault → (fault ≡ NotSetAside → ⊥)
        → aside.new ≡ aside.old) }
    ensures untouched { IfErr result (λ fault. IsBeforeCut fault → (xs : List ℕ)
        → T.holds tape.new xs ↔ T.holds tape.old xs) }
    ensures cause { IsErrOf result (Refused NotRead) → T.has_failed tape.new }
    ensures any_moment { LeavesOnly T.Tape tape.old tape.new (StandsAs (T.may_leave tape.old)) }
{
    let found = look(alloc, tape)?;
    let count = replay(rt, alloc, engine, desk, script, found.lines())?;
    let torn = found.torn();
    if !force && !is_torn_line(torn) {
        return Err(RecoveryFault::MoreThanTorn(count, torn.len()));
    }
    if !aside.set_aside(count, torn) {
        return Err(RecoveryFault::NotSetAside);
    }
    mend(tape, &found)?;
    Ok(count)
}

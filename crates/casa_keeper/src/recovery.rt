//! The calls of a journal, answered again.

ghost use Rattle.std.specs.Prelude.{◌≡◌, ◌+◌, ◌++◌, ◌∷◌, [], List, ℕ, length, IfErr, IfOk, IsErrOf, OnOk};
ghost use Rattle.casa_flight.specs.declared.call.Call.{Call};
ghost use Rattle.casa_flight.specs.declared.reply.Reply.{Reply};
ghost use Rattle.casa_history.specs.declared.entry.Entry.{Entry};
ghost use Rattle.casa_commit.specs.Legal.{IsLegal};
ghost use Rattle.casa_tape.specs.Lines.{AreLines, journal_of};
ghost use Rattle.casa_day.specs.Scripts.{Says, Say};
ghost use Rattle.casa_engine.specs.Fronts.{front_of};
ghost use Rattle.casa_day.specs.declared.event.OpenFault.TheVariants.{NoMemory, NotRead};
ghost use Rattle.casa_day.specs.Faults.{open_fault};
ghost use Rattle.casa_day.specs.Refusals.{IsRefused, IsRefusedAt};
ghost use Rattle.casa_keeper.specs.declared.recovery.RecoveryFault.TheVariants.{Refused};
ghost use Rattle.casa_keeper.specs.Recoveries.{IfRefused, IsOfEnd};

use casa_commit::{Gate, World};
use casa_day::{OpenFault, Script};
use casa_engine::{DeskPass, Engine, EngineName};
use casa_flight::{Call, Reply};
use casa_tape::{TapeError, first_line};
use casa_view::{Board, Store};
use std::alloc::{AllocError, Global};
use std::sync::Wait;
use thiserror::Error;

/// Why the calls of a journal could not be answered again.
#[derive(Clone, Copy, PartialEq, Eq, Debug, Error)]
pub enum RecoveryFault {
    /// The journal is refused, its file failed, or there is no memory.
    #[error("{0}")]
    Refused(OpenFault),
    /// Somebody else asks the engine, too.
    #[error("somebody else asks the engine, too")]
    NotAlone,
    /// More than a torn line stands behind the whole ones: so many bytes behind so many lines.
    #[error("more than a torn line stands behind the {0} whole lines of the journal: {1} bytes")]
    MoreThanTorn(usize, usize),
    /// What stands behind the whole lines could not be set aside.
    #[error("what stands behind the journal's whole lines could not be set aside")]
    NotSetAside,
}

impl From<TapeError> for RecoveryFault {
    ghost from_gives = { λ e fault. fault ≡ Refused (open_fault e) };

    fn from(error: TapeError) -> Self {
        RecoveryFault::Refused(OpenFault::from(error))
    }
}

impl From<AllocError> for RecoveryFault {
    ghost from_gives = { λ _ fault. fault ≡ Refused NoMemory };

    fn from(_: AllocError) -> Self {
        RecoveryFault::Refused(OpenFault::NoMemory)
    }
}

/// Answers the calls of these lines again, one after the other, by a desk of an engine that nobody has asked anything. How
/// many they are; the desk has then seen just what the lines say.
///
/// `Refused` by `BadLine` at the first line that says no call at its position, or by `ReplayDiffers` at the first whose call is
/// now answered otherwise than it vouches, whichever comes first, or by `NoMemory` where there is no memory; `NotAlone` where
/// somebody has asked the engine, or asks it meanwhile, so that a call gets another position than its line has.
pub fn replay<K: Store, L: EngineName, G: Gate<Board<K>>, S: Script<Call, Reply>, R: Wait>(
    rt: &R,
    alloc: Global,
    engine: &Engine<K, L, G>,
    desk: &mut DeskPass<K, L>,
    script: &S,
    text: &[u8],
) -> Result<usize, RecoveryFault>
    ensures said { IfOk result (λ count. (lines : List (List ℕ)) → AreLines lines
        → text.now ≡ journal_of lines → Say S.Script 1 lines (front_of desk.new)
        × (count ≡ length (front_of desk.new))) }
    ensures refused { IfErr result (IfRefused (λ why. (lines : List (List ℕ)) → AreLines lines
        → text.now ≡ journal_of lines
        → IsRefused S.Script ⟦<Board<K> as World>⟧ lines why)) }
    ensures of_lines { IfErr result (λ fault. ¬ (IsOfEnd fault)) }
    ensures nothing_read { ¬ (IsErrOf result (Refused NotRead)) }
{
    let mut front = desk.front();
    if engine.see(rt, &mut front) > 0 {
        return Err(RecoveryFault::NotAlone);
    }
    answer_all(rt, alloc, engine, desk, script, text)
}

/// The same, by a desk that has seen nothing.
fn answer_all<K: Store, L: EngineName, G: Gate<Board<K>>, S: Script<Call, Reply>, R: Wait>(
    rt: &R,
    alloc: Global,
    engine: &Engine<K, L, G>,
    desk: &mut DeskPass<K, L>,
    script: &S,
    text: &[u8],
) -> Result<usize, RecoveryFault>
    requires { front_of desk.old ≡ [] }
    ensures said { IfOk result (λ count. (lines : List (List ℕ)) → AreLines lines
        → text.now ≡ journal_of lines → Say S.Script 1 lines (front_of desk.new)
        × (count ≡ length (front_of desk.new))) }
    ensures refused { IfErr result (IfRefused (λ why. (lines : List (List ℕ)) → AreLines lines
        → text.now ≡ journal_of lines
        → IsRefused S.Script ⟦<Board<K> as World>⟧ lines why)) }
    ensures of_lines { IfErr result (λ fault. ¬ (IsOfEnd fault)) }
    ensures nothing_read { ¬ (IsErrOf result (Refused NotRead)) }
{
    let mut rest = text;
    let mut position = 0;
    while let Some((line, others)) = first_line(rest) {
        position += 1;
        answer_again(rt, alloc, engine, desk, script, position, line)?;
        rest = others;
    }
    Ok(position)
}

/// Answers the call of the line at a position again, and compares its reply with the one for which the line vouches.
fn answer_again<K: Store, L: EngineName, G: Gate<Board<K>>, S: Script<Call, Reply>, R: Wait>(
    rt: &R,
    alloc: Global,
    engine: &Engine<K, L, G>,
    desk: &mut DeskPass<K, L>,
    script: &S,
    position: usize,
    line: &[u8],
) -> Result<(), RecoveryFault>
    requires { position ≡ length (front_of desk.old) + 1 }
    ensures said { OnOk result ((e : Entry Call Reply) × Says S.Script position line.now e
        × (front_of desk.new ≡ front_of desk.old ++ e ∷ [])) }
    ensures legal { OnOk result (IsLegal ⟦<Board<K> as World>⟧.after ⟦<Board<K> as World>⟧.reply
        ⟦<Board<K> as World>⟧.opening (front_of desk.new)) }
    ensures refused { IfErr result (IfRefused (IsRefusedAt S.Script ⟦<Board<K> as World>⟧
        (front_of desk.old) position line.now)) }
    ensures of_lines { IfErr result (λ fault. ¬ (IsOfEnd fault)) }
    ensures nothing_read { ¬ (IsErrOf result (Refused NotRead)) }
{
    let Some(call) = script.read(alloc, position, line)? else {
        return Err(RecoveryFault::Refused(OpenFault::BadLine(position)));
    };
    let Ok(receipt) = engine.call(rt, desk, &call) else {
        return Err(RecoveryFault::Refused(OpenFault::NoMemory));
    };
    if receipt.position != position {
        return Err(RecoveryFault::NotAlone);
    }
    let vouches = script.vouches(alloc, position, line, &receipt.entry.reply)?;
    if !vouches {
        return Err(RecoveryFault::Refused(OpenFault::ReplayDiffers(position)));
    }
    Ok(())
}

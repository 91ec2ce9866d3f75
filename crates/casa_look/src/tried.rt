//! What lines that are tried would change.

ghost use Rattle.std.specs.Prelude.{◌≡◌, ◌++◌, OnOk};
ghost use Rattle.casa_flight.specs.declared.state.State.{State};
ghost use Rattle.casa_inquiry.specs.Shown.{AreShownOf};
ghost use Rattle.serde_json.specs.Written.{compact_text};
ghost use Rattle.casa_look.specs.TriedText.{shown_data, states_line};

use crate::state::{open_regulations, push_state};
use casa_inquiry::ShownLists;
use casa_wire::push_text;
use std::alloc::{AllocError, Global};

/// Writes the states before lines that were tried and after them, each after so many calls, behind the bytes that stand there:
/// one line.
///
/// An object with `after` and `before`, each as `state_text` writes it. `AllocError` where there is no memory for it; some of
/// it may then stand there.
pub fn push_states(
    alloc: Global,
    out: &mut Vec<u8>,
    calls_before: usize,
    before: &ShownLists<'_>,
    calls_after: usize,
    after: &ShownLists<'_>,
) -> Result<(), AllocError>
    ensures { OnOk result ((m n : State) → AreShownOf m before.now → AreShownOf n after.now →
        out.new.items ≡ out.old.items ++ states_line calls_before m calls_after n) }
{
    push_text(out, b"{\"after\":")?;
    push_shown(alloc, out, calls_after, after)?;
    push_text(out, b",\"before\":")?;
    push_shown(alloc, out, calls_before, before)?;
    push_text(out, b"}\n")?;
    Ok(())
}

/// Writes one of the two. `AllocError` where there is no memory for it; some of it may then stand there.
fn push_shown(
    alloc: Global,
    out: &mut Vec<u8>,
    calls: usize,
    shown: &ShownLists<'_>,
) -> Result<(), AllocError>
    ensures { OnOk result ((m : State) → AreShownOf m shown.now →
        out.new.items ≡ out.old.items ++ compact_text (shown_data calls m)) }
{
    let regulations = open_regulations(alloc, shown)?;
    push_state(out, calls, shown.clock, regulations.as_slice())
}

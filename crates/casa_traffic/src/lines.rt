//! The command lines of what files of traffic make.

ghost use Rattle.std.specs.Prelude.{◌≡◌, ◌++◌, IfOk, OnOk, All, flat_map};
ghost use Rattle.casa_traffic.specs.Calls.{calls_of, file_call, open_call};
ghost use Rattle.casa_traffic.specs.Lines.{IsReadAgain, line, lines};

use crate::making::Made;
use casa_filing::Plan;
use casa_flight::Call;
use casa_import::Opening;
use casa_lines::push_call;
use std::alloc::{AllocError, Global};

/// A line that opens each regulation, and then one that files each flight.
pub(crate) fn lines(alloc: Global, made: &Made) -> Result<Vec<u8>, AllocError>
    ensures written { IfOk result (λ text. text.items ≡ lines (calls_of made.now)) }
    ensures again { OnOk result (All IsReadAgain (calls_of made.now)) }
{
    let mut text = Vec::new(alloc);
    push_openings(&mut text, &made.regulations.openings)?;
    push_filings(&mut text, &made.filings.plans)?;
    Ok(text)
}

/// Writes the lines that open regulations behind the bytes that stand there.
fn push_openings(text: &mut Vec<u8>, openings: &[Opening]) -> Result<(), AllocError>
    ensures written { OnOk result (text.new.items
        ≡ text.old.items ++ flat_map (λ o. line (open_call o)) openings.now) }
    ensures again { OnOk result (All (λ o. IsReadAgain (open_call o)) openings.now) }
{
    for opening in openings {
        let profile = opening.profile.clone()?;
        push_line(text, &Call::OpenReg(opening.reg, opening.loc, profile))?;
    }
    Ok(())
}

/// Writes the lines that file flights behind the bytes that stand there.
fn push_filings(text: &mut Vec<u8>, plans: &[Plan]) -> Result<(), AllocError>
    ensures written { OnOk result (text.new.items
        ≡ text.old.items ++ flat_map (λ plan. line (file_call plan)) plans.now) }
    ensures again { OnOk result (All (λ plan. IsReadAgain (file_call plan)) plans.now) }
{
    for plan in plans {
        push_line(text, &Call::File(plan.try_clone()?))?;
    }
    Ok(())
}

/// Writes the line of a call, with its line end, behind the bytes that stand there.
#[tactic(auto, unfolding(crate::specs::Lines::line, crate::specs::Lines::IsReadAgain))]
fn push_line(text: &mut Vec<u8>, call: &Call) -> Result<(), AllocError>
    ensures written { OnOk result (text.new.items ≡ text.old.items ++ line call.now) }
    ensures again { OnOk result (IsReadAgain call.now) }
{
    push_call(text, call)?;
    text.push(b'\n')?;
    Ok(())
}

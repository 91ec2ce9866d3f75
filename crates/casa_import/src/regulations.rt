//! The regulations that rows open.

ghost use Rattle.std.specs.Prelude.{◌≡◌, ◌++◌, IfOk, OnOk, option_to_list};
ghost use Rattle.std.specs.Option.{option_copied};
ghost use Rattle.std.specs.List.{list_any};
ghost use Rattle.casa_grid.specs.ProfileFaults.{profile_fault};
ghost use Rattle.casa_filing.specs.Text.{same_text};
ghost use Rattle.casa_import.specs.Crossings.{made_of};
ghost use Rattle.casa_import.specs.Gives.{Gives};
ghost use Rattle.casa_import.specs.Regulations.{and_reg, at_its_location, first_of, is_of, is_whole, judged, judged_row, judged_rows, left_out_for, opening_of, openings, or_too_many, periods_of, periods_said, reason_of, regs_of, rows_left_out, with_profile};

use crate::columns::RegulationColumns;
use crate::periods::{RegulationPeriod, RegulationRow, said_rows};
use crate::reason::{LeftOut, Reason, RowFault};
use casa_filing::{Loc, MAX_REGULATIONS, RegId};
use casa_grid::{Period, Profile, ProfileFault};
use casa_rows::Row;
use jiff::civil::Date;
use std::alloc::{AllocError, Global};

/// A regulation to be opened.
#[derive(Debug, Drop)]
pub struct Opening {
    pub reg: RegId,
    pub loc: Loc,
    pub profile: Profile,
}

/// The regulations that rows open, in the order of their first rows, and the rows that are left out, in the order of the
/// file.
#[derive(Debug, Drop)]
pub struct Regulations {
    pub openings: Vec<Opening>,
    pub left_out: Vec<LeftOut>,
}

/// The regulations that rows open, and the rows that are left out.
///
/// A row is of the regulation whose identifier stands in its column, also where it is left out; and where a row is, none
/// of its regulation opens anything. `AllocError` where there is no memory for them.
pub fn regulations_of(
    alloc: Global,
    day: Date,
    columns: &RegulationColumns,
    rows: &[Row],
) -> Result<Regulations, AllocError>
    ensures openings { IfOk result (λ r. r.openings.items ≡ openings (judged_rows day columns.now rows.now)) }
    ensures left_out { IfOk result (λ r. let all = judged_rows day columns.now rows.now in
        r.left_out.items ≡ rows_left_out all (openings all)) }
{
    let said = said_rows(alloc, day, columns, rows)?;
    let judged = judged(alloc, &said)?;
    let periods = periods_said(alloc, &judged)?;
    let openings = openings(alloc, &judged, &periods)?;
    let left_out = rows_left_out(alloc, &judged, &periods, &openings)?;
    Ok(Regulations { openings, left_out })
}

/// The periods that rows say.
fn periods_said(alloc: Global, rows: &[RegulationRow]) -> Result<Vec<RegulationPeriod>, AllocError>
    ensures { IfOk result (λ periods. periods.items ≡ periods_said rows.now) }
{
    let mut periods = Vec::new(alloc);
    for row in rows {
        push_said(&mut periods, row.said)?;
    }
    Ok(periods)
}

fn push_said(
    periods: &mut Vec<RegulationPeriod>,
    said: Result<RegulationPeriod, Reason>,
) -> Result<(), AllocError>
    ensures { OnOk result (periods.new.items ≡ periods.old.items ++ option_to_list (made_of said)) }
{
    match said {
        Ok(period) => periods.push(period)?,
        Err(_) => {}
    }
    Ok(())
}

/// The first period of a regulation.
fn first_of(periods: &[RegulationPeriod], reg: RegId) -> Option<&RegulationPeriod>
    ensures { option_copied result ≡ first_of periods.now reg }
{
    periods.iter().find(|period| period.reg == reg)
}

/// A row, left out where it says another location than the first one of its regulation.
fn judged_row(periods: &[RegulationPeriod], row: &RegulationRow) -> RegulationRow
    ensures { result ≡ judged_row periods.now row.now }
{
    RegulationRow {
        line: row.line,
        reg: row.reg,
        said: at_its_location(periods, row.said),
    }
}

fn at_its_location(
    periods: &[RegulationPeriod],
    said: Result<RegulationPeriod, Reason>,
) -> Result<RegulationPeriod, Reason>
    ensures { result ≡ at_its_location periods.now said }
{
    let period = said?;
    match first_of(periods, period.reg) {
        Some(first) if period.loc != first.loc => Err(Reason::OtherLocation),
        _ => Ok(period),
    }
}

fn judged(alloc: Global, rows: &[RegulationRow]) -> Result<Vec<RegulationRow>, AllocError>
    ensures { IfOk result (λ all. all.items ≡ judged rows.now) }
{
    let periods = periods_said(alloc, rows)?;
    let mut all = Vec::new(alloc);
    for row in rows {
        all.push(judged_row(&periods, row))?;
    }
    Ok(all)
}

/// The identifiers of periods, in the order of their first ones.
fn regs_of(alloc: Global, periods: &[RegulationPeriod]) -> Result<Vec<RegId>, AllocError>
    ensures { IfOk result (λ regs. regs.items ≡ regs_of periods.now) }
{
    let mut regs = Vec::new(alloc);
    for period in periods {
        push_reg(&mut regs, period.reg)?;
    }
    Ok(regs)
}

/// Adds an identifier, unless it is there.
fn push_reg(regs: &mut Vec<RegId>, reg: RegId) -> Result<(), AllocError>
    ensures { OnOk result (regs.new.items ≡ and_reg regs.old.items reg) }
{
    if !has_reg(regs, reg) {
        regs.push(reg)?;
    }
    Ok(())
}

fn has_reg(regs: &[RegId], wanted: RegId) -> bool
    ensures { result ≡ list_any (λ reg. same_text reg wanted) regs.now }
{
    regs.iter().any(|reg| *reg == wanted)
}

/// Whether a row is of a regulation.
fn is_of(reg: RegId, row: &RegulationRow) -> bool
    ensures { result ≡ is_of reg row.now }
{
    match row.reg {
        Ok(named) => named == reg,
        Err(_) => false,
    }
}

/// Whether no row of a regulation is left out.
fn is_whole(rows: &[RegulationRow], reg: RegId) -> bool
    ensures { result ≡ is_whole rows.now reg }
{
    rows.iter().all(|row| !is_of(reg, row) || row.said.is_ok())
}

/// The periods of a regulation.
fn periods_of(
    alloc: Global,
    periods: &[RegulationPeriod],
    reg: RegId,
) -> Result<Vec<Period>, AllocError>
    ensures { IfOk result (λ own. own.items ≡ periods_of periods.now reg) }
{
    periods
        .iter()
        .filter(|period| period.reg == reg)
        .map(|period| period.period)
        .collect(alloc)
}

/// What a regulation opens with these periods.
fn with_profile(
    alloc: Global,
    reg: RegId,
    loc: Loc,
    periods: &[Period],
) -> Result<Opening, RowFault>
    ensures { Gives result (with_profile reg loc periods.now (profile_fault periods.now)) }
{
    match Profile::new(alloc, periods) {
        Ok(profile) => Ok(Opening { reg, loc, profile }),
        Err(ProfileFault::NoMemory) => Err(RowFault::NoMemory),
        Err(fault) => Err(RowFault::LeftOut(Reason::Profile(fault))),
    }
}

/// What the rows of a regulation open. The periods are those that the rows say.
fn opening_of(
    alloc: Global,
    rows: &[RegulationRow],
    periods: &[RegulationPeriod],
    reg: RegId,
) -> Result<Opening, RowFault>
    requires { periods.now ≡ periods_said rows.now }
    ensures { Gives result (opening_of rows.now reg) }
{
    if !is_whole(rows, reg) {
        return Err(RowFault::LeftOut(Reason::NotWhole));
    }
    let own = periods_of(alloc, periods, reg)?;
    match first_of(periods, reg) {
        Some(first) => with_profile(alloc, reg, first.loc, &own),
        None => Err(RowFault::LeftOut(Reason::Profile(ProfileFault::NoPeriods))),
    }
}

/// Adds what the rows of a regulation open, if they open anything.
fn push_opening(
    alloc: Global,
    openings: &mut Vec<Opening>,
    rows: &[RegulationRow],
    periods: &[RegulationPeriod],
    reg: RegId,
) -> Result<(), AllocError>
    requires { periods.now ≡ periods_said rows.now }
    ensures { OnOk result (openings.new.items
        ≡ openings.old.items ++ option_to_list (made_of (opening_of rows.now reg))) }
{
    match opening_of(alloc, rows, periods, reg) {
        Ok(opening) => openings.push(opening)?,
        Err(RowFault::LeftOut(_)) => {}
        Err(RowFault::NoMemory) => return Err(AllocError),
    }
    Ok(())
}

/// The first regulations that can be opened, as many as may be open. The periods are those that the rows say.
fn openings(
    alloc: Global,
    rows: &[RegulationRow],
    periods: &[RegulationPeriod],
) -> Result<Vec<Opening>, AllocError>
    requires { periods.now ≡ periods_said rows.now }
    ensures { IfOk result (λ all. all.items ≡ openings rows.now) }
{
    let regs = regs_of(alloc, periods)?;
    let mut openings = Vec::new(alloc);
    for reg in &regs {
        push_opening(alloc, &mut openings, rows, periods, *reg)?;
    }
    openings.truncate(MAX_REGULATIONS);
    Ok(openings)
}

fn is_opened(openings: &[Opening], reg: RegId) -> bool
    ensures { result ≡ list_any (λ o. same_text o.reg reg) openings.now }
{
    openings.iter().any(|opening| opening.reg == reg)
}

/// Why a row of a regulation that is not opened is left out. The periods are those that the rows say.
fn not_opened(
    alloc: Global,
    rows: &[RegulationRow],
    periods: &[RegulationPeriod],
    reg: RegId,
) -> Result<Reason, AllocError>
    requires { periods.now ≡ periods_said rows.now }
    ensures { IfOk result (λ reason. reason ≡ or_too_many (opening_of rows.now reg)) }
{
    match opening_of(alloc, rows, periods, reg) {
        Ok(_) => Ok(Reason::TooManyRegulations),
        Err(RowFault::LeftOut(reason)) => Ok(reason),
        Err(RowFault::NoMemory) => Err(AllocError),
    }
}

/// Why a row is left out, if it is. The periods are those that the rows say.
fn reason_of(
    alloc: Global,
    rows: &[RegulationRow],
    periods: &[RegulationPeriod],
    openings: &[Opening],
    said: Result<RegulationPeriod, Reason>,
) -> Result<Option<Reason>, AllocError>
    requires { periods.now ≡ periods_said rows.now }
    ensures { IfOk result (λ reason. reason ≡ reason_of rows.now openings.now said) }
{
    match said {
        Err(reason) => Ok(Some(reason)),
        Ok(period) => {
            if is_opened(openings, period.reg) {
                Ok(None)
            } else {
                Ok(Some(not_opened(alloc, rows, periods, period.reg)?))
            }
        }
    }
}

/// The rows that are left out. The periods are those that the rows say.
fn rows_left_out(
    alloc: Global,
    rows: &[RegulationRow],
    periods: &[RegulationPeriod],
    openings: &[Opening],
) -> Result<Vec<LeftOut>, AllocError>
    requires { periods.now ≡ periods_said rows.now }
    ensures { IfOk result (λ all. all.items ≡ rows_left_out rows.now openings.now) }
{
    let mut all = Vec::new(alloc);
    for row in rows {
        let reason = reason_of(alloc, rows, periods, openings, row.said)?;
        push_left_out(&mut all, row.line, reason)?;
    }
    Ok(all)
}

/// Adds a row that is left out, if it is for some reason.
fn push_left_out(
    all: &mut Vec<LeftOut>,
    line: u64,
    reason: Option<Reason>,
) -> Result<(), AllocError>
    ensures { OnOk result (all.new.items ≡ all.old.items ++ option_to_list (left_out_for line reason)) }
{
    match reason {
        Some(reason) => all.push(LeftOut { line, reason })?,
        None => {}
    }
    Ok(())
}

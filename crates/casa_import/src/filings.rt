//! The filings that rows of flights make.

ghost use Rattle.std.specs.Prelude.{◌≡◌, IfOk, OnOk};
ghost use Rattle.casa_import.specs.Filings.{outcome, outcome_of};
ghost use Rattle.casa_import.specs.Keyed.{flown};
ghost use Rattle.casa_import.specs.Taking.{IsKeyed, TakesFiling};

use crate::columns::{FlightColumns, ImportOptions};
use crate::crossings::{Crossings, Keys};
use crate::filing::filing_of;
use crate::reason::{LeftOut, Reason, RowFault};
use casa_filing::Plan;
use casa_rows::Row;
use std::alloc::{AllocError, Global};

/// The filings that rows make, and the rows that are left out, each in the order of the file.
#[derive(Drop)]
pub struct Filings {
    pub plans: Vec<Plan>,
    pub left_out: Vec<LeftOut>,
}

/// The filings that rows of flights make, with the crossings of their keys, and the rows that are left out.
pub fn filings_of(
    alloc: Global,
    options: &ImportOptions,
    columns: &FlightColumns,
    crossings: &Crossings,
    rows: &[Row],
) -> Result<Filings, AllocError>
    ensures { IfOk result (λ filings. outcome_of filings ≡ outcome options.now columns.now (flown crossings.now) rows.now) }
{
    let mut keys = Keys::new(alloc);
    let mut filings = Filings {
        plans: Vec::new(alloc),
        left_out: Vec::new(alloc),
    };
    for row in rows {
        let filing = filing_of(alloc, options, columns, crossings, row);
        take(&mut filings, &mut keys, row.line, filing)?;
    }
    Ok(filings)
}

/// Takes in what a row makes. The keys are those of the filings.
fn take(
    filings: &mut Filings,
    keys: &mut Keys,
    line: u64,
    filing: Result<Plan, RowFault>,
) -> Result<(), AllocError>
    requires { IsKeyed filings.old keys.old }
    ensures outcome { OnOk result (TakesFiling line filing filings.old filings.new) }
    ensures keys { OnOk result (IsKeyed filings.new keys.new) }
{
    let reason = match filing {
        Ok(plan) => {
            if !keys.contains(&plan.key()) {
                keys.insert(plan.key())?;
                filings.plans.push(plan)?;
                return Ok(());
            }
            Reason::Duplicate
        }
        Err(RowFault::LeftOut(reason)) => reason,
        Err(RowFault::NoMemory) => return Err(AllocError),
    };
    filings.left_out.push(LeftOut { line, reason })?;
    Ok(())
}

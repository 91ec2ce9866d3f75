//! What the rows of files of traffic make.

ghost use Rattle.std.specs.Prelude.{◌≡◌, IfOk, OnErr, OnOk};
ghost use Rattle.std.specs.List.{list_any};
ghost use Rattle.casa_filing.specs.Text.{Text, same_text};
ghost use Rattle.casa_import.specs.Filings.{IsByOffBlockTime, outcome_of};
ghost use Rattle.casa_import.specs.Keyed.{flown, has_key};
ghost use Rattle.casa_traffic.specs.Making.{AreOptions, AreRead, IsInOrder, IsMade, and_location, and_new, filed, location_of, names, not_opened, opened, staying, with_rows};

use crate::sheets::{Columns, Sheet, Sheets};
use casa_filing::{Loc, Plan};
use casa_import::{
    CrossingColumns, Crossings, CrossingsRead, Filings, FlightColumns, ImportOptions, Keys,
    RegulationColumns, Regulations, filings_of, named, read_crossings, regulations_of,
};
use casa_rows::Row;
use jiff::civil::Date;
use std::alloc::{AllocError, Global};

/// The order of filings.
#[derive(Clone, Copy, PartialEq, Eq, Debug)]
pub enum Order {
    /// As the rows of the file stand.
    File,
    /// By the off-block time; those of one time stay in the order of the file.
    Eobt,
}

/// How files of traffic are read, and what they make.
#[derive(Clone, Copy)]
pub struct Asked<'a> {
    /// The day from whose midnight UTC all seconds count.
    pub day: Date,
    /// The taxi time in seconds for flights whose row gives none.
    pub taxi: u32,
    /// The locations that stay in a flight with more than 32, besides those of regulations. With none of either all stay,
    /// and so the row is left out.
    pub locations: &'a [Loc],
    pub order: Order,
}

/// What files of traffic make.
#[derive(Drop)]
pub(crate) struct Made {
    /// What their rows are read by.
    pub(crate) options: ImportOptions,
    pub(crate) regulations: Regulations,
    pub(crate) crossings: CrossingsRead,
    pub(crate) filings: Filings,
}

/// What these tables make.
pub(crate) fn make(
    alloc: Global,
    asked: &Asked<'_>,
    sheets: &Sheets<'_>,
    columns: &Columns,
) -> Result<Made, AllocError>
    ensures { IfOk result (IsMade asked.now sheets.now columns.now) }
{
    let options = options(alloc, asked, sheets, columns)?;
    let regulations = regulations(alloc, asked.day, &sheets.regs, &columns.regs)?;
    let keys = keys(alloc, &sheets.flights, &columns.flights)?;
    let crossings = crossings(
        alloc,
        asked.day,
        &keys,
        &sheets.crossings,
        &columns.crossings,
    )?;
    let mut filings = filings(
        alloc,
        &options,
        &crossings.crossings,
        &sheets.flights,
        &columns.flights,
    )?;
    put_in_order(asked.order, &mut filings.plans)?;
    Ok(Made {
        options,
        regulations,
        crossings,
        filings,
    })
}

/// What rows are read by.
fn options(
    alloc: Global,
    asked: &Asked<'_>,
    sheets: &Sheets<'_>,
    columns: &Columns,
) -> Result<ImportOptions, AllocError>
    ensures { IfOk result (AreOptions asked.now sheets.now columns.now) }
{
    let locations = Vec::from_slice(alloc, asked.locations)?;
    let locations = with_staying(locations, &sheets.regs, &columns.regs)?;
    Ok(ImportOptions {
        day: asked.day,
        taxi: asked.taxi,
        locations,
    })
}

/// These locations, and those of rows of regulations.
fn with_staying(
    locations: Vec<Loc>,
    sheet: &Option<Sheet<'_>>,
    columns: &Option<RegulationColumns>,
) -> Result<Vec<Loc>, AllocError>
    ensures { IfOk result (λ all. all.items
        ≡ with_rows locations.items (staying locations.items) sheet.now columns.now) }
{
    let mut locations = locations;
    if let (Some(sheet), Some(columns)) = (sheet, columns) {
        push_staying(&mut locations, columns, &sheet.table.rows)?;
    }
    Ok(locations)
}

/// Adds the locations of rows of regulations, each once.
fn push_staying(
    locations: &mut Vec<Loc>,
    columns: &RegulationColumns,
    rows: &[Row],
) -> Result<(), AllocError>
    ensures { OnOk result (locations.new.items ≡ staying locations.old.items columns.now rows.now) }
{
    for row in rows {
        push_location(locations, location_of(columns, row))?;
    }
    Ok(())
}

/// Adds a location, if there is one.
fn push_location(locations: &mut Vec<Loc>, loc: Option<Loc>) -> Result<(), AllocError>
    ensures { OnOk result (locations.new.items ≡ and_location locations.old.items loc) }
{
    match loc {
        Some(loc) => push_new(locations, loc),
        None => Ok(()),
    }
}

/// Adds a location, unless it is there.
fn push_new(locations: &mut Vec<Loc>, loc: Loc) -> Result<(), AllocError>
    ensures { OnOk result (locations.new.items ≡ and_new locations.old.items loc) }
{
    if !is_there(locations, loc) {
        locations.push(loc)?;
    }
    Ok(())
}

fn is_there(locations: &[Loc], loc: Loc) -> bool
    ensures { result ≡ list_any (λ known. same_text known loc) locations.now }
{
    locations.iter().any(|known| *known == loc)
}

/// The location that stands in a row of regulations with all its fields.
fn location_of(columns: &RegulationColumns, row: &Row) -> Option<Loc>
    ensures { result ≡ location_of columns.now row.now }
{
    if row.fields.len() != columns.width {
        return None;
    }
    Loc::new(row.text(columns.loc))
}

/// The regulations that rows open, and the rows that are left out.
fn regulations(
    alloc: Global,
    day: Date,
    sheet: &Option<Sheet<'_>>,
    columns: &Option<RegulationColumns>,
) -> Result<Regulations, AllocError>
    ensures openings { IfOk result (λ r. r.openings.items ≡ opened day sheet.now columns.now) }
    ensures left_out { IfOk result (λ r. r.left_out.items ≡ not_opened day sheet.now columns.now) }
{
    match (sheet, columns) {
        (Some(sheet), Some(columns)) => regulations_of(alloc, day, columns, &sheet.table.rows),
        _ => Ok(Regulations {
            openings: Vec::new(alloc),
            left_out: Vec::new(alloc),
        }),
    }
}

/// The keys that rows of flights name.
fn keys(
    alloc: Global,
    sheet: &Option<Sheet<'_>>,
    columns: &Option<FlightColumns>,
) -> Result<Keys, AllocError>
    ensures { IfOk result (λ keys. (key : Text) → has_key keys key ≡ names sheet.now columns.now key) }
{
    match (sheet, columns) {
        (Some(sheet), Some(columns)) => named(alloc, columns, &sheet.table.rows),
        _ => Ok(Keys::new(alloc)),
    }
}

/// The crossings of the flights with these keys, and the rows that are left out.
fn crossings(
    alloc: Global,
    day: Date,
    keys: &Keys,
    sheet: &Option<Sheet<'_>>,
    columns: &Option<CrossingColumns>,
) -> Result<CrossingsRead, AllocError>
    ensures { IfOk result (AreRead day (has_key keys.now) sheet.now columns.now) }
{
    match (sheet, columns) {
        (Some(sheet), Some(columns)) => {
            read_crossings(alloc, day, columns, keys, &sheet.table.rows)
        }
        _ => Ok(CrossingsRead {
            crossings: Crossings::new(alloc),
            left_out: Vec::new(alloc),
            of_no_flight: 0,
            entered_again: 0,
        }),
    }
}

/// The filings that rows of flights make with these crossings, and the rows that are left out.
fn filings(
    alloc: Global,
    options: &ImportOptions,
    crossings: &Crossings,
    sheet: &Option<Sheet<'_>>,
    columns: &Option<FlightColumns>,
) -> Result<Filings, AllocError>
    ensures { IfOk result (λ filings. outcome_of filings
        ≡ filed options.now (flown crossings.now) sheet.now columns.now) }
{
    match (sheet, columns) {
        (Some(sheet), Some(columns)) => {
            filings_of(alloc, options, columns, crossings, &sheet.table.rows)
        }
        _ => Ok(Filings {
            plans: Vec::new(alloc),
            left_out: Vec::new(alloc),
        }),
    }
}

/// Puts filings into this order.
fn put_in_order(order: Order, plans: &mut Vec<Plan>) -> Result<(), AllocError>
    ensures { OnOk result (IsInOrder order plans.old.items plans.new.items) }
{
    match order {
        Order::File => Ok(()),
        Order::Eobt => order_by_eobt(plans),
    }
}

/// Sorts filings by their off-block times; those of one time stay in their order. `AllocError` where there is no memory for
/// that; the filings are then as they were.
fn order_by_eobt(plans: &mut Vec<Plan>) -> Result<(), AllocError>
    ensures sorted { OnOk result (IsByOffBlockTime plans.old.items plans.new.items) }
    ensures unchanged { OnErr result (plans.new.items ≡ plans.old.items) }
{
    plans.sort_by_key(|plan| plan.eobt().secs())?;
    Ok(())
}

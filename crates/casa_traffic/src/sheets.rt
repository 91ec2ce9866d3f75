//! The tables of files of traffic, and their columns.

ghost use Rattle.std.specs.Prelude.{◌≡◌, IfOk};
ghost use Rattle.std.specs.Option.{option_map};
ghost use Rattle.casa_traffic.specs.Bind.{BothOrNeither};
ghost use Rattle.casa_traffic.specs.Sheets.{AreSheets, ColumnsAs, IsSheet, all_places, columns_in, columns_of};
ghost use Rattle.casa_traffic.specs.Titles.{crossing_columns, flight_columns, places_of, regulation_columns};
ghost use Rattle.casa_traffic.specs.declared.sheets.Kind.TheVariants.{Regs, Crossings, Flights};

use crate::titles::{
    ColumnsFault, TitleFault, crossing_columns, flight_columns, regulation_columns,
};
use casa_import::{CrossingColumns, FlightColumns, RegulationColumns};
use casa_rows::{Table, read_table};
use std::alloc::{AllocError, Global};

/// A file of traffic: its name, as it was given, and its text.
#[derive(Clone, Copy)]
pub struct Source<'a> {
    pub name: &'a str,
    pub text: &'a [u8],
}

/// The files of traffic.
#[derive(Clone, Copy)]
pub struct Sources<'a> {
    pub regs: Option<Source<'a>>,
    pub crossings: Option<Source<'a>>,
    pub flights: Option<Source<'a>>,
}

/// One of the files of traffic.
#[derive(Clone, Copy, PartialEq, Eq, Debug)]
pub enum Kind {
    Regs,
    Crossings,
    Flights,
}

/// Why nothing comes of files of traffic.
#[derive(Clone, Copy, PartialEq, Eq, Debug)]
pub enum ImportFault {
    /// This file lacks a column that is needed.
    Column(Kind, TitleFault),
    NoMemory,
}

impl From<AllocError> for ImportFault {
    ghost use Rattle.casa_traffic.specs.declared.sheets.ImportFault.TheVariants.{NoMemory};

    ghost from_gives = { λ _ fault. fault ≡ NoMemory };

    fn from(_refused: AllocError) -> ImportFault {
        ImportFault::NoMemory
    }
}

/// A table, under the name of its file.
#[derive(Drop)]
pub(crate) struct Sheet<'a> {
    pub(crate) name: &'a str,
    pub(crate) table: Table,
}

/// The tables of the files of traffic.
#[derive(Drop)]
pub(crate) struct Sheets<'a> {
    pub(crate) regs: Option<Sheet<'a>>,
    pub(crate) crossings: Option<Sheet<'a>>,
    pub(crate) flights: Option<Sheet<'a>>,
}

/// The columns of their tables.
#[derive(Drop)]
pub(crate) struct Columns {
    pub(crate) regs: Option<RegulationColumns>,
    pub(crate) crossings: Option<CrossingColumns>,
    pub(crate) flights: Option<FlightColumns>,
}

impl<'a> Sheets<'a> {
    /// The tables of these files.
    pub(crate) fn read(alloc: Global, sources: &Sources<'a>) -> Result<Sheets<'a>, AllocError>
        ensures { IfOk result (λ sheets. AreSheets sources.now sheets) }
    {
        let regs = read_sheet(alloc, &sources.regs)?;
        let crossings = read_sheet(alloc, &sources.crossings)?;
        let flights = read_sheet(alloc, &sources.flights)?;
        Ok(Sheets {
            regs,
            crossings,
            flights,
        })
    }

    /// Their columns. A fault is the first in the order regulations, crossings, flights.
    pub(crate) fn columns(&self, alloc: Global) -> Result<Columns, ImportFault>
        ensures { ColumnsAs all_places result (columns_of self.now) }
    {
        let regs = regulations(&self.regs)?;
        let crossings = crossings(&self.crossings)?;
        let flights = flights(alloc, &self.flights)?;
        Ok(Columns {
            regs,
            crossings,
            flights,
        })
    }
}

/// The table of a file, if it is given.
fn read_sheet<'a>(
    alloc: Global,
    source: &Option<Source<'a>>,
) -> Result<Option<Sheet<'a>>, AllocError>
    ensures { IfOk result (λ sheet. BothOrNeither IsSheet source.now sheet) }
{
    let Some(source) = source else {
        return Ok(None);
    };
    let table = read_table(alloc, source.text)?;
    Ok(Some(Sheet {
        name: source.name,
        table,
    }))
}

/// The columns of the file of regulations.
fn regulations(sheet: &Option<Sheet<'_>>) -> Result<Option<RegulationColumns>, ImportFault>
    ensures { result ≡ columns_in Regs regulation_columns sheet.now }
{
    let Some(sheet) = sheet else {
        return Ok(None);
    };
    match regulation_columns(&sheet.table.header) {
        Ok(columns) => Ok(Some(columns)),
        Err(fault) => Err(ImportFault::Column(Kind::Regs, fault)),
    }
}

/// The columns of the file of crossings.
fn crossings(sheet: &Option<Sheet<'_>>) -> Result<Option<CrossingColumns>, ImportFault>
    ensures { result ≡ columns_in Crossings crossing_columns sheet.now }
{
    let Some(sheet) = sheet else {
        return Ok(None);
    };
    match crossing_columns(&sheet.table.header) {
        Ok(columns) => Ok(Some(columns)),
        Err(fault) => Err(ImportFault::Column(Kind::Crossings, fault)),
    }
}

/// The columns of the file of flights.
fn flights(alloc: Global, sheet: &Option<Sheet<'_>>) -> Result<Option<FlightColumns>, ImportFault>
    ensures { ColumnsAs (option_map places_of) result (columns_in Flights flight_columns sheet.now) }
{
    let Some(sheet) = sheet else {
        return Ok(None);
    };
    match flight_columns(alloc, &sheet.table.header) {
        Ok(columns) => Ok(Some(columns)),
        Err(ColumnsFault::Title(fault)) => Err(ImportFault::Column(Kind::Flights, fault)),
        Err(ColumnsFault::NoMemory) => Err(ImportFault::NoMemory),
    }
}

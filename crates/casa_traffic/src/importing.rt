//! Files of traffic, from their bytes to the lines and to what is told.

ghost use Rattle.casa_traffic.specs.Imports.{Imports};

use crate::lines::lines;
use crate::making::{Asked, make};
use crate::sheets::{ImportFault, Sheets, Sources};
use crate::telling::{is_whole, told};
use std::alloc::Global;

/// What comes of files of traffic.
#[derive(Drop)]
pub struct Imported {
    /// A command line that opens each regulation, and then one that files each flight.
    pub lines: Vec<u8>,
    /// A line for each row that is left out, and then the figures of each file.
    pub told: Vec<u8>,
    /// Whether no row is left out.
    pub is_whole: bool,
}

/// What comes of files of traffic.
///
/// `Column` where a column that is needed is not among the titles of a file, or there twice: the first such fault, of the
/// files in the order regulations, crossings, flights. `NoMemory` where there is none.
pub fn import(
    alloc: Global,
    asked: &Asked<'_>,
    sources: &Sources<'_>,
) -> Result<Imported, ImportFault>
    ensures { Imports asked.now sources.now result }
{
    let sheets = Sheets::read(alloc, sources)?;
    let columns = match sheets.columns(alloc) {
        Ok(columns) => columns,
        Err(fault) => return Err(fault),
    };
    let made = make(alloc, asked, &sheets, &columns)?;
    Ok(Imported {
        lines: lines(alloc, &made)?,
        told: told(alloc, &sheets, &made)?,
        is_whole: is_whole(&made),
    })
}

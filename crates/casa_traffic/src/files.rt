//! The files themselves: they are read, and what comes of them is told and written.

use crate::fault::{ColumnFault, ReadFault, TrafficFault};
use crate::importing::import;
use crate::making::Asked;
use crate::sheets::{ImportFault, Kind, Source, Sources};
use crate::titles::TitleFault;
use std::alloc::Global;
use std::fs::{File, Files};
use std::io;
use std::io::{Read, Write};

/// The names of the files of traffic.
#[derive(Clone, Copy)]
pub struct Names<'a> {
    pub regs: Option<&'a str>,
    pub crossings: Option<&'a str>,
    pub flights: Option<&'a str>,
}

/// Reads the files, tells to `errors` which rows are left out and the figures of each file, and then writes the command
/// lines. With `strict` none is written where a row is left out.
///
/// `ReadFailed` where a file can't be read, the first in the order regulations, crossings, flights. `Column` where one lacks
/// a column. `RowsLeftOut` where a row is left out that is not to be. `WriteFailed` where `errors` or the writer fails.
/// `NoMemory` where there is none, before anything is told or written.
pub fn import_files<R: Files<File = File>, O: Write, E: Write>(
    rt: &R,
    alloc: Global,
    names: &Names<'_>,
    asked: &Asked<'_>,
    strict: bool,
    writer: &mut O,
    errors: &mut E,
) -> Result<(), TrafficFault> {
    let regs = text(rt, alloc, names.regs)?;
    let crossings = text(rt, alloc, names.crossings)?;
    let flights = text(rt, alloc, names.flights)?;
    let sources = Sources {
        regs: source(names.regs, &regs),
        crossings: source(names.crossings, &crossings),
        flights: source(names.flights, &flights),
    };
    let imported = match import(alloc, asked, &sources) {
        Ok(imported) => imported,
        Err(ImportFault::Column(kind, fault)) => return Err(of_column(alloc, names, kind, fault)),
        Err(ImportFault::NoMemory) => return Err(TrafficFault::NoMemory),
    };
    write(errors, &imported.told)?;
    if strict && !imported.is_whole {
        return Err(TrafficFault::RowsLeftOut);
    }
    write(writer, &imported.lines)
}

/// The text of a file, if it is given.
fn text<R: Files<File = File>>(
    rt: &R,
    alloc: Global,
    name: Option<&str>,
) -> Result<Option<Vec<u8>>, TrafficFault> {
    let Some(name) = name else {
        return Ok(None);
    };
    match read(rt, alloc, name) {
        Ok(text) => Ok(Some(text)),
        Err(error) => Err(of_reading(alloc, name, error)),
    }
}

/// All bytes of a file.
fn read<R: Files<File = File>>(rt: &R, alloc: Global, name: &str) -> io::Result<Vec<u8>> {
    let mut file = File::open(rt, name)?;
    let mut bytes = Vec::new(alloc);
    file.read_to_end(&mut bytes)?;
    Ok(bytes)
}

/// Why this file could not be read.
fn of_reading(alloc: Global, name: &str, error: io::Error) -> TrafficFault {
    if error.kind() == io::ErrorKind::OutOfMemory {
        return TrafficFault::NoMemory;
    }
    match format!(in alloc; "{name}") {
        Ok(file) => TrafficFault::ReadFailed(ReadFault { file, error }),
        Err(_) => TrafficFault::NoMemory,
    }
}

/// A file under its name, if it is given.
fn source<'a>(name: Option<&'a str>, text: &'a Option<Vec<u8>>) -> Option<Source<'a>> {
    match (name, text) {
        (Some(name), Some(text)) => Some(Source { name, text }),
        _ => None,
    }
}

/// The fault of the columns of this file.
fn of_column(alloc: Global, names: &Names<'_>, kind: Kind, fault: TitleFault) -> TrafficFault {
    let name = match kind {
        Kind::Regs => names.regs,
        Kind::Crossings => names.crossings,
        Kind::Flights => names.flights,
    };
    match format!(in alloc; "{}", name.unwrap_or("")) {
        Ok(file) => TrafficFault::Column(ColumnFault { file, fault }),
        Err(_) => TrafficFault::NoMemory,
    }
}

/// Writes all these bytes.
fn write<W: Write>(writer: &mut W, bytes: &[u8]) -> Result<(), TrafficFault> {
    match writer.write_all(bytes) {
        Ok(()) => {}
        Err(_) => return Err(TrafficFault::WriteFailed),
    }
    match writer.flush() {
        Ok(()) => Ok(()),
        Err(_) => Err(TrafficFault::WriteFailed),
    }
}

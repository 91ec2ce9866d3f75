//! What ends `casa import` before its end.

ghost use Rattle.std.specs.Prelude.{◌≡◌};
ghost use Rattle.casa_traffic.specs.Faults.{traffic_fault_name, traffic_status};

use crate::titles::TitleFault;
use std::alloc::AllocError;
use std::fmt::{Display, Formatter};
use std::{fmt, io};
use thiserror::Error;

/// Why not all is written that files of traffic make.
#[derive(Debug, Drop, Error)]
pub enum TrafficFault {
    /// A file, by its name as it was given, lacks a column that is needed. Nothing was written, and nothing else told.
    #[error("{0}")]
    Column(ColumnFault),
    /// A file could not be read. Nothing was written, and nothing told.
    #[error("{0}")]
    ReadFailed(ReadFault),
    /// A row is left out, which is not to be. Nothing was written, and all is told.
    #[error("a row is left out")]
    RowsLeftOut,
    /// The output could not be written, or what is told could not be.
    #[error("the lines could not be written")]
    WriteFailed,
    /// There is no memory. Nothing was written.
    #[error("there is no memory")]
    NoMemory,
}

/// The file that lacks a column, and which.
#[derive(Debug, Drop)]
pub struct ColumnFault {
    /// The name of the file, as it was given.
    pub file: String,
    pub fault: TitleFault,
}

/// The file that could not be read, and why.
#[derive(Debug, Drop)]
pub struct ReadFault {
    /// The name of the file, as it was given.
    pub file: String,
    pub error: io::Error,
}

/// The file and the column, as in `F.csv: NoColumn eobt`.
impl Display for ColumnFault {
    fn fmt<W: fmt::Write>(&self, f: &mut Formatter<W>) -> fmt::Result {
        write!(f, "{}: {}", self.file, self.fault)
    }
}

/// The file and the reason, as in `F.csv: No such file or directory (os error 2)`.
impl Display for ReadFault {
    fn fmt<W: fmt::Write>(&self, f: &mut Formatter<W>) -> fmt::Result {
        write!(f, "{}: {}", self.file, self.error)
    }
}

/// The exit status where something went wrong.
const FAILED: u8 = 1;

/// The exit status where what was given can't be meant.
const BAD_WORDS: u8 = 2;

impl TrafficFault {
    /// The name of the fault, as in `"ReadFailed"`.
    pub fn name(&self) -> &'static str
        ensures { result.now ≡ traffic_fault_name self.now }
    {
        match self {
            TrafficFault::Column(fault) => fault.fault.name(),
            TrafficFault::ReadFailed(_) => "ReadFailed",
            TrafficFault::RowsLeftOut => "RowsLeftOut",
            TrafficFault::WriteFailed => "WriteFailed",
            TrafficFault::NoMemory => "NoMemory",
        }
    }

    /// The exit status: 2 where a column is missing or there twice, else 1.
    pub fn status(&self) -> u8
        ensures { result ≡ traffic_status self.now }
    {
        match self {
            TrafficFault::Column(_) => BAD_WORDS,
            TrafficFault::ReadFailed(_)
            | TrafficFault::RowsLeftOut
            | TrafficFault::WriteFailed
            | TrafficFault::NoMemory => FAILED,
        }
    }
}

impl From<AllocError> for TrafficFault {
    ghost use Rattle.casa_traffic.specs.declared.fault.TrafficFault.TheVariants.{NoMemory};

    ghost from_gives = { λ _ fault. fault ≡ NoMemory };

    fn from(_refused: AllocError) -> TrafficFault {
        TrafficFault::NoMemory
    }
}

ghost use Rattle.std.specs.Prelude.{◌≡◌};
ghost use Rattle.casa_app.specs.Faults.{print_fault_name};

use casa_session::SessionFault;
use std::alloc::AllocError;
use thiserror::Error;

/// Why what was asked for was not printed, or not to its end.
#[derive(Debug, Drop, Error)]
pub enum PrintFault {
    /// The session ended before its input did.
    #[error("{0}")]
    Session(SessionFault),
    /// The writer failed or took no more bytes.
    #[error("the text could not be written")]
    WriteFailed,
    /// The regulation is not open.
    #[error("the regulation is not open")]
    NoRegulation,
    /// There is no such flight.
    #[error("there is no such flight")]
    NoFlight,
    /// A line has a fault or was refused, which is not to be.
    #[error("a line has a fault or was refused")]
    FaultyLines,
    /// There is no memory.
    #[error("there is no memory")]
    NoMemory,
}

impl PrintFault {
    /// The fault's name, as in `"NoRegulation"`; of a session's fault its name.
    pub fn name(&self) -> &'static str
        ensures { result.now ≡ print_fault_name self.now }
    {
        match self {
            PrintFault::Session(fault) => fault.name(),
            PrintFault::WriteFailed => "WriteFailed",
            PrintFault::NoRegulation => "NoRegulation",
            PrintFault::NoFlight => "NoFlight",
            PrintFault::FaultyLines => "FaultyLines",
            PrintFault::NoMemory => "NoMemory",
        }
    }
}

impl From<AllocError> for PrintFault {
    ghost use Rattle.casa_app.specs.declared.fault.PrintFault.TheVariants.{NoMemory};

    ghost from_gives = { λ _ fault. fault ≡ NoMemory };

    fn from(_refused: AllocError) -> PrintFault {
        PrintFault::NoMemory
    }
}

impl From<SessionFault> for PrintFault {
    ghost use Rattle.casa_app.specs.declared.fault.PrintFault.TheVariants.{Session};

    ghost from_gives = { λ cause fault. fault ≡ Session cause };

    fn from(cause: SessionFault) -> PrintFault {
        PrintFault::Session(cause)
    }
}

ghost use Rattle.std.specs.Prelude.{◌≡◌};
ghost use Rattle.casa_outcome.specs.Outcomes.{outcome_of, words_status};

use casa_app::PrintFault;
use casa_cli::TaskFault;
use casa_service::ServiceFault;
use casa_session::SessionFault;
use casa_traffic::{ReadFault, TrafficFault};
use clap::error::ErrorKind;
use std::alloc::AllocError;
use thiserror::Error;

/// The exit status where something went wrong.
const FAILED: u8 = 1;

/// The exit status where the words ask for nothing that the program knows.
const BAD_WORDS: u8 = 2;

/// Why the program did not do what it was asked for.
#[derive(Debug, Drop, Error)]
pub enum ProgramFault {
    /// The words ask for nothing.
    #[error("{0}")]
    Task(TaskFault),
    /// The session ended before its input did.
    #[error("{0}")]
    Session(SessionFault),
    /// A text was not printed, or not to its end.
    #[error("{0}")]
    Print(PrintFault),
    /// A file of command lines could not be read.
    #[error("{0}")]
    ReadFailed(ReadFault),
    /// Files of traffic did not make command lines, or these were not written to their end.
    #[error("{0}")]
    Traffic(TrafficFault),
    /// Desks were not answered, or not to their end.
    #[error("{0}")]
    Service(ServiceFault),
    /// There is no memory.
    #[error("there is no memory")]
    NoMemory,
}

impl From<AllocError> for ProgramFault {
    ghost use Rattle.casa_outcome.specs.declared.fault.ProgramFault.TheVariants.{NoMemory};

    ghost from_gives = { λ _ fault. fault ≡ NoMemory };

    fn from(_refused: AllocError) -> ProgramFault {
        ProgramFault::NoMemory
    }
}

impl From<TaskFault> for ProgramFault {
    ghost use Rattle.casa_outcome.specs.declared.fault.ProgramFault.TheVariants.{Task};

    ghost from_gives = { λ cause fault. fault ≡ Task cause };

    fn from(cause: TaskFault) -> ProgramFault {
        ProgramFault::Task(cause)
    }
}

impl From<SessionFault> for ProgramFault {
    ghost use Rattle.casa_outcome.specs.declared.fault.ProgramFault.TheVariants.{Session};

    ghost from_gives = { λ cause fault. fault ≡ Session cause };

    fn from(cause: SessionFault) -> ProgramFault {
        ProgramFault::Session(cause)
    }
}

impl From<PrintFault> for ProgramFault {
    ghost use Rattle.casa_outcome.specs.declared.fault.ProgramFault.TheVariants.{Print};

    ghost from_gives = { λ cause fault. fault ≡ Print cause };

    fn from(cause: PrintFault) -> ProgramFault {
        ProgramFault::Print(cause)
    }
}

impl From<TrafficFault> for ProgramFault {
    ghost use Rattle.casa_outcome.specs.declared.fault.ProgramFault.TheVariants.{Traffic};

    ghost from_gives = { λ cause fault. fault ≡ Traffic cause };

    fn from(cause: TrafficFault) -> ProgramFault {
        ProgramFault::Traffic(cause)
    }
}

impl From<ServiceFault> for ProgramFault {
    ghost use Rattle.casa_outcome.specs.declared.fault.ProgramFault.TheVariants.{Service};

    ghost from_gives = { λ cause fault. fault ≡ Service cause };

    fn from(cause: ServiceFault) -> ProgramFault {
        ProgramFault::Service(cause)
    }
}

/// The exit status at a fault, and the name to print; clap prints its own text where it refuses the words, so that the
/// name is then empty. The status is 0 where they ask for help or the version, 2 at other words, and 1 at all else.
pub fn outcome(fault: &ProgramFault) -> (u8, &'static str)
    ensures { (result.0, result.1.now) ≡ outcome_of fault.now }
{
    match fault {
        ProgramFault::Task(TaskFault::Words(error)) => (words_status(error.kind()), ""),
        ProgramFault::Task(TaskFault::BadReg) => (BAD_WORDS, "BadReg"),
        ProgramFault::Task(TaskFault::BadKey) => (BAD_WORDS, "BadKey"),
        ProgramFault::Task(TaskFault::BadLocation) => (BAD_WORDS, "BadLocation"),
        ProgramFault::Task(TaskFault::BadDay) => (BAD_WORDS, "BadDay"),
        ProgramFault::Session(fault) => (FAILED, fault.name()),
        ProgramFault::Print(fault) => (FAILED, fault.name()),
        ProgramFault::ReadFailed(_) => (FAILED, "ReadFailed"),
        ProgramFault::Traffic(fault) => (fault.status(), fault.name()),
        ProgramFault::Service(fault) => (FAILED, fault.name()),
        ProgramFault::NoMemory => (FAILED, "NoMemory"),
    }
}

/// The exit status where clap refuses the words.
fn words_status(kind: ErrorKind) -> u8
    ensures { result ≡ words_status kind }
{
    match kind {
        ErrorKind::DisplayHelp | ErrorKind::DisplayVersion => 0,
        _ => BAD_WORDS,
    }
}

ghost use Rattle.std.specs.Prelude.{◌≡◌};
ghost use Rattle.casa_service.specs.Faults.{IsOfJournal, IsOfOpening, service_fault_name, trouble_name};

use casa_keeper::FileFault;
use casa_server::ServeFault;
use casa_session::SessionFault;
use casa_sockets::BindFault;
use std::alloc::{AllocError, Global};
use std::fmt::{Display, Formatter};
use std::{fmt, io};
use thiserror::Error;

/// Why desks were not answered.
#[derive(Debug, Drop, Error)]
pub enum ServiceFault {
    /// An address can't be had: nobody may listen there, or another program does.
    #[error("{0}")]
    BindFailed(BindFault),
    /// The server ended before it had accepted all its connections.
    #[error("{0}")]
    Serve(ServeFault),
    /// The session ended before its input did.
    #[error("{0}")]
    Session(SessionFault),
    /// The journal can't be had, or could not be written.
    #[error("{0}")]
    Journal(JournalFault),
    /// There is no memory.
    #[error("there is no memory")]
    NoMemory,
}

impl ServiceFault {
    /// The name of the fault, as in `"BindFailed"`.
    pub fn name(&self) -> &'static str
        ensures { result.now ≡ service_fault_name self.now }
    {
        match self {
            ServiceFault::BindFailed(_) => "BindFailed",
            ServiceFault::Serve(fault) => fault.name(),
            ServiceFault::Session(fault) => fault.name(),
            ServiceFault::Journal(fault) => fault.trouble.name(),
            ServiceFault::NoMemory => "NoMemory",
        }
    }

    /// What is wrong with this journal. `NoMemory` where there is none for its path.
    pub(crate) fn of_journal(alloc: Global, path: &str, trouble: Trouble) -> ServiceFault
        ensures { IsOfOpening trouble → IsOfJournal result }
    {
        match format!(in alloc; "{path}") {
            Ok(path) => ServiceFault::Journal(JournalFault { path, trouble }),
            Err(_) => ServiceFault::NoMemory,
        }
    }
}

impl From<AllocError> for ServiceFault {
    ghost use Rattle.casa_service.specs.declared.fault.ServiceFault.TheVariants.{NoMemory};

    ghost from_gives = { λ _ fault. fault ≡ NoMemory };

    fn from(_refused: AllocError) -> ServiceFault {
        ServiceFault::NoMemory
    }
}

impl From<BindFault> for ServiceFault {
    ghost use Rattle.casa_service.specs.declared.fault.ServiceFault.TheVariants.{BindFailed};

    ghost from_gives = { λ cause fault. fault ≡ BindFailed cause };

    fn from(cause: BindFault) -> ServiceFault {
        ServiceFault::BindFailed(cause)
    }
}

impl From<ServeFault> for ServiceFault {
    ghost use Rattle.casa_service.specs.declared.fault.ServiceFault.TheVariants.{Serve};

    ghost from_gives = { λ cause fault. fault ≡ Serve cause };

    fn from(cause: ServeFault) -> ServiceFault {
        ServiceFault::Serve(cause)
    }
}

/// What is wrong with a journal.
#[derive(Debug, Drop)]
pub struct JournalFault {
    /// The path of its file.
    pub path: String,
    /// What is wrong.
    pub trouble: Trouble,
}

/// The path, and what is wrong.
impl Display for JournalFault {
    fn fmt<W: fmt::Write>(&self, f: &mut Formatter<W>) -> fmt::Result {
        match self.trouble.line() {
            Some(line) => write!(f, "{}, line {line}: {}", self.path, self.trouble),
            None => write!(f, "{}: {}", self.path, self.trouble),
        }
    }
}

/// What can be wrong with a journal, in the order of the checks.
#[derive(Debug, Drop)]
pub enum Trouble {
    /// Its file can't be opened.
    NotOpened(FileFault),
    /// Its file could not be read, cut or put on the disk.
    NotRead(io::Error),
    /// Somebody has asked the engine that is to answer its calls again.
    NotAlone,
    /// This line, counted from 1, says no call at its position.
    BadLine(usize),
    /// The call of this line, counted from 1, is answered otherwise than the line vouches.
    ReplayDiffers(usize),
    /// Behind the whole lines, where this one would stand, there are so many bytes, which are more than a torn line.
    MoreThanTorn(usize, usize),
    /// What stands behind the whole lines could not be set aside.
    NotSetAside(io::Error),
    /// It could not be written.
    NotWritten(io::Error),
}

impl Trouble {
    /// The name, as in `"JournalBad"`.
    pub fn name(&self) -> &'static str
        ensures { result.now ≡ trouble_name self.now }
    {
        match self {
            Trouble::NotOpened(_)
            | Trouble::NotRead(_)
            | Trouble::NotAlone
            | Trouble::NotSetAside(_) => "JournalNotOpened",
            Trouble::BadLine(_) | Trouble::MoreThanTorn(_, _) => "JournalBad",
            Trouble::ReplayDiffers(_) => "ReplayDiffers",
            Trouble::NotWritten(_) => "JournalNotWritten",
        }
    }

    /// The line, counted from 1, where it is one of a line.
    fn line(&self) -> Option<usize> {
        match self {
            Trouble::BadLine(line)
            | Trouble::ReplayDiffers(line)
            | Trouble::MoreThanTorn(line, _) => { Some(*line) }
            _ => None,
        }
    }
}

/// What is wrong.
impl Display for Trouble {
    fn fmt<W: fmt::Write>(&self, f: &mut Formatter<W>) -> fmt::Result {
        match self {
            Trouble::NotOpened(fault) => write!(f, "{fault}"),
            Trouble::NotRead(error) => {
                write!(f, "it could not be read, cut or put on the disk: {error}")
            }
            Trouble::NotAlone => f.write_str("it can't be answered again beside other calls"),
            Trouble::BadLine(_) => f.write_str("it says no call at its position"),
            Trouble::ReplayDiffers(_) => {
                f.write_str("its call is answered otherwise than it was then")
            }
            Trouble::MoreThanTorn(_, bytes) => write!(
                f,
                "more than a torn line stands from here on, {bytes} bytes; --force sets them aside"
            ),
            Trouble::NotSetAside(error) => write!(
                f,
                "what stands behind the whole lines could not be set aside: {error}"
            ),
            Trouble::NotWritten(error) => write!(
                f,
                "it could not be written, so that nothing more was replied: {error}"
            ),
        }
    }
}

ghost use Rattle.std.specs.Prelude.{◌≡◌};
ghost use Rattle.casa_server.specs.Faults.{serve_fault_name, timer_fault_name};

use casa_commit::{CallFault, DeskFault};
use thiserror::Error;

/// Why a server ended before it had accepted all its connections, in the order of the checks.
#[derive(Clone, Copy, PartialEq, Eq, Debug, Error)]
pub enum ServeFault {
    /// The listener gave no connection.
    #[error("no connection could be accepted")]
    AcceptFailed,
    /// The system gave no thread for a connection.
    #[error("no thread could be started for a connection")]
    SpawnFailed,
    /// There is no memory for one session more.
    #[error("there is no memory for one session more")]
    NoMemory,
}

impl ServeFault {
    /// The name of the fault, as in `"AcceptFailed"`.
    pub fn name(self) -> &'static str
        ensures { result.now ≡ serve_fault_name self }
    {
        match self {
            ServeFault::AcceptFailed => "AcceptFailed",
            ServeFault::SpawnFailed => "SpawnFailed",
            ServeFault::NoMemory => "NoMemory",
        }
    }
}

/// Why a seat can't be had, in the order of the checks.
#[derive(Clone, Copy, PartialEq, Eq, Debug, Error)]
pub enum SeatFault {
    /// The engine gave the seat no desk, since 1,024 are open.
    #[error("no desk is left")]
    NoDesk,
    /// The system gave no thread for it.
    #[error("no thread could be started")]
    NoThread,
    /// There is no memory for it.
    #[error("there is no memory")]
    NoMemory,
}

impl From<DeskFault> for SeatFault {
    fn from(fault: DeskFault) -> SeatFault {
        match fault {
            DeskFault::TooManyDesks => SeatFault::NoDesk,
            DeskFault::NoMemory => SeatFault::NoMemory,
        }
    }
}

/// Why a timer ended before its clock or its turns did, in the order of the checks.
#[derive(Clone, Copy, PartialEq, Eq, Debug, Error)]
pub enum TimerFault {
    /// The engine gave the timer no desk, since 1,024 are open, or the desk is none of this engine's.
    #[error("the timer has no desk of this engine")]
    NoDesk,
    /// There is no memory for the timer's desk or for a tick.
    #[error("there is no memory for the timer's desk or for a tick")]
    NoMemory,
}

impl TimerFault {
    /// The name of the fault, as in `"NoDesk"`.
    pub fn name(self) -> &'static str
        ensures { result.now ≡ timer_fault_name self }
    {
        match self {
            TimerFault::NoDesk => "NoDesk",
            TimerFault::NoMemory => "NoMemory",
        }
    }
}

impl From<DeskFault> for TimerFault {
    fn from(fault: DeskFault) -> TimerFault {
        match fault {
            DeskFault::TooManyDesks => TimerFault::NoDesk,
            DeskFault::NoMemory => TimerFault::NoMemory,
        }
    }
}

impl From<CallFault> for TimerFault {
    fn from(fault: CallFault) -> TimerFault {
        match fault {
            CallFault::ForeignPass => TimerFault::NoDesk,
            CallFault::NoMemory => TimerFault::NoMemory,
        }
    }
}

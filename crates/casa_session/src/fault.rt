ghost use Rattle.std.specs.Prelude.{◌≡◌};
ghost use Rattle.casa_session.specs.Faults.{session_fault_name};

use thiserror::Error;

/// Why a session ended before its input did.
#[derive(Clone, Copy, PartialEq, Eq, Debug, Error)]
pub enum SessionFault {
    /// A line has more than 65,536 bytes; its text was written.
    #[error("a line has more than 65,536 bytes")]
    LineTooLong,
    /// The reader failed, or was asked 4,294,967,295 times.
    #[error("the input could not be read, or was read 4,294,967,295 times")]
    ReadFailed,
    /// The writer failed or took no byte, after it took this many in all, at most `u64::MAX`.
    #[error("the output took no more than {0} bytes")]
    WriteFailed(u64),
    /// The desk is none of this allocator's.
    #[error("the desk is none of this allocator's")]
    ForeignPass,
    /// There is no memory for a line, its call or its reply.
    #[error("there is no memory for a line, its call or its reply")]
    NoMemory,
}

impl SessionFault {
    /// The name of the fault, as in `"LineTooLong"`.
    pub fn name(self) -> &'static str
        ensures { result.now ≡ session_fault_name self }
    {
        match self {
            SessionFault::LineTooLong => "LineTooLong",
            SessionFault::ReadFailed => "ReadFailed",
            SessionFault::WriteFailed(_) => "WriteFailed",
            SessionFault::ForeignPass => "ForeignPass",
            SessionFault::NoMemory => "NoMemory",
        }
    }
}

ghost use Rattle.std.specs.Prelude.{◌≡◌};
ghost use Rattle.casa_wire.specs.Fields.{field_name};
ghost use Rattle.casa_wire.specs.Faults.{wire_fault_name};

use thiserror::Error;

/// A member of a command.
#[derive(Clone, Copy, PartialEq, Eq, Debug)]
pub enum Field {
    Key,
    Eobt,
    Taxi,
    Via,
    Sts,
    Reg,
    Loc,
    Periods,
    At,
    Other,
}

impl Field {
    /// The member's name in a command line.
    pub fn name(self) -> &'static str
        ensures { result.now ≡ field_name self }
    {
        match self {
            Field::Key => "key",
            Field::Eobt => "eobt",
            Field::Taxi => "taxi",
            Field::Via => "via",
            Field::Sts => "sts",
            Field::Reg => "reg",
            Field::Loc => "loc",
            Field::Periods => "periods",
            Field::At => "at",
            Field::Other => "other",
        }
    }
}

/// Why a line is no call, in the order of the checks.
#[derive(Clone, Copy, PartialEq, Eq, Debug, Error)]
pub enum WireFault {
    /// The bytes are no JSON text.
    #[error("the line is no JSON text")]
    NotJson,
    /// The value is no object, or its `cmd` is none of the commands.
    #[error("the line is no command")]
    NoCommand,
    /// This member is absent or not what it must be, and those before it are.
    #[error("the member `{}` is absent or not what it must be", .0.name())]
    BadField(Field),
    /// There is no memory for the call.
    #[error("there is no memory for the call")]
    NoMemory,
}

impl WireFault {
    /// The name of the fault, as in `"NotJson"`.
    pub fn name(self) -> &'static str
        ensures { result.now ≡ wire_fault_name self }
    {
        match self {
            WireFault::NotJson => "NotJson",
            WireFault::NoCommand => "NoCommand",
            WireFault::BadField(_) => "BadField",
            WireFault::NoMemory => "NoMemory",
        }
    }
}

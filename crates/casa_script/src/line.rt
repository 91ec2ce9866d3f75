ghost use Rattle.std.specs.Prelude.{◌≡◌};
ghost use Rattle.casa_script.specs.Sayable.{IsInRange};

use casa_flight::Call;

/// The version of the rules by which this program answers. Another one may give other replies to the same calls.
pub const RULES: u32 = 1;

/// What stands beside the call in a line of a journal.
#[derive(Clone, Copy, PartialEq, Eq, Debug)]
pub struct Label {
    /// The position of the call in the history, from 1.
    pub position: usize,
    /// The number of the desk that called.
    pub desk: u32,
    /// The version of the rules by which the call was answered.
    pub rules: u32,
    /// The sum of the bytes of the reply's line.
    pub sum: u32,
}

impl Label {
    /// The same label. Its numbers are in the range of their types.
    pub(crate) fn in_range(self) -> Label
        ensures same { result ≡ self }
        ensures in_range { IsInRange self }
    {
        self
    }
}

/// What a line of a journal says: a call with its label.
#[derive(Debug, Drop, PartialEq, Eq)]
pub struct Line {
    pub label: Label,
    pub call: Call,
}

//! How many calls of each command a history has.

ghost use Rattle.std.specs.Prelude.{◌≡◌, ◌+◌, ◌<◌, ◌^◌, [], ◌∷◌, ◌++◌, List, length, slice_index, slice_index_or, slice_set};
ghost use Rattle.casa_flight.specs.declared.call.Call.{Call};
ghost use Rattle.casa_flight.specs.declared.reply.Reply.{Reply};
ghost use Rattle.casa_history.specs.declared.entry.Entry.{Entry};
ghost use Rattle.casa_live.specs.Metrics.{commands, is_refused};
ghost use Rattle.casa_live.specs.Tallies.{IsTallyOf, at_most, command_number};

use casa_flight::{Call, Reply};
use casa_history::{Entry, SharedEntry};

/// How many commands there are.
pub(crate) const COUNT: usize = 12;

/// A number for each command, in their order.
pub(crate) type Counts = [u64; COUNT];

/// How many calls of each command the first entries of a history have.
#[derive(Clone, Copy, PartialEq, Eq, Debug)]
pub(crate) struct Tally {
    /// How many entries these are.
    pub(crate) position: usize,
    pub(crate) calls: Counts,
    /// How many of them were refused.
    pub(crate) refusals: Counts,
}

impl Tally {
    /// That of no entry.
    pub(crate) fn new() -> Tally
        ensures { IsTallyOf [] result }
    {
        Tally {
            position: 0,
            calls: [0; COUNT],
            refusals: [0; COUNT],
        }
    }

    /// Counts the next entries. A count stays at its greatest value once it is there.
    pub(crate) fn add_all(&mut self, entries: &[SharedEntry<Call, Reply>])
        ensures { (history : List (Entry Call Reply)) → length history + length entries.now < 2 ^ 64 →
            IsTallyOf history self.old → IsTallyOf (history ++ entries.now) self.new }
    {
        for entry in entries {
            self.add(entry);
        }
    }

    /// Counts the next entry.
    fn add(&mut self, entry: &Entry<Call, Reply>)
        ensures { (history : List (Entry Call Reply)) → length history + 1 < 2 ^ 64 →
            IsTallyOf history self.old → IsTallyOf (history ++ entry.now ∷ []) self.new }
    {
        let number = number_of(&entry.call);
        self.position = self.position.saturating_add(1);
        count(&mut self.calls, number);
        if is_refused(&entry.reply) {
            count(&mut self.refusals, number);
        }
    }
}

/// The command of this number, as lines name it.
pub(crate) fn command(number: usize) -> &'static str
    requires { number < 12 }
    ensures { result.now ≡ slice_index_or commands number [] }
{
    match number {
        0 => "file",
        1 => "amend",
        2 => "cancel",
        3 => "revise",
        4 => "exempt",
        5 => "show",
        6 => "open",
        7 => "close",
        8 => "rates",
        9 => "list",
        10 => "tick",
        _ => "swap",
    }
}

/// The number of a call's command among all.
fn number_of(call: &Call) -> usize
    ensures command { result ≡ command_number call.now }
    ensures in_range { result < 12 }
{
    match call {
        Call::File(_) => 0,
        Call::Amend(_) => 1,
        Call::Cancel(_) => 2,
        Call::Revise(_) => 3,
        Call::Exempt(_) => 4,
        Call::Show(_) => 5,
        Call::OpenReg(_, _, _) => 6,
        Call::CloseReg(_) => 7,
        Call::Rates(_, _) => 8,
        Call::List(_) => 9,
        Call::Tick(_) => 10,
        Call::Swap(_, _) => 11,
    }
}

/// Whether a call was refused.
fn is_refused(reply: &Reply) -> bool
    ensures { result ≡ is_refused reply.now }
{
    match reply {
        Reply::Refused(_) => true,
        Reply::Answered(_, _) => false,
    }
}

/// Adds one to the count of this number.
fn count(counts: &mut Counts, number: usize)
    requires { number < 12 }
    ensures { counts.new
        ≡ slice_set counts.old number (at_most (slice_index counts.old number + 1)) }
{
    counts[number] = counts[number].saturating_add(1);
}

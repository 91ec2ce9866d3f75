//! What a crash leaves of a line.

ghost use Rattle.std.specs.Prelude.{◌↔◌, IsTrue};
ghost use Rattle.casa_keeper.specs.Torn.{IsTornLine};

/// How many bytes there are of a torn line, at most: more than the longest line has.
const LONGEST_TEAR: usize = 1_048_576;

/// Whether this is a part of one line, or nothing: it has no line's end, and is no longer than a line may be.
pub fn is_torn_line(torn: &[u8]) -> bool
    ensures { IsTrue result ↔ IsTornLine torn.now }
{
    torn.len() <= LONGEST_TEAR && !torn.contains(&b'\n')
}

//! How the span of a new profile lies to that of the one before.

ghost use Rattle.std.specs.Prelude.{◌≡◌};
ghost use Rattle.casa_flight.specs.Steps.{keeps_span, ends_later};

use casa_grid::Profile;

/// Whether the first profile starts as the other and does not end before it.
pub fn keeps_span(profile: &Profile, other: &Profile) -> bool
    ensures { result ≡ keeps_span profile.now other.now }
{
    let (start, end) = profile.span();
    let (other_start, other_end) = other.span();
    start == other_start && other_end <= end
}

/// Whether the first profile ends after the other.
pub fn ends_later(profile: &Profile, other: &Profile) -> bool
    ensures { result ≡ ends_later profile.now other.now }
{
    let (_, end) = profile.span();
    let (_, other_end) = other.span();
    other_end < end
}

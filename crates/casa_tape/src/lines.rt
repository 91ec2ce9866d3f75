//! Where lines end.

ghost use Rattle.std.specs.Prelude.{◌≡◌, ◌++◌, ◌∷◌, List, ℕ, Contains, IfSome, IfNone};
ghost use Rattle.casa_tape.specs.Lines.{before_nul, IsLine, IsWholeEnd};

use memchr::{memchr, memrchr};

/// How many bytes the whole lines take: up to the last LF before the first NUL.
pub fn whole_end(bytes: &[u8]) -> usize
    ensures { IsWholeEnd bytes.now result }
{
    match memrchr(b'\n', solid(bytes)) {
        Some(last) => last + 1,
        None => 0,
    }
}

/// What stands before the first NUL.
fn solid(bytes: &[u8]) -> &[u8]
    ensures { result.now ≡ before_nul bytes.now }
{
    match memchr(0, bytes) {
        Some(nul) => &bytes[..nul],
        None => bytes,
    }
}

/// The first line of a text, up to its first LF, and what stands behind that; `None` where there is no LF.
pub fn first_line(text: &[u8]) -> Option<(&[u8], &[u8])>
    ensures split { IfSome result (λ r. text.now ≡ r.0.now ++ 10 ∷ r.1.now) }
    ensures first { IfSome result (λ r. ¬ (Contains r.0.now 10)) }
    ensures none { IfNone result (¬ (Contains text.now 10)) }
    // So it is the first line of a journal's text.
    ensures line { IfSome result (λ r. (line behind : List ℕ) → IsLine line
        → text.now ≡ line ++ 10 ∷ behind → (r.0.now ≡ line) × (r.1.now ≡ behind)) }
{
    let end = memchr(b'\n', text)?;
    Some((&text[..end], &text[end + 1..]))
}

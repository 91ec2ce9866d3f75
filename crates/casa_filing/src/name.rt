ghost use Rattle.std.specs.Prelude.{◌≡◌, ◌==◌, ◌↔◌, ◌≤◌, length, take, drop, true, IsSome, IfSome, Some};
ghost use Rattle.std.specs.List.{list_all};
ghost use Rattle.std.specs.Ordering.{nat_cmp, as_partial_cmp, is_lt};
ghost use Rattle.std.specs.Cmp.{partial_order_from_own_ties};
ghost use Rattle.std.specs.Cmp.Lexicographic.{pointwise, slice_cmp};
ghost use Rattle.std.specs.Cmp.Rules.{comparing};
ghost use Rattle.std.proofs.Common.{rules};
ghost use Rattle.std.specs.Slice.Scan.{big_endian};
ghost use Rattle.casa_filing.specs.Text.{is_name, is_name_byte};

use std::cmp::Ordering;
use std::marker::{Model, PhantomData};
use std::{fmt, str};

/// The longest name, in characters.
const MAX_LEN: usize = 10;

/// A text of 1 to 10 characters of A to Z and 0 to 9, which names a thing of this kind.
///
/// Contracts see a name as the list of its bytes. Names are ordered byte by byte.
#[derive(Clone, Copy, Debug)]
pub struct Name<Kind> {
    bytes: [u8; MAX_LEN],
    len: u8,
    kind: PhantomData<Kind>,
}

/// The kind of names that flights have.
#[derive(Clone, Copy, Debug)]
pub struct OfFlight;

/// The kind of names that locations have.
#[derive(Clone, Copy, Debug)]
pub struct OfLocation;

/// The kind of names that regulations have.
#[derive(Clone, Copy, Debug)]
pub struct OfRegulation;

/// The key of a flight.
pub type Key = Name<OfFlight>;

/// A location that flights cross and regulations protect.
pub type Loc = Name<OfLocation>;

/// The identifier of a regulation.
pub type RegId = Name<OfRegulation>;

impl<Kind> Model for Name<Kind> {
    ghost use Rattle.std.specs.Prelude.{List, ℕ, take};

    ghost Value = { List ℕ };

    ghost use Rattle.casa_filing.specs.NameInside.{IsInside, padded, inside_padded};

    ghost view = { λ n. take n.len n.bytes };

    ghost invariant = { IsInside };

    ghost inverse = { padded };

    ghost inverse_ok = { inside_padded };
}

/// Whether a text is a name: 1 to 10 characters of A to Z and 0 to 9.
pub fn is_name(text: &[u8]) -> bool
    ensures { result ≡ is_name text.now }
{
    0 < text.len() && text.len() <= MAX_LEN && are_name_bytes(text)
}

fn are_name_bytes(text: &[u8]) -> bool
    ensures { result ≡ list_all is_name_byte text.now }
{
    text.iter().all(|byte| is_name_byte(*byte))
}

/// Whether a byte is one of A to Z and 0 to 9.
fn is_name_byte(byte: u8) -> bool
    ensures { result ≡ is_name_byte byte }
{
    (b'0' <= byte && byte <= b'9') || (b'A' <= byte && byte <= b'Z')
}

/// The first eight bytes as a number.
fn head(bytes: &[u8; MAX_LEN]) -> u64
    ensures { result ≡ big_endian 0 (take 8 bytes.now) }
{
    u64::from_be_bytes([
        bytes[0], bytes[1], bytes[2], bytes[3], bytes[4], bytes[5], bytes[6], bytes[7],
    ])
}

/// The last two bytes as a number.
fn tail(bytes: &[u8; MAX_LEN]) -> u16
    ensures { result ≡ big_endian 0 (drop 8 bytes.now) }
{
    u16::from_be_bytes([bytes[8], bytes[9]])
}

/// Whether the bytes are the same.
fn are_same(one: &[u8; MAX_LEN], other: &[u8; MAX_LEN]) -> bool
    ensures { result ≡ pointwise ◌==◌ one.now other.now }
{
    head(one) == head(other) && tail(one) == tail(other)
}

/// How the bytes are ordered.
fn order(one: &[u8; MAX_LEN], other: &[u8; MAX_LEN]) -> Ordering
    ensures { result ≡ slice_cmp nat_cmp one.now other.now }
{
    match head(one).cmp(&head(other)) {
        Ordering::Equal => tail(one).cmp(&tail(other)),
        by_head => by_head,
    }
}

/// Whether the one's bytes come before the other's. Nothing is skipped, since no processor can foresee which name is sought.
fn are_before(one: &[u8; MAX_LEN], other: &[u8; MAX_LEN]) -> bool
    ensures { result ≡ is_lt (slice_cmp nat_cmp one.now other.now) }
{
    let (head_of_one, head_of_other) = (head(one), head(other));
    (head_of_one < head_of_other) | ((head_of_one == head_of_other) & (tail(one) < tail(other)))
}

impl<Kind> Name<Kind> {
    /// The name with these bytes, or `None` where they are not 1 to 10 characters of A to Z and 0 to 9.
    pub fn new(text: &[u8]) -> Option<Name<Kind>>
        ensures valid { IsSome result ↔ (is_name text.now ≡ true) }
        ensures value { IfSome result (λ name. name ≡ text.now) }
    {
        if !is_name(text) {
            return None;
        }
        let mut bytes = [0; MAX_LEN];
        let (front, _) = bytes.split_at_mut(text.len());
        front.copy_from_slice(text);
        Some(Name {
            bytes,
            len: text.len() as u8,
            kind: PhantomData,
        })
    }

    /// The characters.
    pub fn as_bytes(&self) -> &[u8]
        ensures { result.now ≡ self.now }
    {
        &self.bytes[..self.len as usize]
    }

    /// Whether this name comes before the other.
    pub fn is_before(&self, other: &Name<Kind>) -> bool
        ensures { result ≡ is_lt (slice_cmp nat_cmp self.now other.now) }
    {
        are_before(&self.bytes, &other.bytes)
    }

    /// How many characters there are, 1 to 10.
    pub fn len(&self) -> usize
        ensures value { result ≡ length self.now }
        ensures in_range { result ≤ 10 }
    {
        self.len as usize
    }
}

impl<Kind> fmt::Display for Name<Kind> {
    ghost output = { λ name. Some name };

    fn fmt<W: fmt::Write>(&self, f: &mut fmt::Formatter<W>) -> fmt::Result {
        match str::from_utf8(self.as_bytes()) {
            Ok(text) => f.write_str(text),
            Err(_) => Err(fmt::Error),
        }
    }
}

impl<Kind> PartialEq for Name<Kind> {
    ghost eq = { pointwise ◌==◌ };

    ghost laws = { Prim.search (comparing, rules) };

    fn eq(&self, other: &Name<Kind>) -> bool {
        are_same(&self.bytes, &other.bytes)
    }
}

impl<Kind> Eq for Name<Kind> {
    ghost laws = { Prim.search (comparing, rules) };
}

impl<Kind> Ord for Name<Kind> {
    ghost cmp = { slice_cmp nat_cmp };

    ghost total = { Prim.search (comparing, rules) };

    ghost matches_partial_cmp = { Prim.search (comparing, rules) };

    ghost matches_eq = { Prim.search (comparing, rules) };

    fn cmp(&self, other: &Name<Kind>) -> Ordering {
        order(&self.bytes, &other.bytes)
    }
}

impl<Kind> PartialOrd for Name<Kind> {
    ghost partial_cmp = { as_partial_cmp (slice_cmp nat_cmp) };

    ghost laws = { partial_order_from_own_ties (Prim.search (comparing, rules)) (Prim.search (comparing, rules)) };

    fn partial_cmp(&self, other: &Name<Kind>) -> Option<Ordering> {
        Some(self.cmp(other))
    }
}

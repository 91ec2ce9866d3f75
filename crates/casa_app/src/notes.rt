//! What is kept of the replies to lines, to say which lines had faults or were refused.

ghost use Rattle.std.specs.Prelude.{◌≡◌, ◌+◌, ◌-◌, ◌*◌, ◌==◌, ◌&&◌, ◌||◌, ◌≤◌, ◌<◌, ◌^◌, [], ◌∷◌, ◌++◌, ℕ, List, false, min, length, take};
ghost use Rattle.std.specs.List.{after_first, flat_map, position_or_len};
ghost use Rattle.arrayvec.specs.ArrayVec.{array_vec_len};
ghost use Rattle.casa_session.specs.Sending.{saturating_count};
ghost use Rattle.casa_app.specs.Remarks.{is_mark, more_line, remark_line, remark_on, spaced, tells_fault, tells_no_json, tells_refusal, told, word};

use arrayvec::ArrayVec;
use itoa::Buffer;

/// At most so many remarks are said one by one.
pub(crate) const MOST: u64 = 10;

/// What begins a reply that tells of a fault.
const FAULT: &[u8] = b"{\"fault\":";

/// What begins a reply that tells of a refusal.
const REFUSAL: &[u8] = b"{\"code\":";

/// The reply to a line that is no JSON.
const NO_JSON: &[u8] = b"{\"fault\":\"NotJson\"}";

/// The lines of at most ten remarks.
type Text = ArrayVec<u8, 2200>;

/// What is kept of replies: the first bytes of the one that has not ended, how many have, how many of these tell of a
/// fault or of a refusal, the lines that are said of the first ten of them, and whether the first of all tells that its
/// line is no JSON. It takes no memory.
#[derive(Drop)]
pub(crate) struct Notes {
    pub head: ArrayVec<u8, 80>,
    pub lines: u64,
    pub count: u64,
    pub text: Text,
    pub first_no_json: bool,
    ghost counted: { count < 2 ^ 64 },
    ghost room: { array_vec_len text ≤ 220 * min count 10 },
}

impl Notes {
    ghost use Rattle.casa_app.specs.Notes.{AreOf};

    /// Of no replies.
    pub(crate) fn new() -> Notes
        ensures { AreOf result [] }
    {
        Notes {
            head: ArrayVec::new(),
            lines: 0,
            count: 0,
            text: Text::new(),
            first_no_json: false,
        }
    }

    /// Goes over more bytes of the replies.
    pub(crate) fn take(&mut self, bytes: &[u8])
        ensures { (before : List ℕ) → AreOf self.old before → AreOf self.new (before ++ bytes.now) }
    {
        'bytes: for &byte in bytes {
            self.take_byte(byte);
        }
    }

    /// Goes over one more byte.
    fn take_byte(&mut self, byte: u8)
        ensures { (before : List ℕ) → AreOf self.old before
            → AreOf self.new (before ++ byte ∷ []) }
    {
        if byte == b'\n' {
            self.end_reply();
        } else if !self.head.is_full() {
            self.head.push(byte);
        }
    }

    /// Ends a reply.
    fn end_reply(&mut self)
        ensures { (before : List ℕ) → AreOf self.old before → AreOf self.new (before ++ 10 ∷ []) }
    {
        self.lines = self.lines.saturating_add(1);
        self.first_no_json |= is_first_no_json(self.lines, &self.head);
        self.remark();
        self.head.clear();
    }

    /// Keeps the remark on the reply that has ended, if it tells of a fault or of a refusal.
    fn remark(&mut self)
        ensures count { self.new.count ≡ saturating_count
            (self.old.count + length (remark_on self.old.lines self.old.head.items)) }
        ensures text { self.new.text.items ≡ self.old.text.items ++ flat_map (remark_line false)
            (take (10 - self.old.count) (remark_on self.old.lines self.old.head.items)) }
        ensures lines { self.new.lines ≡ self.old.lines }
        ensures first { self.new.first_no_json ≡ self.old.first_no_json }
    {
        if tells(&self.head) {
            push_first(&mut self.text, self.count, self.lines, &self.head);
            self.count = self.count.saturating_add(1);
        }
    }
}

/// Whether a reply tells of a fault or of a refusal.
fn tells(reply: &[u8]) -> bool
    ensures { result ≡ tells_fault reply.now || tells_refusal reply.now }
{
    reply.starts_with(FAULT) || reply.starts_with(REFUSAL)
}

/// Whether a reply of this number is the first and tells that its line is no JSON.
fn is_first_no_json(number: u64, reply: &[u8]) -> bool
    ensures { result ≡ (number == 1) && tells_no_json reply.now }
{
    number == 1 && reply == NO_JSON
}

/// Appends the line that says how many remarks more there are, if there are any.
pub(crate) fn push_more<const N: usize>(text: &mut ArrayVec<u8, N>, count: u64)
    requires { array_vec_len text.old + 60 ≤ N }
    ensures { text.new.items ≡ text.old.items ++ more_line count }
{
    if count > 0 {
        push_text(text, b"casa: and ");
        push_text(text, Buffer::new().format(count).as_bytes());
        push_text(text, b" more\n");
    }
}

/// Appends the line of the remark on a reply where fewer than ten stand before it.
fn push_first(text: &mut Text, count: u64, number: u64, reply: &[u8])
    requires room { array_vec_len text.old ≤ 220 * min count 10 }
    requires short { length reply.now ≤ 80 }
    ensures text { text.new.items ≡ text.old.items ++ flat_map (remark_line false)
        (take (10 - count) (record { number = number; reply = reply.now } ∷ [])) }
    ensures len { array_vec_len text.new ≤ 220 * min (count + 1) 10 }
{
    if count < MOST {
        push_remark(text, number, reply);
    }
}

/// Appends the line of the remark on a reply.
fn push_remark(text: &mut Text, number: u64, reply: &[u8])
    requires room { array_vec_len text.old + 220 ≤ 2200 }
    requires short { length reply.now ≤ 80 }
    ensures text { text.new.items ≡ text.old.items
        ++ remark_line false (record { number = number; reply = reply.now }) }
    ensures len { array_vec_len text.new ≤ array_vec_len text.old + 220 }
{
    push_text(text, b"casa: line ");
    push_text(text, Buffer::new().format(number).as_bytes());
    push_text(text, b": ");
    push_told(text, reply);
    text.push(b'\n');
}

/// Appends what is told of a reply.
fn push_told(text: &mut Text, reply: &[u8])
    requires room { array_vec_len text.old + 161 ≤ 2200 }
    requires short { length reply.now ≤ 80 }
    ensures text { text.new.items ≡ text.old.items ++ told reply.now }
    ensures len { array_vec_len text.new ≤ array_vec_len text.old + 161 }
{
    let first = if reply.starts_with(FAULT) { 3 } else { 5 };
    push_text(text, word(reply, first));
    push_spaced(text, word(reply, 7));
}

/// Appends a text with a space before it, where it has a byte.
fn push_spaced(text: &mut Text, more: &[u8])
    requires room { array_vec_len text.old + length more.now < 2200 }
    ensures text { text.new.items ≡ text.old.items ++ spaced more.now }
    ensures len { array_vec_len text.new ≤ array_vec_len text.old + length more.now + 1 }
{
    if !more.is_empty() {
        text.push(b' ');
        push_text(text, more);
    }
}

/// Appends a text.
pub(crate) fn push_text<const N: usize>(text: &mut ArrayVec<u8, N>, more: &[u8])
    requires { array_vec_len text.old + length more.now ≤ N }
    ensures text { text.new.items ≡ text.old.items ++ more.now }
    ensures len { array_vec_len text.new ≡ array_vec_len text.old + length more.now }
{
    let _ = text.try_extend_from_slice(more);
}

/// What stands in a reply behind so many quotation marks, up to the next one.
fn word(reply: &[u8], marks: usize) -> &[u8]
    ensures word { result.now ≡ word marks reply.now }
    ensures short { length result.now ≤ length reply.now }
{
    let mut rest = reply;
    'marks: for _ in 0..marks {
        rest = behind_mark(rest);
    }
    &rest[..until_mark(rest)]
}

/// What stands behind the first quotation mark; nothing where there is none.
fn behind_mark(text: &[u8]) -> &[u8]
    ensures behind { result.now ≡ after_first is_mark text.now }
    ensures short { length result.now ≤ length text.now }
{
    let at = until_mark(text);
    if at < text.len() {
        &text[at + 1..]
    } else {
        &[]
    }
}

/// How many bytes stand before the first quotation mark; all where there is none.
fn until_mark(text: &[u8]) -> usize
    ensures value { result ≡ position_or_len is_mark text.now }
    ensures within { result ≤ length text.now }
{
    'bytes: for at in 0..text.len() {
        if text[at] == b'"' {
            return at;
        }
    }
    text.len()
}

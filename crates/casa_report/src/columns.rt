//! Columns of a line: a text in its width, and the character that ends the column.

ghost use Rattle.std.specs.Prelude.{◌≡◌, ◌+◌, ◌≤◌, ◌<◌, [], ◌∷◌, ◌++◌, decimal, length, max, replicate};
ghost use Rattle.casa_time.specs.Hhmm.{hhmm};
ghost use Rattle.arrayvec.specs.ArrayVec.{array_vec_len};
ghost use Rattle.casa_report.specs.Columns.{left, number_text, right};

use arrayvec::ArrayVec;
use casa_flight::Name;
use casa_time::hhmm;
use itoa::Buffer;

/// Appends a name in a column of ten.
pub fn push_name<Kind, const N: usize>(line: &mut ArrayVec<u8, N>, name: &Name<Kind>)
    requires { array_vec_len line.old + 11 ≤ N }
    ensures text { line.new.items ≡ line.old.items ++ (left 10 name.now ++ 32 ∷ []) }
    ensures len { array_vec_len line.new ≤ array_vec_len line.old + 11 }
{
    let _short = name.len();
    push_left(line, name.as_bytes(), 10, b' ');
}

/// Appends a time in a column of four.
pub fn push_time<const N: usize>(line: &mut ArrayVec<u8, N>, secs: u32)
    requires { array_vec_len line.old + 5 ≤ N }
    ensures text { line.new.items ≡ line.old.items ++ (left 4 (hhmm secs) ++ 32 ∷ []) }
    ensures len { array_vec_len line.new ≤ array_vec_len line.old + 5 }
{
    push_left(line, &hhmm(secs), 4, b' ');
}

/// Appends a number, spaces before it up to the width, and what ends the column.
pub fn push_number<const N: usize>(line: &mut ArrayVec<u8, N>, number: u128, width: usize, end: u8)
    requires { array_vec_len line.old + max width 40 < N }
    ensures text { line.new.items ≡ line.old.items ++ (right width (decimal number) ++ end ∷ []) }
    ensures len { array_vec_len line.new ≤ array_vec_len line.old + max width 40 + 1 }
{
    push_right(line, Buffer::new().format(number).as_bytes(), width, end);
}

/// Appends a number, or a hyphen where there is none, in the same way.
pub fn push_number_or_hyphen<const N: usize>(
    line: &mut ArrayVec<u8, N>,
    number: Option<u128>,
    width: usize,
    end: u8,
)
    requires { array_vec_len line.old + max width 40 < N }
    ensures text { line.new.items ≡ line.old.items ++
        (right width (number_text number) ++ end ∷ []) }
    ensures len { array_vec_len line.new ≤ array_vec_len line.old + max width 40 + 1 }
{
    match number {
        Some(number) => push_number(line, number, width, end),
        None => push_right(line, b"-", width, end),
    }
}

/// Appends a text, spaces up to the width, and what ends the column.
pub fn push_left<const N: usize>(line: &mut ArrayVec<u8, N>, text: &[u8], width: usize, end: u8)
    requires { array_vec_len line.old + max width (length text.now) < N }
    ensures text { line.new.items ≡ line.old.items ++ (left width text.now ++ end ∷ []) }
    ensures len { array_vec_len line.new
        ≡ array_vec_len line.old + max width (length text.now) + 1 }
{
    push_text(line, text);
    push_repeated(line, b' ', width.saturating_sub(text.len()));
    line.push(end);
}

/// Appends spaces up to the width, a text, and what ends the column.
pub fn push_right<const N: usize>(line: &mut ArrayVec<u8, N>, text: &[u8], width: usize, end: u8)
    requires { array_vec_len line.old + max width (length text.now) < N }
    ensures text { line.new.items ≡ line.old.items ++ (right width text.now ++ end ∷ []) }
    ensures len { array_vec_len line.new
        ≡ array_vec_len line.old + max width (length text.now) + 1 }
{
    push_repeated(line, b' ', width.saturating_sub(text.len()));
    push_text(line, text);
    line.push(end);
}

/// Appends a text.
pub(crate) fn push_text<const N: usize>(line: &mut ArrayVec<u8, N>, text: &[u8])
    requires { array_vec_len line.old + length text.now ≤ N }
    ensures text { line.new.items ≡ line.old.items ++ text.now }
    ensures len { array_vec_len line.new ≡ array_vec_len line.old + length text.now }
{
    let _ = line.try_extend_from_slice(text);
}

/// Appends a character so many times.
pub(crate) fn push_repeated<const N: usize>(line: &mut ArrayVec<u8, N>, character: u8, count: usize)
    requires { array_vec_len line.old + count ≤ N }
    ensures text { line.new.items ≡ line.old.items ++ replicate count character }
    ensures len { array_vec_len line.new ≡ array_vec_len line.old + count }
{
    'times: for _ in 0..count {
        line.push(character);
    }
}

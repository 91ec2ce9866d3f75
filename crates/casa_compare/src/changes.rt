//! By how much a number changes from one day to another.

ghost use Rattle.std.specs.Prelude.{◌≡◌, ◌+◌, ◌≤◌, ◌<◌, [], ◌∷◌, ◌++◌, decimal, length, max};
ghost use Rattle.arrayvec.specs.ArrayVec.{array_vec_len};
ghost use Rattle.casa_report.specs.Columns.{right};
ghost use Rattle.casa_compare.specs.Changes.{change_or_hyphen, change_text};

use arrayvec::ArrayVec;
use casa_report::push_right;
use itoa::Buffer;

/// There is room for a sign and the 39 digits of a number.
type Change = ArrayVec<u8, 40>;

/// Appends by how much a number changes, spaces before it up to the width, and what ends the column.
pub(crate) fn push_change<const N: usize>(
    line: &mut ArrayVec<u8, N>,
    from: u128,
    to: u128,
    width: usize,
    end: u8,
)
    requires { array_vec_len line.old + max width 40 < N }
    ensures text { line.new.items ≡ line.old.items ++ (right width (change_text from to) ++ end ∷ []) }
    ensures len { array_vec_len line.new ≤ array_vec_len line.old + max width 40 + 1 }
{
    push_right(line, change_text(from, to).as_slice(), width, end);
}

/// Appends the same of two numbers, or a hyphen where one of them is missing.
pub(crate) fn push_change_or_hyphen<const N: usize>(
    line: &mut ArrayVec<u8, N>,
    from: Option<u128>,
    to: Option<u128>,
    width: usize,
    end: u8,
)
    requires { array_vec_len line.old + max width 40 < N }
    ensures text { line.new.items ≡ line.old.items ++ (right width (change_or_hyphen from to) ++ end ∷ []) }
    ensures len { array_vec_len line.new ≤ array_vec_len line.old + max width 40 + 1 }
{
    match (from, to) {
        (Some(from), Some(to)) => push_change(line, from, to, width, end),
        _ => push_right(line, b"-", width, end),
    }
}

/// By how much a number changes: a plus sign or a minus sign and the difference, or 0.
fn change_text(from: u128, to: u128) -> Change
    ensures text { result.items ≡ change_text from to }
    ensures short { length result.items ≤ 40 }
{
    if to < from {
        signed(b"-", from - to)
    } else if from < to {
        signed(b"+", to - from)
    } else {
        signed(b"", 0)
    }
}

/// A sign, and a number behind it.
fn signed(sign: &[u8], number: u128) -> Change
    requires { length sign.now ≤ 1 }
    ensures text { result.items ≡ sign.now ++ decimal number }
    ensures short { length result.items ≤ 40 }
{
    let mut text = Change::new();
    let _ = text.try_extend_from_slice(sign);
    let _ = text.try_extend_from_slice(Buffer::new().format(number).as_bytes());
    text
}

//! Bytes of two messages that pair by place.
ghost use Rattle.std.specs.Prelude.{◌≡◌, ◌-◌, ◌≤◌, Some, [], ◌∷◌, drop, length, max, take};
ghost use Rattle.byte_columns.specs.Columns.{column, differing, paired};

/// The bytes from one place up to another, as far as there are any.
pub(crate) fn piece(bytes: &[u8], from: usize, to: usize) -> &[u8]
    requires { from ≤ to }
    ensures { result.now ≡ take (to - from) (drop from bytes.now) }
{
    let behind = &bytes[from.min(bytes.len())..];
    &behind[..(to - from).min(behind.len())]
}

/// How many columns of two pieces differ.
pub(crate) fn count_differing(left: &[u8], right: &[u8]) -> usize
    ensures value { result ≡ differing (paired left.now right.now) }
    ensures few { result ≤ max (length left.now) (length right.now) }
{
    let both = left.len().min(right.len());
    let mut count: usize = 0;
    'bytes: for k in 0..both {
        count += one_if_other(left[k], right[k]);
    }
    count + (left.len().max(right.len()) - both)
}

/// One for two bytes that are not the same, and else none.
#[inline(always)]
fn one_if_other(left: u8, right: u8) -> usize
    ensures value { result ≡ differing (column (Some left) (Some right) ∷ []) }
    ensures one { result ≤ 1 }
{
    if left == right { 0 } else { 1 }
}

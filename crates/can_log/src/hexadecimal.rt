//! Hexadecimal digits by table: a test of the digit's range is a branch that the processor can't foresee.

ghost use Rattle.std.specs.Prelude.{◌≡◌, ◌<◌, IsTrue};
ghost use Rattle.std.specs.List.{list_all};
ghost use Rattle.std.specs.Char.{is_ascii_hexdigit, digit_value};

/// The value of each byte as a digit, in either case, or 255.
#[rattlefmt::skip]
static DIGIT_VALUES: [u8; 256] = [
    255, 255, 255, 255, 255, 255, 255, 255, 255, 255, 255, 255, 255, 255, 255, 255,
    255, 255, 255, 255, 255, 255, 255, 255, 255, 255, 255, 255, 255, 255, 255, 255,
    255, 255, 255, 255, 255, 255, 255, 255, 255, 255, 255, 255, 255, 255, 255, 255,
    0, 1, 2, 3, 4, 5, 6, 7, 8, 9, 255, 255, 255, 255, 255, 255,
    255, 10, 11, 12, 13, 14, 15, 255, 255, 255, 255, 255, 255, 255, 255, 255,
    255, 255, 255, 255, 255, 255, 255, 255, 255, 255, 255, 255, 255, 255, 255, 255,
    255, 10, 11, 12, 13, 14, 15, 255, 255, 255, 255, 255, 255, 255, 255, 255,
    255, 255, 255, 255, 255, 255, 255, 255, 255, 255, 255, 255, 255, 255, 255, 255,
    255, 255, 255, 255, 255, 255, 255, 255, 255, 255, 255, 255, 255, 255, 255, 255,
    255, 255, 255, 255, 255, 255, 255, 255, 255, 255, 255, 255, 255, 255, 255, 255,
    255, 255, 255, 255, 255, 255, 255, 255, 255, 255, 255, 255, 255, 255, 255, 255,
    255, 255, 255, 255, 255, 255, 255, 255, 255, 255, 255, 255, 255, 255, 255, 255,
    255, 255, 255, 255, 255, 255, 255, 255, 255, 255, 255, 255, 255, 255, 255, 255,
    255, 255, 255, 255, 255, 255, 255, 255, 255, 255, 255, 255, 255, 255, 255, 255,
    255, 255, 255, 255, 255, 255, 255, 255, 255, 255, 255, 255, 255, 255, 255, 255,
    255, 255, 255, 255, 255, 255, 255, 255, 255, 255, 255, 255, 255, 255, 255, 255,
];

/// Whether the byte is a digit, in either case.
#[inline(always)]
pub(crate) fn is_hex_digit(b: u8) -> bool
    ensures { result ≡ is_ascii_hexdigit b }
{
    DIGIT_VALUES[b as usize] < 16
}

/// Whether all the bytes are digits. There is no early exit, so that the processor tests many at once.
#[inline(always)]
pub(crate) fn are_hex_digits(bytes: &[u8]) -> bool
    ensures { result ≡ list_all is_ascii_hexdigit bytes.now }
{
    let mut all = true;
    for b in bytes {
        all &= b.is_ascii_hexdigit();
    }
    all
}

/// The value of a digit.
#[inline(always)]
pub(crate) fn hex_digit_value(b: u8) -> u8
    requires { IsTrue (is_ascii_hexdigit b) }
    ensures value { result ≡ digit_value b }
    ensures bound { result < 16 }
{
    DIGIT_VALUES[b as usize]
}

//! Numbers as digits.
ghost use Rattle.std.specs.Prelude.{◌≡◌, ◌<◌, [], ◌∷◌, ◌++◌, ◌%◌};
ghost use Rattle.can_log.specs.Digits.{decimal, hexadecimal};
ghost use Rattle.can_log.specs.Digits as Spec;

/// The hexadecimal digits.
const DIGITS: [u8; 16] = *b"0123456789ABCDEF";

/// The decimal digits of the numbers below 100, two of each.
const PAIRS: [u8; 200] =
    *b"0001020304050607080910111213141516171819202122232425262728293031323334353637383940414243444546474849\
    5051525354555657585960616263646566676869707172737475767778798081828384858687888990919293949596979899";

/// The last hexadecimal digit of a number.
#[tactic(auto, unfolding(can_log::specs::Digits::digits))]
pub(crate) fn last_digit(number: u8) -> [u8; 1]
    ensures { result ≡ hexadecimal 1 number }
{
    [digit(number % 16)]
}

/// The last six decimal digits of a number, with two zeros behind them: eight bytes are one word, so one store, and no
/// covering load behind it.
#[tactic(auto, unfolding(can_log::specs::Digits::digits))]
pub(crate) fn six_decimals(number: u64) -> [u8; 8]
    ensures { result ≡ decimal 6 number ++ 0 ∷ 0 ∷ [] }
{
    let last = (number % 1_000_000) as u32;
    let rest = last % 10_000;
    let [a, b] = two_decimals(last / 10_000);
    let [c, d] = two_decimals(rest / 100);
    let [e, f] = two_decimals(rest % 100);
    u64::from_le_bytes([a, b, c, d, e, f, 0, 0]).to_le_bytes()
}

/// The four decimal digits of a number below 10,000, which are one word as well.
#[tactic(auto, unfolding(can_log::specs::Digits::digits))]
#[inline(always)]
pub(crate) fn four_decimals(number: u32) -> [u8; 4]
    requires { number < 10000 }
    ensures { result ≡ decimal 4 number }
{
    let [a, b] = two_decimals(number / 100);
    let [c, d] = two_decimals(number % 100);
    u32::from_le_bytes([a, b, c, d]).to_le_bytes()
}

/// The two decimal digits of a number below 100.
#[inline(always)]
pub(crate) fn two_decimals(number: u32) -> [u8; 2]
    requires { number < 100 }
    ensures { result ≡ decimal 2 number }
{
    let at = 2 * number as usize;
    [PAIRS[at], PAIRS[at + 1]]
}

/// The last three decimal digits of a number.
#[tactic(auto, unfolding(can_log::specs::Digits::digits))]
pub(crate) fn three_decimals(number: u64) -> [u8; 3]
    ensures { result ≡ decimal 3 number }
{
    let last = (number % 1_000) as u32;
    let [b, c] = two_decimals(last % 100);
    [digit((last / 100) as u8), b, c]
}

/// The two digits of a byte.
#[tactic(auto, unfolding(can_log::specs::Digits::digits))]
pub(crate) fn hexadecimal_digits(byte: u8) -> [u8; 2]
    ensures { result ≡ hexadecimal 2 byte }
{
    [digit(byte / 16), digit(byte % 16)]
}

/// The digit of a number below 16, in upper case; below 10 it is a decimal one, too.
fn digit(number: u8) -> u8
    requires { number < 16 }
    ensures { result ≡ Spec.digit number }
{
    DIGITS[usize::from(number)]
}

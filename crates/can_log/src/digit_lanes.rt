//! Sixteen digits at once, each in a lane of a vector: a line is written in few steps, and no digit waits for another.

ghost use Rattle.std.specs.Prelude.{◌≡◌, ◌/◌, ◌%◌, ◌^◌, ◌<◌, [], ◌∷◌, map, length};
ghost use Rattle.std.specs.List.{AllByRecursion, flat_map};
ghost use Rattle.can_log.specs.Digits.{digit, decimal, hexadecimal};

use std::simd::prelude::*;

/// The digits of the numbers below 16.
static DIGITS: [u8; 16] = *b"0123456789ABCDEF";

/// The last `WIDTH` hexadecimal digits of a number.
#[inline(always)]
pub(crate) fn hexadecimal_digits<const WIDTH: usize>(number: u32) -> [u8; WIDTH]
    ensures { result ≡ hexadecimal WIDTH number }
{
    let mut digits = [b'0'; WIDTH];
    let mut rest = number;
    for i in (0..WIDTH).rev() {
        digits[i] = DIGITS[(rest % 16) as usize];
        rest /= 16;
    }
    digits
}

/// The hexadecimal digits of eight bytes, two for each.
#[inline(always)]
pub fn digits_of_bytes(bytes: &[u8; 8]) -> [u8; 16]
    ensures { result ≡ flat_map (hexadecimal 2) bytes.now }
{
    let bytes = u8x8::from_slice(bytes);
    let high = bytes >> u8x8::splat(4);
    let low = bytes & u8x8::splat(15);
    digits_of_values(high.shuffle(
        low,
        [0, 8, 1, 9, 2, 10, 3, 11, 4, 12, 5, 13, 6, 14, 7, 15],
    )).to_array()
}

/// The sixteen decimal digits of a number.
#[inline(always)]
pub(crate) fn decimal_digits(number: u64) -> [u8; 16]
    requires { number < 10 ^ 16 }
    ensures { result ≡ decimal 16 number }
{
    let hundreds = base_hundred(number);
    let tens = hundreds / u16x8::splat(10);
    let ones = hundreds % u16x8::splat(10);
    let values: u16x16 = tens.shuffle(ones, [0, 8, 1, 9, 2, 10, 3, 11, 4, 12, 5, 13, 6, 14, 7, 15]);
    digits_of_values(values.cast::<u8>()).to_array()
}

/// A number in base 100, in eight places.
#[inline(always)]
fn base_hundred(number: u64) -> u16x8
    requires { number < 10 ^ 16 }
    ensures { result ≡ number / 10 ^ 14 % 100 ∷ number / 10 ^ 12 % 100 ∷ number / 10 ^ 10 % 100 ∷ number / 10 ^ 8 % 100
        ∷ number / 10 ^ 6 % 100 ∷ number / 10 ^ 4 % 100 ∷ number / 10 ^ 2 % 100 ∷ number % 100 ∷ [] }
{
    let high = (number / 100_000_000) as u32;
    let low = (number % 100_000_000) as u32;
    let fours = u16x4::from_array([
        (high / 10_000) as u16,
        (high % 10_000) as u16,
        (low / 10_000) as u16,
        (low % 10_000) as u16,
    ]);
    let high = fours / u16x4::splat(100);
    let low = fours % u16x4::splat(100);
    high.shuffle(low, [0, 4, 1, 5, 2, 6, 3, 7])
}

/// The digits of sixteen values below 16.
#[inline(always)]
fn digits_of_values(values: u8x16) -> u8x16
    requires long { length values ≡ 16 }
    requires each { AllByRecursion (λ v. v < 16) values }
    ensures { result ≡ map digit values }
{
    u8x16::from_array(DIGITS).swizzle_dyn(values)
}

//! Numbers as parts of a text, in decimal or as a hexadecimal digit, and times.
ghost use Rattle.std.specs.Prelude.{◌<◌, ◌≤◌, ◌++◌};
ghost use Rattle.std.specs.Fmt.{decimal};

use crate::digits::{four_decimals, last_digit, six_decimals, three_decimals, two_decimals};
use itoa::Buffer;
use text_parts::{Part, say};
use trace_io::TextSink;

/// A number in decimal, whole. Not inlined, as other long parts, so that a line of many parts stays small code.
#[derive(Clone, Copy)]
pub struct Number(pub u64);

impl Part for Number {
    ghost use Rattle.std.specs.Fmt.{decimal};

    ghost text = { λ number. decimal number.0 };

    #[inline(never)]
    fn say<S: TextSink>(self, out: &mut S) {
        let number = self.0;
        if number < 10_000 {
            say_short_number(number as u32, out);
        } else if number < 100_000_000 {
            let last = four_decimals(number as u32 % 10_000);
            say_number_before(number as u32 / 10_000, &last, &[], out);
        } else {
            say_long_number(number, out);
        }
    }
}

/// Says a number of at most four digits. It is [`say_number_before`] with nothing behind, apart from it since most
/// numbers are as short: one text is put in place of three.
#[inline(always)]
fn say_short_number<S: TextSink>(number: u32, out: &mut S)
    requires { number < 10000 }
    ensures { S.says out.old (decimal number) out.new }
{
    if number < 10 {
        out.put_whole(&[b'0' + number as u8]);
    } else if number < 100 {
        out.put_whole(&two_decimals(number));
    } else if number < 1_000 {
        out.put_whole(&four_decimals(number)[1..]);
    } else {
        out.put_whole(&four_decimals(number));
    }
}

/// Says such a number and two texts behind it, the later digits of a longer one, as one whole.
#[inline(always)]
fn say_number_before<S: TextSink>(number: u32, second: &[u8], third: &[u8], out: &mut S)
    requires { number < 10000 }
    ensures { S.says out.old (decimal number ++ second.now ++ third.now) out.new }
{
    if number < 10 {
        out.put_three(&[b'0' + number as u8], second, third);
    } else if number < 100 {
        out.put_three(&two_decimals(number), second, third);
    } else if number < 1_000 {
        out.put_three(&four_decimals(number)[1..], second, third);
    } else {
        out.put_three(&four_decimals(number), second, third);
    }
}

/// Says a number of more than eight digits, as seconds since 1970 have. One of more than twelve is rare.
#[inline(never)]
fn say_long_number<S: TextSink>(number: u64, out: &mut S)
    requires { 100000000 ≤ number }
    ensures { S.says out.old (decimal number) out.new }
{
    if number < 1_000_000_000_000 {
        let behind = (number % 100_000_000) as u32;
        let middle = four_decimals(behind / 10_000);
        let last = four_decimals(behind % 10_000);
        say_number_before((number / 100_000_000) as u32, &middle, &last, out);
    } else {
        out.put_whole(Buffer::new().format(number).as_bytes());
    }
}

/// The number of what is at a place, counted from 1.
#[derive(Clone, Copy)]
pub struct Ordinal(pub usize);

impl Part for Ordinal {
    ghost use Rattle.std.specs.Prelude.{◌+◌};
    ghost use Rattle.std.specs.Fmt.{decimal};

    ghost text = { λ place. decimal (place.0 + 1) };

    #[inline(never)]
    fn say<S: TextSink>(self, out: &mut S) {
        // One more than the largest place is no `usize`.
        out.put_whole(Buffer::new().format(self.0 as u128 + 1).as_bytes());
    }
}

/// A length in decimal.
#[derive(Clone, Copy)]
pub struct Length(pub u32);

impl Part for Length {
    ghost use Rattle.std.specs.Fmt.{decimal};

    ghost text = { λ length. decimal length.0 };

    fn say<S: TextSink>(self, out: &mut S) {
        say(out, Number(u64::from(self.0)));
    }
}

/// The last six decimal digits of a number.
#[derive(Clone, Copy)]
pub struct SixDecimals(pub u64);

impl Part for SixDecimals {
    ghost use Rattle.can_log.specs.Digits as digits;

    ghost text = { λ number. digits.decimal 6 number.0 };

    #[inline(never)]
    fn say<S: TextSink>(self, out: &mut S) {
        out.put_whole(&six_decimals(self.0)[..6]);
    }
}

/// The last three decimal digits of a number.
#[derive(Clone, Copy)]
pub struct ThreeDecimals(pub u64);

impl Part for ThreeDecimals {
    ghost use Rattle.can_log.specs.Digits as digits;

    ghost text = { λ number. digits.decimal 3 number.0 };

    fn say<S: TextSink>(self, out: &mut S) {
        out.put_whole(&three_decimals(self.0));
    }
}

/// The time of a frame, which is so many microseconds: its seconds, a dot, and six digits.
#[derive(Clone, Copy)]
pub struct Stamp(pub u64);

impl Part for Stamp {
    ghost use Rattle.trace_text.specs.Words.{stamp_text};

    ghost text = { λ stamp. stamp_text stamp.0 };

    #[inline(always)]
    fn say<S: TextSink>(self, out: &mut S) {
        say(out, (Number(self.0 / 1_000_000), ".", SixDecimals(self.0)));
    }
}

/// A number below 16, as one hexadecimal digit.
#[derive(Clone, Copy)]
pub struct HexadecimalDigit(pub u8);

impl Part for HexadecimalDigit {
    ghost use Rattle.can_log.specs.Digits.{hexadecimal};

    ghost text = { λ digit. hexadecimal 1 digit.0 };

    fn say<S: TextSink>(self, out: &mut S) {
        out.put(&last_digit(self.0));
    }
}

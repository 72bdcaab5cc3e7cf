//! The times of canonical lines, counted up from line to line.

ghost use Rattle.std.specs.Prelude.{◌≡◌, ◌+◌, ◌^◌, ◌<◌};
ghost use Rattle.can_log.specs.Canonical.{canonical_front, canonical_stamp};

use crate::digit_lanes::decimal_digits;
use std::marker::Model;
use std::simd::u8x16;

/// How many bytes a canonical line has before its identifier.
pub(crate) const FRONT: usize = 25;

/// How many of them tell the time. The others are the same in each line.
pub(crate) const STAMP: usize = 16;

/// Where the last digit of the milliseconds stands.
const LAST_DIGIT: usize = 14;

/// What is added to a stamp for one millisecond more, as long as no digit carries.
static ONE_MORE: [u8; STAMP] = [0, 0, 0, 0, 0, 0, 0, 0, 0, 0, 0, 0, 0, 0, 1, 0];

/// The time of a canonical line, with the bytes of the line that tell it. They are kept for the next line: of ten lines nine
/// differ there from the line before in one digit. All sixteen are loaded together where a line is said, so all are stored
/// together too: a load that covers a narrower store waits until that store has reached the cache.
#[derive(Clone, Copy)]
pub struct LineClock {
    millis: u64,
    stamp: [u8; STAMP],
}

impl Model for LineClock {
    ghost use Rattle.std.specs.Prelude.{◌≡◌, ℕ, ◌^◌, ◌<◌};
    ghost use Rattle.can_log.specs.Canonical.{canonical_stamp};

    ghost Value = { ℕ };

    ghost view = { λ clock. clock.millis };

    ghost invariant = { λ clock. (clock.millis < 10 ^ 13) × (clock.stamp ≡ canonical_stamp clock.millis) };

    ghost inverse = { λ millis. record { millis = millis; stamp = canonical_stamp millis } };
}

impl LineClock {
    /// The clock that stands at `millis` milliseconds.
    pub fn at(millis: u64) -> LineClock
        requires { millis < 10 ^ 13 }
        ensures { result ≡ millis }
    {
        LineClock {
            millis,
            stamp: stamp_at(millis),
        }
    }

    /// One millisecond later.
    #[inline(always)]
    pub fn advance(&mut self)
        requires { self.old + 1 < 10 ^ 13 }
        ensures { self.new ≡ self.old + 1 }
    {
        self.millis += 1;
        if self.stamp[LAST_DIGIT] == b'9' {
            self.stamp = stamp_at(self.millis);
        } else {
            let next = u8x16::from_slice(&self.stamp) + u8x16::from_slice(&ONE_MORE);
            next.copy_to_slice(&mut self.stamp);
        }
    }

    /// The bytes that tell the time: the first sixteen of the line.
    #[inline(always)]
    pub fn stamp(&self) -> &[u8; 16]
        ensures { result.now ≡ canonical_stamp self.now }
    {
        &self.stamp
    }

    /// The bytes before the identifier.
    #[inline(always)]
    pub(crate) fn front(&self) -> [u8; FRONT]
        ensures { result ≡ canonical_front self.now }
    {
        let mut front = *b"(0000000000.000000) can0 ";
        front[..STAMP].copy_from_slice(&self.stamp);
        front
    }
}

/// The bytes that tell the time, made anew. One line in ten needs them, so this stays out of the way of the others.
#[inline(never)]
fn stamp_at(millis: u64) -> [u8; STAMP]
    requires { millis < 10 ^ 13 }
    ensures { result ≡ canonical_stamp millis }
{
    let mut text = decimal_digits(millis / 1000 * 100_000 + millis % 1000 * 10);
    text[0] = b'(';
    text[11] = b'.';
    text
}

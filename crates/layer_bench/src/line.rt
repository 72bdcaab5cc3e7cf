//! The lines of a canonical log.

use arrayvec::ArrayVec;
use can_log::{Id, LONGEST_LINE, LineClock, append_line};

/// The milliseconds that a clock can count up from 0.
const MOST_LINES: u64 = 9_999_999_999_999;

/// The first and the last byte of each of the first `count` lines, added up. The lines of the two sides take turns, and each
/// has its own number for data.
pub(crate) fn sum_of_ends(count: u64) -> u64 {
    let mut sum = 0u64;
    let mut clock = LineClock::at(0);
    let mut line = ArrayVec::<u8, LONGEST_LINE>::new();
    for number in 0..count.min(MOST_LINES) {
        line.clear();
        append_line(&mut line, &clock, sender(number), &number.to_le_bytes());
        clock.advance();
        sum = sum.wrapping_add(ends_of(line.as_slice()));
    }
    sum
}

/// Whose line it is. Not inlined, so that no digit of an identifier is known before its line is written.
#[inline(never)]
fn sender(number: u64) -> Id {
    if number % 2 == 0 {
        Id::Std(0x7E0)
    } else {
        Id::Std(0x7E8)
    }
}

/// The first byte and the last, added up. Not inlined, so that all bytes of the line have to stand in it; to add them all up
/// would cost as much as the line.
#[inline(never)]
fn ends_of(line: &[u8]) -> u64 {
    match line {
        [first, .., last] => *first as u64 + *last as u64,
        _ => 0,
    }
}

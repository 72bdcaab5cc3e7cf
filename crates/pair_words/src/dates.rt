//! When a log was.

ghost use Rattle.std.specs.Prelude.{◌≡◌, ◌+◌, ◌%◌};
ghost use Rattle.can_log.specs.Digits.{decimal};

use calendar::{CivilTime, civil_time};
use text_parts::{Part, say};
use trace_io::TextSink;
use trace_text::Stamp;

/// So many seconds after 1970, in March 1973, stamps begin that have a date: a log that counts from power-on has less.
const FIRST_DATE: u64 = 100_000_000;

/// So many seconds after 1970 the year 10000 begins.
const YEAR_10000: u64 = 253_402_300_800;

/// A stamp, with its date where the stamp counts from 1970.
#[derive(Clone, Copy)]
pub struct Moment(pub u64);

impl Part for Moment {
    ghost use Rattle.pair_words.specs.Dates.{when_text};

    ghost text = { λ when. when_text when.0 };

    fn say<S: TextSink>(self, out: &mut S) {
        let seconds = self.0 / 1_000_000;
        if FIRST_DATE <= seconds && seconds < YEAR_10000 {
            say(
                out,
                (
                    "<span class=\"nw\">",
                    CivilDate(civil_time(seconds)),
                    "</span> <i>(",
                    Stamp(self.0),
                    ")</i>",
                ),
            );
        } else {
            say(out, ("<span class=\"nw\">", Stamp(self.0), "</span>"));
        }
    }
}

/// A time of a day, by the calendar.
#[derive(Clone, Copy)]
struct CivilDate(CivilTime);

impl Part for CivilDate {
    ghost use Rattle.pair_words.specs.Dates.{civil_text};

    ghost text = { λ time. civil_text time.0 };

    fn say<S: TextSink>(self, out: &mut S) {
        let CivilTime {
            date,
            hour,
            minute,
            second,
        } = self.0;
        say(
            out,
            (
                FourDigits(date.year),
                "-",
                TwoDigits(date.month),
                "-",
                TwoDigits(date.day),
                "&#160;",
                TwoDigits(hour),
                ":",
                TwoDigits(minute),
                ":",
                TwoDigits(second),
                "&#160;UTC",
            ),
        );
    }
}

/// The last two digits of a number.
#[derive(Clone, Copy)]
struct TwoDigits(u64);

impl Part for TwoDigits {
    ghost use Rattle.can_log.specs.Digits as digits;

    ghost text = { λ number. digits.decimal 2 number.0 };

    fn say<S: TextSink>(self, out: &mut S) {
        out.put_whole(&two_digits(self.0));
    }
}

/// The last four digits of a number.
#[derive(Clone, Copy)]
struct FourDigits(u64);

impl Part for FourDigits {
    ghost use Rattle.can_log.specs.Digits as digits;

    ghost text = { λ number. digits.decimal 4 number.0 };

    fn say<S: TextSink>(self, out: &mut S) {
        out.put_whole(&four_digits(self.0));
    }
}

/// The last two decimal digits.
fn two_digits(number: u64) -> [u8; 2]
    ensures { result ≡ decimal 2 number }
{
    [digit(number / 10), digit(number)]
}

/// The last four decimal digits.
fn four_digits(number: u64) -> [u8; 4]
    ensures { result ≡ decimal 4 number }
{
    [
        digit(number / 1_000),
        digit(number / 100),
        digit(number / 10),
        digit(number),
    ]
}

/// The last decimal digit.
fn digit(number: u64) -> u8
    ensures { result ≡ 48 + number % 10 }
{
    b'0' + (number % 10) as u8
}

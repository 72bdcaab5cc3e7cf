//! Times as differences.

use text_parts::{Part, When, say};
use trace_io::TextSink;
use trace_text::{Number, Stamp, ThreeDecimals};

/// The seconds from one time to another: a minus, where one is before another.
#[derive(Clone, Copy)]
pub struct Seconds(pub u64, pub u64);

impl Part for Seconds {
    ghost use Rattle.trace_report.specs.Durations.{seconds_between};

    ghost text = { λ time. seconds_between time.0 time.1 };

    fn say<S: TextSink>(self, out: &mut S) {
        let Seconds(from, to) = self;
        say(out, (When(from > to, "-"), Stamp(from.abs_diff(to))));
    }
}

/// So many microseconds, in milliseconds.
#[derive(Clone, Copy)]
pub struct Duration(pub u64);

impl Part for Duration {
    ghost use Rattle.trace_report.specs.Durations.{milliseconds_text};

    ghost text = { λ time. milliseconds_text time.0 };

    fn say<S: TextSink>(self, out: &mut S) {
        let micros = self.0;
        say(
            out,
            (
                Number(micros / 1000),
                ".",
                ThreeDecimals(micros),
                "&#160;ms",
            ),
        );
    }
}

/// The milliseconds from one time to another.
#[derive(Clone, Copy)]
pub(crate) struct Milliseconds(pub u64, pub u64);

impl Part for Milliseconds {
    ghost use Rattle.trace_report.specs.Durations.{milliseconds_between};

    ghost text = { λ time. milliseconds_between time.0 time.1 };

    fn say<S: TextSink>(self, out: &mut S) {
        let Milliseconds(from, to) = self;
        let between = from.abs_diff(to);
        say(out, (When(from > to, "-"), Duration(between)));
    }
}

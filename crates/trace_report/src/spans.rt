//! From when to when a log goes.

use crate::durations::Seconds;
use text_parts::{Part, say};
use trace_io::TextSink;
use trace_text::Stamp;

/// From when to when a log of so many frames goes, where it has some.
#[derive(Clone, Copy)]
pub struct SpanOf {
    pub frames: u64,
    pub first: u64,
    pub last: u64,
}

impl Part for SpanOf {
    ghost use Rattle.trace_report.specs.Verdict.{span_of};

    ghost text = { λ span. span_of span.frames span.first span.last };

    fn say<S: TextSink>(self, out: &mut S) {
        let SpanOf {
            frames,
            first,
            last,
        } = self;
        if frames > 0 {
            say(
                out,
                (
                    "<p class=\"span\">First frame at ",
                    Stamp(first),
                    ", last at ",
                    Stamp(last),
                    " by the clock of the log: ",
                    Seconds(first, last),
                    " s.</p>\n",
                ),
            );
        }
    }
}

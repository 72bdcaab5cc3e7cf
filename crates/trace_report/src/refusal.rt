//! Why a log is refused.

use crate::cause::{CauseLine, RefusalCause};
use crate::verdict_front::VerdictFront;
use text_parts::{Part, say};
use trace_io::TextSink;
use trace_log::Fault;
use trace_text::Number;

/// Where the rows of a log that is refused stop.
#[derive(Clone, Copy)]
pub(crate) struct StopLine(pub Fault);

impl Part for StopLine {
    ghost use Rattle.trace_report.specs.Verdict.{stop_line};

    ghost text = { λ stop. stop_line stop.0 };

    fn say<S: TextSink>(self, out: &mut S) {
        say(
            out,
            (
                "<p class=\"stop\"><b>Refused here:</b> ",
                Refusal(self.0),
                ".</p>\n",
            ),
        );
    }
}

/// The heading of a log that is refused, its sentences, and the cause, if one is known.
#[derive(Clone, Copy)]
pub(crate) struct RefusedHeading(pub Fault, pub Option<RefusalCause>);

impl Part for RefusedHeading {
    ghost use Rattle.trace_report.specs.Verdict.{refused_heading};

    ghost text = { λ heading. refused_heading heading.0 heading.1 };

    fn say<S: TextSink>(self, out: &mut S) {
        say(
            out,
            (
                VerdictFront("bad", "&#10005;"),
                "The log is refused</h2>\n<p><em>",
                Refusal(self.0),
                ".</em> Below is what the lines before that say; what comes after it is not read, and the counts are of the lines before.</p>\n",
                CauseLine(self.1),
            ),
        );
    }
}

/// Why a log is refused, as the program tells it.
#[derive(Clone, Copy)]
pub struct Refusal(pub Fault);

impl Part for Refusal {
    ghost use Rattle.trace_report.specs.Verdict.{refusal_words};

    ghost text = { λ why. refusal_words why.0 };

    fn say<S: TextSink>(self, out: &mut S) {
        match self.0 {
            Fault::BadLine { line, column } => say(
                out,
                (
                    "line ",
                    Number(line),
                    " column ",
                    Number(u64::from(column)),
                    ": not a log line",
                ),
            ),
            Fault::LogLimit => say(out, "log longer than the limit"),
            Fault::Oversize { .. }
            | Fault::OutputLimit
            | Fault::Read
            | Fault::Write
            | Fault::Memory => {}
        }
    }
}

//! The slowest answers, with links to their items.

use crate::durations::Duration;
use crate::links::LinkTo;
use crate::targets::LinkTarget;
use slow_answers::SlowAnswer;
use text_parts::{Part, When, say};
use trace_io::TextSink;
use trace_text::{Number, ServiceName};

/// The list of the slowest answers; nothing, where there is none.
#[derive(Clone, Copy)]
pub(crate) struct SlowestText<'a>(pub &'a [SlowAnswer]);

impl<'a> Part for SlowestText<'a> {
    ghost use Rattle.trace_report.specs.SlowestLines.{slowest_text};

    ghost text = { λ slow. slowest_text slow.0.now };

    fn say<S: TextSink>(self, out: &mut S) {
        if let Some((first, others)) = self.0.split_first() {
            say(
                out,
                (
                    "<p>Slowest answers, from the last frame of the request to the first one of the answer:</p>\n<ol class=\"look\">\n",
                    SlowLine(*first),
                    SlowLines(others),
                    "</ol>\n",
                ),
            );
        }
    }
}

/// The lines of these answers.
#[derive(Clone, Copy)]
struct SlowLines<'a>(&'a [SlowAnswer]);

impl<'a> Part for SlowLines<'a> {
    ghost use Rattle.trace_report.specs.SlowestLines.{slow_lines};

    ghost text = { λ lines. slow_lines lines.0.now };

    fn say<S: TextSink>(self, out: &mut S) {
        'answers: for answer in self.0 {
            say(out, SlowLine(*answer));
        }
    }
}

/// The line of an answer.
#[derive(Clone, Copy)]
struct SlowLine(SlowAnswer);

impl Part for SlowLine {
    ghost use Rattle.trace_report.specs.SlowestLines.{slow_line};

    ghost text = { λ line. slow_line line.0 };

    fn say<S: TextSink>(self, out: &mut S) {
        let SlowLine(answer) = self;
        say(
            out,
            (
                "<li>",
                LinkTo(LinkTarget::Item(answer.item)),
                " ",
                ServiceName(answer.service),
                " <b>",
                Duration(answer.micros),
                ("</b>", PendingWords(answer.pending), "\n"),
            ),
        );
    }
}

/// How many replies said that the request is pending, where some did.
#[derive(Clone, Copy)]
struct PendingWords(u64);

impl Part for PendingWords {
    ghost use Rattle.trace_report.specs.SlowestLines.{pending_words};

    ghost text = { λ words. pending_words words.0 };

    fn say<S: TextSink>(self, out: &mut S) {
        let count = self.0;
        say(out, When(count != 0, (", ", Number(count), " pending")));
    }
}

//! The counts of a report.

use crate::sorts::{Sort, needs_attention};
use crate::tally::SortCounts;
use text_parts::{Either, Part, When, say};
use trace_io::TextSink;
use trace_log::Summary;
use trace_text::Number;

/// All counts: of the log, of its requests and answers, of its other messages, and of what is missing.
#[derive(Clone, Copy)]
pub struct Counts<'a>(pub &'a SortCounts, pub &'a Summary);

impl<'a> Part for Counts<'a> {
    ghost use Rattle.trace_report.specs.Counts.{counts_text};

    ghost text = { λ all. counts_text all.0.now all.1.now };

    fn say<S: TextSink>(self, out: &mut S) {
        let Counts(counts, summary) = self;
        say(out, CountsWith(0, counts, summary));
    }
}

/// The same, with how many answers are other than was asked.
#[derive(Clone, Copy)]
pub(crate) struct CountsWith<'a>(pub u64, pub &'a SortCounts, pub &'a Summary);

impl<'a> Part for CountsWith<'a> {
    ghost use Rattle.trace_report.specs.Counts.{counts_with};

    ghost text = { λ all. counts_with all.0 all.1.now all.2.now };

    fn say<S: TextSink>(self, out: &mut S) {
        let CountsWith(others, counts, summary) = self;
        say(
            out,
            (
                "<dl class=\"counts\">\n",
                (
                    LogCount("lines", summary.lines),
                    LogCount("frames", summary.frames),
                    LogCount("messages", summary.messages),
                    When(
                        summary.left_out != 0,
                        LogCount("left out", summary.left_out),
                    ),
                ),
                (
                    SortCount(Sort::Requests, "requests", counts.requests),
                    SortCount(Sort::Positives, "positive", counts.positives),
                    SortCount(Sort::Negatives, "negative", counts.negatives),
                    SortCount(Sort::Unanswered, "no answer", counts.unanswered),
                    When(
                        counts.to_all_units != 0,
                        SortCount(
                            Sort::ToAllUnits,
                            "no answer (all units)",
                            counts.to_all_units,
                        ),
                    ),
                    SortCount(Sort::Silent, "silent", counts.silent),
                ),
                When(
                    others != 0,
                    CountLine {
                        needs_attention: true,
                        words: "other than asked",
                        count: others,
                    },
                ),
                (
                    SortCount(Sort::Pendings, "pending", counts.pendings),
                    SortCount(Sort::KeepAlives, "keep-alive", counts.keep_alives),
                    SortCount(Sort::Strays, "stray", counts.strays),
                ),
                (
                    SortCount(Sort::Dropped, "dropped", counts.dropped),
                    SortCount(Sort::Ended, "ended", counts.ended),
                    SortCount(Sort::Unfinished, "unfinished", counts.unfinished),
                ),
                "</dl>\n",
            ),
        );
    }
}

/// A count of the log under this name.
#[derive(Clone, Copy)]
struct LogCount(&'static str, u64);

impl Part for LogCount {
    ghost use Rattle.std.specs.Prelude.{false};
    ghost use Rattle.trace_report.specs.Counts.{count_line};

    ghost text = { λ plain. count_line false plain.0.now plain.1 };

    fn say<S: TextSink>(self, out: &mut S) {
        let LogCount(words, count) = self;
        say(
            out,
            CountLine {
                needs_attention: false,
                words,
                count,
            },
        );
    }
}

/// A count of the rows of this sort, under this name.
#[derive(Clone, Copy)]
struct SortCount(Sort, &'static str, u64);

impl Part for SortCount {
    ghost use Rattle.trace_report.specs.Counts.{sort_count};

    ghost text = { λ of. sort_count of.0 of.1.now of.2 };

    fn say<S: TextSink>(self, out: &mut S) {
        let SortCount(sort, words, count) = self;
        let line = CountLine {
            needs_attention: needs_attention(sort),
            words,
            count,
        };
        say(out, line);
    }
}

/// A count under this name, and whether what it counts needs attention.
#[derive(Clone, Copy)]
struct CountLine {
    needs_attention: bool,
    words: &'static str,
    count: u64,
}

impl Part for CountLine {
    ghost use Rattle.trace_report.specs.Counts.{count_line};

    ghost text = { λ line. count_line line.needs_attention line.words.now line.count };

    fn say<S: TextSink>(self, out: &mut S) {
        let CountLine {
            needs_attention,
            words,
            count,
        } = self;
        say(
            out,
            (
                "<div",
                Either(
                    count == 0,
                    " class=\"zero\"",
                    When(needs_attention, " class=\"hot\""),
                ),
                "><dt>",
                words,
                "</dt><dd>",
                Number(count),
                "</dd></div>\n",
            ),
        );
    }
}

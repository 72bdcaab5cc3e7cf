//! The verdict of a report: its heading, whether each answer is positive, what needs attention, the counts, and the
//! time that the log spans.

ghost use Rattle.std.specs.Prelude.{◌≡◌};
ghost use Rattle.trace_report.specs.Verdict as Spec;

use crate::cause::RefusalCause;
use crate::counts::CountsWith;
use crate::links::Attention;
use crate::other_answers::OtherAnswers;
use crate::reasons::{UncleanReasons, WordsUnder};
use crate::refusal::RefusedHeading;
use crate::slowest_lines::SlowestText;
use crate::spans::SpanOf;
use crate::tally::{SortCounts, Tally};
use crate::times::{Times, first_of, last_of};
use crate::verdict_front::VerdictFront;
use slow_answers::SlowAnswer;
use text_parts::{Either, Part, When, say};
use trace_io::TextSink;
use trace_log::{Fault, Summary};
use uds_rules::Rules;

/// What was found of a log: the rules that it is under, of how many messages each spoke, the tally of its rows, its
/// counts, the times of its first frame and its last one, its slowest answers, and those that are other than was asked.
#[derive(Clone, Copy)]
pub(crate) struct Findings<'a> {
    pub rules: &'a Rules,
    pub spoken: &'a [u64],
    pub tally: &'a Tally,
    pub summary: &'a Summary,
    pub times: Option<Times>,
    pub slowest: &'a [SlowAnswer],
    pub others: &'a OtherAnswers,
}

/// The verdict of a log of which this was found.
#[derive(Clone, Copy)]
pub(crate) struct VerdictSection<'a>(pub Findings<'a>);

impl<'a> Part for VerdictSection<'a> {
    ghost use Rattle.trace_report.specs.Verdict.{verdict_text};
    ghost use Rattle.trace_report.specs.proving.Lending.{findings_value};

    ghost text = { λ verdict. verdict_text (findings_value verdict.0) };

    fn say<S: TextSink>(self, out: &mut S) {
        let found = self.0;
        say(
            out,
            (
                Heading(found.rules, found.summary),
                AnswersOf(found.rules, &found.tally.counts),
                OtherSentence(found.rules, found.others.count),
                "</p>\n",
                FindingsText(found),
            ),
        );
    }
}

/// The verdict of a log that is refused, with the cause, if one is known, by what was found of the lines before.
#[derive(Clone, Copy)]
pub(crate) struct RefusedVerdict<'a> {
    pub why: Fault,
    pub cause: Option<RefusalCause>,
    pub found: Findings<'a>,
}

impl<'a> Part for RefusedVerdict<'a> {
    ghost use Rattle.trace_report.specs.Verdict.{refused_verdict};
    ghost use Rattle.trace_report.specs.proving.Lending.{findings_value};

    ghost text = { λ verdict. refused_verdict verdict.why verdict.cause (findings_value verdict.found) };

    fn say<S: TextSink>(self, out: &mut S) {
        say(
            out,
            (
                RefusedHeading(self.why, self.cause),
                FindingsText(self.found),
            ),
        );
    }
}

/// What was found of a log, behind the heading of its verdict.
#[derive(Clone, Copy)]
struct FindingsText<'a>(Findings<'a>);

impl<'a> Part for FindingsText<'a> {
    ghost use Rattle.trace_report.specs.Verdict.{findings_text};
    ghost use Rattle.trace_report.specs.proving.Lending.{findings_value};

    ghost text = { λ found. findings_text (findings_value found.0) };

    fn say<S: TextSink>(self, out: &mut S) {
        let Findings {
            tally,
            summary,
            times,
            slowest,
            others,
            ..
        } = self.0;
        say(
            out,
            (
                Attention(tally, others),
                CountsWith(others.count, &tally.counts, summary),
                SpanOf {
                    frames: summary.frames,
                    first: first_of(times),
                    last: last_of(times),
                },
                SlowestText(slowest),
                "</section>\n",
            ),
        );
    }
}

/// The heading of a log that is read to its end, and its sentence.
#[derive(Clone, Copy)]
struct Heading<'a>(&'a Rules, &'a Summary);

impl<'a> Part for Heading<'a> {
    ghost use Rattle.trace_report.specs.Verdict.{heading_text};

    ghost text = { λ heading. heading_text heading.0.now heading.1.now };

    fn say<S: TextSink>(self, out: &mut S) {
        let Heading(rules, summary) = self;
        if is_called_clean(summary) {
            say(
                out,
                (
                    VerdictFront("good", "&#10003;"),
                    "The recording is clean</h2>\n",
                    "<p>No frame of the two identifiers was dropped, and no message is in part.",
                ),
            );
        } else {
            say(
                out,
                (UncleanHeading(summary), UncleanReasons(rules, summary)),
            );
        }
    }
}

/// Whether a page calls the recording clean: it is, and tester and unit don't look exchanged.
pub fn is_called_clean(summary: &Summary) -> bool
    ensures { result ≡ Spec.is_called_clean summary.now }
{
    summary.is_clean() && !summary.looks_exchanged
}

/// The heading of a log that has no frame of the two sides, or whose sides look exchanged, or that is not clean.
#[derive(Clone, Copy)]
struct UncleanHeading<'a>(&'a Summary);

impl<'a> Part for UncleanHeading<'a> {
    ghost use Rattle.trace_report.specs.Verdict.{unclean_heading};

    ghost text = { λ heading. unclean_heading heading.0.now };

    fn say<S: TextSink>(self, out: &mut S) {
        let summary = self.0;
        say(
            out,
            (VerdictFront("warn", "!"), StartWords(summary), "</h2>\n<p>"),
        );
    }
}

/// The words of that heading.
#[derive(Clone, Copy)]
struct StartWords<'a>(&'a Summary);

impl<'a> Part for StartWords<'a> {
    ghost use Rattle.trace_report.specs.Verdict.{start_words};

    ghost text = { λ words. start_words words.0.now };

    fn say<S: TextSink>(self, out: &mut S) {
        let summary = self.0;
        say(
            out,
            Either(
                summary.frames == 0,
                "No frame of the tester or the unit",
                Either(
                    summary.is_clean(),
                    "Tester and unit look exchanged",
                    (
                        "The recording is not clean",
                        When(
                            summary.looks_exchanged,
                            ", and tester and unit look exchanged",
                        ),
                    ),
                ),
            ),
        );
    }
}

/// Whether each answer is positive that rules leave, where they leave something that was asked.
#[derive(Clone, Copy)]
struct AnswersOf<'a>(&'a Rules, &'a SortCounts);

impl<'a> Part for AnswersOf<'a> {
    ghost use Rattle.trace_report.specs.Verdict.{answers_of};

    ghost text = { λ answers. answers_of answers.0.now answers.1.now };

    fn say<S: TextSink>(self, out: &mut S) {
        let AnswersOf(rules, counts) = self;
        if counts.requests == 0 {
            return;
        }
        if counts.negatives == 0 && counts.unanswered == 0 {
            say(
                out,
                WordsUnder {
                    rules,
                    whole: " No answer is negative, and none is missing.",
                    left: " Of what the rules leave, no answer is negative, and none is missing.",
                },
            );
        } else {
            say(
                out,
                WordsUnder {
                    rules,
                    whole: " Not every request has a positive answer.",
                    left: " Of what the rules leave, not every request has a positive answer.",
                },
            );
        }
    }
}

/// That not every answer is to what was asked, where so many are not.
#[derive(Clone, Copy)]
struct OtherSentence<'a>(&'a Rules, u64);

impl<'a> Part for OtherSentence<'a> {
    ghost use Rattle.trace_report.specs.Verdict.{other_sentence};

    ghost text = { λ sentence. other_sentence sentence.0.now sentence.1 };

    fn say<S: TextSink>(self, out: &mut S) {
        let OtherSentence(rules, count) = self;
        if count > 0 {
            say(
                out,
                WordsUnder {
                    rules,
                    whole: " Not every answer is to what was asked.",
                    left: " Of what the rules leave, not every answer is to what was asked.",
                },
            );
        }
    }
}

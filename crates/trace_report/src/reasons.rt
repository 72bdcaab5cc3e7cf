//! Why a recording is not called clean.

ghost use Rattle.std.specs.Prelude.{◌≡◌};
ghost use Rattle.trace_report.specs.Verdict as Spec;

use text_parts::{Either, Part, When, say};
use trace_io::TextSink;
use trace_log::Summary;
use trace_text::Number;
use uds_rules::Rules;

/// Each reason why a recording is not called clean: of one that is not clean what `--strict` tells of it; and what that
/// means for the messages, by the rules that these are under.
#[derive(Clone, Copy)]
pub struct UncleanReasons<'a>(pub &'a Rules, pub &'a Summary);

impl<'a> Part for UncleanReasons<'a> {
    ghost use Rattle.trace_report.specs.Verdict.{unclean_reasons};

    ghost text = { λ reasons. unclean_reasons reasons.0.now reasons.1.now };

    fn say<S: TextSink>(self, out: &mut S) {
        let UncleanReasons(rules, summary) = self;
        say(
            out,
            (
                When(!summary.is_clean(), StrictWords(summary)),
                MeaningWords(rules, summary),
            ),
        );
    }
}

/// What was lost of the frames of a recording, and what it lacks, in the words that `--strict` tells it.
#[derive(Clone, Copy)]
struct StrictWords<'a>(&'a Summary);

impl<'a> Part for StrictWords<'a> {
    ghost use Rattle.trace_report.specs.Verdict.{strict_words};

    ghost text = { λ words. strict_words words.0.now };

    fn say<S: TextSink>(self, out: &mut S) {
        let summary = self.0;
        say(
            out,
            (
                (
                    "<em>frames ",
                    Number(summary.frames),
                    " dropped ",
                    Number(summary.dropped),
                    " ended ",
                    Number(summary.ended),
                    " unfinished ",
                    Number(summary.unfinished),
                ),
                (
                    When(summary.tester_frames == 0, ", no frame of the tester"),
                    When(summary.unit_frames == 0, ", no frame of the unit"),
                    When(summary.lacks_line_feed(), ", no line feed at the end"),
                    ".</em>",
                ),
            ),
        );
    }
}

/// What it means for the messages of a page that a recording is not called clean.
#[derive(Clone, Copy)]
struct MeaningWords<'a>(&'a Rules, &'a Summary);

impl<'a> Part for MeaningWords<'a> {
    ghost use Rattle.trace_report.specs.Verdict.{meaning_words};

    ghost text = { λ words. meaning_words words.0.now words.1.now };

    fn say<S: TextSink>(self, out: &mut S) {
        let MeaningWords(rules, summary) = self;
        say(
            out,
            (
                When(
                    is_partial(summary),
                    " Frames are missing, late, out of order or of no legal form. Messages that they belonged to are not below.",
                ),
                When(
                    summary.lacks_line_feed(),
                    " The log ends inside its last line: it may be cut.",
                ),
                When(
                    summary.frames == 0,
                    Either(
                        summary.lines == 0,
                        " The log is empty: it has no line.",
                        (
                            " Either no line has a frame, or other identifiers are meant: see ",
                            OptionsWords,
                        ),
                    ),
                ),
                When(
                    summary.looks_exchanged,
                    (
                        When(!summary.is_clean(), " "),
                        WordsUnder {
                            rules,
                            whole: "No message is a request",
                            left: "Of what the rules leave, no message is a request",
                        },
                        ": the tester sent responses, and the unit messages that are none. See ",
                        OptionsWords,
                    ),
                ),
            ),
        );
    }
}

/// The options that say which identifiers are meant.
#[derive(Clone, Copy)]
struct OptionsWords;

impl Part for OptionsWords {
    ghost use Rattle.trace_report.specs.Verdict.{options_words};

    ghost text = { λ words. options_words };

    fn say<S: TextSink>(self, out: &mut S) {
        say(out, "<code>--tester</code> and <code>--unit</code>.");
    }
}

/// The words of a log without rules, and those of what rules leave of one.
#[derive(Clone, Copy)]
pub(crate) struct WordsUnder<'a> {
    pub rules: &'a Rules,
    pub whole: &'static str,
    pub left: &'static str,
}

impl<'a> Part for WordsUnder<'a> {
    ghost use Rattle.trace_report.specs.Verdict.{words_under};

    ghost text = { λ words. words_under words.rules.now words.whole.now words.left.now };

    fn say<S: TextSink>(self, out: &mut S) {
        let WordsUnder { rules, whole, left } = self;
        if rules.is_empty() {
            say(out, whole);
        } else {
            say(out, left);
        }
    }
}

/// Whether of what was recorded something is in part.
fn is_partial(summary: &Summary) -> bool
    ensures { result ≡ Spec.is_partial summary.now }
{
    summary.dropped != 0 || summary.ended != 0 || summary.unfinished != 0
}

//! The end of a report: how to read it, and the sign that it is whole.

use text_parts::{Part, When, say};
use trace_io::TextSink;

/// The end of a page, which has answers or has none.
#[derive(Clone, Copy)]
pub(crate) struct Help(pub bool);

impl Part for Help {
    ghost use Rattle.trace_report.specs.Help.{help_text};

    ghost text = { λ help. help_text help.0 };

    fn say<S: TextSink>(self, out: &mut S) {
        say(
            out,
            (
                HelpFront(self.0),
                Legend,
                Limits,
                " In a long session the first ten blocks are open, and the others folded and brief.",
                Tail,
            ),
        );
    }
}

/// What a page shows, which has answers or has none.
#[derive(Clone, Copy)]
struct HelpFront(bool);

impl Part for HelpFront {
    ghost use Rattle.trace_report.specs.Help.{help_front};

    ghost text = { λ start. help_front start.0 };

    fn say<S: TextSink>(self, out: &mut S) {
        say(
            out,
            (
                HelpHeading,
                "<p>The left line is the tester, the right line the unit. Each arrow is a message, however many frames carried it, in the order in which the messages were complete. ",
                When(
                    self.0,
                    "A positive answer that has other bytes than its request where it should repeat them (ISO 14229-1) says what it answers and what was asked; a masked byte is not compared. ",
                ),
                TimesWords(self.0),
            ),
        );
    }
}

/// The heading.
#[derive(Clone, Copy)]
pub struct HelpHeading;

impl Part for HelpHeading {
    ghost use Rattle.trace_report.specs.Help.{help_heading};

    ghost text = { λ heading. help_heading };

    fn say<S: TextSink>(self, out: &mut S) {
        say(
            out,
            "<footer id=\"help\">\n<h2>How to read this page</h2>\n",
        );
    }
}

/// Which times are told, where there are answers or are none.
#[derive(Clone, Copy)]
struct TimesWords(bool);

impl Part for TimesWords {
    ghost use Rattle.trace_report.specs.Help.{times_words};

    ghost text = { λ words. times_words words.0 };

    fn say<S: TextSink>(self, out: &mut S) {
        say(
            out,
            (
                "Times are in seconds from the first frame of the two identifiers, and those of a message are of its last frame; <i>after</i> is the time from the last frame of the request to the first frame of the reply, with a minus where the clock of the log went back.",
                When(
                    self.0,
                    " The slowest answers of the verdict go by that time, but for any with a minus, and say how many replies before them were pending.",
                ),
                "</p>\n",
            ),
        );
    }
}

/// What each row is.
#[derive(Clone, Copy)]
pub struct Legend;

impl Part for Legend {
    ghost use Rattle.trace_report.specs.Help.{legend_text};

    ghost text = { λ legend. legend_text };

    fn say<S: TextSink>(self, out: &mut S) {
        say(
            out,
            (
                "<dl class=\"legend\">\n",
                ExchangeLegend,
                OthersLegend,
                "</dl>\n",
            ),
        );
    }
}

/// What the rows of an exchange are.
#[derive(Clone, Copy)]
struct ExchangeLegend;

impl Part for ExchangeLegend {
    ghost use Rattle.trace_report.specs.Help.{exchange_legend};

    ghost text = { λ legend. exchange_legend };

    fn say<S: TextSink>(self, out: &mut S) {
        say(
            out,
            (
                "<div class=\"q\"><dt>request</dt><dd>opens an item; its number is that of <code>udsnorm list</code></dd></div>\n",
                "<div class=\"ok\"><dt>positive</dt><dd>the answer of the unit</dd></div>\n",
                "<div class=\"n\"><dt>negative</dt><dd>the answer of the unit, with the name of its response code</dd></div>\n",
                "<div class=\"p\"><dt>pending</dt><dd>says that the answer will be late; no part of what is compared</dd></div>\n",
                "<div class=\"m\"><dt>no answer</dt><dd>none came before the next request or the end of the log</dd></div>\n",
                "<div class=\"p\"><dt>silent</dt><dd>none came, and the request asked for none</dd></div>\n",
            ),
        );
    }
}

/// What the rows of no exchange are.
#[derive(Clone, Copy)]
struct OthersLegend;

impl Part for OthersLegend {
    ghost use Rattle.trace_report.specs.Help.{others_legend};

    ghost text = { λ legend. others_legend };

    fn say<S: TextSink>(self, out: &mut S) {
        say(
            out,
            (
                "<div class=\"p\"><dt>keep-alive</dt><dd>3E 80, which wants no answer</dd></div>\n",
                "<div class=\"s\"><dt>stray</dt><dd>a message that belongs to no exchange, an item of its own</dd></div>\n",
                "<div class=\"x\"><dt>dropped</dt><dd>a frame that belongs to no complete message</dd></div>\n",
                "<div class=\"x\"><dt>ended, unfinished</dt><dd>a message of which not all frames came</dd></div>\n",
            ),
        );
    }
}

/// What a page does not show.
#[derive(Clone, Copy)]
pub struct Limits;

impl Part for Limits {
    ghost use Rattle.trace_report.specs.Help.{limits_text};

    ghost text = { λ limits. limits_text };

    fn say<S: TextSink>(self, out: &mut S) {
        say(
            out,
            (
                "<p>Frames with other identifiers, padding, the interface, and flow control that is in its place mean nothing here. A message of which no frame was recorded leaves no trace, also in a clean recording. ",
                "Grey letters after the bytes are those same bytes as text, with a dot for each that is no letter, digit or blank, nor one of <code>- . / : _</code>. ",
                NamesWords,
            ),
        );
    }
}

/// What the names behind bytes are, and of which edition of a standard, and trouble codes.
#[derive(Clone, Copy)]
struct NamesWords;

impl Part for NamesWords {
    ghost use Rattle.trace_report.specs.Help.{names_words};

    ghost text = { λ words. names_words };

    fn say<S: TextSink>(self, out: &mut S) {
        say(
            out,
            (
                "Small words in brackets behind the bytes are names that the standards have for the first ones: for many sub-functions, data identifiers and routines. ",
                "They are those of ISO 14229-1:2020, but for 0F to 13 of ReadDTCInformation, which are of its edition of 2013. Only that of 2020 has 56 there, and the response codes 34, 38 to 3A, 50 to 5D and 94. ",
                "A service of OBD (ISO 15031-5) or of KWP2000 (ISO 14230) has its name where a message begins as a request of it does.",
                " The trouble codes of a response of ReadDTCInformation are read as those of SAE J2012, of whatever format they are, each with the names of the bits that are 1 in its status; of more than 16 the others are counted.",
            ),
        );
    }
}

/// The sign that the page is whole.
#[derive(Clone, Copy)]
pub struct Tail;

impl Part for Tail {
    ghost use Rattle.trace_report.specs.Help.{tail_text};

    ghost text = { λ tail. tail_text };

    fn say<S: TextSink>(self, out: &mut S) {
        say(
            out,
            "</p>\n</footer>\n</div>\n<p id=\"end\">End of the report.</p>\n</body>\n</html>\n",
        );
    }
}

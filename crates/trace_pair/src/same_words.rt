//! The words of a verdict over two sessions that don't differ.

ghost use Rattle.std.specs.Prelude.{◌≡◌};
ghost use Rattle.trace_pair.specs.Verdict.{is_beyond_doubt};

use text_parts::{Either, Part, say};
use trace_io::TextSink;
use trace_report::{RulesWord, VerdictFront};
use trace_text::Number;

/// None of the two has an item.
#[derive(Clone, Copy)]
pub(crate) struct NothingVerdict;

impl Part for NothingVerdict {
    ghost use Rattle.trace_pair.specs.Verdict.{nothing_verdict};

    ghost text = { λ verdict. nothing_verdict };

    fn say<S: TextSink>(self, out: &mut S) {
        say(
            out,
            (
                VerdictFront("warn", "!"),
                "Neither session has an item</h2>\n",
                "<p>So they can't differ. Below stands what each recording has.</p>\n",
            ),
        );
    }
}

/// The heading of sessions that are the same, under so many rules: in green only where they are so without a doubt, and
/// under none.
#[derive(Clone, Copy)]
pub(crate) struct SameHeading {
    pub rules: u64,
    pub exchanged: bool,
    pub asked: bool,
    pub left_clean: bool,
    pub right_clean: bool,
}

impl SameHeading {
    /// Whether both logs are clean, something was asked, and the sides look right.
    fn is_beyond_doubt(self) -> bool
        ensures { result ≡ is_beyond_doubt self.exchanged self.asked self.left_clean self.right_clean }
    {
        !self.exchanged && self.asked && self.left_clean && self.right_clean
    }
}

impl Part for SameHeading {
    ghost use Rattle.trace_pair.specs.Verdict.{same_heading};

    ghost text = { λ heading. same_heading heading.rules heading.exchanged heading.asked heading.left_clean heading.right_clean };

    fn say<S: TextSink>(self, out: &mut S) {
        say(
            out,
            (
                SameStart(self.rules, self.is_beyond_doubt()),
                RecordedWords {
                    left_clean: self.left_clean,
                    right_clean: self.right_clean,
                },
                DoubtWords {
                    exchanged: self.exchanged,
                    asked: self.asked,
                },
                "</h2>\n",
            ),
        );
    }
}

/// The start of that heading under so many rules, without a doubt or with one.
#[derive(Clone, Copy)]
struct SameStart(u64, bool);

impl Part for SameStart {
    ghost use Rattle.trace_pair.specs.Verdict.{same_start};

    ghost text = { λ start. same_start start.0 start.1 };

    fn say<S: TextSink>(self, out: &mut S) {
        let SameStart(rules, beyond_doubt) = self;
        let doubt = VerdictFront("warn", "!");
        say(
            out,
            (
                Either(beyond_doubt, SameHead(rules), doubt),
                "The two sessions are the same",
                UnderWords(rules),
            ),
        );
    }
}

/// The head of sessions that are the same without a doubt: in green where they are under no rule, and else in a colour
/// and with a sign of its own.
#[derive(Clone, Copy)]
struct SameHead(u64);

impl Part for SameHead {
    ghost use Rattle.trace_pair.specs.Verdict.{same_head};

    ghost text = { λ head. same_head head.0 };

    fn say<S: TextSink>(self, out: &mut S) {
        let green = VerdictFront("good", "=");
        let ruled = VerdictFront("ruled", "&#8776;");
        say(out, Either(self.0 == 0, green, ruled));
    }
}

/// That sessions are under so many rules, where they are under one.
#[derive(Clone, Copy)]
struct UnderWords(u64);

impl Part for UnderWords {
    ghost use Rattle.trace_pair.specs.Verdict.{under_words};

    ghost text = { λ words. under_words words.0 };

    fn say<S: TextSink>(self, out: &mut S) {
        if self.0 > 0 {
            say(out, (" under ", RulesWord(self.0)));
        }
    }
}

/// How far two sessions are known to be the same, by whether each log is clean.
#[derive(Clone, Copy)]
struct RecordedWords {
    left_clean: bool,
    right_clean: bool,
}

impl Part for RecordedWords {
    ghost use Rattle.trace_pair.specs.Verdict.{recorded_words};

    ghost text = { λ words. recorded_words words.left_clean words.right_clean };

    fn say<S: TextSink>(self, out: &mut S) {
        match (self.left_clean, self.right_clean) {
            (true, true) => {}
            (true, false) => say(out, " as far as they are recorded: B is not clean"),
            (false, true) => say(out, " as far as they are recorded: A is not clean"),
            (false, false) => say(out, " as far as they are recorded: neither is clean"),
        }
    }
}

/// Why two sessions say little that are the same.
#[derive(Clone, Copy)]
struct DoubtWords {
    exchanged: bool,
    asked: bool,
}

impl Part for DoubtWords {
    ghost use Rattle.trace_pair.specs.Verdict.{doubt_words};

    ghost text = { λ words. doubt_words words.exchanged words.asked };

    fn say<S: TextSink>(self, out: &mut S) {
        let unasked = Either(self.asked, "", ", and neither has a request");
        say(
            out,
            Either(
                self.exchanged,
                ", but tester and unit look exchanged",
                unasked,
            ),
        );
    }
}

/// That so many items are the same, under so many rules.
#[derive(Clone, Copy)]
pub(crate) struct SameItems(pub u64, pub usize);

impl Part for SameItems {
    ghost use Rattle.trace_pair.specs.Verdict.{same_items};

    ghost text = { λ items. same_items items.0 items.1 };

    fn say<S: TextSink>(self, out: &mut S) {
        let SameItems(rules, count) = self;
        let each = EachItem(rules, count);
        say(
            out,
            ("<p>", each, " is equal in both, byte for byte.</p>\n"),
        );
    }
}

/// So many items in front of what is said of each: all, or those that so many rules leave.
#[derive(Clone, Copy)]
struct EachItem(u64, usize);

impl Part for EachItem {
    ghost use Rattle.trace_pair.specs.Verdict.{each_item};

    ghost text = { λ items. each_item items.0 items.1 };

    fn say<S: TextSink>(self, out: &mut S) {
        let EachItem(rules, count) = self;
        let one = Either(rules == 0, "One item", "Of what the rules leave, one item");
        let each = Either(
            rules == 0,
            "Each of the ",
            "Of what the rules leave, each of the ",
        );
        let several = (each, Number(count as u64), " items");
        say(out, Either(count == 1, one, several));
    }
}

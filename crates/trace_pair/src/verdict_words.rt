//! The words of a verdict over two sessions.

ghost use Rattle.std.specs.Prelude.{◌≡◌, ◌==◌, ◌+◌};

use text_parts::{Either, Part, say};
use trace_io::TextSink;
use trace_report::VerdictFront;
use trace_text::Number;

/// A page with more rows is a large one.
const LARGE_PAGE: usize = 100_000;

/// So many items.
#[derive(Clone, Copy)]
pub(crate) struct ItemsWord(pub u64);

impl Part for ItemsWord {
    ghost use Rattle.trace_pair.specs.Verdict.{items_word};

    ghost text = { λ word. items_word word.0 };

    fn say<S: TextSink>(self, out: &mut S) {
        let several = (Number(self.0), " items");
        say(out, Either(self.0 == 1, "1 item", several));
    }
}

/// The heading of sessions that differ: how many changes there are, and how many rows of each kind.
#[derive(Clone, Copy)]
pub(crate) struct DifferentHeading {
    pub differences: u64,
    pub same: u64,
    pub left: u64,
    pub right: u64,
    pub changed: u64,
}

impl Part for DifferentHeading {
    ghost use Rattle.trace_pair.specs.Verdict.{different_heading};

    ghost text = { λ heading. different_heading heading.differences heading.same heading.left heading.right heading.changed };

    fn say<S: TextSink>(self, out: &mut S) {
        let several = (Number(self.differences), " differences: ");
        say(
            out,
            (
                VerdictFront("warn", "&#8800;"),
                Either(self.differences == 1, "1 difference: ", several),
                CountsWords {
                    left: self.left,
                    right: self.right,
                    changed: self.changed,
                },
                "</h2>\n<p>",
                SameWords(self.same),
                " <a href=\"#difference\">",
                Either(
                    self.differences == 1,
                    "See the difference.",
                    "See the first difference.",
                ),
                "</a></p>\n",
            ),
        );
    }
}

/// How many items only one session has, and how many changed.
#[derive(Clone, Copy)]
struct CountsWords {
    left: u64,
    right: u64,
    changed: u64,
}

impl Part for CountsWords {
    ghost use Rattle.trace_pair.specs.Verdict.{counts_words};

    ghost text = { λ counts. counts_words counts.left counts.right counts.changed };

    fn say<S: TextSink>(self, out: &mut S) {
        let CountsWords {
            left,
            right,
            changed,
        } = self;
        say(
            out,
            (
                Either(left == 0, (), (ItemsWord(left), " only in A")),
                Either(
                    right == 0,
                    (),
                    (
                        Either(left == 0, ItemsWord(right), (", ", Number(right))),
                        " only in B",
                    ),
                ),
                Either(
                    changed == 0,
                    (),
                    (
                        Either(
                            are_none(left, right),
                            ItemsWord(changed),
                            (", ", Number(changed)),
                        ),
                        " changed",
                    ),
                ),
            ),
        );
    }
}

/// Whether neither session has an item alone.
fn are_none(left: u64, right: u64) -> bool
    ensures { result ≡ (left + right == 0) }
{
    left == 0 && right == 0
}

/// How many items are the same.
#[derive(Clone, Copy)]
struct SameWords(u64);

impl Part for SameWords {
    ghost use Rattle.trace_pair.specs.Verdict.{same_words};

    ghost text = { λ words. same_words words.0 };

    fn say<S: TextSink>(self, out: &mut S) {
        match self.0 {
            0 => say(out, "No item is the same."),
            1 => say(out, "<b>1</b> item is the same."),
            several => say(out, ("<b>", Number(several), "</b> items are the same.")),
        }
    }
}

/// That a shorter difference may be there, where up to this bound none was found to be the shortest.
#[derive(Clone, Copy)]
pub(crate) struct BoundLine(pub bool, pub usize);

impl Part for BoundLine {
    ghost use Rattle.trace_pair.specs.Verdict.{bound_line};

    ghost text = { λ line. bound_line line.0 line.1 };

    fn say<S: TextSink>(self, out: &mut S) {
        if !self.0 {
            say(
                out,
                (
                    "<p>Perhaps not the shortest: more than ",
                    Number(self.1 as u64),
                    " items would be removed or added.</p>\n",
                ),
            );
        }
    }
}

/// How many rows a large page has, and what gives a part of it.
#[derive(Clone, Copy)]
pub(crate) struct SizeLine(pub usize);

impl Part for SizeLine {
    ghost use Rattle.trace_pair.specs.Verdict.{size_line};

    ghost text = { λ line. size_line line.0 };

    fn say<S: TextSink>(self, out: &mut S) {
        if self.0 > LARGE_PAGE {
            say(
                out,
                (
                    "<p>This page has ",
                    Number(self.0 as u64),
                    " rows. <code>udsnorm diff</code> has the differences alone, and <code>udsnorm list</code> any part of a session.</p>\n",
                ),
            );
        }
    }
}

//! What needs attention, with links to it.

ghost use Rattle.std.specs.Prelude.{◌≡◌};
ghost use Rattle.trace_report.specs.Links as Spec;

use crate::other_answers::OtherAnswers;
use crate::tally::{MOST_LINKS, SortCounts, Tally, Targets};
use crate::targets::LinkTarget;
use text_parts::{Part, say};
use trace_io::TextSink;
use trace_text::{Number, Sender};

/// What needs attention, where something does, by its sort.
#[derive(Clone, Copy)]
pub(crate) struct Attention<'a>(pub &'a Tally, pub &'a OtherAnswers);

impl<'a> Part for Attention<'a> {
    ghost use Rattle.trace_report.specs.Links.{attention_text};

    ghost text = { λ attention. attention_text attention.0.now attention.1.now };

    fn say<S: TextSink>(self, out: &mut S) {
        let Attention(tally, others) = self;
        let counts = &tally.counts;
        let first = &tally.first;
        if needs_no_attention(counts) && others.count == 0 {
            return;
        }
        say(
            out,
            (
                "<ul class=\"look\">\n",
                (
                    AttentionLine("dropped frames", counts.dropped, &first.dropped),
                    AttentionLine("ended early", counts.ended, &first.ended),
                    AttentionLine("unfinished", counts.unfinished, &first.unfinished),
                    AttentionLine("negative answers", counts.negatives, &first.negatives),
                    AttentionLine("other than asked", others.count, &others.first),
                    AttentionLine("without an answer", counts.unanswered, &first.unanswered),
                    AttentionLine("strays", counts.strays, &first.strays),
                ),
                "</ul>\n",
            ),
        );
    }
}

/// Whether nothing needs attention.
fn needs_no_attention(counts: &SortCounts) -> bool
    ensures { result ≡ Spec.needs_no_attention counts.now }
{
    counts.dropped == 0
        && counts.ended == 0
        && counts.unfinished == 0
        && counts.negatives == 0
        && counts.unanswered == 0
        && counts.strays == 0
}

/// What needs attention for one reason, in these words, where something does: how many rows do, and links to the first.
#[derive(Clone, Copy)]
struct AttentionLine<'a>(&'static str, u64, &'a Targets);

impl<'a> Part for AttentionLine<'a> {
    ghost use Rattle.trace_report.specs.Links.{attention_line};

    ghost text = { λ line. attention_line line.0.now line.1 line.2.now.items };

    fn say<S: TextSink>(self, out: &mut S) {
        let AttentionLine(words, count, first) = self;
        let targets = first.as_slice();
        if count > 0 {
            say(
                out,
                (
                    "<li>",
                    words,
                    " <b>",
                    Number(count),
                    "</b>: ",
                    Links(targets),
                    More(count),
                    "\n",
                ),
            );
        }
    }
}

/// Links to these places, with commas between.
#[derive(Clone, Copy)]
struct Links<'a>(&'a [LinkTarget]);

impl<'a> Part for Links<'a> {
    ghost use Rattle.trace_report.specs.Links.{links_text};

    ghost text = { λ links. links_text links.0.now };

    fn say<S: TextSink>(self, out: &mut S) {
        if let Some((first, targets)) = self.0.split_first() {
            say(out, (LinkTo(*first), LinksBehind(targets)));
        }
    }
}

/// Links to these places, each behind another link.
#[derive(Clone, Copy)]
struct LinksBehind<'a>(&'a [LinkTarget]);

impl<'a> Part for LinksBehind<'a> {
    ghost use Rattle.trace_report.specs.Links.{links_behind};

    ghost text = { λ links. links_behind links.0.now };

    fn say<S: TextSink>(self, out: &mut S) {
        'targets: for target in self.0 {
            say(out, (", ", LinkTo(*target)));
        }
    }
}

/// A link to a place: where it leads, and how it is called.
#[derive(Clone, Copy)]
pub(crate) struct LinkTo(pub LinkTarget);

impl Part for LinkTo {
    ghost use Rattle.trace_report.specs.Links.{link_text};

    ghost text = { λ link. link_text link.0 };

    fn say<S: TextSink>(self, out: &mut S) {
        let place = self.0;
        say(out, ("<a href=\"#", place, "\">", LinkWords(place), "</a>"));
    }
}

/// How a link to a place is called.
#[derive(Clone, Copy)]
struct LinkWords(LinkTarget);

impl Part for LinkWords {
    ghost use Rattle.trace_report.specs.Links.{link_words};

    ghost text = { λ words. link_words words.0 };

    fn say<S: TextSink>(self, out: &mut S) {
        match self.0 {
            LinkTarget::Item(number) => say(out, ("item ", Number(number))),
            LinkTarget::Line(number) => say(out, ("line ", Number(number))),
            LinkTarget::Side(dir) => say(out, ("of the ", Sender(dir))),
        }
    }
}

/// How many more there are, where there are more than are linked to.
#[derive(Clone, Copy)]
struct More(u64);

impl Part for More {
    ghost use Rattle.trace_report.specs.Links.{more_text};

    ghost text = { λ more. more_text more.0 };

    fn say<S: TextSink>(self, out: &mut S) {
        let count = self.0;
        if count > MOST_LINKS {
            say(out, (" and ", Number(count - MOST_LINKS), " more"));
        }
    }
}

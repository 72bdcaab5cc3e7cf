//! The front of a page of two logs.

use crate::title::Title;
use pair_words::{LetteredName, PairLog};
use shown_bytes::Name;
use text_parts::{Either, Part, say};
use trace_io::TextSink;
use trace_report::{DocumentFront, Identifiers, RulesStyle, Shapes};
use uds_rules::Rules;

/// What stands before the rules and the verdict of a page under rules, where there are so many differences.
#[derive(Clone, Copy)]
pub(crate) struct PairFront<'a>(pub &'a Title<'a>, pub &'a Rules, pub usize);

impl<'a> Part for PairFront<'a> {
    ghost use Rattle.trace_pair.specs.Page.{pair_front};
    ghost use Rattle.trace_pair.specs.Titles.{title_of};

    ghost text = { λ page. pair_front (title_of page.0.now) page.1.now page.2 };

    fn say<S: TextSink>(self, out: &mut S) {
        let PairFront(title, rules, count) = self;
        say(
            out,
            (
                (
                    DocumentFront,
                    "<title>",
                    Name(title.left),
                    " and ",
                    Name(title.right),
                    " - udsnorm report</title>\n<style>\n",
                    title.style,
                    RulesStyle(rules),
                    "</style>\n</head>\n<body>\n<svg class=\"defs\" aria-hidden=\"true\" width=\"0\" height=\"0\">\n",
                    Shapes,
                ),
                "</svg>\n<div class=\"page wide\">\n<header>\n<p class=\"brand\">udsnorm report</p>\n<h1>",
                LetteredName(PairLog::A, title.left),
                "<br>",
                LetteredName(PairLog::B, title.right),
                "</h1>\n",
                Identifiers {
                    tester: title.tester,
                    functional: title.functional,
                    unit: title.unit,
                },
                PairLinks(count),
                PairCutNotice,
            ),
        );
    }
}

/// The notice of a page that breaks off, which the style shows where the end of the page is missing; and the end of the
/// header.
#[derive(Clone, Copy)]
struct PairCutNotice;

impl Part for PairCutNotice {
    ghost use Rattle.trace_pair.specs.Page.{pair_cut_notice};

    ghost text = { λ notice. pair_cut_notice };

    fn say<S: TextSink>(self, out: &mut S) {
        say(
            out,
            "<p id=\"cut\" role=\"status\" hidden>This page has no end. What wrote it was stopped, or the file was cut, or the page is still loading: it tells nothing of the rest of the sessions.</p>\n</header>\n",
        );
    }
}

/// The links of the head, by how many differences there are.
#[derive(Clone, Copy)]
struct PairLinks(usize);

impl Part for PairLinks {
    ghost use Rattle.trace_pair.specs.Page.{links};

    ghost text = { λ count. links count.0 };

    fn say<S: TextSink>(self, out: &mut S) {
        let one = "<a href=\"#difference\">The difference</a> ";
        let first = "<a href=\"#difference\">The first</a> ";
        say(
            out,
            (
                "<p class=\"skip\"><a href=\"#verdict\">Verdict</a> ",
                Either(self.0 <= 1, (), "<a href=\"#differences\">Differences</a> "),
                Either(self.0 == 0, (), Either(self.0 == 1, one, first)),
                "<a href=\"#items\">Items</a> <a href=\"#help\">How to read this page</a></p>\n",
            ),
        );
    }
}

//! What stands above the first row of a change.

use crate::change_words::Tag;
use crate::differ_words::DifferWords;
use crate::item_row::Begun;
use crate::sessions::item_of;
use pair_words::DifferenceName;
use text_parts::{Either, Part, say};
use trace_io::TextSink;
use trace_report::PlacedItem;
use trace_text::Number;
use uds_difference::Row;
use uds_rules::Rules;

/// What a change is, and the way to the next one, where a change begins.
#[derive(Clone, Copy)]
pub(crate) struct TopIf<'a> {
    pub rules: &'a Rules,
    pub begun: Option<Begun>,
    pub kind: Row,
    pub one: Option<PlacedItem<'a>>,
    pub other: Option<PlacedItem<'a>>,
}

impl<'a> Part for TopIf<'a> {
    ghost use Rattle.std.specs.Prelude.{option_map};
    ghost use Rattle.trace_report.specs.Items.{item_of};
    ghost use Rattle.trace_pair.specs.ItemRows.{top_of};

    ghost text = { λ top. top_of top.rules.now top.begun top.kind (option_map item_of top.one) (option_map item_of top.other) };

    fn say<S: TextSink>(self, out: &mut S) {
        let TopIf {
            rules,
            begun,
            kind,
            one,
            other,
        } = self;
        if let Some(begun) = begun {
            say(
                out,
                (
                    "<p class=\"top\"><span>",
                    ChangeTitle {
                        rules,
                        kind,
                        count: begun.count,
                        one,
                        other,
                    },
                    "</span>",
                    Navigation {
                        number: begun.number,
                        all: begun.all,
                    },
                    "</p>",
                ),
            );
        }
    }
}

/// What a change is.
#[derive(Clone, Copy)]
struct ChangeTitle<'a> {
    rules: &'a Rules,
    kind: Row,
    count: usize,
    one: Option<PlacedItem<'a>>,
    other: Option<PlacedItem<'a>>,
}

impl<'a> Part for ChangeTitle<'a> {
    ghost use Rattle.std.specs.Prelude.{option_map};
    ghost use Rattle.trace_report.specs.Items.{item_of};
    ghost use Rattle.trace_pair.specs.ItemRows.{change_words};

    ghost text = { λ title. change_words title.rules.now title.kind title.count (option_map item_of title.one) (option_map item_of title.other) };

    fn say<S: TextSink>(self, out: &mut S) {
        let ChangeTitle {
            rules,
            kind,
            count,
            one,
            other,
        } = self;
        match (one, other) {
            (Some(one), Some(other)) => say(
                out,
                (
                    "<b class=\"tag\">",
                    Tag(kind),
                    "</b> ",
                    DifferWords(rules, item_of(one), item_of(other)),
                ),
            ),
            (None, _) | (Some(_), None) => say(out, AloneTitle { kind, count }),
        }
    }
}

/// So many items that stand alone.
#[derive(Clone, Copy)]
struct AloneTitle {
    kind: Row,
    count: usize,
}

impl Part for AloneTitle {
    ghost use Rattle.std.specs.Prelude.{[], None};
    ghost use Rattle.trace_pair.specs.ItemRows.{change_words};

    ghost text = { λ title. change_words [] title.kind title.count None None };

    fn say<S: TextSink>(self, out: &mut S) {
        let AloneTitle { kind, count } = self;
        say(
            out,
            (
                "<b class=\"tag\">",
                Tag(kind),
                Either(count == 1, "", (": ", Number(count as u64), " items")),
                "</b>",
            ),
        );
    }
}

/// The way to the next change of all, or back to the list from the last one.
#[derive(Clone, Copy)]
struct Navigation {
    number: u64,
    all: u64,
}

impl Part for Navigation {
    ghost use Rattle.trace_pair.specs.ItemRows.{navigation};

    ghost text = { λ way. navigation way.number way.all };

    fn say<S: TextSink>(self, out: &mut S) {
        let Navigation { number, all } = self;
        if all == 1 {
            return;
        }
        let front = (
            " <span class=\"nav\">",
            Number(number),
            " of ",
            Number(all),
            " ",
        );
        if number < all {
            let next = ("<a href=\"#", DifferenceName(number + 1), "\">next</a>");
            say(out, (front, next, "</span>"));
        } else {
            say(out, (front, "<a href=\"#differences\">list</a>", "</span>"));
        }
    }
}

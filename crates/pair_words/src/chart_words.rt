//! What stands around the rows of a chart: its head, its bodies, the ends of its rows, and its own.

use text_parts::{Either, Part, When, say};
use trace_io::TextSink;
use trace_text::Number;

/// The head of a chart, with its classes: the names of its columns.
#[derive(Clone, Copy)]
pub struct PairChartHead<P>(pub P);

impl<P: Part> Part for PairChartHead<P> {
    ghost use Rattle.pair_words.specs.ChartWords.{chart_head};

    ghost text = { λ head. chart_head (P.text head.0) };

    fn say<S: TextSink>(self, out: &mut S) {
        say(
            out,
            (
                "<table class=\"",
                self.0,
                "\">\n<thead><tr><th scope=\"col\">Item<th scope=\"col\">Lines<th scope=\"col\">Time<th scope=\"col\"><span class=\"T\">Tester</span> <span class=\"U\">Unit</span></thead>\n",
            ),
        );
    }
}

/// The start of a body, where one begins: of items that are the same in both logs, or of others.
#[derive(Clone, Copy)]
pub struct BodyStart {
    pub begins: bool,
    pub other: bool,
}

impl Part for BodyStart {
    ghost use Rattle.pair_words.specs.ChartWords.{body_start};

    ghost text = { λ start. body_start start.begins start.other };

    fn say<S: TextSink>(self, out: &mut S) {
        let BodyStart { begins, other } = self;
        let body = Either(other, "<tbody class=\"df\">\n", "<tbody>\n");
        say(out, When(begins, body));
    }
}

/// The end of a chart: how many rows more there are, or that the log ends.
#[derive(Clone, Copy)]
pub struct ChartEnd {
    pub more: usize,
    pub ends: bool,
}

impl Part for ChartEnd {
    ghost use Rattle.pair_words.specs.ChartWords.{chart_end};

    ghost text = { λ end. chart_end end.more end.ends };

    fn say<S: TextSink>(self, out: &mut S) {
        if self.more >= 1 {
            let rows = Either(
                self.more == 1,
                " row more, not shown here</i>",
                " rows more, not shown here</i>",
            );
            say(out, WordsRow("p", ("<i>", Number(self.more as u64), rows)));
        } else if self.ends {
            say(out, WordsRow("p end", "<b>end</b> <i>of the log</i>"));
        }
    }
}

/// How many items more the difference has, if it has some.
#[derive(Clone, Copy)]
pub struct ItemsEnd(pub usize);

impl Part for ItemsEnd {
    ghost use Rattle.pair_words.specs.ChartWords.{items_end};

    ghost text = { λ end. items_end end.0 };

    fn say<S: TextSink>(self, out: &mut S) {
        let items = Either(
            self.0 == 1,
            " item more of this difference, not shown here</i>",
            " items more of this difference, not shown here</i>",
        );
        let some = WordsRow("p", ("<i>", Number(self.0 as u64), items));
        say(out, Either(self.0 == 0, (), some));
    }
}

/// A row of words alone, with its look, in a body of its own.
#[derive(Clone, Copy)]
struct WordsRow<P>(&'static str, P);

impl<P: Part> Part for WordsRow<P> {
    ghost use Rattle.pair_words.specs.ChartWords.{words_row};

    ghost text = { λ row. words_row row.0.now (P.text row.1) };

    fn say<S: TextSink>(self, out: &mut S) {
        say(
            out,
            (
                "<tbody>\n<tr class=\"",
                self.0,
                "\"><td><td><td><td><div class=\"t\"><div>",
                self.1,
                "</div></div>\n",
            ),
        );
    }
}

//! The cells of a row. In that of the chart words stand at the sender's side, and an arrow fills the rest.

use crate::targets::{LinkTarget, Side};
use direction::Dir;
use text_parts::{Part, say};
use trace_io::TextSink;

/// What stands in a row before its cell of the chart: the class of the style by which it is shown; the place that it
/// is, if links lead to it; its first cell, that of its item; and what stands in the next two cells, its lines and its
/// time.
///
/// A column more is a field here and in `row_front`; what stands in it, where `message_rows` and `missing_rows` make a
/// front; its name in both heads, `ChartHead` here and `PairChartHead` of `pair_words`; and `nth-child` in
/// `style/common.css`, which counts columns.
#[derive(Clone, Copy)]
pub(crate) struct RowFront<C, I, L, T> {
    pub class: C,
    pub target: Option<LinkTarget>,
    pub item: I,
    pub lines: L,
    pub time: T,
}

impl<C: Part, I: Part, L: Part, T: Part> Part for RowFront<C, I, L, T> {
    ghost use Rattle.trace_report.specs.Rows.{row_front};

    ghost text = { λ front. row_front (record {
      class = C.text front.class;
      target = front.target;
      item = I.text front.item;
      lines = L.text front.lines;
      time = T.text front.time;
    }) };

    #[inline(always)]
    fn say<S: TextSink>(self, out: &mut S) {
        let RowFront {
            class,
            target,
            item,
            lines,
            time,
        } = self;
        say(
            out,
            (
                "<tr class=\"",
                class,
                TagEnd(target),
                item,
                "<td>",
                lines,
                "<td>",
                time,
            ),
        );
    }
}

/// The end of the tag of a row, behind its class: with the identifier of the row, if links lead to it.
#[derive(Clone, Copy)]
struct TagEnd(Option<LinkTarget>);

impl Part for TagEnd {
    ghost use Rattle.trace_report.specs.Rows.{tag_end};

    ghost text = { λ end. tag_end end.0 };

    fn say<S: TextSink>(self, out: &mut S) {
        match self.0 {
            Some(target) => say(out, ("\" id=\"", target, "\">")),
            None => say(out, "\">"),
        }
    }
}

/// A cell of the chart, up to its words.
#[derive(Clone, Copy)]
pub(crate) struct CellFront(pub Dir);

impl Part for CellFront {
    ghost use Rattle.trace_report.specs.Rows.{cell_front};

    ghost text = { λ cell. cell_front cell.0 };

    fn say<S: TextSink>(self, out: &mut S) {
        say(out, ("<td><div class=\"", Side(self.0), "\"><div>"));
    }
}

/// The arrow, which is no smaller than this, and the end of the row.
#[derive(Clone, Copy)]
pub(crate) struct CellEnd(pub Dir, pub Arrow);

impl Part for CellEnd {
    ghost use Rattle.trace_report.specs.Rows.{cell_end};

    ghost text = { λ cell. cell_end cell.0 cell.1 };

    fn say<S: TextSink>(self, out: &mut S) {
        say(
            out,
            (
                "</div><svg aria-hidden=\"true\" width=\"32\" height=\"12\"><use href=\"#",
                Side(self.0),
                ArrowEnd(self.1),
                "\"/></svg></div>\n",
            ),
        );
    }
}

/// How an arrow of the chart ends.
#[derive(Clone, Copy, Debug)]
pub(crate) enum Arrow {
    /// In a head: a message.
    Headed,
    /// In a cross: a frame that was dropped.
    Crossed,
    /// In a bar: what was cut short.
    Barred,
}

/// The end of an arrow.
#[derive(Clone, Copy)]
struct ArrowEnd(Arrow);

impl Part for ArrowEnd {
    ghost use Rattle.trace_report.specs.Rows.{arrow_text};

    ghost text = { λ end. arrow_text end.0 };

    fn say<S: TextSink>(self, out: &mut S) {
        match self.0 {
            Arrow::Headed => {}
            Arrow::Crossed => say(out, "x"),
            Arrow::Barred => say(out, "e"),
        }
    }
}

//! What stands before a row that begins a block, and behind the rows of one.

use crate::blocks::{Blocks, OPEN_BLOCKS, begins_block, begins_body, begins_exchange};
use crate::durations::Seconds;
use crate::row::{MessagePlace, Missing, SessionRow};
use text_parts::{Part, When, say};
use trace_canon::reception_starts::FramePlace;
use trace_io::TextSink;
use trace_text::Number;

/// What begins before a row, where these blocks stand: a block, and a body of the table with each exchange.
#[derive(Clone, Copy)]
pub(crate) struct Opening<'a> {
    pub origin: u64,
    pub blocks: Blocks,
    pub row: SessionRow<'a>,
}

impl<'a> Part for Opening<'a> {
    ghost use Rattle.trace_report.specs.Blocks.{opening_text};
    ghost use Rattle.trace_report.specs.Rows.{row_of};

    ghost text = { λ opening. opening_text opening.origin opening.blocks (row_of opening.row) };

    fn say<S: TextSink>(self, out: &mut S) {
        let Opening {
            origin,
            blocks,
            row,
        } = self;
        let exchange = begins_exchange(row);
        let block = begins_block(exchange, blocks);
        let front = BlockFront {
            origin,
            before: blocks.count,
            row,
        };
        say(
            out,
            (
                When(block, front),
                When(begins_body(block, exchange), "<tbody>\n"),
            ),
        );
    }
}

/// What stands before a row that begins a block, where so many blocks stand before it.
#[derive(Clone, Copy)]
struct BlockFront<'a> {
    origin: u64,
    before: u64,
    row: SessionRow<'a>,
}

impl<'a> Part for BlockFront<'a> {
    ghost use Rattle.trace_report.specs.Blocks.{block_front};
    ghost use Rattle.trace_report.specs.Rows.{row_of};

    ghost text = { λ front. block_front front.origin front.before (row_of front.row) };

    fn say<S: TextSink>(self, out: &mut S) {
        let BlockFront {
            origin,
            before,
            row,
        } = self;
        say(
            out,
            (
                BlockEnd(before),
                (
                    "<details class=\"b\"",
                    When(before < OPEN_BLOCKS, " open"),
                    ">\n<summary>",
                ),
                BlockTitle(origin, row),
                ("</summary>\n", ChartHead),
            ),
        );
    }
}

/// The end of the last block, if one stands.
#[derive(Clone, Copy)]
pub(crate) struct BlockEnd(pub u64);

impl Part for BlockEnd {
    ghost use Rattle.trace_report.specs.Blocks.{block_end};

    ghost text = { λ end. block_end end.0 };

    fn say<S: TextSink>(self, out: &mut S) {
        if self.0 > 0 {
            say(out, "</table>\n</details>\n");
        }
    }
}

/// The head of a table of rows: the names of its columns.
#[derive(Clone, Copy)]
struct ChartHead;

impl Part for ChartHead {
    ghost use Rattle.trace_report.specs.Blocks.{chart_head};

    ghost text = { λ head. chart_head };

    fn say<S: TextSink>(self, out: &mut S) {
        say(
            out,
            "<table>\n<thead><tr><th scope=\"col\">Item<th scope=\"col\">Lines<th scope=\"col\">Time<th scope=\"col\"><span class=\"T\">Tester</span><span class=\"U\">Unit</span></thead>\n",
        );
    }
}

/// Where a row stands, in the title of the block that begins with it.
#[derive(Clone, Copy)]
struct BlockTitle<'a>(u64, SessionRow<'a>);

impl<'a> Part for BlockTitle<'a> {
    ghost use Rattle.trace_report.specs.Blocks.{block_title};
    ghost use Rattle.trace_report.specs.Rows.{row_of};

    ghost text = { λ title. block_title title.0 (row_of title.1) };

    fn say<S: TextSink>(self, out: &mut S) {
        let BlockTitle(origin, row) = self;
        match row {
            SessionRow::Message { sent, .. } => say(out, MessageTitle(origin, sent.place)),
            SessionRow::Missing(missing) => say(out, MissingTitle(origin, missing)),
        }
    }
}

/// The title of a block that begins with the row of a message.
#[derive(Clone, Copy)]
struct MessageTitle(u64, MessagePlace);

impl Part for MessageTitle {
    ghost use Rattle.trace_report.specs.Blocks.{message_title};

    ghost text = { λ title. message_title title.0 title.1 };

    fn say<S: TextSink>(self, out: &mut S) {
        let MessageTitle(origin, place) = self;
        say(
            out,
            (FromItem(place.item), ", ", LineAndTime(origin, place.first)),
        );
    }
}

/// The title of a block that begins with the row of what is missing.
#[derive(Clone, Copy)]
struct MissingTitle(u64, Missing);

impl Part for MissingTitle {
    ghost use Rattle.trace_report.specs.Blocks.{block_title};
    ghost use Rattle.trace_report.specs.Rows.{missing_of};

    ghost text = { λ title. block_title title.0 (missing_of title.1) };

    fn say<S: TextSink>(self, out: &mut S) {
        let MissingTitle(origin, missing) = self;
        match missing {
            Missing::NoAnswer { number, .. } => say(out, FromItem(number)),
            Missing::Dropped { place, .. } | Missing::Ended { place, .. } => say(
                out,
                ("From ", LineAndTime(origin, place)),
            ),
            Missing::Unfinished { .. } => say(out, "At the end of the log"),
        }
    }
}

/// The title of a block that begins with a row of the item of this number.
#[derive(Clone, Copy)]
struct FromItem(u64);

impl Part for FromItem {
    ghost use Rattle.trace_report.specs.Blocks.{item_title};

    ghost text = { λ title. item_title title.0 };

    fn say<S: TextSink>(self, out: &mut S) {
        say(out, ("From item ", Number(self.0)));
    }
}

/// Where a frame stands: its line, and its time.
#[derive(Clone, Copy)]
struct LineAndTime(u64, FramePlace);

impl Part for LineAndTime {
    ghost use Rattle.trace_report.specs.Blocks.{line_and_time};

    ghost text = { λ at. line_and_time at.0 at.1 };

    fn say<S: TextSink>(self, out: &mut S) {
        let LineAndTime(origin, place) = self;
        say(
            out,
            (
                "line ",
                Number(place.line),
                ", ",
                Seconds(origin, place.micros),
                " s",
            ),
        );
    }
}

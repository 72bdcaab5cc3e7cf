//! What stands before the rows of a table of items and behind them.

use crate::standing::Table;
use text_parts::{Part, When, say};
use trace_io::TextSink;
use trace_text::Ordinal;

/// Of the tables that fold, so many are open.
const OPEN_BLOCKS: usize = 4;

/// The start of a table that folds, by how many such stand before it, and by how many items of both.
#[derive(Clone, Copy)]
pub(crate) struct BlockStart {
    pub blocks: usize,
    pub left: usize,
    pub right: usize,
}

impl Part for BlockStart {
    ghost use Rattle.trace_pair.specs.ItemTables.{block_start};

    ghost text = { λ start. block_start start.blocks start.left start.right };

    fn say<S: TextSink>(self, out: &mut S) {
        let BlockStart {
            blocks,
            left,
            right,
        } = self;
        say(
            out,
            (
                "<details class=\"b\"",
                When(blocks < OPEN_BLOCKS, " open"),
                ">\n<summary>From A&#160;",
                Ordinal(left),
                ", B&#160;",
                Ordinal(right),
                "</summary>\n",
                TableStart,
            ),
        );
    }
}

/// The start of a table.
#[derive(Clone, Copy)]
pub(crate) struct TableStart;

impl Part for TableStart {
    ghost use Rattle.trace_pair.specs.ItemTables.{table_start};

    ghost text = { λ start. table_start };

    fn say<S: TextSink>(self, out: &mut S) {
        say(
            out,
            "<table class=\"pair\">\n<thead><tr><th scope=\"col\">A<th scope=\"col\">B<th scope=\"col\">Item</thead>\n<tbody>\n",
        );
    }
}

/// The end of the table that stands.
#[derive(Clone, Copy)]
pub(crate) struct TableEnd(pub Table);

impl Part for TableEnd {
    ghost use Rattle.trace_pair.specs.proving.Standings.{table_end};

    ghost text = { λ end. table_end end.0 };

    fn say<S: TextSink>(self, out: &mut S) {
        match self.0 {
            Table::Closed => {}
            Table::Open(_) => say(out, "</table>\n"),
            Table::Block(_) => say(out, "</table>\n</details>\n"),
        }
    }
}

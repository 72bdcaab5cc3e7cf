//! The items of a row of the table, and when they were.

use crate::pair_bytes::ToldPair;
use crate::told_items::{NoteOf, ToldItem};
use pair_words::PairLog;
use text_parts::{Part, say};
use trace_io::TextSink;
use trace_report::PlacedItem;
use uds_difference::Row;
use uds_rules::Rules;

/// The items of a row: what both have the same stands once.
#[derive(Clone, Copy)]
pub(crate) struct ItemsOfRow<'a>(
    pub &'a Rules,
    pub Row,
    pub Option<PlacedItem<'a>>,
    pub Option<PlacedItem<'a>>,
);

impl<'a> Part for ItemsOfRow<'a> {
    ghost use Rattle.std.specs.Prelude.{option_map};
    ghost use Rattle.trace_report.specs.Items.{item_of};
    ghost use Rattle.trace_pair.specs.ItemRows.{told};

    ghost text = { λ items. told items.0.now items.1 (option_map item_of items.2) (option_map item_of items.3) };

    fn say<S: TextSink>(self, out: &mut S) {
        let ItemsOfRow(rules, kind, one, other) = self;
        match kind {
            Row::Changed => {
                if let (Some(one), Some(other)) = (one, other) {
                    say(out, ToldPair(rules, one, other));
                }
            }
            Row::OnlyLeft => say(out, ToldIf(rules, one)),
            Row::Same | Row::OnlyRight => say(out, ToldIf(rules, other)),
        }
    }
}

/// An item, if there is one.
#[derive(Clone, Copy)]
struct ToldIf<'a>(&'a Rules, Option<PlacedItem<'a>>);

impl<'a> Part for ToldIf<'a> {
    ghost use Rattle.std.specs.Prelude.{option_map};
    ghost use Rattle.trace_report.specs.Items.{item_of};
    ghost use Rattle.trace_pair.specs.ItemRows.{told_if};

    ghost text = { λ item. told_if item.0.now (option_map item_of item.1) };

    fn say<S: TextSink>(self, out: &mut S) {
        let ToldIf(rules, item) = self;
        if let Some(item) = item {
            say(out, ToldItem(rules, item));
        }
    }
}

/// When an item was, if there is one.
#[derive(Clone, Copy)]
pub(crate) struct NoteIf<'a>(pub PairLog, pub u64, pub Option<PlacedItem<'a>>);

impl<'a> Part for NoteIf<'a> {
    ghost use Rattle.std.specs.Prelude.{option_map};
    ghost use Rattle.trace_report.specs.Items.{item_of};
    ghost use Rattle.trace_pair.specs.ItemRows.{note_if};

    ghost text = { λ note. note_if note.0 note.1 (option_map item_of note.2) };

    fn say<S: TextSink>(self, out: &mut S) {
        if let Some(item) = self.2 {
            say(
                out,
                NoteOf {
                    log: self.0,
                    origin: self.1,
                    item,
                },
            );
        }
    }
}

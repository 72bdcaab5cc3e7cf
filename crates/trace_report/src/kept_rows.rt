//! The rows of a session, kept as they come, and where its items stand among them.

ghost use Rattle.std.specs.Prelude.{◌≡◌, ◌<◌, ◌^◌, ◌∷◌, ◌++◌, [], IfOk, OnErr, OnOk, length, option_map, slice_get};
ghost use Rattle.uds_exchange.specs.Blocks.{GoesOn};
ghost use Rattle.trace_report.specs.Items.{items_in, rows_before, item_of};
ghost use Rattle.trace_report.specs.Rows.{row_of};
ghost use Rattle.trace_report.specs.Sorts.{counts_in};
ghost use Rattle.trace_report.specs.proving.Keeping.{IsLaid, rows_at};
ghost use Rattle.trace_report.specs.proving.Keeping as Keeping;

use crate::item_places::{ItemPlace, note_row};
use crate::items::{PlacedItem, item_at};
use crate::row::{Missing, SentMessage, SessionRow};
use crate::sorts::sort_of;
use crate::tally::SortCounts;
use std::alloc::{AllocError, Global};
use std::fmt::{self, Debug, Formatter, Write};
use std::marker::Model;
use uds_exchange::{Messages, Span};

/// A row that is kept: with the bytes of its message where they lie.
#[derive(Clone, Copy)]
pub(crate) enum KeptRow {
    Message { sent: SentMessage, bytes: Span },
    Missing(Missing),
}

/// The rows of a session, seen as their list. What they tell of items and of sorts is kept as they come, and not looked
/// for.
#[derive(Drop)]
pub struct KeptRows {
    messages: Messages,
    rows: Vec<KeptRow>,
    items: Vec<ItemPlace>,
    /// The item, counted from 0, whose request has no answer so far, if one waits.
    waiting: Option<usize>,
    counts: SortCounts,
}

impl Model for KeptRows {
    ghost use Rattle.std.specs.Prelude.{List};
    ghost use Rattle.trace_report.specs.Rows.{RowValue};
    ghost use Rattle.trace_report.specs.proving.Keeping.{AreKept, rows_at};

    ghost Value = { List RowValue };

    ghost view = { λ kept. rows_at kept.messages kept.rows.items };

    ghost invariant = { λ kept. AreKept kept.messages kept.rows.items kept.items.items kept.waiting kept.counts };
}

impl KeptRows {
    /// No row. It takes no memory.
    pub(crate) fn new(alloc: Global) -> KeptRows
        ensures { result ≡ [] }
    {
        KeptRows {
            messages: Messages::new(alloc),
            rows: Vec::new(alloc),
            items: Vec::new(alloc),
            waiting: None,
            counts: SortCounts::start(),
        }
    }

    /// Keeps one row more. After an `Err` they are as before.
    #[inline(always)]
    pub(crate) fn keep(&mut self, row: SessionRow<'_>) -> Result<(), AllocError>
        ensures kept { OnOk result (self.new ≡ self.old ++ row_of row.entry ∷ []) }
        ensures refused { OnErr result (self.new ≡ self.old) }
    {
        self.rows.reserve(1)?;
        self.items.reserve(1)?;
        let kept = laid(&mut self.messages, row)?;
        note_row(&mut self.items, &mut self.waiting, self.rows.len(), row);
        self.rows.push_reserved(kept);
        self.counts.take(sort_of(row));
        Ok(())
    }

    /// How many rows there are.
    pub fn len(&self) -> usize
        ensures value { result ≡ length self.now }
        ensures small { result < 2 ^ 63 }
    {
        self.rows.len()
    }

    /// How many rows stand before the one with which the item of a place begins, counted from 0; all, where there is
    /// none.
    pub fn rows_before(&self, item: usize) -> usize
        ensures { result ≡ rows_before item self.now }
    {
        match self.items.get(item) {
            Some(item) => item.begin,
            None => self.rows.len(),
        }
    }

    /// The row at a place, counted from 0, if there is one.
    #[inline(always)]
    pub fn row(&self, at: usize) -> Option<SessionRow<'_>>
        ensures { option_map row_of result ≡ slice_get self.now at }
    {
        match self.rows.get(at) {
            Some(row) => Some(row_at(&self.messages, *row)),
            None => None,
        }
    }

    /// How many items the rows tell.
    pub fn item_count(&self) -> usize
        ensures value { result ≡ length (items_in self.now) }
        ensures small { result < 2 ^ 63 }
    {
        self.items.len()
    }

    /// The item at a place, counted from 0, if there is one.
    #[inline(always)]
    pub fn item(&self, at: usize) -> Option<PlacedItem<'_>>
        ensures { option_map item_of result ≡ slice_get (items_in self.now) at }
    {
        match self.items.get(at) {
            Some(item) => item_at(&self.messages, self.rows.as_slice(), *item),
            None => None,
        }
    }

    /// How many rows there are of each sort.
    pub fn counts(&self) -> SortCounts
        ensures { result ≡ counts_in self.now }
    {
        self.counts
    }
}

/// Lays the bytes of a row behind those that are kept, if it has bytes, and answers the row to keep. After an `Err` the
/// bytes are as before.
#[inline(always)]
fn laid(messages: &mut Messages, row: SessionRow<'_>) -> Result<KeptRow, AllocError>
    ensures on { OnOk result (GoesOn messages.old messages.new) }
    ensures laid { IfOk result (λ kept. IsLaid messages.new kept) }
    ensures row { IfOk result (λ kept. Keeping.row_at messages.new kept ≡ row_of row.entry) }
    ensures err { OnErr result (messages.new ≡ messages.old) }
{
    match row {
        SessionRow::Message { sent, message } => {
            let bytes = messages.append(message)?;
            Ok(KeptRow::Message { sent, bytes })
        }
        SessionRow::Missing(missing) => Ok(KeptRow::Missing(missing)),
    }
}

/// A row that is kept, lent.
#[inline(always)]
fn row_at<'a>(messages: &'a Messages, row: KeptRow) -> SessionRow<'a>
    requires { IsLaid messages.now row }
    ensures { row_of result ≡ Keeping.row_at messages.now row }
{
    match row {
        KeptRow::Message { sent, bytes } => SessionRow::Message {
            sent,
            message: messages.message(bytes),
        },
        KeptRow::Missing(missing) => SessionRow::Missing(missing),
    }
}

/// As the list of the rows that it lends.
impl Debug for KeptRows {
    fn fmt<W: Write>(&self, f: &mut Formatter<W>) -> fmt::Result {
        let mut list = f.debug_list();
        for at in 0..self.len() {
            if let Some(row) = self.row(at) {
                list.entry(&row);
            }
        }
        list.finish()
    }
}

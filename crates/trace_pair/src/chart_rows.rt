//! Which rows of a log its chart has: those around an item.

ghost use Rattle.std.specs.Prelude.{◌≡◌, ◌+◌, ◌<◌, ◌^◌, nat_le, slice_get};
ghost use Rattle.trace_report.specs.Items.{rows_before};
ghost use Rattle.trace_pair.specs.FirstDifference as Spec;

use crate::losses::first_row;
use trace_report::{KeptRows, begins_exchange};

/// So many rows of a chart at most stand before the row with which the item begins.
const MOST_BEFORE: usize = 8;

/// Where the rows of a chart around an item begin: with the last request at or before the item before it, and with what
/// is lost in front of the log's first item, where that is the item before.
pub(crate) fn chart_from(rows: &KeptRows, item: usize) -> usize
    ensures { result ≡ Spec.chart_from item rows.now }
{
    let low = rows.rows_before(item).saturating_sub(MOST_BEFORE);
    let before = first_row(rows, item.saturating_sub(1));
    let end = before.saturating_add(1).min(rows.len());
    let mut from = low;
    'rows: for at in low..end {
        if asks_at(rows, at) {
            from = at;
        }
    }
    from
}

/// Where the rows of a chart around an item end: before the first request at or behind the second item behind it.
pub(crate) fn chart_to(rows: &KeptRows, item: usize) -> usize
    ensures { result ≡ Spec.chart_to item rows.now }
{
    let second = rows.rows_before(item.saturating_add(2));
    'rows: for at in second..rows.len() {
        if asks_at(rows, at) {
            return at;
        }
    }
    rows.len()
}

/// How many of so many items are left, from the first on that begins at or behind a place of the rows.
pub(crate) fn items_left(rows: &KeptRows, place: usize, item: usize, count: usize) -> usize
    requires { item + count < 2 ^ 63 }
    ensures { result ≡ Spec.items_left place item count rows.now }
{
    let end = item + count;
    'items: for at in item..end {
        if begins_behind(rows, at, place) {
            return end - at;
        }
    }
    0
}

/// Whether an item begins at or behind a place of the rows.
fn begins_behind(rows: &KeptRows, item: usize, place: usize) -> bool
    ensures { result ≡ nat_le place (rows_before item rows.now) }
{
    place <= rows.rows_before(item)
}

/// Whether an exchange begins with the row at a place, where there is one.
fn asks_at(rows: &KeptRows, at: usize) -> bool
    ensures { result ≡ Spec.asks (slice_get rows.now at) }
{
    match rows.row(at) {
        Some(row) => begins_exchange(row),
        None => false,
    }
}

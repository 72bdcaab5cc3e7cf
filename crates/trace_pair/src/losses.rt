//! What is missing in a log, by the items that it belongs to.

ghost use Rattle.std.specs.Prelude.{◌≡◌, ◌≤◌, ◌+◌, ◌-◌, drop, length, nat_lt, option_map, take};
ghost use Rattle.trace_pair.specs.Losses.{first_row, losses_from, losses_in_front};
ghost use Rattle.trace_pair.specs.Losses as Spec;
ghost use Rattle.trace_pair.specs.Verdict as Verdict;
ghost use Rattle.trace_pair.specs.proving.Losing.{lost, lost_if};
ghost use Rattle.trace_report.specs.Rows.{missing_of, row_of};

use pair_words::{PairLog, has_item, items_before};
use shown_rows::Change;
use trace_report::{KeptRows, KeptSession, Missing, SessionRow};

/// Whether something is missing of the items of a log that belong to a change, or where it has none, in front of the
/// item before which they would stand.
pub(crate) fn is_lossy(log: PairLog, session: &KeptSession<'_>, change: Change) -> bool
    ensures { result ≡ Verdict.is_lossy log session.now change }
{
    let before = items_before(log, change);
    if has_item(log, change.kind) {
        misses(session, before, change.count)
    } else {
        misses_in_front(session, before)
    }
}

/// Whether something is missing of so many items, from this one on.
fn misses(session: &KeptSession<'_>, item: usize, count: usize) -> bool
    ensures { result ≡ nat_lt 0 (losses_from session.now.rows item count) }
{
    count_losses(session, item, count) > 0
}

/// Whether something is missing in front of an item.
fn misses_in_front(session: &KeptSession<'_>, item: usize) -> bool
    ensures { result ≡ nat_lt 0 (losses_in_front session.now.rows item) }
{
    count_in_front(session, item) > 0
}

/// How many losses belong to the item before this one, or stand before the first one.
fn count_in_front(session: &KeptSession<'_>, item: usize) -> usize
    ensures { result ≡ losses_in_front session.now.rows item }
{
    let rows = session.rows();
    let from = first_row(rows, item.saturating_sub(1));
    count_lost(rows, from, rows.rows_before(item))
}

/// How many losses belong to so many items, from this one on.
pub(crate) fn count_losses(session: &KeptSession<'_>, item: usize, count: usize) -> usize
    ensures { result ≡ losses_from session.now.rows item count }
{
    let rows = session.rows();
    let (from, to) = stretch(rows, item, count);
    count_lost(rows, from, to)
}

/// How many losses rows tell, from one place up to another.
fn count_lost(rows: &KeptRows, from: usize, to: usize) -> usize
    ensures { result ≡ length (lost (take (to - from) (drop from rows.now))) }
{
    let mut losses: usize = 0;
    'rows: for at in from..to {
        losses += lost_in(rows.row(at));
    }
    losses
}

/// How many losses a row tells, if there is one: one or none.
pub(crate) fn lost_in(row: Option<SessionRow<'_>>) -> usize
    ensures value { result ≡ lost_if (option_map row_of row.entry) }
    ensures one { result ≤ 1 }
{
    let Some(row) = row else {
        return 0;
    };
    if is_loss(row) { 1 } else { 0 }
}

/// Where the rows begin that belong to so many items, from this one on, and where they end.
pub(crate) fn stretch(rows: &KeptRows, item: usize, count: usize) -> (usize, usize)
    ensures from { result.0 ≡ first_row item rows.now }
    ensures to { result.1 ≡ first_row (item + count) rows.now }
{
    let end = item.saturating_add(count).min(rows.len());
    (first_row(rows, item), first_row(rows, end))
}

/// How many rows stand before those that belong to an item: what stands before the first one belongs to that.
pub(crate) fn first_row(rows: &KeptRows, item: usize) -> usize
    ensures { result ≡ first_row item rows.now }
{
    if item == 0 { 0 } else { rows.rows_before(item) }
}

/// Whether a row tells that something is missing.
pub(crate) fn is_loss(row: SessionRow<'_>) -> bool
    ensures { result ≡ Spec.is_loss (row_of row.entry) }
{
    match row {
        SessionRow::Message { .. } => false,
        SessionRow::Missing(missing) => is_lost(missing),
    }
}

/// Whether the log lost what is missing: an answer it did not lose.
fn is_lost(missing: Missing) -> bool
    ensures { result ≡ Spec.is_loss (missing_of missing) }
{
    match missing {
        Missing::NoAnswer { .. } => false,
        Missing::Dropped { .. } | Missing::Ended { .. } | Missing::Unfinished { .. } => true,
    }
}

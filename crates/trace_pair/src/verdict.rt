//! The verdict of a page of two logs.

ghost use Rattle.std.specs.Prelude.{◌≡◌, ◌||◌, slice_get};
ghost use Rattle.std.specs.List.{list_any};
ghost use Rattle.trace_pair.specs.Sessions.{values_in};
ghost use Rattle.trace_pair.specs.Verdict as Spec;
ghost use Rattle.trace_pair.specs.proving.Changing.{asks_if};
ghost use Rattle.uds_exchange.specs.ItemSeen.{item_value};

use crate::lossy_changes::losses_at_changes;
use crate::same_words::{NothingVerdict, SameHeading, SameItems};
use crate::sessions::{Sessions, item_at};
use crate::verdict_words::{BoundLine, DifferentHeading, SizeLine};
use shown_rows::{count_changes, count_of, differs};
use text_parts::say;
use trace_io::TextSink;
use trace_log::Summary;
use trace_report::KeptSession;
use uds_difference::Row;
use uds_exchange::Item;

/// What is found of two sessions: the rows that set them side by side, and whether none that keep equal items are
/// fewer.
#[derive(Clone, Copy)]
pub(crate) struct FoundDifference<'a> {
    pub rows: &'a [Row],
    pub shortest: bool,
    /// Up to so many items removed and added a shortest difference was looked for.
    pub bound: usize,
}

/// Says the verdict of two sessions.
pub(crate) fn say_verdict<S: TextSink>(
    found: FoundDifference<'_>,
    sessions: Sessions<'_>,
    out: &mut S,
)
    ensures { S.says out.old (Spec.verdict found.entry.shortest found.entry.bound found.entry.rows.now sessions.entry.left.now sessions.entry.right.now) out.new }
{
    if differs(found.rows) {
        say_different(found, sessions, out);
    } else if found.rows.is_empty() {
        say(out, NothingVerdict);
    } else {
        say_same(found.rows.len(), sessions, out);
    }
}

/// Says that the sessions differ.
fn say_different<S: TextSink>(found: FoundDifference<'_>, sessions: Sessions<'_>, out: &mut S)
    ensures { S.says out.old (Spec.different_verdict found.entry.shortest found.entry.bound found.entry.rows.now sessions.entry.left.now sessions.entry.right.now) out.new }
{
    let rows = found.rows;
    say(
        out,
        (
            DifferentHeading {
                differences: count_changes(rows) as u64,
                same: count_of(Row::Same, rows) as u64,
                left: count_of(Row::OnlyLeft, rows) as u64,
                right: count_of(Row::OnlyRight, rows) as u64,
                changed: count_of(Row::Changed, rows) as u64,
            },
            losses_at_changes(rows, sessions),
            BoundLine(found.shortest, found.bound),
            SizeLine(rows.len()),
        ),
    );
}

/// Says that so many items are the same in both.
fn say_same<S: TextSink>(count: usize, sessions: Sessions<'_>, out: &mut S)
    ensures { S.says out.old (Spec.same_of count sessions.entry.left.now sessions.entry.right.now) out.new }
{
    let left = sessions.left.summary();
    let right = sessions.right.summary();
    let rules = sessions.left.rules().as_slice().len() as u64;
    say(
        out,
        (
            SameHeading {
                rules,
                exchanged: look_exchanged(&left, &right),
                asked: has_request(sessions.left),
                left_clean: left.is_clean(),
                right_clean: right.is_clean(),
            },
            SameItems(rules, count),
            SizeLine(count),
        ),
    );
}

/// Whether tester and unit look exchanged in one of both logs.
fn look_exchanged(left: &Summary, right: &Summary) -> bool
    ensures { result ≡ (left.now.looks_exchanged || right.now.looks_exchanged) }
{
    left.looks_exchanged || right.looks_exchanged
}

/// Whether a session has a request.
fn has_request(session: &KeptSession<'_>) -> bool
    ensures { result ≡ list_any Spec.is_exchange (values_in session.now) }
{
    let count = session.rows().item_count();
    'places: for at in 0..count {
        if is_exchange_at(session, at) {
            return true;
        }
    }
    false
}

/// Whether the item of a session at a place is an exchange, if there is one.
fn is_exchange_at(session: &KeptSession<'_>, at: usize) -> bool
    ensures { result ≡ asks_if (slice_get (values_in session.now) at) }
{
    match item_at(session, at) {
        Some(item) => is_exchange(item),
        None => false,
    }
}

/// Whether an item is an exchange.
fn is_exchange(item: Item<'_>) -> bool
    ensures { result ≡ Spec.is_exchange (item_value item.entry) }
{
    match item {
        Item::Exchange { .. } => true,
        Item::Stray { .. } => false,
    }
}

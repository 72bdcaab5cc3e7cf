//! Which items of two logs stand beside each other, and which bytes of their messages a chart marks.

ghost use Rattle.std.specs.Prelude.{◌≡◌, ◌<◌, ◌^◌, false, option_map};
ghost use Rattle.shown_rows.specs.Rows.{changes_within};
ghost use Rattle.trace_report.specs.Items.{item_of};
ghost use Rattle.trace_pair.specs.Counterparts as Spec;
ghost use Rattle.trace_pair.specs.ItemRows.{place_in as place_of};
ghost use Rattle.trace_pair.specs.proving.Marks.{charted_of, marked_of};

use crate::item_row::{RowPlace, place_in};
use crate::outcome::same_outcome;
use crate::pair_bytes::outcome_by;
use crate::sessions::Sessions;
use pair_words::{PairLog, has_item};
use shown_rows::{is_change, left_in, right_in};
use trace_report::{KeptSession, MessageRole, PlacedItem, begins_item, is_answer_role};
use uds_difference::Row;

/// What a chart is of: a log, and both sessions with the rows that set them side by side, of which so many stand before
/// the first change.
#[derive(Clone, Copy)]
pub(crate) struct Charted<'a> {
    pub log: PairLog,
    pub sessions: Sessions<'a>,
    pub rows: &'a [Row],
    pub same: usize,
}

/// What a chart marks of an item: each byte that another message has not, in the message that begins it, in the answer,
/// or in both.
#[derive(Clone, Copy)]
pub(crate) struct Marked<'a> {
    pub begin: Option<&'a [u8]>,
    pub answer: Option<&'a [u8]>,
}

/// What a chart finds of an item: whether it is not the same in both logs, and what the chart marks of it.
#[derive(Clone, Copy)]
pub(crate) struct FoundItem<'a> {
    pub is_other: bool,
    pub marked: Option<Marked<'a>>,
}

/// What a chart finds of the item of a number.
pub(crate) fn found_item<'a>(chart: Charted<'a>, number: u64) -> FoundItem<'a>
    requires { changes_within chart.same chart.rows.now ≡ false }
    ensures other { result.is_other ≡ Spec.is_other (charted_of chart.entry) number }
    ensures marks { option_map marked_of result.marked ≡ Spec.marked_at (charted_of chart.entry) number }
{
    let row = row_in_chart(chart, number);
    FoundItem {
        is_other: is_other_in(row),
        marked: marks_in(chart, row),
    }
}

/// Whether an item that stands in a row is not the same in both logs.
fn is_other_in(row: Option<RowPlace>) -> bool
    ensures { result ≡ Spec.is_other_in row }
{
    match row {
        Some(here) => is_change(here.kind),
        None => false,
    }
}

/// The row that has the item of a number, if one has it that stands no more before the first change.
fn row_in_chart(chart: Charted<'_>, number: u64) -> Option<RowPlace>
    requires { changes_within chart.same chart.rows.now ≡ false }
    ensures other { Spec.is_other_in result ≡ Spec.is_other (charted_of chart.entry) number }
    ensures marks { Spec.marks_in (charted_of chart.entry) result ≡ Spec.marked_at (charted_of chart.entry) number }
{
    if number <= chart.same as u64 {
        None
    } else {
        row_with(chart.log, number, chart.rows, chart.same)
    }
}

/// The row that has the item of a number of a log, counted from 1, if one has it: it stands behind so many that are the
/// same.
fn row_with(log: PairLog, number: u64, rows: &[Row], same: usize) -> Option<RowPlace>
    requires same { changes_within same rows.now ≡ false }
    requires behind { same < number }
    ensures { result ≡ Spec.row_with log number rows.now }
{
    let mut left = same;
    let mut right = same;
    'rows: for k in same..rows.len() {
        let here = RowPlace {
            kind: rows[k],
            left,
            right,
        };
        if has_number(log, number, here) {
            return Some(here);
        }
        left += left_in(rows[k]);
        right += right_in(rows[k]);
    }
    None
}

/// Whether a row has the item of a number of a log, counted from 1.
fn has_number(log: PairLog, number: u64, here: RowPlace) -> bool
    requires { place_of log here < 2 ^ 63 }
    ensures { result ≡ Spec.has_number log number here }
{
    has_item(log, here.kind) && place_in(log, here) as u64 + 1 == number
}

/// What a chart marks of an item that stands in a row.
fn marks_in<'a>(chart: Charted<'a>, row: Option<RowPlace>) -> Option<Marked<'a>>
    ensures { option_map marked_of result ≡ Spec.marks_in (charted_of chart.entry) row }
{
    match row {
        Some(here) => {
            let left = changed_item(here.kind, chart.sessions.left, here.left);
            let right = changed_item(here.kind, chart.sessions.right, here.right);
            marks_of(chart.log, left, right)
        }
        None => None,
    }
}

/// The item of a session at a place, where it stands in a row of two that changed.
fn changed_item<'a>(kind: Row, session: &'a KeptSession<'_>, place: usize) -> Option<PlacedItem<'a>>
    ensures { option_map item_of result ≡ Spec.changed_item kind session.now place }
{
    match kind {
        Row::Changed => session.rows().item(place),
        Row::Same | Row::OnlyLeft | Row::OnlyRight => None,
    }
}

/// What the chart of a log marks of two items, of which the first one is of the left log.
fn marks_of<'a>(
    log: PairLog,
    left: Option<PlacedItem<'a>>,
    right: Option<PlacedItem<'a>>,
) -> Option<Marked<'a>>
    ensures { option_map marked_of result ≡ Spec.marks_of log (option_map item_of left.entry) (option_map item_of right.entry) }
{
    match log {
        PairLog::A => marks(left, right),
        PairLog::B => marks(right, left),
    }
}

/// The marks of an item beside the one that it changed to.
fn marks<'a>(own: Option<PlacedItem<'a>>, other: Option<PlacedItem<'a>>) -> Option<Marked<'a>>
    ensures { option_map marked_of result ≡ Spec.marks (option_map item_of own.entry) (option_map item_of other.entry) }
{
    let own = own?;
    let other = other?;
    Some(Marked {
        begin: if_other(own.begin.bytes, other.begin.bytes),
        answer: answer_beside(own, other),
    })
}

/// The answer beside which another is marked: both have the same outcome, and differ.
fn answer_beside<'a>(own: PlacedItem<'a>, other: PlacedItem<'a>) -> Option<&'a [u8]>
    ensures { option_map (λ bytes. bytes.now) result ≡ Spec.answer_beside (item_of own.entry) (item_of other.entry) }
{
    let answer = own.answer?;
    let reply = other.answer?;
    if same_outcome(outcome_by(own), outcome_by(other)) {
        if_other(answer.bytes, reply.bytes)
    } else {
        None
    }
}

/// Bytes beside which others are marked: where they differ.
fn if_other<'a>(own: &[u8], other: &'a [u8]) -> Option<&'a [u8]>
    ensures { option_map (λ bytes. bytes.now) result ≡ Spec.if_other own.now other.now }
{
    if own == other { None } else { Some(other) }
}

/// The message of the other log beside which one of a role is written, if it is.
pub(crate) fn counterpart<'a>(marked: Option<Marked<'a>>, role: MessageRole) -> Option<&'a [u8]>
    ensures { option_map (λ other. other.now) result ≡ Spec.counterpart (option_map marked_of marked.entry) role }
{
    let marked = marked?;
    if begins_item(role) {
        marked.begin
    } else if is_answer_role(role) {
        marked.answer
    } else {
        None
    }
}

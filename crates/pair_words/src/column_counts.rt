//! How many columns of two messages a page tells of that it folds, or does not show.

ghost use Rattle.std.specs.Prelude.{[], ◌≡◌, ◌+◌, ◌-◌, ◌≤◌, ◌∷◌, drop, length, take};
ghost use Rattle.byte_columns.specs.Columns.{differing};
ghost use Rattle.byte_columns.specs.Lines.{columns_from, hidden, line_count};
ghost use Rattle.pair_words.specs.ColumnLines.{counted, uncounted};
ghost use Rattle.pair_words.specs.ColumnLines as Spec;

use crate::column_cells::byte_of;
use crate::column_lines::ShownLogs;
use byte_columns::{ByteColumns, Column, LINE_LENGTH};

/// How many columns count, how many of these differ, and how many don't count: there the other log alone has a byte.
#[derive(Clone, Copy)]
pub(crate) struct ColumnCounts {
    pub all: usize,
    pub differing: usize,
    pub others: usize,
}

/// Counts the columns of so many lines, from the line of a number on.
pub(crate) fn counts_from(
    shown: ShownLogs,
    columns: &ByteColumns<'_>,
    first: usize,
    count: usize,
) -> ColumnCounts
    requires { first + count ≤ line_count columns.now }
    ensures all { result.all ≡ length (counted shown (columns_from columns.now first count)) }
    ensures differing { result.differing ≡ differing (counted shown (columns_from columns.now first count)) }
    ensures others { result.others ≡ uncounted shown (columns_from columns.now first count) }
{
    let most = columns.columns_in_lines();
    let from = (first * LINE_LENGTH).min(most);
    let to = ((first + count) * LINE_LENGTH).min(most);
    counts_between(shown, columns, from, to)
}

/// Counts the columns behind those that stand in lines.
pub(crate) fn hidden_counts(shown: ShownLogs, columns: &ByteColumns<'_>) -> ColumnCounts
    ensures all { result.all ≡ length (counted shown (hidden columns.now)) }
    ensures differing { result.differing ≡ differing (counted shown (hidden columns.now)) }
    ensures others { result.others ≡ uncounted shown (hidden columns.now) }
{
    counts_between(shown, columns, columns.columns_in_lines(), columns.len())
}

/// Counts the columns from one place up to another.
fn counts_between(
    shown: ShownLogs,
    columns: &ByteColumns<'_>,
    from: usize,
    to: usize,
) -> ColumnCounts
    requires forward { from ≤ to }
    requires inside { to ≤ length columns.now }
    ensures all { result.all ≡ length (counted shown (take (to - from) (drop from columns.now))) }
    ensures differing { result.differing ≡ differing (counted shown (take (to - from) (drop from columns.now))) }
    ensures others { result.others ≡ uncounted shown (take (to - from) (drop from columns.now)) }
{
    let mut all: usize = 0;
    let mut differing: usize = 0;
    'columns: for at in from..to {
        let column = columns.column(at);
        all += one_if_counted(shown, column);
        differing += one_if_differing(shown, column);
    }
    ColumnCounts {
        all,
        differing,
        others: (to - from).saturating_sub(all),
    }
}

/// One for a column that counts, and else none.
fn one_if_counted(shown: ShownLogs, column: Column) -> usize
    ensures value { result ≡ length (counted shown (column ∷ [])) }
    ensures one { result ≤ 1 }
{
    if is_counted(shown, column) { 1 } else { 0 }
}

/// One for a column that counts and differs, and else none.
fn one_if_differing(shown: ShownLogs, column: Column) -> usize
    ensures value { result ≡ differing (counted shown (column ∷ [])) }
    ensures one { result ≤ 1 }
{
    if is_counted(shown, column) && column.differs() {
        1
    } else {
        0
    }
}

/// Whether a column counts.
fn is_counted(shown: ShownLogs, column: Column) -> bool
    ensures { result ≡ Spec.is_counted shown column }
{
    match shown {
        ShownLogs::Both => true,
        ShownLogs::Only(log) => has_byte(byte_of(log, column)),
    }
}

/// Whether there is a byte.
fn has_byte(byte: Option<u8>) -> bool
    ensures { result ≡ Spec.has_byte byte }
{
    byte.is_some()
}

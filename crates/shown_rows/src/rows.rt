//! The rows of two sessions: which are a change, and how many items they have of both.
ghost use Rattle.std.specs.Prelude.{◌≡◌, ◌≤◌};
ghost use Rattle.shown_rows.specs.Rows.{changes_within, count_of, differs, is_change, left_count, left_in, right_count, right_in};

use uds_difference::Row;

/// How many rows that are the same are shown in front of a change, and behind one, as `diff -u` has it.
pub(crate) const CONTEXT: usize = 3;

/// Whether what stands in a row is not the same in both sessions.
pub fn is_change(row: Row) -> bool
    ensures { result ≡ is_change row }
{
    match row {
        Row::Same => false,
        Row::Changed | Row::OnlyLeft | Row::OnlyRight => true,
    }
}

/// How many items a row has of the left session.
pub fn left_in(row: Row) -> usize
    ensures value { result ≡ left_in row }
    ensures one { result ≤ 1 }
{
    match row {
        Row::Same | Row::Changed | Row::OnlyLeft => 1,
        Row::OnlyRight => 0,
    }
}

/// How many it has of the right one.
pub fn right_in(row: Row) -> usize
    ensures value { result ≡ right_in row }
    ensures one { result ≤ 1 }
{
    match row {
        Row::Same | Row::Changed | Row::OnlyRight => 1,
        Row::OnlyLeft => 0,
    }
}

/// How many items rows have of the left session.
pub fn left_count(rows: &[Row]) -> usize
    ensures { result ≡ left_count rows.now }
{
    let mut count = 0;
    'rows: for row in rows {
        count += left_in(*row);
    }
    count
}

/// How many they have of the right one.
pub fn right_count(rows: &[Row]) -> usize
    ensures { result ≡ right_count rows.now }
{
    let mut count = 0;
    'rows: for row in rows {
        count += right_in(*row);
    }
    count
}

/// Whether one of the first so many rows is a change.
pub(crate) fn changes_within(count: usize, rows: &[Row]) -> bool
    ensures { result ≡ changes_within count rows.now }
{
    let seen = count.min(rows.len());
    'rows: for k in 0..seen {
        if is_change(rows[k]) {
            return true;
        }
    }
    false
}

/// Whether any row is a change.
pub fn differs(rows: &[Row]) -> bool
    ensures { result ≡ differs rows.now }
{
    changes_within(rows.len(), rows)
}

/// How many rows are of this kind.
pub fn count_of(kind: Row, rows: &[Row]) -> usize
    ensures { result ≡ count_of kind rows.now }
{
    let mut count = 0;
    'rows: for row in rows {
        if kind == *row {
            count += 1;
        }
    }
    count
}

//! The changes of rows.
ghost use Rattle.std.specs.Prelude.{◌≡◌, ◌≤◌, ◌<◌, ◌^◌, List, ◌∷◌, Some, None, length, if◌then◌else◌};
ghost use Rattle.uds_difference.specs.declared.row.Row.{Row};
ghost use Rattle.shown_rows.specs.Changes.{begins_change, change, change_length, changes, run_length};

use crate::rows::{left_in, right_in};
use std::marker::Model;
use uds_difference::Row;

/// A change: two items that changed, or a run of items that only one session has.
#[derive(Clone, Copy, Debug, PartialEq, Eq)]
pub struct Change {
    /// The kind of each of its rows.
    pub kind: Row,
    /// How many items of the left session stand before it.
    pub left: usize,
    /// How many of the right one.
    pub right: usize,
    /// How many rows it has.
    pub count: usize,
}

/// The change that begins with the first of these rows, if one does, by the row in front of them, and how many items of
/// both sessions stand before them. In front of all rows stands [`Row::Same`].
pub fn change_at(front: Row, left: usize, right: usize, rows: &[Row]) -> Option<Change>
    ensures { (row : Row) (later : List Row) → rows.now ≡ row ∷ later
        → result ≡ (if begins_change front row then Some (change row left right (change_length row later)) else None) }
{
    let Some((row, later)) = rows.split_first() else {
        return None;
    };
    if begins_change(front, *row) {
        Some(Change {
            kind: *row,
            left,
            right,
            count: change_length(*row, later),
        })
    } else {
        None
    }
}

/// Whether a change begins with a row, by the row in front of it.
pub fn begins_change(front: Row, row: Row) -> bool
    ensures { result ≡ begins_change front row }
{
    match (front, row) {
        (_, Row::Same) => false,
        (_, Row::Changed) => true,
        (Row::OnlyLeft, Row::OnlyLeft) | (Row::OnlyRight, Row::OnlyRight) => false,
        (_, Row::OnlyLeft | Row::OnlyRight) => true,
    }
}

/// How many rows the change has that begins with a row, by those behind it.
fn change_length(row: Row, later: &[Row]) -> usize
    requires { length later.now < 2 ^ 63 }
    ensures { result ≡ change_length row later.now }
{
    match row {
        Row::Changed => 1,
        Row::Same | Row::OnlyLeft | Row::OnlyRight => 1 + run_length(row, later),
    }
}

/// How many rows from the first one on are of this kind.
fn run_length(kind: Row, rows: &[Row]) -> usize
    ensures value { result ≡ run_length kind rows.now }
    ensures within { result ≤ length rows.now }
{
    'rows: for k in 0..rows.len() {
        if kind != rows[k] {
            return k;
        }
    }
    rows.len()
}

/// The changes of rows, one after another, seen as those that it still gives.
#[derive(Drop)]
pub struct Changes<'a> {
    /// The row in front of those that are left.
    front: Row,
    /// How many items of the left session stand before these.
    left: usize,
    /// How many of the right one.
    right: usize,
    /// The rows that are left.
    rows: &'a [Row],
}

impl<'a> Model for Changes<'a> {
    ghost use Rattle.std.specs.Prelude.{◌+◌, ◌<◌, ◌^◌, List, length};
    ghost use Rattle.shown_rows.specs.declared.changes.Change.{Change};
    ghost use Rattle.shown_rows.specs.Changes.{changes_from};

    ghost Value = { List Change };

    ghost view = { λ c. changes_from c.front c.left c.right c.rows.now };

    ghost invariant = { λ c. (c.left + length c.rows.now < 2 ^ 63) × (c.right + length c.rows.now < 2 ^ 63) };
}

impl<'a> Changes<'a> {
    /// The changes of all rows of two sessions.
    pub fn of(rows: &'a [Row]) -> Changes<'a>
        ensures { result ≡ changes rows.now }
    {
        Changes {
            front: Row::Same,
            left: 0,
            right: 0,
            rows,
        }
    }
}

impl<'a> Iterator for Changes<'a> {
    type Item = Change;

    ghost use Rattle.std.specs.Iterator.{YieldsFirst, item_count};

    ghost next_gives = { YieldsFirst (λ changes. changes) };

    ghost remaining = { item_count (λ changes. changes) };

    fn next(&mut self) -> Option<Change> {
        'rows: while let Some((row, later)) = self.rows.split_first() {
            let change = change_at(self.front, self.left, self.right, self.rows);
            self.front = *row;
            self.left += left_in(*row);
            self.right += right_in(*row);
            self.rows = later;
            if change.is_some() {
                return change;
            }
        }
        None
    }
}

/// How many changes rows have.
pub fn count_changes(rows: &[Row]) -> usize
    ensures { result ≡ length (changes rows.now) }
{
    Changes::of(rows).count()
}

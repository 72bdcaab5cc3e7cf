//! What stands before a row of the table of items.

ghost use Rattle.std.specs.Prelude.{◌≡◌, ◌∷◌, List, length};
ghost use Rattle.uds_difference.specs.declared.row.Row.{Row as RowValue};
ghost use Rattle.trace_pair.specs.proving.Standings.{IsRoomy, IsSmall};
ghost use Rattle.trace_pair.specs.proving.Standings as Spec;

use shown_rows::{begins_change, context_behind, folded, is_shown, left_in, right_in};
use uds_difference::Row;

/// A table has so many rows at most, and another one goes on.
pub(crate) const FULL_TABLE: usize = 200;

/// The table that stands, with how many rows.
#[derive(Clone, Copy, Debug, PartialEq, Eq)]
pub(crate) enum Table {
    /// None.
    Closed,
    /// One that does not fold.
    Open(usize),
    /// One that does.
    Block(usize),
}

/// What stands before a row.
#[derive(Clone, Copy, Debug)]
pub(crate) struct Standing {
    /// Of the fold before it so many rows are still to come.
    pub folded: usize,
    /// So many of the next rows are shown for a change before them.
    pub still_shown: usize,
    /// The row in front.
    pub front: Row,
    /// So many items of the left session.
    pub left: usize,
    /// So many of the right one.
    pub right: usize,
    /// So many changes began.
    pub changes: usize,
    pub table: Table,
    /// So many tables that fold.
    pub blocks: usize,
}

impl Standing {
    /// Before the first row.
    pub(crate) fn at_start() -> Standing
        ensures { result ≡ Spec.at_start }
    {
        Standing {
            folded: 0,
            still_shown: 0,
            front: Row::Same,
            left: 0,
            right: 0,
            changes: 0,
            table: Table::Closed,
            blocks: 0,
        }
    }

    /// Behind the first of these rows.
    pub(crate) fn behind(self, rows: &[Row]) -> Standing
        requires { IsRoomy self (length rows.now) }
        ensures { (row : RowValue) (later : List RowValue) → rows.now ≡ row ∷ later → result ≡ Spec.standing_behind self row later }
    {
        let Some(row) = rows.first() else {
            return self;
        };
        if self.folded > 0 {
            self.with_fold(self.folded, *row)
        } else if is_shown(self.still_shown, rows) {
            self.with_shown(*row)
        } else {
            self.with_fold(folded(rows), *row)
        }
    }

    /// Behind a row.
    fn with_row(self, row: Row) -> Standing
        requires { IsSmall self }
        ensures { result ≡ Spec.with_row row self }
    {
        let mut at = self;
        at.still_shown = context_behind(self.still_shown, row);
        at.front = row;
        at.left = self.left + left_in(row);
        at.right = self.right + right_in(row);
        if begins_change(self.front, row) {
            at.changes = self.changes + 1;
        }
        at
    }

    /// Behind a row that is shown, in a table.
    fn with_shown(self, row: Row) -> Standing
        requires { IsSmall self }
        ensures { result ≡ Spec.with_shown row self }
    {
        let mut at = self.with_row(row);
        at.table = self.table.behind();
        if self.table.is_full() {
            at.blocks = self.blocks + 1;
        }
        at
    }

    /// Behind a row with which a fold of so many rows begins, or goes on.
    fn with_fold(self, count: usize, row: Row) -> Standing
        requires { IsSmall self }
        ensures { result ≡ Spec.with_fold count row self }
    {
        let mut at = self.with_row(row);
        at.folded = count.saturating_sub(1);
        at.table = Table::Closed;
        at
    }
}

impl Table {
    /// Whether another one begins before the next row.
    pub(crate) fn is_full(self) -> bool
        ensures { result ≡ Spec.is_full self }
    {
        match self {
            Table::Closed => false,
            Table::Open(rows) | Table::Block(rows) => rows >= FULL_TABLE,
        }
    }

    /// With one row more, or the next one.
    fn behind(self) -> Table
        ensures { result ≡ Spec.table_behind self }
    {
        match self {
            Table::Closed => Table::Open(1),
            Table::Open(rows) if rows < FULL_TABLE => Table::Open(rows + 1),
            Table::Block(rows) if rows < FULL_TABLE => Table::Block(rows + 1),
            Table::Open(_) | Table::Block(_) => Table::Block(1),
        }
    }
}

//! What of the rows is folded.
ghost use Rattle.std.specs.Prelude.{◌≡◌, ◌≤◌, length};
ghost use Rattle.shown_rows.specs.Folds as Spec;

use crate::hunks::begins_hunk;
use crate::rows::{CONTEXT, is_change};
use uds_difference::Row;

/// How many of the next rows are shown for a change before them, behind a row, by how many were in front of it.
pub fn context_behind(still_shown: usize, row: Row) -> usize
    ensures { result ≡ Spec.context_behind still_shown row }
{
    if is_change(row) {
        CONTEXT
    } else {
        still_shown.saturating_sub(1)
    }
}

/// Whether the first of these rows is shown, where so many of the next are for a change before them.
pub fn is_shown(still_shown: usize, rows: &[Row]) -> bool
    ensures { result ≡ Spec.is_shown still_shown rows.now }
{
    still_shown > 0 || begins_hunk(rows)
}

/// How many rows from the first of these on are folded together, behind one that is not shown or in front of all.
pub fn folded(rows: &[Row]) -> usize
    ensures value { result ≡ Spec.folded rows.now }
    ensures within { result ≤ length rows.now }
{
    'rows: for k in 0..rows.len() {
        if is_shown(0, &rows[k..]) {
            return k;
        }
    }
    rows.len()
}

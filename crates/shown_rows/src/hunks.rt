//! The hunks of rows.
ghost use Rattle.std.specs.Prelude.{◌≡◌, ◌≤◌, ◌<◌, length};
ghost use Rattle.shown_rows.specs.Hunks.{begins_hunk, hunk_length, rows_to_last_change};

use crate::rows::{CONTEXT, changes_within};
use uds_difference::Row;

/// Whether a hunk begins with the first of these rows, behind one that stands in none.
pub fn begins_hunk(rows: &[Row]) -> bool
    ensures { result ≡ begins_hunk rows.now }
{
    changes_within(CONTEXT + 1, rows)
}

/// How many rows the hunk has that begins with the first of these.
pub fn hunk_length(rows: &[Row]) -> usize
    ensures value { result ≡ hunk_length rows.now }
    ensures some { 0 < length rows.now → 0 < result }
    ensures within { result ≤ length rows.now }
{
    let last = rows_to_last_change(rows);
    last + (rows.len() - last).min(CONTEXT)
}

/// How many of them stand up to its last change.
fn rows_to_last_change(rows: &[Row]) -> usize
    ensures value { result ≡ rows_to_last_change rows.now }
    ensures some { 0 < length rows.now → 0 < result }
    ensures within { result ≤ length rows.now }
{
    'rows: for k in 0..rows.len() {
        if !changes_within(2 * CONTEXT + 1, &rows[k + 1..]) {
            return k + 1;
        }
    }
    rows.len()
}

//! What of the rows of a difference is shown, and what is counted.
//!
//! Two sessions side by side are mostly the same, and a reader looks for what is not. So of their rows a text has the
//! *hunks*: each row that is a change, with three rows before and three behind; and a page shows these, and folds the
//! others. A *change* is what a reader counts as one difference: two items that changed, or a run of items that only one of
//! the two sessions has.
//!
//! ```text
//! same same same same same OnlyLeft OnlyLeft Changed same same same same
//! [folded ] [hunk                                                ] [fold]
//!                          change 1          change 2
//! ```
//!
//! | Part | Files | Definitions |
//! |---|---|---|
//! | which rows are a change, and how many items rows have | `rows` | `Rows` |
//! | the hunks of a text | `hunks` | `Hunks` |
//! | what a page shows, and what it folds | `folds` | `Folds` |
//! | the changes, as a reader counts them | `changes` | `Changes` |
//! | what holds of any rows | [`laws`] | `Laws` |
#![tactic(auto)]

mod changes;
mod folds;
mod hunks;
pub mod laws;
mod rows;

pub use changes::{Change, Changes, begins_change, change_at, count_changes};
pub use folds::{context_behind, folded, is_shown};
pub use hunks::{begins_hunk, hunk_length};
pub use rows::{count_of, differs, is_change, left_count, left_in, right_count, right_in};

//! The text of a difference: where two sessions differ, in the form that `diff -u` has, or as objects of JSON.
//!
//! [`uds_difference`] says what stands beside what in two sessions. Here is what is written of that. In words it is what
//! `diff -u` writes of both lists without numbers: hunks of lines, with three lines of what is the same before and behind
//! each place, so that `patch` makes the right list of the left one. As JSON it is an object for each row that is not
//! the same in both, and one with the counts. [`in_memory`] answers of two logs in memory with this text.
//!
//! ```text
//! --- one.log
//! +++ other.log
//! @@ -1,3 +1,2 @@
//!  exchange ReadDataByIdentifier 22F190 -> positive 62F19041
//! -stray tester 3E80
//! -exchange ReadDataByIdentifier 22F191 -> positive 62F19101
//! +exchange ReadDataByIdentifier 22F191 -> positive 62F19102
//! ```
//!
//! | Part | Files | Definitions |
//! |---|---|---|
//! | the lines of a hunk | `hunk_lines` | `Lines` |
//! | the names of the files | `labels` | `Labels` |
//! | the text in words | `unified_text` | `Unified` |
//! | the text as objects | `row_objects` | `Objects` |
//! | either of them, in a notation | `written` | `Written` |
//! | the text of two logs in memory, with the counts | [`in_memory`] | `InMemory` |
//! | what holds of any two sessions | [`laws`] | `Laws` |
#![tactic(auto)]

mod hunk_lines;
pub mod in_memory;
mod labels;
pub mod laws;
mod row_objects;
mod unified_text;
mod written;

pub use written::{NamedSession, say_difference, write_difference};

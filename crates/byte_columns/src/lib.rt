//! Two messages byte under byte: which of them has what in each column, and which lines of columns a reader is shown.
//!
//! What both begin with and what both end with stands under each other. Between the two, the bytes pair by place, and
//! where one message is the shorter it has gaps. So a list with one entry more differs in the bytes of that entry alone.
//!
//! ```text
//! 59 02 FF 01 23 45 08 -- -- -- -- C1 00 16 08
//! 59 02 FF 01 23 45 08 4A 11 02 2C C1 00 16 08
//!                      ^^ ^^ ^^ ^^
//! ```
//!
//! A line has sixteen columns. Of a long message the first line is shown, and the first eight that differ; the others are
//! folded, each run of them with its number of bytes and how many of those differ.
#![tactic(auto)]

mod column;
pub mod laws;
mod lines;
mod pairs;
mod stretches;

pub use column::{ByteColumns, Column};
pub use lines::LINE_LENGTH;
pub use stretches::{Stretch, Stretches};

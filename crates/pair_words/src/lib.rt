//! Two messages beside each other, as a page of two logs has them: byte under byte, with a mark at each byte that
//! differs, or how they differ in words. So are the other words of that page that know no session.
//!
//! [`say_columns`] says both in the lines of `byte_columns`, of both logs or of one; [`ByteWords`] are a sentence:
//!
//! ```text
//! byte 3: 90 in A, 91 in B; and 1 more byte
//! 4 bytes only in B, from byte 8 on: 4A 11 02 2C; 11 bytes in A, 15 in B
//! ```
//!
//! | Part | Files | Definitions |
//! |---|---|---|
//! | the two logs, by their letters | `log` | `Logs` |
//! | two messages byte under byte | `column_cells`, `column_counts`, `column_words`, `hidden_words`, `column_lines` | `ColumnLines` |
//! | how two messages differ, in a sentence | `byte_words`, `alone_words`, `lengths` | `ByteWords` |
//! | long names, which may be parted | `long_names` | `LongNames` |
//! | when a log was | `dates` | `Dates` |
//! | what links to differences name | `difference_names` | `DifferenceNames` |
//! | what stands around the rows of a chart | `chart_words` | `ChartWords` |
//! | what holds of two messages on each page | [`laws`] | `ColumnLaws`, `ByteLaws` |
#![tactic(auto)]

mod alone_words;
mod byte_words;
mod chart_words;
mod column_cells;
mod column_counts;
mod column_lines;
mod column_words;
mod dates;
mod difference_names;
mod hidden_words;
pub mod laws;
mod lengths;
mod log;
mod long_names;

pub use byte_words::ByteWords;
pub use chart_words::{BodyStart, ChartEnd, ItemsEnd, PairChartHead};
pub use column_lines::{ShownLogs, have_word, say_columns};
pub use dates::Moment;
pub use difference_names::DifferenceName;
pub use log::{LetterMark, LetteredName, PairLog, has_item, items_before, own_count};
pub use long_names::{PartedCode, PartedService};

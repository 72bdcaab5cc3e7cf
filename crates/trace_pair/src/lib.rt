//! Two recorded sessions as a page: what stands beside what, and each byte that differs.
//!
//! [`align_two`] reads both logs and sets them side by side, as [`Aligned`]: the rows of a page are those of
//! [`Difference::between`](uds_difference::Difference::between). Then the page is written from its front on.
//! [`in_memory`] answers of logs in memory with their page and the counts.
//!
//! ```text
//! KeptSessions -> Aligned -> front, verdict, longer_words, recordings, differences, first, item_tables, help -> page
//! ```
//!
//! The verdict says in how many places the sessions differ, and how far that can be known: a log that is not clean, a
//! bound that was passed. Of several differences there is a list. The first one stands as recorded, in a chart of each
//! log, which marks each byte that an item has other than its counterpart. The table of items has each item of both
//! sessions once: what is the same is folded, but for three rows before and behind a change. What is missing of a log
//! stands in the row of its item. What the page says of two messages alone, `pair_words` has.
//!
//! A part of a text requires nothing: what does require something, such as that places are small, is said by a
//! function. The table has the files in the order of reading; `mod` below is sorted by the formatter.
//!
//! | Part | Files | Definitions |
//! |---|---|---|
//! | the sessions of the two logs | `sessions` | `Sessions` |
//! | both side by side, and how they compare | `comparing`, `aligned`, `aligner` | `Compared`, `MemoryNeeded` |
//! | what is missing of a log, by its items | `losses`, `loss_words` | `Losses` |
//! | items in words | `parted_roles`, `outcome`, `item_words`, `told_items` | `PartedRoles`, `ItemWords`, `ToldItems` |
//! | how two items differ, in a sentence | `differ_words` | `ItemWords` |
//! | what stands before the verdict, and behind all | `style`, `title`, `front`, `help` | `Style`, `Titles`, `Page`, `Help` |
//! | the rules that the page is under | `pair_rules` | `PairRules` |
//! | the verdict | `lossy_changes`, `same_words`, `verdict_words`, `verdict` | `Verdict` |
//! | answers that took much longer in one log | `row_times`, `longer_answers`, `longer_words` | `RowTimes`, `LongerAnswers` |
//! | what was found of each log | `recordings` | `Recordings` |
//! | the list of the differences | `change_words`, `differences` | `ChangeWords`, `Differences` |
//! | the first difference as recorded, and its charts | `counterparts`, `chart_rows`, `chart_bytes`, `chart`, `first` | `Counterparts`, `FirstDifference` |
//! | a row of the table of items, and two that changed in it | `pair_bytes`, `row_items`, `change_top`, `item_row` | `ItemRows` |
//! | the table: which rows are seen, and which are folded | `standing`, `widths`, `table_parts`, `folds`, `item_tables` | `RowStretches`, `Widths`, `ItemTables` |
//! | the page, and that of a log that is refused | `page` | `Page` |
//! | the page of two logs in memory, with the counts | [`in_memory`] | `InMemory` |
//! | what holds of each page | [`laws`] | `Links`; `Laws` of all of it, and those of its parts: `RowLaws`, `LossLaws`, `ChartLaws`, `OutcomeLaws`, `TableLaws`, `LinkLaws`, `LongerLaws` |
#![tactic(auto)]

mod aligned;
mod aligner;
mod change_top;
mod change_words;
mod chart;
mod chart_bytes;
mod chart_rows;
mod comparing;
mod counterparts;
mod differ_words;
mod differences;
mod first;
mod folds;
mod front;
mod help;
pub mod in_memory;
mod item_row;
mod item_tables;
mod item_words;
pub mod laws;
mod longer_answers;
mod longer_words;
mod loss_words;
mod losses;
mod lossy_changes;
mod outcome;
mod page;
mod pair_bytes;
mod pair_rules;
mod parted_roles;
mod recordings;
mod row_items;
mod row_times;
mod same_words;
mod sessions;
mod standing;
mod style;
mod table_parts;
mod title;
mod told_items;
mod verdict;
mod verdict_words;
mod widths;

pub use aligned::Aligned;
pub use aligner::align_two;
pub use page::write_pair_page;
pub use style::pair_style;
pub use title::Title;

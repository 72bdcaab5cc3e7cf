//! A recorded session as a page: one file of HTML, without a script, that fetches nothing.
//!
//! The chart of the session is a table with a row for each event, in the order of the log. A row is bounded, whatever
//! the message, and stands by itself; so a page is written while the log is read, and the verdict last.
//!
//! ```text
//! event -> Follower -> rows -> Chart -> page
//! ```
//!
//! [`report`] is a machine over the driver of `trace_run`. Of two logs a page says first whether they are the same: so
//! [`keep_two`] keeps the rows of both, for `trace_pair`, which sets them side by side and writes their page.
//!
//! ```text
//! event -> Follower -> rows -> Keeper -> KeptSession -> KeptSessions
//! ```
//!
//! | Part | Files | Definitions |
//! |---|---|---|
//! | times, as rows show them | `durations` | `Durations` |
//! | what a row tells | `targets`, `roles`, `row`, `silences` | `Targets`, `Roles`, `Rows`, `Silences` |
//! | what is counted, and where links lead | `counting`, `sorts`, `tally` | `Sorts`, `Linked` |
//! | the text of a row | `cells`, `message_rows`, `message_words`, `brief_rows`, `missing_rows`, `missing_words`, `plain_reasons` | `Rows`, `MessageRows`, `BriefRows`, `MissingRows` |
//! | the chart: rows one after another, in blocks that fold | `blocks`, `block_fronts`, `chart` | `Blocks`, `Chart` |
//! | the rows of a frame, by what the frames before it were | `follower`, `extents`, `frames`, `times` | `Events` |
//! | the rules that a page is under | `rule_words`, `rules_style` | `RuleWords`, `RulesStyle` |
//! | answers that are other than was asked | `other_answers`, `other_rows` | `OtherAnswers`, `OtherRows` |
//! | the slowest answers | `answer_times`, `slowest_lines` | `AnswerTimes`, `SlowestLines` |
//! | the verdict of a log | `verdict_front`, `verdict`, `spans`, `links`, `counts`, `reasons` | `Links`, `Counts`, `Verdict` |
//! | why a log is refused | `looks`, `first_bytes`, `cause`, `refusal` | `Looks`, `Causes`, `Verdict` |
//! | what stands before the rows and behind them | `style`, `front`, `help` | `Style`, `Front`, `Help` |
//! | [`report`] | `reporter`, `page_end` | `Page` |
//! | the items of a session, by its rows | `kept_rows`, `item_places`, `items` | `Items` |
//! | [`keep_two`], [`KeptSession`], [`KeptSessions`] | `keeper`, `session`, `sessions` | `Session`, `Kept` |
//! | the page of a log in memory, with the counts | [`in_memory`] | `InMemory` |
//! | what holds of each page | [`laws`] | `Numbers`, `Laws` |
#![tactic(auto)]

mod answer_times;
mod block_fronts;
mod blocks;
mod brief_rows;
mod cause;
mod cells;
mod chart;
mod counting;
mod counts;
mod durations;
mod extents;
mod first_bytes;
mod follower;
mod frames;
mod front;
mod help;
pub mod in_memory;
mod item_places;
mod items;
mod keeper;
mod kept_rows;
pub mod laws;
mod links;
mod looks;
mod message_rows;
mod message_words;
mod missing_rows;
mod missing_words;
mod other_answers;
mod other_rows;
mod page_end;
mod plain_reasons;
mod reasons;
mod refusal;
mod reporter;
mod roles;
mod row;
mod rule_words;
mod rules_style;
mod session;
mod sessions;
mod silences;
mod slowest_lines;
mod sorts;
mod spans;
mod style;
mod tally;
mod targets;
mod times;
mod verdict;
mod verdict_front;

pub use blocks::begins_exchange;
pub use cause::{CauseLine, RefusalCause, RefusalCauseText, cause_of};
pub use counts::Counts;
pub use durations::{Duration, Seconds};
pub use front::{DocumentFront, Identifiers, Shapes};
pub use help::{HelpHeading, Legend, Limits, Tail};
pub use items::{PlacedItem, RowMessage};
pub use keeper::keep_two;
pub use kept_rows::KeptRows;
pub use looks::Look;
pub use message_rows::{MessageRow, NamedLines};
pub use message_words::{FurtherNote, RoleWords};
pub use missing_rows::say_missing_row;
pub use missing_words::{DroppedWords, EndedWords, UnfinishedWords};
pub use reasons::UncleanReasons;
pub use refusal::Refusal;
pub use reporter::report;
pub use roles::{MessageRole, asked_at, begins_item, is_answer_role, is_request_role};
pub use row::{MessagePlace, Missing, SentMessage, SessionRow, Silence};
pub use rule_words::{RulesEnd, RulesStart, RulesWord};
pub use rules_style::RulesStyle;
pub use session::KeptSession;
pub use sessions::KeptSessions;
pub use spans::SpanOf;
pub use style::report_style;
pub use tally::SortCounts;
pub use verdict::is_called_clean;
pub use verdict_front::VerdictFront;

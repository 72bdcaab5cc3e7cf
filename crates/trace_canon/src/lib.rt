//! The commands over a log: its canonical log, its items, its messages, what was dropped, which identifiers answer, and
//! whether two logs are the same session.
//!
//! Two recordings of one diagnostic session differ in time stamps, interface names, padding, frame sizes and foreign
//! traffic. [`normalise`] reads a log and writes the one spelling that all logs with the same meaning share. So two
//! logs mean the same session exactly where their canonical logs are equal byte for byte. A log that is not accepted
//! is refused with its reason, and with the line and the column where it has them.
//!
//! The log
//!
//! ```text
//! (5.000000) vcan1 7e0#0322f190aaaaaaaa
//! (5.250000) vcan1 7e8##1001462f1905742413341354335304546313233343536aaaa
//! ```
//!
//! has, with the tester at 7E0 and the unit at 7E8, the canonical log
//!
//! ```text
//! (0000000000.000000) can0 7E0#0322F190CCCCCCCC
//! (0000000000.001000) can0 7E8#101462F190574241
//! (0000000000.002000) can0 7E0#300000CCCCCCCCCC
//! (0000000000.003000) can0 7E8#2133413543353045
//! (0000000000.004000) can0 7E8#2246313233343536
//! ```
//!
//! `trace_log` reads a log and says what it means, `trace_run` runs a machine over it, where the way of a frame is
//! drawn, and `trace_text` has the texts that commands share. Here are the commands:
//!
//! | Command | Files | Definitions |
//! |---|---|---|
//! | [`normalise`] | `normaliser`, `canonical_sink`, `canonical_lines`, `progress` | `CanonicalLog` of `trace_log` |
//! | [`explain`] | `explainer` | `ExplainScript` |
//! | [`messages`] | `messenger`, `message_objects`, `message_parts`, `open_request` | `MessagesScript`, `OpenRequests` |
//! | [`watch`] | `watcher` | `WatchScript` |
//! | [`meaning_of`] | `collector`, `length` | `Sessions` |
//! | [`compare`] | `comparer` | `Compared` |
//! | [`write_comparison`] | `comparison_text`, `comparison_objects`, `compared_items` | `ComparisonText` |
//! | [`list`], [`write_items`] | `lister`, `item_text` | `ItemText` |
//! | [`find`] | `finder`, `hearer`, `credit_lines`, `functional_parts` | `Heard`, `Finding`, `CreditLines` |
//! | where messages began, for [`messages`] and for a page | [`reception_starts`] | `FirstFrames`, `ReceptionStarts` |
//! | over logs in memory, seven of these | [`in_memory`] | `InMemory` |
//! | laws of [`watch`], [`messages`] and [`list`] | [`laws`] | `Laws`, `ListLaws` |
//!
//! How a log is read is in `WaysOfReading`, for which frames a command needs memory, in `MemoryNeeded`; what a run
//! comes to that writes nothing, in `ReadOnly`, and what one that writes a text at the end, in `WrittenAtEnd`.
//!
//! What says text of a log while it comes is a machine of [`trace_run`](trace_run::Machine): those of the first four
//! rows. So is what collects the meaning of a log: on it stand [`meaning_of`], [`compare`] and [`write_items`].
//!
//! [`find`] is none: it hears every frame, whatever its identifier, and has no receiver. What the credit lines are that
//! it writes, `CreditLines` says.
#![tactic(auto)]

mod canonical_lines;
mod canonical_sink;
mod collector;
mod compared_items;
mod comparer;
mod comparison_objects;
mod comparison_text;
mod credit_lines;
mod explainer;
mod finder;
mod functional_parts;
mod hearer;
pub mod in_memory;
mod item_text;
pub mod laws;
mod length;
mod lister;
mod message_objects;
mod message_parts;
mod messenger;
mod normaliser;
mod open_request;
mod progress;
pub mod reception_starts;
mod watcher;

pub use collector::{Session, meaning_of};
pub use comparer::{Compared, Comparison, compare};
pub use comparison_text::write_comparison;
pub use explainer::explain;
pub use finder::find;
pub use item_text::{ItemText, write_items};
pub use lister::list;
pub use messenger::messages;
pub use normaliser::normalise;
pub use watcher::watch;

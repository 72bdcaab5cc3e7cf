//! One run over a log: it is read, a machine is told what each frame did, and what the machine says is written.
//!
//! ```text
//! bytes -> Source -> feed -> lines -> receiver -> telling -> machine -> sheet -> Target
//! ```
//!
//! A [`Machine`] is what a caller writes. It is handed what each frame did, and the message that it completed, as one
//! [`Seen`], beside a sheet as its sink. This one, of which the `use` lines and `dots` are left out, says a dot for each
//! message, and answers the counts:
//!
//! ```text
//! impl Machine for Dots {
//!     type Answer = Summary;
//!
//!     ghost stands = { λ rules start T now. ⊤ };
//!     ghost script = { λ rules start. dots rules };
//!     ghost answers = { λ rules start. answers_counts };
//!     ghost needs = { λ rules start. needs_none };
//!
//!     fn is_strict(&self) -> bool {
//!         false
//!     }
//!
//!     fn event<S: TextSink>(&mut self, seen: Seen<'_>, out: &mut S) -> Result<(), AllocError> {
//!         if seen.message.is_some() {
//!             out.put(b".");
//!         }
//!         Ok(())
//!     }
//!
//!     fn end<S: TextSink>(self, _: &Pair, summary: &Summary, _: &mut S) -> Result<Summary, NoAnswer> {
//!         Ok(*summary)
//!     }
//!
//!     fn refused<S: TextSink>(self, _: &Summary, _: Fault, _: Glimpse<'_>, _: &mut S) {}
//! }
//! ```
//!
//! Here `dots` is a `Script` of its own: of a frame that completed a message which the rules leave a dot, of another
//! one nothing, and nothing at the end. That `event` says this is what its proof shows. The machine keeps nothing, so
//! `stands` asks nothing of it.
//!
//! The machine sees no device: [`run`] (`driver`) joins the two ends, and makes each fault of theirs one of
//! [`Fault`](trace_log::Fault).
//!
//! Contracts keep these words apart: a machine is *told* what a frame did, and *says* text of it; a sheet *carries*
//! what was said and is not written; and where a sheet is *settled*, that is written, or writing failed.
//!
//! | What | Files | Definitions |
//! |---|---|---|
//! | a command, and what it is handed: [`Machine`], [`Seen`], [`Glimpse`] | `machine` | `Script`, `Seen` |
//! | a run of one over a log: [`run`], [`run_lenient`] | `driver` | `Stopping`, `AnswersAndWrites`, `Ran` |
//! | the frames received and counted | `receiver` | `Trace`, `Summing` of `trace_log` |
//! | the messages under rules | `ruling` | `Under` of `uds_rules` |
//! | of how many messages rules speak: [`RuleCounts`] | `rule_counts` | `Spoken` |
//! | the messages judged, and the machine told | `telling` | `Seen` |
//! | its text gathered for few writes | `sheet`, `gathered_text` | |
//! | a text that is known as a whole, written by such a sheet: [`print`] | `printer` | `Printed` |
//! | the target of a machine that says nothing: [`Nowhere`] | `nowhere` | |
#![tactic(auto)]

mod driver;
mod gathered_text;
mod machine;
mod nowhere;
mod printer;
mod receiver;
mod rule_counts;
mod ruling;
mod sheet;
mod telling;

pub use driver::{run, run_lenient};
pub use machine::{Glimpse, Machine, NoAnswer, Seen};
pub use nowhere::Nowhere;
pub use printer::print;
pub use rule_counts::{RuleCounts, count_message, no_counts};

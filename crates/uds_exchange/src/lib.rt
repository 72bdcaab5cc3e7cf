//! What a diagnostic session means: each request with its answer, and the messages that belong to no exchange.
//!
//! Requests, answers and pending replies are those of ISO 14229-1 (`uds_message`). A request's part of the messages
//! runs to the next request. Its answer is the first message of the unit in that part that is final for it; the
//! replies before the answer that are pending for it are removed. All else is a stray, and stays in order.
//!
//! ```text
//! tester 22 F1 90                exchange 22 F1 90 -> 62 F1 90 41
//! tester 3E 80                   stray tester 3E 80
//! unit   7F 22 78         =>
//! unit   62 F1 90 41
//! ```
//!
//! A [`Judge`] says of each message what becomes of it. A run judges a message once, and hands it to a
//! [`JudgedPairing`], a [`JudgedOrderer`] or a [`Decider`]. [`Pairing`] and [`Orderer`] have a judge of their own, for
//! a caller that has messages alone.
//!
//! | What it answers | Files | Definitions |
//! |---|---|---|
//! | [`Judge`]: a message's [`Step`], and its item's number | `judge`, `step` | `OneMessage`, `Judging`, `Numbers` |
//! | [`Pairing`], [`JudgedPairing`]: the [`Meaning`], in [`Item`]s | `pairing`, `judged_pairing`, `meaning`, `item` | `Meaning`, `ItemSeen`, `Difference` |
//! | [`MessageSink`], [`ItemSink`]: who takes what is put | `message_sink`, `item_sink` | `MessageSink`, `ItemSink` |
//! | [`Orderer`], [`JudgedOrderer`]: the messages in order, each early | `orderer`, `judged_orderer`, `held`, `order_fault` | `Order`, `Orderer` |
//! | [`Decider`]: the items, each as soon as it is decided | `decider` | `Decided`, `Decider` |
//! | [`Sides`]: whether tester and unit look swapped | `sides` | `Exchanged` |
//! | [`Messages`]: bytes that are kept, each message in its [`Span`] | `messages` | `Blocks` |
//! | [`laws`]: what holds of meanings, whatever computes them | `laws` | `Roles`, `Laws` |
//!
//! [`Messages`] knows of no exchange. It stands here because a [`Meaning`] and the messages that are held are kept in
//! one; it is public for a caller that keeps messages with what else it knows of them, as the rows of a page are.
#![tactic(auto)]

mod decider;
mod held;
mod item;
mod item_sink;
mod judge;
mod judged_orderer;
mod judged_pairing;
pub mod laws;
mod meaning;
mod message_sink;
mod messages;
mod order_fault;
mod orderer;
mod pairing;
mod shown;
mod sides;
mod step;

pub use decider::Decider;
pub use item::Item;
pub use item_sink::ItemSink;
pub use judge::{Judge, Judged};
pub use judged_orderer::JudgedOrderer;
pub use judged_pairing::JudgedPairing;
pub use meaning::Meaning;
pub use message_sink::{MessageSink, NoFault};
pub use messages::{Messages, Span};
pub use order_fault::OrderFault;
pub use orderer::Orderer;
pub use pairing::Pairing;
pub use sides::Sides;
pub use step::Step;

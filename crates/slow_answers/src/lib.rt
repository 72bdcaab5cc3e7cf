//! The ten slowest answers of a session, while it comes: no answer is kept but these, and nothing is allocated.
//!
//! ```text
//! item  service  waited
//!    1       22    12 ms      slowest: item 3, then 1, then 2
//!    2       31     5 ms
//!    3       22    80 ms
//! ```
//!
//! And of answers of two sessions, beside each other, those that took much longer in one of them:
//!
//! ```text
//! left    right
//! 12 ms   13 ms
//!  5 ms   75 ms      in the right one: 2, of which the second one is the slowest
//! 80 ms  200 ms
//! ```
#![tactic(auto)]

mod answer;
pub mod laws;
mod longer;
mod slowest;

pub use answer::{SlowAnswer, waited};
pub use longer::{AnswerBeside, LongerAnswers, took_much_longer};
pub use slowest::SlowestAnswers;

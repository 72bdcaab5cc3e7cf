//! Which messages of a session count, and which of their bytes.
//!
//! No two recordings of one session are the same: seeds and keys are random, counters count, and a timer keeps the
//! session alive. A rule names messages by the bytes that they begin with, and leaves them out or masks bytes of them,
//! before anything else is made of them. No two rules of a profile speak of one message, so their order tells nothing.
//!
//! ```text
//! drop 3E          leaves out each TesterPresent
//! mask 67??*       of 67 01 A5 3C makes 67 01: what follows the kept place is cut off
//! mask 620105....  of 62 01 05 12 34 56 makes 62 01 05 00 00 56
//! ```
#![tactic(auto)]

pub mod laws;
mod mask;
mod pattern;
mod prefix;
mod rule;
mod rule_table;
mod rules;

pub use mask::{MOST_PLACES, Mask};
pub use pattern::{drop_rule, mask_rule};
pub use prefix::{MOST_PREFIX, Prefix};
pub use rule::{Deed, Rule, RuleFault};
pub use rule_table::{MOST_RULES, RuleTable};
pub use rules::{Ruled, Rules, RulesFault};

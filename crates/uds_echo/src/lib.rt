//! Whether a positive answer repeats what was asked (ISO 14229-1, the response message of each service).
//!
//! A response to most services repeats first bytes of its request: the sub-function, the data identifier, the routine. Requests
//! and answers are paired by service and order alone (`uds_exchange`), so an answer may stand at a request for something else.
//! Here two messages are compared at the places that are repeated, but for those that a rule masks.
//!
//! ```text
//! answers_other(rules, &[0x22, 0xF1, 0x90], &[0x62, 0xF1, 0x90, 0x41])   false
//! answers_other(rules, &[0x22, 0xF1, 0x01], &[0x62, 0xF1, 0x00, 0x41])   true
//! answers_other(rules, &[0x10, 0x83], &[0x50, 0x03, 0x00, 0x32])         false: bit 7 is no part of the number
//! ```
#![tactic(auto)]

mod echo;
pub mod laws;
mod left;
mod repeated;

pub use echo::answers_other;
pub use repeated::repeated_count;

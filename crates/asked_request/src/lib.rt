//! What is kept of the request that was asked last, without memory, so that its answer can be compared with it.
//!
//! A positive answer repeats first bytes of its request, or one of the data identifiers that it asks for (`uds_echo`). While a log
//! comes the request is gone by the time its answer is here, so as much of it is kept, in place, as tells whether the answer is
//! other than was asked.
//!
//! ```text
//! keep(22 F1 90)                 22 F1 90
//! keep(36 01, and 8,000 bytes)   36 01, and the first 4,093 of them
//! keep(22, and 4,100 bytes)      nothing: an answer may be to any of these, so nothing is told of it
//! ```
#![tactic(auto)]

mod asked;
pub mod laws;

pub use asked::AskedRequest;

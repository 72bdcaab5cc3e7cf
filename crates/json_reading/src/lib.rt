//! Laws about the lines of JSON: a reader finds in each line the object that was meant.
//!
//! The lines are defined as texts of values, and said in parts, without a library of JSON. Here the kit's `serde_json` is
//! the reader, an implementation of RFC 8259 that knows nothing of these lines. The crate has no code, and stands apart, so
//! that the program needs none of it.
#![tactic(auto)]

pub mod laws;

//! Laws about the profile that `find --toml` writes: the crate `profile` reads in each unit what was meant.
//!
//! Here a unit is a table of TOML with its keys and values. That the text which is said spells this table, no law says: the
//! kit's parser is the reader of that, and tests compare them. The crate has no code, and stands apart, so that the program
//! needs none of it.
#![tactic(auto)]

pub mod laws;

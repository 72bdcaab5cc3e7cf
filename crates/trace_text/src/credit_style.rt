//! How credit lines are written.

use crate::notation::Notation;

/// How credit lines are written.
#[derive(Clone, Copy, Debug, PartialEq, Eq)]
pub enum CreditStyle {
    /// Each as a line.
    Lines(Notation),
    /// The first 64 as the units of a profile, in TOML.
    Profile,
}

//! How the lines of items are written.

use crate::notation::Notation;

/// Whether the lines of items have numbers.
#[derive(Clone, Copy, Debug, PartialEq, Eq)]
pub enum Numbering {
    /// Each begins with the number of its item, counted from 1.
    Shown,
    /// None does, so that a line is the same wherever its item stands.
    Hidden,
}

/// How the lines of items are written.
#[derive(Clone, Copy, Debug, PartialEq, Eq)]
pub struct ItemStyle {
    pub numbering: Numbering,
    pub notation: Notation,
}

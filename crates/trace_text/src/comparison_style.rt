//! How the text of a comparison is written.

use crate::notation::Notation;

/// How a comparison is written.
#[derive(Clone, Copy, Debug, PartialEq, Eq)]
pub struct ComparisonStyle {
    /// Whether the items are shown at which two logs differ.
    pub shows_items: bool,
    pub notation: Notation,
}

//! The items of a meaning.

use direction::Dir;

/// A request with its answer, or a message that belongs to no exchange. The bytes are lent, from where they are kept.
#[derive(Clone, Copy, Debug, PartialEq, Eq)]
pub enum Item<'a> {
    /// A request of the tester, and the unit's answer to it, if one came. The answer is positive, or negative with a
    /// code other than response pending.
    Exchange {
        request: &'a [u8],
        answer: Option<&'a [u8]>,
    },
    /// A message that is neither request nor answer: a keep-alive, or one that answers nothing.
    Stray {
        dir: Dir,
        bytes: &'a [u8],
    },
}

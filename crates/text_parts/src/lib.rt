//! A text said by its parts, each of a type that knows its text: a fixed text, a tuple of parts, a part that stands where
//! something is so, one of two, or each of a list. What a number or a byte looks like, other crates say.
//!
//! A line is one call: `say(out, ("item ", Number(12), When(is_open, ", open"), "\n"))` says `item 12, open` and the end of
//! the line, where `is_open` holds. A tuple has up to twelve parts: a longer row is a tuple of tuples.
#![tactic(auto)]

mod choices;
mod part;
mod tuples;

pub use choices::{Each, Either, When};
pub use part::{Part, say};

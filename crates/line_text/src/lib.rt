//! A line for a reader of the error output: what is not ours in it, as the name of a file, stands there so that it writes no
//! control character; and a line is made in memory, of its parts.
#![tactic(auto)]

mod clipped;
pub mod laws;
mod line;
mod quoted;

pub use clipped::{AsWritten, Clipped, MOST_SHOWN, RawBytes};
pub use line::line_in;
pub use quoted::{Quoted, is_plain_name, is_printable_byte};

//! The names by which links lead to differences.

use text_parts::{Part, say};
use trace_io::TextSink;
use trace_text::Number;

/// The name of the difference of a number: the identifier of the row with which it begins.
#[derive(Clone, Copy)]
pub struct DifferenceName(pub u64);

impl Part for DifferenceName {
    ghost use Rattle.pair_words.specs.DifferenceNames.{difference_name};

    ghost text = { λ name. difference_name name.0 };

    fn say<S: TextSink>(self, out: &mut S) {
        say(out, ("d", Number(self.0)));
    }
}

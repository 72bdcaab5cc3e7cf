//! Lines of text, said by their parts without memory: a fault is told so.

ghost use Rattle.std.specs.Prelude.{◌≡◌, ◌≤◌, length};
ghost use Rattle.udsnorm.specs.declared.text.TheConstants.{LONGEST_LINE};

use arrayvec::ArrayVec;
use text_parts::{Part, say};
use trace_io::TextSink;

/// The length of the longest line: the right one of two logs is not clean in any way, with the largest counts.
pub(crate) const LONGEST_LINE: usize = 205;

/// A line without memory.
pub(crate) type Line = ArrayVec<u8, LONGEST_LINE>;

/// The line of this text.
pub(crate) fn line_of<P: Part>(part: P) -> Line
    requires { length (P.text part) ≤ LONGEST_LINE }
    ensures { result.items ≡ P.text part }
{
    let mut sink = BoundedLineSink { line: Line::new() };
    say(&mut sink, part);
    sink.line
}

/// A line that is made without memory. What has no room there is left out.
#[derive(Drop)]
struct BoundedLineSink {
    line: Line,
}

impl TextSink for BoundedLineSink {
    ghost use Rattle.udsnorm.specs.declared.text.TheConstants.{LONGEST_LINE};
    ghost use Rattle.udsnorm.specs.proving.Sinks.{TookWithin, took_nothing_within, took_onward_within};

    ghost says = { λ old text new. TookWithin LONGEST_LINE old.line.items text new.line.items };

    ghost nothing = { λ s. took_nothing_within LONGEST_LINE s.line.items };

    ghost onward = { λ s m t a b one two. took_onward_within LONGEST_LINE s.line.items m.line.items t.line.items a b one two };

    fn put(&mut self, text: &[u8]) {
        let _ = self.line.try_extend_from_slice(text);
    }
}

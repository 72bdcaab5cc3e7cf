//! A part of a text.
ghost use Rattle.std.specs.Prelude.{List, ℕ};

use trace_io::TextSink;

/// A part of a text: what has a text that is known as a whole.
pub trait Part: Copy {
    /// Its text.
    ghost text: { Self → List ℕ };

    /// Says the text. A part within which no write may end, as a number, goes to `put_whole`, and any other one to `put`.
    fn say<S: TextSink>(self, out: &mut S)
        ensures { S.says out.old (text self) out.new };
}

/// Says a part.
#[inline(always)]
pub fn say<S: TextSink, P: Part>(out: &mut S, part: P)
    ensures { S.says out.old (P.text part) out.new }
{
    part.say(out);
}

/// A `str` goes to `put`: a write may end within it.
impl<'a> Part for &'a str {
    ghost text = { λ text. text.now };

    #[inline(always)]
    fn say<S: TextSink>(self, out: &mut S) {
        out.put(self.as_bytes());
    }
}

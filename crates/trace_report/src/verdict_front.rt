//! The front of a verdict.

use text_parts::{Part, say};
use trace_io::TextSink;

/// The front of a verdict, up to its words: the class of the style that colours it, and the sign before its words. Of a
/// class `good` something is so without a doubt, of a class `warn` it may not be, and of a class `bad` a log is
/// refused.
#[derive(Clone, Copy)]
pub struct VerdictFront<'a>(pub &'a str, pub &'a str);

impl<'a> Part for VerdictFront<'a> {
    ghost use Rattle.trace_report.specs.Verdict.{verdict_front};

    ghost text = { λ front. verdict_front front.0.now front.1.now };

    fn say<S: TextSink>(self, out: &mut S) {
        let VerdictFront(class, sign) = self;
        say(
            out,
            (
                "<section id=\"verdict\" class=\"",
                class,
                "\">\n<h2><span aria-hidden=\"true\">",
                sign,
                "</span> ",
            ),
        );
    }
}

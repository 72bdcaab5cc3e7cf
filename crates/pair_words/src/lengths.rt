//! How long two messages were that differ, in words.

ghost use Rattle.pair_words.specs.ByteWords.{lengths_words};

use shown_bytes::known_length;
use text_parts::{Either, Part, say};
use trace_io::TextSink;
use trace_text::Number;
use uds_rules::Rules;

/// Says how long both messages were that rules have left, where these have not left as many bytes of each.
pub(crate) fn say_lengths<S: TextSink>(rules: &Rules, left: &[u8], right: &[u8], out: &mut S)
    ensures { S.says out.old (lengths_words rules.now left.now right.now) out.new }
{
    if left.len() != right.len() {
        say(
            out,
            LengthsWords {
                known_left: known_length(rules, left),
                known_right: known_length(rules, right),
                left: left.len() as u64,
                right: right.len() as u64,
            },
        );
    }
}

/// How long two messages were, of which so many bytes are left.
#[derive(Clone, Copy)]
struct LengthsWords {
    known_left: Option<u64>,
    known_right: Option<u64>,
    left: u64,
    right: u64,
}

impl Part for LengthsWords {
    ghost use Rattle.pair_words.specs.ByteWords.{lengths_by};

    ghost text = { λ words. lengths_by words.known_left words.known_right words.left words.right };

    fn say<S: TextSink>(self, out: &mut S) {
        say(
            out,
            (
                "; ",
                LengthWords(self.known_left, self.left),
                Either(self.left == 1, " byte in A, ", " bytes in A, "),
                LengthWords(self.known_right, self.right),
                " in B",
            ),
        );
    }
}

/// How long a message was, of which so many bytes are left.
#[derive(Clone, Copy)]
struct LengthWords(Option<u64>, u64);

impl Part for LengthWords {
    ghost use Rattle.pair_words.specs.ByteWords.{length_words};

    ghost text = { λ words. length_words words.0 words.1 };

    fn say<S: TextSink>(self, out: &mut S) {
        match self.0 {
            Some(known) => say(out, Number(known)),
            None => say(out, ("at least ", Number(self.1))),
        }
    }
}

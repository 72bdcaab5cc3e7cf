//! Counts: of messages, and those of a log, with what stands before each and between its name and its number.
ghost use Rattle.trace_text.specs.Counts.{counts_between};

use crate::numbers::Number;
use text_parts::{Either, Part, say};
use trace_io::TextSink;
use trace_log::Count;

/// Says counts one after another: each as `before`, its name, `between`, and its number in decimal.
pub fn say_counts<S: TextSink>(
    before: &'static str,
    between: &'static str,
    counts: &[Count],
    out: &mut S,
)
    ensures { S.says out.old (counts_between before.now between.now counts.now) out.new }
{
    'counts: for count in counts {
        say(out, (before, count.0, between, Number(count.1)));
    }
}

/// So many messages.
#[derive(Clone, Copy)]
pub struct MessagesWord(pub u64);

impl Part for MessagesWord {
    ghost use Rattle.trace_text.specs.Counts.{messages_word};

    ghost text = { λ word. messages_word word.0 };

    fn say<S: TextSink>(self, out: &mut S) {
        let several = (Number(self.0), " messages");
        say(out, Either(self.0 == 1, "1 message", several));
    }
}

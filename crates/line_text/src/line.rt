//! A line that is made in memory.

ghost use Rattle.std.specs.Prelude.{◌≡◌, ◌≤◌, length, IfOk, OnErr};

use std::alloc::{AllocError, Global};
use text_parts::{Part, say};
use trace_io::TextSink;

/// The line of this text.
pub fn line_in<P: Part>(alloc: Global, part: P) -> Result<Vec<u8>, AllocError>
    ensures ok { IfOk result (λ line. line.items ≡ P.text part) }
    ensures err { OnErr result (1 ≤ length (P.text part)) }
{
    let mut sink = MemorySink {
        line: Vec::new(alloc),
        is_refused: false,
    };
    say(&mut sink, part);
    if sink.is_refused {
        return Err(AllocError);
    }
    Ok(sink.line)
}

/// A line that is made in memory, and whether that was refused.
#[derive(Drop)]
struct MemorySink {
    line: Vec<u8>,
    is_refused: bool,
}

impl TextSink for MemorySink {
    ghost use Rattle.line_text.specs.proving.Memory.{TookUnlessRefused, took_nothing_yet, took_onward_unless_refused};

    ghost says = { λ old text new. TookUnlessRefused old.is_refused old.line.items text new.is_refused new.line.items };

    ghost nothing = { λ s. took_nothing_yet s.is_refused s.line.items };

    ghost onward = { λ s m t a b one two. took_onward_unless_refused s.is_refused m.is_refused t.is_refused s.line.items m.line.items t.line.items a b one two };

    fn put(&mut self, text: &[u8]) {
        if self.is_refused || text.is_empty() {
            return;
        }
        if let Err(_refused) = self.line.extend_from_slice(text) {
            self.is_refused = true;
        }
    }
}

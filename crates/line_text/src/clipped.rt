//! What a file says, in a line about it.

ghost use Rattle.std.specs.Prelude.{◌≡◌, take};
ghost use Rattle.std.specs.List.{list_all};
ghost use Rattle.line_text.specs.Clipped.{is_quotable};

use crate::quoted::Quoted;
use text_parts::{Part, say};
use trace_io::TextSink;

/// How many bytes of a text that is not ours a line shows at most.
pub const MOST_SHOWN: usize = 80;

/// A key or a name of a file's own: no more than its first [`MOST_SHOWN`] bytes, quoted where these need that.
#[derive(Clone, Copy)]
pub struct Clipped<'a>(pub &'a [u8]);

impl<'a> Part for Clipped<'a> {
    ghost use Rattle.line_text.specs.Clipped.{clipped};

    ghost text = { λ name. clipped name.0.now };

    fn say<S: TextSink>(self, out: &mut S) {
        Quoted(front(self.0)).say(out);
    }
}

/// A text as its file writes it, between double quotes, where it is printable ASCII without these, and else as a name: no more
/// than its first [`MOST_SHOWN`] bytes.
#[derive(Clone, Copy)]
pub struct AsWritten<'a>(pub &'a [u8]);

impl<'a> Part for AsWritten<'a> {
    ghost use Rattle.line_text.specs.Clipped.{clipped_as_written};

    ghost text = { λ text. clipped_as_written text.0.now };

    fn say<S: TextSink>(self, out: &mut S) {
        let text = front(self.0);
        if are_quotable(text) {
            say(out, ("\"", RawBytes(text), "\""));
        } else {
            Quoted(text).say(out);
        }
    }
}

/// Bytes as they are.
#[derive(Clone, Copy)]
pub struct RawBytes<'a>(pub &'a [u8]);

impl<'a> Part for RawBytes<'a> {
    ghost text = { λ bytes. bytes.0.now };

    fn say<S: TextSink>(self, out: &mut S) {
        out.put(self.0);
    }
}

/// The first bytes of a text.
fn front(text: &[u8]) -> &[u8]
    ensures { result.now ≡ take 80 text.now }
{
    if text.len() <= MOST_SHOWN {
        text
    } else {
        &text[..MOST_SHOWN]
    }
}

/// Whether bytes stand as they are between double quotes, each of them.
fn are_quotable(bytes: &[u8]) -> bool
    ensures { result ≡ list_all is_quotable bytes.now }
{
    bytes.iter().all(|byte| is_quotable(*byte))
}

/// Whether a byte does: printable ASCII but `"`.
fn is_quotable(byte: u8) -> bool
    ensures { result ≡ is_quotable byte }
{
    b' ' <= byte && byte <= b'~' && byte != b'"'
}

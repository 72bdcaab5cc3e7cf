//! The bytes of messages as letters, where they may be text.
ghost use Rattle.std.specs.Prelude.{◌≡◌};
ghost use Rattle.shown_bytes.specs.Letters.{letter_text, letters};
ghost use Rattle.shown_bytes.specs.Letters as Spec;

use text_parts::{Part, When, say};
use trace_io::TextSink;

/// Bytes as letters, in grey, where they may be text.
#[derive(Clone, Copy)]
pub(crate) struct LettersText<'a>(pub &'a [u8]);

impl<'a> Part for LettersText<'a> {
    ghost use Rattle.shown_bytes.specs.Letters.{letters_text};

    ghost text = { λ bytes. letters_text bytes.0.now };

    fn say<S: TextSink>(self, out: &mut S) {
        if has_word(self.0) {
            say(out, (" <samp>", Letters(self.0), "</samp>"));
        }
    }
}

/// The last bytes of a message as letters, in grey, where they may be text; with a star where it is cut off behind them.
#[derive(Clone, Copy)]
pub(crate) struct LastLetters<'a>(pub bool, pub &'a [u8]);

impl<'a> Part for LastLetters<'a> {
    ghost use Rattle.shown_bytes.specs.Letters.{last_letters};

    ghost text = { λ last. last_letters last.0 last.1.now };

    fn say<S: TextSink>(self, out: &mut S) {
        let LastLetters(is_cut, bytes) = self;
        if has_word(bytes) {
            say(
                out,
                (" <samp>", Letters(bytes), When(is_cut, "*"), "</samp>"),
            );
        }
    }
}

/// What is shown for each byte: for eight bytes at once, as long as there are eight.
#[derive(Clone, Copy)]
struct Letters<'a>(&'a [u8]);

impl<'a> Part for Letters<'a> {
    ghost use Rattle.shown_bytes.specs.Letters.{letters};

    ghost text = { λ bytes. letters bytes.0.now };

    fn say<S: TextSink>(self, out: &mut S) {
        let mut rest = self.0;
        'eights: while let Some((eight, behind)) = rest.split_first_chunk::<8>() {
            out.put(&eight_letters(eight));
            rest = behind;
        }
        say_few_letters(rest, out);
    }
}

/// Whether a byte is a digit or a letter of ASCII.
fn is_letter(byte: u8) -> bool
    ensures { result ≡ Spec.is_letter byte }
{
    matches!(byte, b'0'..=b'9' | b'A'..=b'Z' | b'a'..=b'z')
}

/// Whether a byte is one of the signs that are shown.
fn is_sign(byte: u8) -> bool
    ensures { result ≡ Spec.is_sign byte }
{
    matches!(byte, b'-' | b'.' | b'/' | b':' | b'_')
}

/// Whether a byte is shown as it is, and is no blank.
fn is_mark(byte: u8) -> bool
    ensures { result ≡ Spec.is_mark byte }
{
    is_letter(byte) || is_sign(byte)
}

/// Whether four bytes in a row are shown as they are, without a blank.
pub fn has_word(bytes: &[u8]) -> bool
    ensures { result ≡ Spec.has_word bytes.now }
{
    let mut rest = bytes;
    'places: while let [a, b, c, d, ..] = rest {
        // No four in a row go over a byte that is none, so the last of four is looked at first.
        rest = if !is_mark(*d) {
            &rest[4..]
        } else if !is_mark(*c) {
            &rest[3..]
        } else if !is_mark(*b) {
            &rest[2..]
        } else if !is_mark(*a) {
            &rest[1..]
        } else {
            return true;
        };
    }
    false
}

/// What is shown for a byte among others that may be text.
pub fn shown_byte(byte: u8) -> u8
    ensures { result ≡ Spec.shown_byte byte }
{
    if is_mark(byte) || byte == b' ' {
        byte
    } else {
        b'.'
    }
}

/// Says what is shown for a byte.
fn say_letter<S: TextSink>(byte: u8, out: &mut S)
    ensures { S.says out.old (letter_text byte) out.new }
{
    out.put(&[shown_byte(byte)]);
}

/// Says what is shown for each byte, byte by byte.
fn say_few_letters<S: TextSink>(bytes: &[u8], out: &mut S)
    ensures { S.says out.old (letters bytes.now) out.new }
{
    'bytes: for byte in bytes {
        say_letter(*byte, out);
    }
}

/// What is shown for eight bytes.
#[inline(always)]
fn eight_letters(bytes: &[u8; 8]) -> [u8; 8]
    ensures { result ≡ letters bytes.now }
{
    let [a, b, c, d, e, f, g, h] = *bytes;
    [
        shown_byte(a),
        shown_byte(b),
        shown_byte(c),
        shown_byte(d),
        shown_byte(e),
        shown_byte(f),
        shown_byte(g),
        shown_byte(h),
    ]
}

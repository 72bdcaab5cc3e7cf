//! The text that is told of wrong words, without a control character.

ghost use Rattle.std.specs.Prelude.{◌≡◌, ◌<◌, ◌++◌, IfOk, OnOk, string_bytes};
ghost use Rattle.can_log.specs.Digits.{digit};
ghost use Rattle.command_line.specs.Shown.{IsShown, escaped, is_printable_ascii, is_shown, shown, shown_byte};

use std::alloc::{AllocError, Global};

/// The text, with each byte escaped that is neither printable ASCII nor a line feed.
pub(crate) fn shown(alloc: Global, text: &str) -> Result<String, AllocError>
    ensures text { IfOk result (λ s. string_bytes s ≡ shown text.entry.now) }
    ensures plain { IfOk result (λ s. IsShown (string_bytes s)) }
{
    let bytes = text.as_bytes();
    let mut out = String::new(alloc);
    'bytes: for byte in bytes {
        push_shown(&mut out, *byte)?;
    }
    Ok(out)
}

/// Whether words have printable ASCII alone.
pub(crate) fn are_printable(words: &[String]) -> bool {
    words.iter().all(|word| word.as_bytes().iter().all(|byte| is_printable_ascii(*byte)))
}

/// Words with each byte escaped that is no printable ASCII.
pub(crate) fn escaped_words(alloc: Global, words: &[String]) -> Result<Vec<String>, AllocError> {
    let mut all = Vec::new(alloc);
    for word in words {
        all.push(escaped_word(alloc, word.as_str())?)?;
    }
    Ok(all)
}

/// A word with each byte escaped that is no printable ASCII.
fn escaped_word(alloc: Global, word: &str) -> Result<String, AllocError> {
    let mut out = String::new(alloc);
    for byte in word.as_bytes() {
        if is_printable_ascii(*byte) {
            push_shown(&mut out, *byte)?;
        } else {
            push_escaped(&mut out, *byte)?;
        }
    }
    Ok(out)
}

/// Puts a byte at the end of a text, as it is shown.
fn push_shown(out: &mut String, byte: u8) -> Result<(), AllocError>
    ensures text { OnOk result (string_bytes out.new ≡ string_bytes out.old ++ shown_byte byte) }
    ensures plain { IsShown (shown_byte byte) }
{
    if is_shown(byte) {
        out.push(char::from(byte))
    } else {
        push_escaped(out, byte)
    }
}

/// Puts a byte at the end of a text, escaped.
fn push_escaped(out: &mut String, byte: u8) -> Result<(), AllocError>
    ensures text { OnOk result (string_bytes out.new ≡ string_bytes out.old ++ escaped byte) }
    ensures plain { IsShown (escaped byte) }
{
    out.push_str("\\x")?;
    out.push(digit(byte / 16))?;
    out.push(digit(byte % 16))
}

/// The digit of a number below 16.
fn digit(number: u8) -> char
    requires { number < 16 }
    ensures { result ≡ digit number }
{
    char::from(if number < 10 {
        b'0' + number
    } else {
        b'A' + (number - 10)
    })
}

/// Whether a byte is shown as it is.
fn is_shown(byte: u8) -> bool
    ensures { result ≡ is_shown byte }
{
    byte == b'\n' || is_printable_ascii(byte)
}

/// Whether a byte is printable ASCII, a space among it.
fn is_printable_ascii(byte: u8) -> bool
    ensures { result ≡ is_printable_ascii byte }
{
    b' ' <= byte && byte <= b'~'
}

//! Names as a shell has them.

ghost use Rattle.std.specs.Prelude.{◌≡◌, ◌<◌};
ghost use Rattle.std.specs.List.{list_all};
ghost use Rattle.can_log.specs.Digits.{digit};
ghost use Rattle.line_text.specs.Quoted.{is_plain, is_plain_name, is_printable};

use text_parts::{Part, say};
use trace_io::TextSink;

/// A name, quoted where it needs that.
#[derive(Clone, Copy)]
pub struct Quoted<'a>(pub &'a [u8]);

impl<'a> Part for Quoted<'a> {
    ghost use Rattle.line_text.specs.Quoted.{quoted};

    ghost text = { λ name. quoted name.0.now };

    fn say<S: TextSink>(self, out: &mut S) {
        let name = self.0;
        if is_plain_name(name) {
            out.put(name);
        } else {
            say(out, ("$'", BytesBetween(name), "'"));
        }
    }
}

/// The bytes of a name between its quotes.
#[derive(Clone, Copy)]
struct BytesBetween<'a>(&'a [u8]);

impl<'a> Part for BytesBetween<'a> {
    ghost use Rattle.std.specs.List.{flat_map};
    ghost use Rattle.line_text.specs.Quoted.{quoted_byte};

    ghost text = { λ name. flat_map quoted_byte name.0.now };

    fn say<S: TextSink>(self, out: &mut S) {
        'bytes: for byte in self.0 {
            say(out, ByteBetween(*byte));
        }
    }
}

/// A byte of a name between its quotes.
#[derive(Clone, Copy)]
struct ByteBetween(u8);

impl Part for ByteBetween {
    ghost use Rattle.line_text.specs.Quoted.{quoted_byte};

    ghost text = { λ byte. quoted_byte byte.0 };

    fn say<S: TextSink>(self, out: &mut S) {
        let byte = self.0;
        if is_printable_byte(byte) {
            out.put(&[byte]);
        } else {
            out.put(&[b'\\', b'x', digit(byte / 16), digit(byte % 16)]);
        }
    }
}

/// The digit of a number below 16.
fn digit(number: u8) -> u8
    requires { number < 16 }
    ensures { result ≡ digit number }
{
    if number < 10 {
        b'0' + number
    } else {
        b'A' + (number - 10)
    }
}

/// Whether a byte stands as it is between quotes: printable ASCII, a space among it, but neither `'` nor `\`.
pub fn is_printable_byte(byte: u8) -> bool
    ensures { result ≡ is_printable byte }
{
    b' ' <= byte && byte <= b'~' && byte != b'\'' && byte != b'\\'
}

/// Whether a name needs no quotes: letters, digits and `./_-+:@%,=`, one at least.
pub fn is_plain_name(name: &[u8]) -> bool
    ensures { result ≡ is_plain_name name.now }
{
    !name.is_empty() && are_plain(name)
}

/// Whether bytes stand as they are, each of them.
fn are_plain(bytes: &[u8]) -> bool
    ensures { result ≡ list_all is_plain bytes.now }
{
    bytes.iter().all(|byte| is_plain(*byte))
}

/// Whether a byte stands as it is in a name without quotes.
fn is_plain(byte: u8) -> bool
    ensures { result ≡ is_plain byte }
{
    byte.is_ascii_alphanumeric()
        || byte == b'.'
        || byte == b'/'
        || byte == b'_'
        || byte == b'-'
        || byte == b'+'
        || byte == b':'
        || byte == b'@'
        || byte == b'%'
        || byte == b','
        || byte == b'='
}

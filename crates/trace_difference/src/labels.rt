//! The names of files in a text that `patch` and `git apply` read.
ghost use Rattle.std.specs.Prelude.{◌≡◌, ◌<◌};
ghost use Rattle.std.specs.List.{flat_map};
ghost use Rattle.trace_difference.specs.Labels.{escaped, label, octal_digit, quoted};

use line_text::is_plain_name;
use text_parts::{Part, say};
use trace_io::TextSink;

/// The name of a file: as it is where it is plain, and else between quotes.
#[derive(Clone, Copy)]
pub(crate) struct Label<'a>(pub(crate) &'a [u8]);

impl<'a> Part for Label<'a> {
    ghost use Rattle.trace_difference.specs.Labels.{label};

    ghost text = { λ name. label name.0.now };

    fn say<S: TextSink>(self, out: &mut S) {
        say_label(self.0, out);
    }
}

/// Says the name of a file: as it is, or between quotes.
fn say_label<S: TextSink>(name: &[u8], out: &mut S)
    ensures { S.says out.old (label name.now) out.new }
{
    if is_plain_name(name) {
        out.put(name);
    } else {
        say_quoted(name, out);
    }
}

/// Says a name between quotes.
fn say_quoted<S: TextSink>(name: &[u8], out: &mut S)
    ensures { S.says out.old (quoted name.now) out.new }
{
    say(out, "\"");
    say_escaped(name, out);
    say(out, "\"");
}

/// Says the bytes of a name between its quotes.
fn say_escaped<S: TextSink>(name: &[u8], out: &mut S)
    ensures { S.says out.old (flat_map escaped name.now) out.new }
{
    'bytes: for byte in name {
        say_escaped_byte(*byte, out);
    }
}

/// Says a byte between quotes.
fn say_escaped_byte<S: TextSink>(byte: u8, out: &mut S)
    ensures { S.says out.old (escaped byte) out.new }
{
    if byte == b'"' || byte == b'\\' {
        out.put(&[b'\\', byte]);
    } else if b' ' <= byte && byte <= b'~' {
        out.put(&[byte]);
    } else {
        out.put(&[
            b'\\',
            octal_digit(byte / 64),
            octal_digit(byte / 8 % 8),
            octal_digit(byte % 8),
        ]);
    }
}

/// The digit of a number below eight.
fn octal_digit(number: u8) -> u8
    requires { number < 8 }
    ensures { result ≡ octal_digit number }
{
    b'0' + number
}

//! Bytes as parts of a text: as digits, or as they are.
ghost use Rattle.std.specs.Prelude.{◌<◌, ◌≤◌, length, take};
ghost use Rattle.trace_text.specs.Words.{bytes_text};

use crate::digits::hexadecimal_digits;
use can_log::digits_of_bytes;
use text_parts::Part;
use trace_io::TextSink;

/// The two hexadecimal digits of a byte.
#[derive(Clone, Copy)]
pub struct Byte(pub u8);

impl Part for Byte {
    ghost use Rattle.can_log.specs.Digits.{hexadecimal};

    ghost text = { λ byte. hexadecimal 2 byte.0 };

    fn say<S: TextSink>(self, out: &mut S) {
        out.put_whole(&hexadecimal_digits(self.0));
    }
}

/// Two hexadecimal digits for each byte, made of eight bytes at once, as long as there are eight.
#[derive(Clone, Copy)]
pub struct HexBytes<'a>(pub &'a [u8]);

impl<'a> Part for HexBytes<'a> {
    ghost use Rattle.trace_text.specs.Words.{bytes_text};

    ghost text = { λ bytes. bytes_text bytes.0.now };

    #[inline(never)]
    fn say<S: TextSink>(self, out: &mut S) {
        let mut rest = self.0;
        'eights: while let Some((eight, behind)) = rest.split_first_chunk::<8>() {
            out.put(&digits_of_bytes(eight));
            rest = behind;
        }
        say_few_bytes(rest, out);
    }
}

/// Says those of fewer than eight bytes: they stand in front of eight, whose digits are made at once.
#[inline(always)]
fn say_few_bytes<S: TextSink>(bytes: &[u8], out: &mut S)
    requires { length bytes.now < 8 }
    ensures { S.says out.old (bytes_text bytes.now) out.new }
{
    match *bytes {
        [] => {}
        [a] => say_front(&[a, 0, 0, 0, 0, 0, 0, 0], 1, out),
        [a, b] => say_front(&[a, b, 0, 0, 0, 0, 0, 0], 2, out),
        [a, b, c] => say_front(&[a, b, c, 0, 0, 0, 0, 0], 3, out),
        [a, b, c, d] => say_front(&[a, b, c, d, 0, 0, 0, 0], 4, out),
        [a, b, c, d, e] => say_front(&[a, b, c, d, e, 0, 0, 0], 5, out),
        [a, b, c, d, e, f] => say_front(&[a, b, c, d, e, f, 0, 0], 6, out),
        [a, b, c, d, e, f, g] => say_front(&[a, b, c, d, e, f, g, 0], 7, out),
        _ => {}
    }
}

/// Says the digits of so many of eight bytes.
#[inline(always)]
fn say_front<S: TextSink>(eight: &[u8; 8], count: usize, out: &mut S)
    requires { count ≤ 8 }
    ensures { S.says out.old (bytes_text (take count eight.now)) out.new }
{
    out.put(&digits_of_bytes(eight)[..2 * count]);
}

/// Bytes as they are.
#[derive(Clone, Copy)]
pub struct Verbatim<'a>(pub &'a [u8]);

impl<'a> Part for Verbatim<'a> {
    ghost text = { λ bytes. bytes.0.now };

    #[inline(always)]
    fn say<S: TextSink>(self, out: &mut S) {
        out.put_whole(self.0);
    }
}

//! The bytes of a message that rules have left, as a part of a text.
ghost use Rattle.trace_text.specs.RuledText.{masked_text, ruled_text};

use crate::bytes::{Byte, HexBytes};
use text_parts::{Either, Part, When, say};
use trace_io::TextSink;
use uds_rules::{Mask, Rules};

/// Two hexadecimal digits for each byte of a message that rules have left; but `..` for one that they mask, and `*`
/// where the message ends and they cut off what follows. The message is as the rules left it, so that equal messages
/// have equal texts.
#[derive(Clone, Copy)]
pub struct RuledBytes<'a> {
    pub rules: &'a Rules,
    pub message: &'a [u8],
}

impl<'a> Part for RuledBytes<'a> {
    ghost use Rattle.trace_text.specs.RuledText.{ruled_text};

    ghost text = { λ ruled. ruled_text ruled.rules.now ruled.message.now };

    #[inline(always)]
    fn say<S: TextSink>(self, out: &mut S) {
        if self.rules.may_speak_of(self.message) {
            say_ruled(self.rules, self.message, out);
        } else {
            say(out, HexBytes(self.message));
        }
    }
}

/// Says the bytes of a message that these rules have left. It is a call of its own, so that what most texts do without is
/// not inlined there.
#[inline(never)]
fn say_ruled<S: TextSink>(rules: &Rules, message: &[u8], out: &mut S)
    ensures { S.says out.old (ruled_text rules.now message.now) out.new }
{
    match rules.mask_of(message) {
        Some((mask, start)) => {
            say(out, HexBytes(&message[..start]));
            say_masked(mask, &message[start..], out);
        }
        None => say(out, HexBytes(message)),
    }
}

/// Says the bytes behind a prefix.
fn say_masked<S: TextSink>(mask: Mask, bytes: &[u8], out: &mut S)
    ensures { S.says out.old (masked_text mask bytes.now) out.new }
{
    let mut left = mask;
    let mut rest = bytes;
    'places: while let Some((is_masked, behind)) = left.split_first() {
        let Some((first, others)) = rest.split_first() else {
            return;
        };
        say(out, Either(is_masked, "..", Byte(*first)));
        left = behind;
        rest = others;
    }
    say(
        out,
        (HexBytes(rest), When(left.cuts() && rest.is_empty(), "*")),
    );
}

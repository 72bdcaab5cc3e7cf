//! Rules by their texts.

ghost use Rattle.std.specs.Prelude.{◌≡◌, length};
ghost use Rattle.std.specs.List.{prefix_len};
ghost use Rattle.hex.specs.Hex as Hex;
ghost use Rattle.uds_rules.specs.Pattern as Spec;

use crate::mask::{MOST_PLACES, Mask};
use crate::prefix::Prefix;
use crate::rule::{Rule, RuleFault};

/// The most bytes of what can follow a prefix: two for each place, and a `*`.
const MOST_MARKS: usize = 2 * MOST_PLACES as usize + 1;

/// The rule `drop TEXT`, where the text is a prefix: 1 to 16 bytes, two hexadecimal digits each, in either case.
pub fn drop_rule(text: &str) -> Result<Rule, RuleFault>
    ensures { result ≡ Spec.drop_rule text.now }
{
    match Prefix::spelled(text.as_bytes()) {
        Some(prefix) => Ok(Rule::dropping(prefix)),
        None => Err(RuleFault::NotAPattern),
    }
}

/// The rule `mask TEXT`, where the text is a prefix, then up to 64 places, each `??` (its byte is kept) or `..` (it is
/// masked), and then perhaps `*` (what follows is cut off). Of several faults the first of [`RuleFault`] is answered.
pub fn mask_rule(text: &str) -> Result<Rule, RuleFault>
    ensures { result ≡ Spec.mask_rule text.now }
{
    let text = text.as_bytes();
    let count = digit_count(text);
    let Some(prefix) = Prefix::spelled(&text[..count]) else {
        return Err(RuleFault::NotAPattern);
    };
    let Some(mask) = few_places(&text[count..]) else {
        return Err(RuleFault::NotAPattern);
    };
    Rule::masking(prefix, mask)
}

/// How many hexadecimal digits the text begins with.
fn digit_count(text: &[u8]) -> usize
    ensures { result ≡ prefix_len Hex.is_hex_digit text.now }
{
    let mut count = 0;
    'bytes: for byte in text {
        if !byte.is_ascii_hexdigit() {
            return count;
        }
        count += 1;
    }
    count
}

/// The mask that the text spells, if it spells one of at most 64 places.
fn few_places(marks: &[u8]) -> Option<Mask>
    ensures { result ≡ Spec.few_places (Spec.mask_in marks.now) }
{
    if marks.len() > MOST_MARKS {
        return None;
    }
    mask_in(marks)
}

/// The same of any text, from its end.
fn mask_in(marks: &[u8]) -> Option<Mask>
    ensures { result ≡ Spec.few_places (Spec.mask_in marks.now) }
{
    match marks {
        [] => Some(Mask::new(false)),
        [b'*'] => Some(Mask::new(true)),
        [_] => None,
        [one, two, rest @ ..] => match place_in(*one, *two) {
            Some(is_masked) => match mask_in(rest) {
                Some(mask) => mask.behind(is_masked),
                None => None,
            },
            None => None,
        },
    }
}

/// Whether the two bytes spell a place that is masked, if they spell a place.
fn place_in(one: u8, two: u8) -> Option<bool>
    ensures { result ≡ Spec.place_in one two }
{
    match (one, two) {
        (b'?', b'?') => Some(false),
        (b'.', b'.') => Some(true),
        _ => None,
    }
}

//! The bytes of messages that rules have left, as far as rows show them.
ghost use Rattle.std.specs.Prelude.{◌≡◌, ◌<◌, ◌≤◌, drop, length, take};
ghost use Rattle.shown_bytes.specs.Data as Spec;
ghost use Rattle.shown_bytes.specs.Data.{bytes_behind, marked_brief, marked_data};

use crate::letters::{LastLetters, LettersText};
use crate::marks::Marks;
use crate::standard_names::NamesText;
use crate::trouble_codes::TroubleText;
use can_log::digits_of_bytes;
use std::simd::prelude::*;
use text_parts::{Either, Part, When, say};
use trace_io::TextSink;
use trace_text::{Byte, Number};
use uds_rules::{Mask, Rules};

/// All bytes of a message are shown where these are not more.
const MOST_SHOWN: usize = 64;

/// The bytes of a message behind the first ones are folded where it has not more than so many, and else not shown.
const MOST_FOLDED: usize = 512;

/// So many bytes of a message are its first ones.
const SHOWN_FIRST: usize = 32;

/// Says a blank and two digits for each byte: of eight bytes at once, as long as there are eight.
fn say_bytes_behind<S: TextSink>(bytes: &[u8], out: &mut S)
    ensures { S.says out.old (bytes_behind bytes.now) out.new }
{
    let mut rest = bytes;
    'eights: while let Some((eight, behind)) = rest.split_first_chunk::<8>() {
        out.put(&eight_behind(eight));
        rest = behind;
    }
    say_few_behind(rest, out);
}

/// Says a blank and two digits for each of fewer than eight bytes: these stand in front of eight, whose digits are made at once.
fn say_few_behind<S: TextSink>(bytes: &[u8], out: &mut S)
    requires { length bytes.now < 8 }
    ensures { S.says out.old (bytes_behind bytes.now) out.new }
{
    match *bytes {
        [] => {}
        [a] => say_front_behind(&[a, 0, 0, 0, 0, 0, 0, 0], 1, out),
        [a, b] => say_front_behind(&[a, b, 0, 0, 0, 0, 0, 0], 2, out),
        [a, b, c] => say_front_behind(&[a, b, c, 0, 0, 0, 0, 0], 3, out),
        [a, b, c, d] => say_front_behind(&[a, b, c, d, 0, 0, 0, 0], 4, out),
        [a, b, c, d, e] => say_front_behind(&[a, b, c, d, e, 0, 0, 0], 5, out),
        [a, b, c, d, e, f] => say_front_behind(&[a, b, c, d, e, f, 0, 0], 6, out),
        [a, b, c, d, e, f, g] => say_front_behind(&[a, b, c, d, e, f, g, 0], 7, out),
        _ => {}
    }
}

/// Says a blank and two digits for each of the first bytes of eight.
#[inline(always)]
fn say_front_behind<S: TextSink>(eight: &[u8; 8], count: usize, out: &mut S)
    requires { count ≤ 8 }
    ensures { S.says out.old (bytes_behind (take count eight.now)) out.new }
{
    out.put(&eight_behind(eight)[..3 * count]);
}

/// A blank and two digits for each of eight bytes, stored by two vectors: where each byte is stored by itself, wider loads of
/// them are covering ones.
#[inline(always)]
fn eight_behind(bytes: &[u8; 8]) -> [u8; 24]
    ensures { result ≡ bytes_behind bytes.now }
{
    let digits = u8x16::from_array(digits_of_bytes(bytes));
    let blanks = u8x16::splat(b' ');
    let front: u8x16 = digits.shuffle(
        blanks,
        [16, 0, 1, 16, 2, 3, 16, 4, 5, 16, 6, 7, 16, 8, 9, 16],
    );
    let back: u8x8 = digits.shuffle(blanks, [10, 11, 16, 12, 13, 16, 14, 15]);
    let mut text = [0; 24];
    front.copy_to_slice(&mut text[..16]);
    back.copy_to_slice(&mut text[16..]);
    text
}

/// Two digits for each byte, and a blank between.
#[derive(Clone, Copy)]
struct BytesApart<'a>(pub &'a [u8]);

impl<'a> Part for BytesApart<'a> {
    ghost use Rattle.shown_bytes.specs.Data.{bytes_apart};

    ghost text = { λ bytes. bytes_apart bytes.0.now };

    fn say<S: TextSink>(self, out: &mut S) {
        if let Some((first, rest)) = self.0.split_first() {
            say(out, Byte(*first));
            say_bytes_behind(rest, out);
        }
    }
}

/// Two digits for each byte, or `..` where it is masked, and a blank between.
#[derive(Clone, Copy)]
struct MarkedApart<'a>(&'a Marks, &'a [u8]);

impl<'a> Part for MarkedApart<'a> {
    ghost use Rattle.shown_bytes.specs.Data.{marked_apart};
    ghost use Rattle.shown_bytes.specs.proving.Marking.{marks_in};

    ghost text = { λ bytes. marked_apart (marks_in bytes.0.now) bytes.1.now };

    fn say<S: TextSink>(self, out: &mut S) {
        let MarkedApart(marks, bytes) = self;
        if let Some((first, rest)) = bytes.split_first() {
            let (is_masked, behind) = marks.split_first();
            say(
                out,
                (
                    Either(is_masked, "..", Byte(*first)),
                    MarkedBehind(&behind, rest),
                ),
            );
        }
    }
}

/// A blank and two digits for each byte, or `..` where it is masked.
#[derive(Clone, Copy)]
struct MarkedBehind<'a>(&'a Marks, &'a [u8]);

impl<'a> Part for MarkedBehind<'a> {
    ghost use Rattle.shown_bytes.specs.Data.{marked_behind};
    ghost use Rattle.shown_bytes.specs.proving.Marking.{marks_in};

    ghost text = { λ bytes. marked_behind (marks_in bytes.0.now) bytes.1.now };

    fn say<S: TextSink>(self, out: &mut S) {
        let MarkedBehind(all_marks, bytes) = self;
        let mut marks = *all_marks;
        let mut rest = bytes;
        'bytes: while let Some((first, others)) = rest.split_first() {
            let (is_masked, behind) = marks.split_first();
            say(out, (" ", Either(is_masked, "..", Byte(*first))));
            marks = behind;
            rest = others;
        }
    }
}

/// Whether a message with this mask from this place on ends with its places, and what follows them is cut off.
fn ends_cut(mask: Mask, start: usize, message: &[u8]) -> bool
    ensures { result ≡ Spec.ends_cut (mask, start) message.now }
{
    mask.cuts() && message.len().saturating_sub(start) == mask.len()
}

/// Whether so many bytes from a place on go up to the end of a message with this mask, behind which it is cut off.
fn piece_ends_cut(mask: Mask, start: usize, message: &[u8], place: usize, count: usize) -> bool
    ensures { result ≡ Spec.piece_ends_cut (mask, start) message.now place count }
{
    ends_cut(mask, start, message) && message.len().saturating_sub(place) <= count
}

/// Whether the byte at a place of a message that rules have left is its last one, behind which it is cut off.
pub fn is_cut_behind(rules: &Rules, message: &[u8], place: usize) -> bool
    ensures { result ≡ Spec.cut_behind rules.now message.now place }
{
    match rules.mask_of(message) {
        Some((mask, start)) => piece_ends_cut(mask, start, message, place, 1),
        None => false,
    }
}

/// Whether the byte at a place of a message that rules have left is masked.
pub fn is_masked_at(rules: &Rules, message: &[u8], place: usize) -> bool
    ensures { result ≡ Spec.mark_at rules.now message.now place }
{
    match rules.mask_of(message) {
        Some((mask, start)) => {
            let (is_masked, _behind) = Marks::of(mask, start).skip(place).split_first();
            is_masked
        }
        None => false,
    }
}

/// So many bytes of a message that rules have left, from a place on, if it has so many: `..` stands for each that they mask,
/// and `*` behind the last one of a message that is cut off.
#[derive(Clone, Copy)]
pub struct Piece<'a> {
    pub rules: &'a Rules,
    pub message: &'a [u8],
    pub place: usize,
    pub count: usize,
}

impl<'a> Part for Piece<'a> {
    ghost use Rattle.shown_bytes.specs.Data.{piece_text};

    ghost text = { λ piece. piece_text piece.rules.now piece.message.now piece.place piece.count };

    fn say<S: TextSink>(self, out: &mut S) {
        let Piece {
            rules,
            message,
            place,
            count,
        } = self;
        let bytes = bytes_from(message, place, count);
        match rules.mask_of(message) {
            Some((mask, start)) => {
                let marks = Marks::of(mask, start).skip(place);
                let is_cut = piece_ends_cut(mask, start, message, place, count);
                say(out, (MarkedApart(&marks, bytes), When(is_cut, " *")));
            }
            None => say(out, BytesApart(bytes)),
        }
    }
}

/// So many bytes of a message from a place on, if it has so many.
fn bytes_from(message: &[u8], place: usize, count: usize) -> &[u8]
    ensures { result.now ≡ take count (drop place message.now) }
{
    let behind = &message[place.min(message.len())..];
    &behind[..count.min(behind.len())]
}

/// How many bytes a message had that rules have left, where they cut off none.
pub fn known_length(rules: &Rules, message: &[u8]) -> Option<u64>
    ensures { result ≡ Spec.known_length rules.now message.now }
{
    let count = message.len() as u64;
    match rules.mask_of(message) {
        Some((mask, start)) if ends_cut(mask, start, message) => None,
        Some(_) | None => Some(count),
    }
}

/// The bytes of a message that rules have left, as far as its row shows them: `..` stands for each that they mask, and `*`
/// where the message ends and they cut off what follows.
#[derive(Clone, Copy)]
pub struct Data<'a> {
    pub rules: &'a Rules,
    pub message: &'a [u8],
}

impl<'a> Part for Data<'a> {
    ghost use Rattle.shown_bytes.specs.Data.{data_text};

    ghost text = { λ shown. data_text shown.rules.now shown.message.now };

    fn say<S: TextSink>(self, out: &mut S) {
        let Data { rules, message } = self;
        match rules.mask_of(message) {
            Some((mask, start)) => say_marked_data(mask, start, message, out),
            None => say(
                out,
                (PlainData(message), NamesText(message), TroubleText(message)),
            ),
        }
    }
}

/// Says the bytes of a message with this mask from this place on.
#[inline(never)]
fn say_marked_data<S: TextSink>(mask: Mask, start: usize, message: &[u8], out: &mut S)
    ensures { S.says out.old (marked_data (mask, start) message.now) out.new }
{
    let marks = Marks::of(mask, start);
    let is_cut = ends_cut(mask, start, message);
    let cut = When(is_cut, " *");
    if message.len() <= MOST_SHOWN {
        say(
            out,
            (
                "<code>",
                (MarkedApart(&marks, message), cut),
                "</code>",
                LastLetters(is_cut, message),
            ),
        );
    } else {
        let (front, rest) = message.split_at(SHOWN_FIRST);
        let more = Number(rest.len() as u64);
        let later = marks.skip(SHOWN_FIRST);
        let first = MarkedApart(&marks, front);
        if message.len() <= MOST_FOLDED {
            let behind = MarkedApart(&later, rest);
            say(
                out,
                (
                    "<code>",
                    first,
                    "</code> <details><summary>",
                    more,
                    " bytes more</summary><code>",
                    (behind, cut),
                    "</code>",
                    LastLetters(is_cut, rest),
                    "</details>",
                ),
            );
        } else {
            say(
                out,
                (
                    "<code>",
                    first,
                    "</code> <i>",
                    more,
                    " bytes more, not shown</i>",
                ),
            );
        }
    }
}

/// The bytes of a message without a mask, as far as its row shows them.
#[derive(Clone, Copy)]
struct PlainData<'a>(&'a [u8]);

impl<'a> Part for PlainData<'a> {
    ghost use Rattle.shown_bytes.specs.Data.{plain_data};

    ghost text = { λ bytes. plain_data bytes.0.now };

    fn say<S: TextSink>(self, out: &mut S) {
        let bytes = self.0;
        if bytes.len() <= MOST_SHOWN {
            say(
                out,
                ("<code>", BytesApart(bytes), "</code>", LettersText(bytes)),
            );
        } else {
            let (front, rest) = bytes.split_at(SHOWN_FIRST);
            let more = Number(rest.len() as u64);
            if bytes.len() <= MOST_FOLDED {
                say(
                    out,
                    (
                        "<code>",
                        BytesApart(front),
                        "</code> <details><summary>",
                        more,
                        " bytes more</summary><code>",
                        BytesApart(rest),
                        "</code>",
                        LettersText(rest),
                        "</details>",
                    ),
                );
            } else {
                say(
                    out,
                    (
                        "<code>",
                        BytesApart(front),
                        "</code> <i>",
                        more,
                        " bytes more, not shown</i>",
                    ),
                );
            }
        }
    }
}

/// The bytes of a message that rules have left, as far as a brief row shows them.
#[derive(Clone, Copy)]
pub struct BriefData<'a> {
    pub rules: &'a Rules,
    pub message: &'a [u8],
}

impl<'a> Part for BriefData<'a> {
    ghost use Rattle.shown_bytes.specs.Data.{brief_data};

    ghost text = { λ shown. brief_data shown.rules.now shown.message.now };

    fn say<S: TextSink>(self, out: &mut S) {
        let BriefData { rules, message } = self;
        match rules.mask_of(message) {
            Some((mask, start)) => say_marked_brief(mask, start, message, out),
            None => say(out, PlainBrief(message)),
        }
    }
}

/// Says the bytes of a message with this mask from this place on, as far as a brief row shows them.
#[inline(never)]
fn say_marked_brief<S: TextSink>(mask: Mask, start: usize, message: &[u8], out: &mut S)
    ensures { S.says out.old (marked_brief (mask, start) message.now) out.new }
{
    let marks = Marks::of(mask, start);
    let is_cut = ends_cut(mask, start, message);
    if message.len() <= SHOWN_FIRST {
        say(out, (MarkedApart(&marks, message), When(is_cut, " *")));
    } else {
        let (front, rest) = message.split_at(SHOWN_FIRST);
        let more = rest.len() as u64;
        say(
            out,
            (
                MarkedApart(&marks, front),
                Either(is_cut, " and at least ", " and "),
                Number(more),
                MoreWords(more),
            ),
        );
    }
}

/// The bytes of a message without a mask, as far as a brief row shows them.
#[derive(Clone, Copy)]
struct PlainBrief<'a>(&'a [u8]);

impl<'a> Part for PlainBrief<'a> {
    ghost use Rattle.shown_bytes.specs.Data.{plain_brief};

    ghost text = { λ bytes. plain_brief bytes.0.now };

    fn say<S: TextSink>(self, out: &mut S) {
        let bytes = self.0;
        if bytes.len() <= SHOWN_FIRST {
            say(out, BytesApart(bytes));
        } else {
            let (front, rest) = bytes.split_at(SHOWN_FIRST);
            let more = rest.len() as u64;
            say(
                out,
                (BytesApart(front), " and ", Number(more), MoreWords(more)),
            );
        }
    }
}

/// So many bytes more, in words behind their number.
#[derive(Clone, Copy)]
pub struct MoreWords(pub u64);

impl Part for MoreWords {
    ghost use Rattle.shown_bytes.specs.Data.{more_words};

    ghost text = { λ more. more_words more.0 };

    fn say<S: TextSink>(self, out: &mut S) {
        say(out, Either(self.0 == 1, " byte more", " bytes more"));
    }
}

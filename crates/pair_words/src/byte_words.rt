//! How two messages differ, in words.

ghost use Rattle.std.specs.Prelude.{◌≡◌, slice_get};
ghost use Rattle.byte_columns.specs.Columns.{differing};
ghost use Rattle.pair_words.specs.ByteWords as Spec;

use crate::alone_words::AloneWords;
use crate::lengths::say_lengths;
use crate::log::PairLog;
use byte_columns::{ByteColumns, Column};
use shown_bytes::{is_cut_behind, is_masked_at};
use text_parts::{Either, Part, When, say};
use trace_io::TextSink;
use trace_text::{Byte, Number, Ordinal};
use uds_rules::Rules;

/// How two messages differ.
#[derive(Clone, Copy)]
pub struct ByteWords<'a>(pub &'a Rules, pub &'a [u8], pub &'a [u8]);

impl<'a> Part for ByteWords<'a> {
    ghost use Rattle.pair_words.specs.ByteWords.{byte_words};

    ghost text = { λ words. byte_words words.0.now words.1.now words.2.now };

    fn say<S: TextSink>(self, out: &mut S) {
        let ByteWords(rules, left, right) = self;
        let columns = ByteColumns::of(left, right);
        say_where(rules, left, right, &columns, out);
        say_lengths(rules, left, right, out);
    }
}

/// Says where two messages differ: one has bytes more than the other, or they are others.
fn say_where<S: TextSink>(
    rules: &Rules,
    left: &[u8],
    right: &[u8],
    columns: &ByteColumns<'_>,
    out: &mut S,
)
    ensures { S.says out.old (Spec.where_words rules.now left.now right.now columns.now) out.new }
{
    let count = count_differing(columns);
    let place = columns.first_differing();
    if has_alone(left, right, count) {
        say(
            out,
            AloneWords {
                rules,
                log: PairLog::A,
                count,
                place,
                bytes: left,
            },
        );
    } else if has_alone(right, left, count) {
        say(
            out,
            AloneWords {
                rules,
                log: PairLog::B,
                count,
                place,
                bytes: right,
            },
        );
    } else {
        let here = column_at(columns, place);
        let first = FirstWords {
            place,
            left_marks: marks_at(rules, left, place),
            right_marks: marks_at(rules, right, place),
            here,
        };
        say(out, (first, MoreColumns(count)));
    }
}

/// How many columns differ.
fn count_differing(columns: &ByteColumns<'_>) -> usize
    ensures { result ≡ differing columns.now }
{
    columns.differing(0, columns.len())
}

/// Whether a message has bytes that the other one, which is shorter, has not, and they are else the same, where so many
/// columns differ.
fn has_alone(own: &[u8], other: &[u8], count: usize) -> bool
    ensures { result ≡ Spec.has_alone own.now other.now count }
{
    other.len() < own.len() && count == own.len() - other.len()
}

/// The column at a place, if there is one.
fn column_at(columns: &ByteColumns<'_>, place: usize) -> Option<Column>
    ensures { result ≡ slice_get columns.now place }
{
    if place < columns.len() {
        Some(columns.column(place))
    } else {
        None
    }
}

/// What rules made of a message at a place: whether the byte there is masked, and whether the message is cut off behind
/// it.
#[derive(Clone, Copy)]
struct ByteMarks {
    is_masked: bool,
    is_cut_behind: bool,
}

/// What rules made of a message at this place.
fn marks_at(rules: &Rules, message: &[u8], place: usize) -> ByteMarks
    ensures { result ≡ Spec.marks_at rules.now message.now place }
{
    ByteMarks {
        is_masked: is_masked_at(rules, message, place),
        is_cut_behind: is_cut_behind(rules, message, place),
    }
}

/// The first column that differs, at this place, where rules made this of the bytes of both logs.
#[derive(Clone, Copy)]
struct FirstWords {
    place: usize,
    left_marks: ByteMarks,
    right_marks: ByteMarks,
    here: Option<Column>,
}

impl Part for FirstWords {
    ghost use Rattle.pair_words.specs.ByteWords.{first_words_by};

    ghost text = { λ words. first_words_by words.left_marks words.right_marks words.place words.here };

    fn say<S: TextSink>(self, out: &mut S) {
        if let Some(here) = self.here {
            say(
                out,
                (
                    " byte ",
                    Ordinal(self.place),
                    ": ",
                    ByteName(self.left_marks, here.left),
                    " in A, ",
                    ByteName(self.right_marks, here.right),
                    " in B",
                ),
            );
        }
    }
}

/// The byte that a log has in a column, of which rules made this.
#[derive(Clone, Copy)]
struct ByteName(ByteMarks, Option<u8>);

impl Part for ByteName {
    ghost use Rattle.pair_words.specs.ByteWords.{byte_name};

    ghost text = { λ name. byte_name name.0 name.1 };

    fn say<S: TextSink>(self, out: &mut S) {
        let ByteName(marks, byte) = self;
        match byte {
            Some(byte) => say(
                out,
                (
                    "<b>",
                    Either(marks.is_masked, "..", Byte(byte)),
                    When(marks.is_cut_behind, " *"),
                    "</b>",
                ),
            ),
            None => say(out, "no byte"),
        }
    }
}

/// How many more columns differ, where so many do.
#[derive(Clone, Copy)]
struct MoreColumns(usize);

impl Part for MoreColumns {
    ghost use Rattle.pair_words.specs.ByteWords.{others_words};

    ghost text = { λ words. others_words words.0 };

    fn say<S: TextSink>(self, out: &mut S) {
        match self.0 {
            0 | 1 => {}
            2 => say(out, "; and 1 more byte"),
            several => say(out, ("; and ", Number(several as u64 - 1), " more bytes")),
        }
    }
}

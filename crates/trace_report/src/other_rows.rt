//! The row of a positive answer that is other than was asked.

ghost use Rattle.trace_report.specs.OtherRows.{other_row};

use crate::cells::{Arrow, CellEnd, CellFront, RowFront};
use crate::durations::Seconds;
use crate::message_rows::Lines;
use crate::message_words::{FunctionalWord, Note};
use crate::row::{MessagePlace, RowContext, SentMessage};
use shown_bytes::{BriefData, Data, Piece, known_length};
use text_parts::{Part, say};
use trace_io::TextSink;
use trace_text::Number;
use uds_echo::repeated_count;
use uds_message::sid;
use uds_rules::Rules;

/// The service identifier of ReadDataByIdentifier.
const READ_DATA_BY_IDENTIFIER: u8 = 0x22;

/// Says the row of a positive answer that is other than was asked.
#[inline(never)]
pub(crate) fn say_other_row<S: TextSink>(
    context: RowContext<'_>,
    sent: SentMessage,
    message: &[u8],
    out: &mut S,
)
    ensures { S.says out.old (other_row context.entry.rules.now context.entry.origin context.entry.asked.now sent.role sent.dir sent.place message.now) out.new }
{
    let RowContext {
        rules,
        origin,
        asked,
    } = context;
    let SentMessage { role, dir, place } = sent;
    let shown = repeated_count(asked, message) + 1;
    let known = known_length(rules, message);
    let words = OtherWords {
        rules,
        asked,
        message,
        shown,
    };
    say(
        out,
        (
            OtherFront(origin, place),
            CellFront(dir),
            words,
            FunctionalWord(place.is_functional),
            Data { rules, message },
            Note(role, place, known),
            CellEnd(dir, Arrow::Headed),
        ),
    );
}

/// Where such an answer stands: it is shown as what needs attention.
#[derive(Clone, Copy)]
struct OtherFront(u64, MessagePlace);

impl Part for OtherFront {
    ghost use Rattle.trace_report.specs.OtherRows.{other_front};

    ghost text = { λ front. other_front front.0 front.1 };

    fn say<S: TextSink>(self, out: &mut S) {
        let OtherFront(origin, place) = self;
        say(
            out,
            RowFront {
                class: "s",
                target: None,
                item: ("<td>", Number(place.item)),
                lines: Lines(place.first.line, place.last.line),
                time: Seconds(origin, place.last.micros),
            },
        );
    }
}

/// What the answer repeats, and what was asked, of which so many bytes are told.
#[derive(Clone, Copy)]
struct OtherWords<'a> {
    rules: &'a Rules,
    asked: &'a [u8],
    message: &'a [u8],
    shown: usize,
}

impl<'a> Part for OtherWords<'a> {
    ghost use Rattle.trace_report.specs.OtherRows.{other_words};

    ghost text = { λ words. other_words words.rules.now words.asked.now words.message.now words.shown };

    fn say<S: TextSink>(self, out: &mut S) {
        let OtherWords {
            rules,
            asked,
            message,
            shown,
        } = self;
        let answer = Piece {
            rules,
            message,
            place: 0,
            count: shown,
        };
        say(
            out,
            (
                "<b>positive</b> <em>answers ",
                answer,
                ", asked was ",
                AskedText {
                    rules,
                    asked,
                    shown,
                },
                "</em> ",
            ),
        );
    }
}

/// The bytes of a request that an answer should repeat, which are so many.
#[derive(Clone, Copy)]
struct AskedText<'a> {
    rules: &'a Rules,
    asked: &'a [u8],
    shown: usize,
}

impl<'a> Part for AskedText<'a> {
    ghost use Rattle.trace_report.specs.OtherRows.{asked_text};

    ghost text = { λ text. asked_text text.rules.now text.asked.now text.shown };

    fn say<S: TextSink>(self, out: &mut S) {
        let AskedText {
            rules,
            asked,
            shown,
        } = self;
        if sid(asked) == READ_DATA_BY_IDENTIFIER {
            say(
                out,
                BriefData {
                    rules,
                    message: asked,
                },
            );
        } else {
            say(
                out,
                Piece {
                    rules,
                    message: asked,
                    place: 0,
                    count: shown,
                },
            );
        }
    }
}

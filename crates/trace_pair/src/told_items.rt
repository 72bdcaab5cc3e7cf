//! Items as rows tell them.

use crate::parted_roles::PartedRoleWords;
use pair_words::{LetterMark, PairLog};
use shown_bytes::Data;
use text_parts::{Part, When, say};
use trace_io::TextSink;
use trace_report::{
    FurtherNote, MessagePlace, NamedLines, PlacedItem, RowMessage, Seconds, asked_at,
    is_request_role,
};
use uds_message::is_suppressing;
use uds_rules::Rules;

/// A message that rules have left: what it is, and its bytes.
#[derive(Clone, Copy)]
pub(crate) struct ToldMessage<'a>(pub &'a Rules, pub RowMessage<'a>);

impl<'a> Part for ToldMessage<'a> {
    ghost use Rattle.trace_report.specs.Items.{message_of};
    ghost use Rattle.trace_pair.specs.ToldItems.{told_message};

    ghost text = { λ message. told_message message.0.now (message_of message.1) };

    fn say<S: TextSink>(self, out: &mut S) {
        let ToldMessage(
            rules,
            RowMessage {
                sent,
                bytes: message,
            },
        ) = self;
        let words = PartedRoleWords(sent.role, sent.dir, message);
        say(out, (words, Data { rules, message }));
    }
}

/// The answer to a request, or what stands in its place.
#[derive(Clone, Copy)]
pub(crate) struct ToldAnswer<'a>(pub &'a Rules, pub &'a [u8], pub Option<RowMessage<'a>>);

impl<'a> Part for ToldAnswer<'a> {
    ghost use Rattle.std.specs.Prelude.{option_map};
    ghost use Rattle.trace_report.specs.Items.{message_of};
    ghost use Rattle.trace_pair.specs.ToldItems.{told_answer};

    ghost text = { λ answer. told_answer answer.0.now answer.1.now (option_map message_of answer.2) };

    fn say<S: TextSink>(self, out: &mut S) {
        let ToldAnswer(rules, request, answer) = self;
        match answer {
            Some(reply) => say(out, ToldMessage(rules, reply)),
            None => say(out, MissingAnswer(is_suppressing(request))),
        }
    }
}

/// What stands in place of an answer.
#[derive(Clone, Copy)]
struct MissingAnswer(bool);

impl Part for MissingAnswer {
    ghost use Rattle.trace_pair.specs.ToldItems.{no_answer_text};

    ghost text = { λ missing. no_answer_text missing.0 };

    fn say<S: TextSink>(self, out: &mut S) {
        if self.0 {
            say(out, "<b>silent</b>");
        } else {
            say(out, "<b class=\"no\">no answer</b>");
        }
    }
}

/// An item: a request with its answer behind an arrow, or a message.
#[derive(Clone, Copy)]
pub(crate) struct ToldItem<'a>(pub &'a Rules, pub PlacedItem<'a>);

impl<'a> Part for ToldItem<'a> {
    ghost use Rattle.trace_report.specs.Items.{item_of};
    ghost use Rattle.trace_pair.specs.ToldItems.{told_item};

    ghost text = { λ item. told_item item.0.now (item_of item.1) };

    fn say<S: TextSink>(self, out: &mut S) {
        let ToldItem(rules, item) = self;
        let PlacedItem { begin, answer } = item;
        let reply = (" &#8594; ", ToldAnswer(rules, begin.bytes, answer));
        say(
            out,
            (
                ToldMessage(rules, begin),
                When(is_request_role(begin.sent.role), reply),
            ),
        );
    }
}

/// When an item was, in a log whose first frame has this time.
#[derive(Clone, Copy)]
pub(crate) struct NoteOf<'a> {
    pub log: PairLog,
    pub origin: u64,
    pub item: PlacedItem<'a>,
}

impl<'a> Part for NoteOf<'a> {
    ghost use Rattle.trace_report.specs.Items.{item_of};
    ghost use Rattle.trace_pair.specs.ToldItems.{note_of};

    ghost text = { λ note. note_of note.log note.origin (item_of note.item) };

    fn say<S: TextSink>(self, out: &mut S) {
        let NoteOf { log, origin, item } = self;
        let begin = item.begin;
        match item.answer {
            Some(last) => say(
                out,
                ItemNote {
                    log,
                    origin,
                    begin,
                    last,
                },
            ),
            None => say(
                out,
                ItemNote {
                    log,
                    origin,
                    begin,
                    last: begin,
                },
            ),
        }
    }
}

/// When an item was that begins with one message and ends with another.
#[derive(Clone, Copy)]
struct ItemNote<'a> {
    log: PairLog,
    origin: u64,
    begin: RowMessage<'a>,
    last: RowMessage<'a>,
}

impl<'a> Part for ItemNote<'a> {
    ghost use Rattle.trace_report.specs.Items.{message_of};
    ghost use Rattle.trace_pair.specs.ToldItems.{item_note};

    ghost text = { λ note. item_note note.log note.origin (message_of note.begin) (message_of note.last) };

    fn say<S: TextSink>(self, out: &mut S) {
        let ItemNote {
            log,
            origin,
            begin,
            last,
        } = self;
        say(
            out,
            (
                "<i>",
                LetterMark(log),
                LinesOfBoth(begin.sent.place, last.sent.place),
                ", ",
                Seconds(origin, begin.sent.place.last.micros),
                "&#160;s",
                FurtherNote(asked_at(last.sent.role), last.sent.place.first.micros),
                "</i>",
            ),
        );
    }
}

/// The lines of two messages, each of which may begin or end outside the other one.
#[derive(Clone, Copy)]
struct LinesOfBoth(MessagePlace, MessagePlace);

impl Part for LinesOfBoth {
    ghost use Rattle.trace_pair.specs.ToldItems.{lines_of_both};

    ghost text = { λ lines. lines_of_both lines.0 lines.1 };

    fn say<S: TextSink>(self, out: &mut S) {
        let LinesOfBoth(begin, last) = self;
        let first = begin.first.line.min(last.first.line);
        let last = begin.last.line.max(last.last.line);
        say(out, NamedLines(first, last));
    }
}

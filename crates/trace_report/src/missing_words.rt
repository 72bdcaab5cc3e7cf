//! What is missing in a log, in words.

use crate::plain_reasons::{CauseWords, ReasonWords};
use crate::row::Silence;
use direction::Dir;
use isotp_receive::{Ended, Reason};
use text_parts::{Part, say};
use trace_io::TextSink;
use trace_text::{DropReason, EndCause, Length, Number, Sender};

/// The class of the row of an item without an answer.
#[derive(Clone, Copy)]
pub struct NoAnswerClass(pub Silence);

impl Part for NoAnswerClass {
    ghost use Rattle.trace_report.specs.MissingRows.{no_answer_class};

    ghost text = { λ class. no_answer_class class.0 };

    fn say<S: TextSink>(self, out: &mut S) {
        match self.0 {
            Silence::Suppressed | Silence::ToAllUnits => say(out, "p"),
            Silence::Unanswered => say(out, "m"),
        }
    }
}

/// The item of this number, which has no answer.
#[derive(Clone, Copy)]
pub struct NoAnswerWords(pub u64, pub Silence);

impl Part for NoAnswerWords {
    ghost use Rattle.trace_report.specs.MissingRows.{no_answer_words};

    ghost text = { λ words. no_answer_words words.0 words.1 };

    fn say<S: TextSink>(self, out: &mut S) {
        let NoAnswerWords(number, silence) = self;
        let item = Number(number);
        match silence {
            Silence::Suppressed => say(
                out,
                (
                    "<b>silent</b> <i>item ",
                    item,
                    " asked for no positive answer</i>",
                ),
            ),
            Silence::ToAllUnits => say(
                out,
                (
                    "<b>no answer</b> <i>to item ",
                    item,
                    ", which went to all units</i>",
                ),
            ),
            Silence::Unanswered => say(out, ("<b>no answer</b> <i>to item ", item, "</i>")),
        }
    }
}

/// A frame of this side that was dropped.
#[derive(Clone, Copy)]
pub struct DroppedWords(pub Dir, pub Reason);

impl Part for DroppedWords {
    ghost use Rattle.trace_report.specs.MissingRows.{dropped_words};

    ghost text = { λ words. dropped_words words.0 words.1 };

    fn say<S: TextSink>(self, out: &mut S) {
        let DroppedWords(dir, reason) = self;
        say(
            out,
            (
                "<b>dropped</b> <i>",
                Sender(dir),
                " frame:</i> <em>",
                DropReason(reason),
                "</em>",
                ReasonWords(reason),
            ),
        );
    }
}

/// A reception that ended.
#[derive(Clone, Copy)]
pub struct EndedWords(pub Ended);

impl Part for EndedWords {
    ghost use Rattle.trace_report.specs.MissingRows.{ended_words};

    ghost text = { λ words. ended_words words.0 };

    fn say<S: TextSink>(self, out: &mut S) {
        let ended = self.0;
        let part = PartialText {
            dir: ended.dir,
            line: ended.begun_line,
            len: ended.len,
        };
        say(
            out,
            (
                "<b>ended</b> <i>",
                part,
                "</i> <em>",
                EndCause(ended.cause),
                "</em> <i>",
                CauseWords(ended.cause),
                "</i>",
            ),
        );
    }
}

/// A reception that stands at the end: its side, the line of its first frame, and the bytes that this announced.
#[derive(Clone, Copy)]
pub struct UnfinishedWords(pub Dir, pub u64, pub u32);

impl Part for UnfinishedWords {
    ghost use Rattle.trace_report.specs.MissingRows.{unfinished_words};

    ghost text = { λ words. unfinished_words words.0 words.1 words.2 };

    fn say<S: TextSink>(self, out: &mut S) {
        let UnfinishedWords(dir, line, len) = self;
        say(
            out,
            (
                "<b>unfinished</b> <i>",
                PartialText { dir, line, len },
                " the log ends before its last frame</i>",
            ),
        );
    }
}

/// A message that is not whole: where it began, and how many bytes were announced.
#[derive(Clone, Copy)]
struct PartialText {
    dir: Dir,
    line: u64,
    len: u32,
}

impl Part for PartialText {
    ghost use Rattle.trace_report.specs.MissingRows.{partial_text};

    ghost text = { λ part. partial_text part.dir part.line part.len };

    fn say<S: TextSink>(self, out: &mut S) {
        say(
            out,
            (
                Sender(self.dir),
                " message from line ",
                Number(self.line),
                ", ",
                Length(self.len),
                " bytes announced:",
            ),
        );
    }
}

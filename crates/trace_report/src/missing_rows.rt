//! The rows of a report that tell what is missing: answers, frames, and messages that are not whole.

ghost use Rattle.trace_report.specs.MissingRows.{dropped_row, ended_row, missing_row, no_answer_row, unfinished_row};

use crate::cells::{Arrow, CellEnd, CellFront, RowFront};
use crate::durations::Seconds;
use crate::missing_words::{
    DroppedWords, EndedWords, NoAnswerClass, NoAnswerWords, UnfinishedWords,
};
use crate::row::{Missing, Silence};
use crate::targets::{LinkTarget, target_if};
use direction::Dir;
use isotp_receive::{Ended, Reason};
use text_parts::{Either, Part, say};
use trace_canon::reception_starts::FramePlace;
use trace_io::TextSink;
use trace_text::Number;

/// Says the row of what is missing, to which links lead or not. To that of a dropped frame they lead only where it says
/// so.
pub fn say_missing_row<S: TextSink>(linked: bool, origin: u64, missing: Missing, out: &mut S)
    ensures { S.says out.old (missing_row linked origin missing) out.new }
{
    match missing {
        Missing::NoAnswer { number, silence } => say_no_answer_row(number, silence, out),
        Missing::Dropped {
            place,
            dir,
            linked: own,
            reason,
        } => {
            let front = FrameFront {
                linked: linked && own,
                origin,
                place,
            };
            say_dropped_row(front, dir, reason, out);
        }
        Missing::Ended { place, ended } => {
            let front = FrameFront {
                linked,
                origin,
                place,
            };
            say_ended_row(front, ended, out);
        }
        Missing::Unfinished { dir, line, len } => say_unfinished_row(linked, dir, line, len, out),
    }
}

/// Says the row of an item without an answer.
pub(crate) fn say_no_answer_row<S: TextSink>(number: u64, silence: Silence, out: &mut S)
    ensures { S.says out.old (no_answer_row number silence) out.new }
{
    say(
        out,
        (
            NoAnswerFront(number, silence),
            CellFront(Dir::Unit),
            NoAnswerWords(number, silence),
            CellEnd(Dir::Unit, Arrow::Barred),
        ),
    );
}

/// What stands in front of it.
#[derive(Clone, Copy)]
pub(crate) struct NoAnswerFront(pub u64, pub Silence);

impl Part for NoAnswerFront {
    ghost use Rattle.trace_report.specs.MissingRows.{no_answer_front};

    ghost text = { λ front. no_answer_front front.0 front.1 };

    fn say<S: TextSink>(self, out: &mut S) {
        let NoAnswerFront(number, silence) = self;
        say(
            out,
            RowFront {
                class: NoAnswerClass(silence),
                target: None,
                item: ("<td>", Number(number)),
                lines: (),
                time: (),
            },
        );
    }
}

/// Where a frame stands, in a row to which links lead or not.
#[derive(Clone, Copy)]
struct FrameFront {
    linked: bool,
    origin: u64,
    place: FramePlace,
}

impl Part for FrameFront {
    ghost use Rattle.trace_report.specs.MissingRows.{frame_front};

    ghost text = { λ front. frame_front front.linked front.origin front.place };

    fn say<S: TextSink>(self, out: &mut S) {
        let FrameFront {
            linked,
            origin,
            place,
        } = self;
        say(
            out,
            RowFront {
                class: "x",
                target: target_if(linked, LinkTarget::Line(place.line)),
                item: "<td>",
                lines: Number(place.line),
                time: Seconds(origin, place.micros),
            },
        );
    }
}

/// Says the row of a frame that was dropped.
fn say_dropped_row<S: TextSink>(front: FrameFront, dir: Dir, reason: Reason, out: &mut S)
    ensures { S.says out.old (dropped_row front.linked front.origin front.place dir reason) out.new }
{
    say(
        out,
        (
            front,
            CellFront(dir),
            DroppedWords(dir, reason),
            CellEnd(dir, Arrow::Crossed),
        ),
    );
}

/// Says the row of a frame that ended a reception.
fn say_ended_row<S: TextSink>(front: FrameFront, ended: Ended, out: &mut S)
    ensures { S.says out.old (ended_row front.linked front.origin front.place ended) out.new }
{
    say(
        out,
        (
            front,
            CellFront(ended.dir),
            EndedWords(ended),
            CellEnd(ended.dir, Arrow::Barred),
        ),
    );
}

/// Says the row of a reception that stands at the end, to which links lead or not.
fn say_unfinished_row<S: TextSink>(linked: bool, dir: Dir, line: u64, len: u32, out: &mut S)
    ensures { S.says out.old (unfinished_row linked dir line len) out.new }
{
    let front = RowFront {
        class: "x",
        target: target_if(linked, LinkTarget::Side(dir)),
        item: "<td>",
        lines: (),
        time: (),
    };
    say(
        out,
        (
            front,
            CellFront(dir),
            UnfinishedWords(dir, line, len),
            CellEnd(dir, Arrow::Barred),
        ),
    );
}

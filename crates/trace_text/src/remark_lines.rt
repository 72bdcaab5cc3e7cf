//! A line that explains a log, in words or as an object.
ghost use Rattle.trace_text.specs.RemarkLines.{counts_text, remark_line, remark_text, summary_line};
ghost use Rattle.trace_log.specs.Summing.{seen_counts};
ghost use Rattle.trace_text.specs.declared.remark.Remark.TheVariants as told;

use crate::counts::say_counts;
use crate::name_parts::{DropReason, EndCause, Sender};
use crate::notation::Notation;
use crate::numbers::{Length, Number};
use crate::remark::Remark;
use crate::remark_objects::say_remark_object;
use direction::Dir;
use isotp_receive::{Ended, Reason};
use text_parts::{Part, say};
use trace_io::TextSink;
use trace_log::{Count, Summary};

/// Says the line of a remark. Inlined, since it is known where it is called what kind of remark it is.
#[inline(always)]
pub fn say_remark<S: TextSink>(notation: Notation, remark: Remark, out: &mut S)
    ensures { S.says out.old (remark_text notation remark) out.new }
{
    match notation {
        Notation::Text => say_remark_line(remark, out),
        Notation::Json => say_remark_object(remark, out),
    }
}

/// Says the line of a remark in words.
#[inline(always)]
fn say_remark_line<S: TextSink>(remark: Remark, out: &mut S)
    ensures { S.says out.old (remark_line remark) out.new }
{
    match remark {
        Remark::Ended { line, ended } => say_ended_line(line, ended, out),
        Remark::Dropped { line, dir, reason } => say_dropped_line(line, dir, reason, out),
        Remark::Unfinished { dir, line, len } => say_unfinished_line(dir, line, len, out),
        Remark::Counts(summary) => say_summary_line(&summary, out),
    }
}

/// Says the line of a reception that a frame ended.
#[inline(never)]
fn say_ended_line<S: TextSink>(line: u64, ended: Ended, out: &mut S)
    ensures { S.says out.old (remark_line (told.Ended line ended)) out.new }
{
    let reception = ReceptionWords {
        dir: ended.dir,
        line: ended.begun_line,
        len: ended.len,
    };
    say(
        out,
        (
            "line ",
            Number(line),
            ": ",
            reception,
            "ended: ",
            EndCause(ended.cause),
            "\n",
        ),
    );
}

/// Says the line of a dropped frame.
#[inline(never)]
fn say_dropped_line<S: TextSink>(line: u64, dir: Dir, reason: Reason, out: &mut S)
    ensures { S.says out.old (remark_line (told.Dropped line dir reason)) out.new }
{
    say(
        out,
        (
            "line ",
            Number(line),
            ": ",
            Sender(dir),
            " frame dropped: ",
            // One part, as `reason_line` of the definitions.
            (DropReason(reason), "\n"),
        ),
    );
}

/// Says the line of a reception that stands at the end.
#[inline(never)]
fn say_unfinished_line<S: TextSink>(dir: Dir, line: u64, len: u32, out: &mut S)
    ensures { S.says out.old (remark_line (told.Unfinished dir line len)) out.new }
{
    say(
        out,
        ("end: ", ReceptionWords { dir, line, len }, "unfinished\n"),
    );
}

/// A reception: its direction, the line of its first frame, and the bytes that this announced.
#[derive(Clone, Copy)]
struct ReceptionWords {
    dir: Dir,
    line: u64,
    len: u32,
}

impl Part for ReceptionWords {
    ghost use Rattle.trace_text.specs.RemarkLines.{reception_text};

    ghost text = { λ reception. reception_text reception.dir reception.line reception.len };

    fn say<S: TextSink>(self, out: &mut S) {
        say(
            out,
            (
                Sender(self.dir),
                " reception from line ",
                Number(self.line),
                " of ",
                Length(self.len),
                " bytes ",
            ),
        );
    }
}

/// Says the line of the counts.
#[inline(never)]
fn say_summary_line<S: TextSink>(summary: &Summary, out: &mut S)
    ensures { S.says out.old (summary_line summary.now) out.new }
{
    say_counts_words(&summary.named(), out);
    say(out, "\n");
}

/// Says counts, each but the first behind a space.
fn say_counts_words<S: TextSink>(counts: &[Count], out: &mut S)
    ensures { S.says out.old (counts_text (seen_counts counts.now)) out.new }
{
    let Some((first, later)) = counts.split_first() else {
        return;
    };
    say_counts("", " ", &[*first], out);
    say_counts(" ", " ", later, out);
}

//! What explains a log as objects of JSON.
ghost use Rattle.trace_text.specs.RemarkLines.{remark_members};
ghost use Rattle.trace_text.specs.Json.{object_line};
ghost use Rattle.trace_text.specs.declared.remark.Remark.TheVariants as told;

use crate::counts::say_counts;
use crate::name_parts::{DropReason, EndCause, Sender};
use crate::numbers::{Length, Number};
use crate::remark::Remark;
use direction::Dir;
use isotp_receive::{Ended, Reason};
use text_parts::{Part, say};
use trace_io::TextSink;
use trace_log::Summary;

/// Says the line of a remark as an object.
#[inline(always)]
pub(crate) fn say_remark_object<S: TextSink>(remark: Remark, out: &mut S)
    ensures { S.says out.old (object_line (remark_members remark)) out.new }
{
    match remark {
        Remark::Ended { line, ended } => say_ended_object(line, ended, out),
        Remark::Dropped { line, dir, reason } => say_dropped_object(line, dir, reason, out),
        Remark::Unfinished { dir, line, len } => say_unfinished_object(dir, line, len, out),
        Remark::Counts(summary) => say_summary_object(&summary, out),
    }
}

/// Says the object of a reception that a frame ended.
#[inline(never)]
fn say_ended_object<S: TextSink>(line: u64, ended: Ended, out: &mut S)
    ensures { S.says out.old (object_line (remark_members (told.Ended line ended))) out.new }
{
    say(
        out,
        (
            ("{\"line\":", Number(line)),
            ",\"event\":\"ended\"",
            (",\"direction\":\"", Sender(ended.dir), "\""),
            (",\"begun_line\":", Number(ended.begun_line)),
            (",\"length\":", Length(ended.len)),
            (",\"cause\":\"", EndCause(ended.cause), "\""),
            "}\n",
        ),
    );
}

/// Says the object of a dropped frame.
#[inline(never)]
fn say_dropped_object<S: TextSink>(line: u64, dir: Dir, reason: Reason, out: &mut S)
    ensures { S.says out.old (object_line (remark_members (told.Dropped line dir reason))) out.new }
{
    say(
        out,
        (
            ("{\"line\":", Number(line)),
            ",\"event\":\"dropped\"",
            (",\"direction\":\"", Sender(dir), "\""),
            ReasonMembers(reason),
            "}\n",
        ),
    );
}

/// Why a frame was dropped, with the numbers apart from the words.
#[derive(Clone, Copy)]
struct ReasonMembers(Reason);

impl Part for ReasonMembers {
    ghost use Rattle.trace_text.specs.RemarkLines.{reason_members};
    ghost use Rattle.trace_text.specs.Json.{later_text};

    ghost text = { λ why. later_text (reason_members why.0) };

    fn say<S: TextSink>(self, out: &mut S) {
        match self.0 {
            Reason::NextSequence { expected, found } => say(
                out,
                (
                    ",\"reason\":\"sequence number\"",
                    (",\"expected\":", Number(u64::from(expected))),
                    (",\"found\":", Number(u64::from(found))),
                ),
            ),
            Reason::TooLong { announced } => say(
                out,
                (
                    ",\"reason\":\"bytes announced\"",
                    (",\"announced\":", Length(announced)),
                ),
            ),
            Reason::Pdu(_)
            | Reason::FlowUnexpected
            | Reason::NextUnexpected
            | Reason::NextLate
            | Reason::NextLength
            | Reason::FunctionalNotSingle => say(out, (",\"reason\":\"", DropReason(self.0), "\"")),
        }
    }
}

/// Says the object of a reception that stands at the end.
#[inline(never)]
fn say_unfinished_object<S: TextSink>(dir: Dir, line: u64, len: u32, out: &mut S)
    ensures { S.says out.old (object_line (remark_members (told.Unfinished dir line len))) out.new }
{
    say(
        out,
        (
            "{\"event\":\"unfinished\"",
            (",\"direction\":\"", Sender(dir), "\""),
            (",\"begun_line\":", Number(line)),
            (",\"length\":", Length(len)),
            "}\n",
        ),
    );
}

/// Says the object of the counts.
#[inline(never)]
fn say_summary_object<S: TextSink>(summary: &Summary, out: &mut S)
    ensures { S.says out.old (object_line (remark_members (told.Counts summary.now))) out.new }
{
    say(out, "{\"event\":\"counts\"");
    say_counts(",\"", "\":", &summary.named(), out);
    say(out, "}\n");
}

//! Why frames were dropped and receptions ended, for a reader who knows no ISO 15765-2.

use isotp_pdu::PduFault;
use isotp_receive::{Cause, MESSAGE_LIMIT, Reason};
use text_parts::{Part, say};
use trace_io::TextSink;
use trace_text::Length;

/// Why a frame was dropped; nothing, where the row of the reception that it ended says it.
#[derive(Clone, Copy)]
pub(crate) struct ReasonWords(pub Reason);

impl Part for ReasonWords {
    ghost use Rattle.trace_report.specs.MissingRows.{reason_words};

    ghost text = { λ why. reason_words why.0 };

    fn say<S: TextSink>(self, out: &mut S) {
        match self.0 {
            Reason::Pdu(fault) => say(out, Aside(LayoutFaultWords(fault))),
            Reason::FlowUnexpected => say(
                out,
                Aside("the other side was sending nothing that it could be for"),
            ),
            Reason::NextUnexpected => say(
                out,
                Aside("no message was under way that it goes on with"),
            ),
            Reason::NextLate | Reason::NextSequence { .. } | Reason::NextLength => {}
            Reason::FunctionalNotSingle => say(
                out,
                Aside("what is sent to all units is one single frame"),
            ),
            Reason::TooLong { .. } => say(
                out,
                Aside(("more than the limit of ", Length(MESSAGE_LIMIT))),
            ),
        }
    }
}

/// Words beside what a row tells.
#[derive(Clone, Copy)]
struct Aside<W>(W);

impl<W: Part> Part for Aside<W> {
    ghost use Rattle.trace_report.specs.MissingRows.{aside};

    ghost text = { λ words. aside (W.text words.0) };

    fn say<S: TextSink>(self, out: &mut S) {
        say(out, (" <i>", self.0, "</i>"));
    }
}

/// Why a frame has no layout.
#[derive(Clone, Copy)]
struct LayoutFaultWords(PduFault);

impl Part for LayoutFaultWords {
    ghost use Rattle.trace_report.specs.MissingRows.{layout_fault_words};

    ghost text = { λ why. layout_fault_words why.0 };

    fn say<S: TextSink>(self, out: &mut S) {
        match self.0 {
            PduFault::Remote => say(out, "it carries no data"),
            PduFault::FrameLength => say(out, "no CAN frame has this many bytes"),
            PduFault::Empty => say(out, "it has no byte"),
            PduFault::UnknownKind => say(out, "its first byte is of no kind of ISO-TP frame"),
            PduFault::SingleLength => say(out, "its length does not fit the length that it tells"),
            PduFault::FirstLength => say(
                out,
                "its length, or the one that it announces, is that of no first frame",
            ),
            PduFault::FlowShort => say(out, "it has fewer than 3 bytes"),
            PduFault::FlowStatus => say(out, "its status is none of continue, wait and overflow"),
        }
    }
}

/// Why a reception ended.
#[derive(Clone, Copy)]
pub(crate) struct CauseWords(pub Cause);

impl Part for CauseWords {
    ghost use Rattle.trace_report.specs.MissingRows.{cause_words};

    ghost text = { λ why. cause_words why.0 };

    fn say<S: TextSink>(self, out: &mut S) {
        match self.0 {
            Cause::NewStart => say(
                out,
                "another message of this side began before its last frame",
            ),
            Cause::Overflow => say(out, "the other side said that it has no room"),
            Cause::Late => say(out, "its next frame came after more than 1 s"),
            Cause::Sequence => say(out, "a frame is missing, came twice or out of order"),
            Cause::Length => say(out, "a frame has another length than its first one"),
        }
    }
}

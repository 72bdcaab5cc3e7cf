//! What a frame does to the receptions.

use direction::Dir;
use isotp_pdu::PduFault;

/// What a frame did: the reception that it ended, if it ended one, and what became of the frame.
#[derive(Clone, Copy, Debug, PartialEq, Eq)]
pub struct Event<'a> {
    /// What became of the frame itself.
    pub verdict: Verdict<'a>,
    /// The reception that the frame ended before its message was complete.
    pub ended: Option<Ended>,
}

impl<'a> Event<'a> {
    ghost use Rattle.std.specs.Prelude.{◌≡◌, None};
    ghost use Rattle.isotp_receive.specs.EventSeen.{seen_event, seen_verdict};

    /// A frame that ended nothing.
    pub(crate) fn of(verdict: Verdict<'a>) -> Event<'a>
        ensures { seen_event result ≡ record { ended = None; verdict = seen_verdict verdict.entry } }
    {
        Event {
            ended: None,
            verdict,
        }
    }
}

/// A reception that ended before its message was complete.
#[derive(Clone, Copy, Debug, PartialEq, Eq)]
pub struct Ended {
    /// The line of its first frame.
    pub begun_line: u64,
    /// How many bytes its first frame announced.
    pub len: u32,
    /// The direction of the message, also where a flow control frame of the other one ended it.
    pub dir: Dir,
    /// Why it ended.
    pub cause: Cause,
}

/// Why a reception ended before its message was complete (ISO 15765-2, sections 9.6 and 9.8).
#[derive(Clone, Copy, Debug, PartialEq, Eq)]
pub enum Cause {
    /// A single or first frame of the same direction.
    NewStart,
    /// An overflow frame of the receiver, before the first consecutive frame.
    Overflow,
    /// A consecutive frame that came more than N_Cr after its reference.
    Late,
    /// A consecutive frame of another sequence number.
    Sequence,
    /// A consecutive frame of another length than the message asks for.
    Length,
}

/// What became of a frame.
#[derive(Clone, Copy, Debug, PartialEq, Eq)]
pub enum Verdict<'a> {
    /// It completed this message.
    Message(&'a [u8]),
    /// A first frame: a reception began.
    Began,
    /// A consecutive frame that was not the last of its message.
    Stored,
    /// A flow control frame that was expected, overflow included.
    Flow,
    /// It was dropped.
    Dropped(Reason),
}

/// Why a frame was dropped.
#[derive(Clone, Copy, Debug, PartialEq, Eq)]
pub enum Reason {
    /// It has no layout of ISO 15765-2.
    Pdu(PduFault),
    /// Flow control where the other direction has no reception that it could be for.
    FlowUnexpected,
    /// A consecutive frame where its direction has no reception.
    NextUnexpected,
    /// A consecutive frame that came more than N_Cr after its reference.
    NextLate,
    /// A consecutive frame of another sequence number than the expected one; both are 0 to 15.
    NextSequence { expected: u8, found: u8 },
    /// A consecutive frame of another length than the message asks for.
    NextLength,
    /// A frame to all units that is no single frame.
    FunctionalNotSingle,
    /// A first frame that announces more bytes than a reception holds.
    TooLong { announced: u32 },
}

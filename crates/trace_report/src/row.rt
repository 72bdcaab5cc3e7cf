//! What a row of a report tells.

use crate::roles::MessageRole;
use direction::Dir;
use isotp_receive::{Ended, Reason};
use trace_canon::reception_starts::FramePlace;
use uds_rules::Rules;

/// Where a message stands: its item, its first frame and its last one, how many carry its bytes, and whether it was
/// sent to all units.
#[derive(Clone, Copy, Debug)]
pub struct MessagePlace {
    pub item: u64,
    pub first: FramePlace,
    pub last: FramePlace,
    pub frames: u64,
    pub is_functional: bool,
}

/// What a row tells of a message, beside its bytes: what it is to its item, which side sent it, and where it stands.
#[derive(Clone, Copy, Debug)]
pub struct SentMessage {
    pub role: MessageRole,
    pub dir: Dir,
    pub place: MessagePlace,
}

/// By what a row is said, beside what it tells: the rules that its page is under, the time of the first frame of the two
/// sides, and what is kept of the request that was asked last.
#[derive(Clone, Copy)]
pub(crate) struct RowContext<'a> {
    pub rules: &'a Rules,
    pub origin: u64,
    pub asked: &'a [u8],
}

/// What a row tells.
#[derive(Clone, Copy, Debug)]
pub enum SessionRow<'a> {
    /// A message with these bytes.
    Message {
        sent: SentMessage,
        message: &'a [u8],
    },
    /// What is missing.
    Missing(Missing),
}

/// Why an item has no answer.
#[derive(Clone, Copy, Debug)]
pub enum Silence {
    /// Its request asked for no positive one.
    Suppressed,
    /// Its request went to all units, and need not concern this one, which said nothing of it.
    ToAllUnits,
    /// One was due.
    Unanswered,
}

/// What a row tells that is missing: an answer, a frame, or the rest of a message.
#[derive(Clone, Copy, Debug)]
pub enum Missing {
    /// The item of this number has no answer.
    NoAnswer {
        number: u64,
        silence: Silence,
    },
    /// The frame in this place, which this side sent, was dropped. Links lead to this row, or the row before is of the
    /// same frame, and they lead there.
    Dropped {
        place: FramePlace,
        dir: Dir,
        linked: bool,
        reason: Reason,
    },
    /// The frame in this place ended a reception.
    Ended {
        place: FramePlace,
        ended: Ended,
    },
    /// A reception stands at the end of the log: its direction, the line of its first frame and the bytes that this
    /// announced.
    Unfinished {
        dir: Dir,
        line: u64,
        len: u32,
    },
}

//! What a line that explains a log tells.

use direction::Dir;
use isotp_receive::{Ended, Reason};
use trace_log::Summary;

/// What one line of `explain` tells, in words or as an object of JSON.
#[derive(Clone, Copy, Debug)]
pub enum Remark {
    /// The frame of this line ended a reception.
    Ended { line: u64, ended: Ended },
    /// The frame of this line, which this side sent, was dropped.
    Dropped { line: u64, dir: Dir, reason: Reason },
    /// A reception stands at the end of the log: its direction, the line of its first frame and the bytes that this
    /// announced.
    Unfinished { dir: Dir, line: u64, len: u32 },
    /// The counts of the log.
    Counts(Summary),
}

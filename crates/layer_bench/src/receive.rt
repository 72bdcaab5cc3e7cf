//! A message received again and again.

use crate::message::{message_of, sum_of};
use can_log::{Frame, Id, Kind};
use direction::Dir;
use isotp_receive::{Channel, Pair, Verdict};
use isotp_segment::Segments;
use std::alloc::{AllocError, Global};

/// The lengths and the last bytes of `count` messages of this size, as they are received, added up.
pub(crate) fn sum_of_messages(alloc: Global, size: u64, count: u64) -> Result<u64, AllocError> {
    let frames = frames_of(alloc, size)?;
    let mut pair = Pair::new(alloc);
    let mut sum = 0u64;
    for _ in 0..count {
        for (dir, frame) in &frames {
            if let Verdict::Message(message) = pair
                .accept(0, 0, Channel::of(*dir), frame)?
                .verdict
            {
                sum = sum.wrapping_add(sum_of(message));
            }
        }
    }
    Ok(sum)
}

/// The canonical frames of a message of this size.
fn frames_of(alloc: Global, size: u64) -> Result<Vec<(Dir, Frame)>, AllocError> {
    let message = message_of(alloc, size)?;
    let mut frames = Vec::new(alloc);
    for (dir, bytes) in Segments::new(Dir::Unit, &message) {
        if let Some(frame) = Frame::new(Id::Std(0x7E8), Kind::Classic, &bytes) {
            frames.push((dir, frame))?;
        }
    }
    Ok(frames)
}

//! A message cut into frames.

use crate::message::message_of;
use direction::Dir;
use isotp_segment::Segments;
use std::alloc::{AllocError, Global};

/// The frames of a message of this size, cut `count` times, as numbers of 8 bytes that are added up.
pub(crate) fn sum_of_frames(alloc: Global, size: u64, count: u64) -> Result<u64, AllocError> {
    let message = message_of(alloc, size)?;
    let mut sum = 0u64;
    for _ in 0..count {
        for (_, bytes) in Segments::new(Dir::Unit, &message) {
            sum = sum.wrapping_add(u64::from_le_bytes(bytes));
        }
    }
    Ok(sum)
}

//! A message to be cut or received, and what a message adds to a sum.

ghost use Rattle.std.specs.Prelude.{◌≤◌, IfOk, vec_len};

use std::alloc::{AllocError, Global};

/// A message of `size` bytes, or of 1 where a message can't have that length.
pub(crate) fn message_of(alloc: Global, size: u64) -> Result<Vec<u8>, AllocError>
    ensures some { IfOk result (λ message. 1 ≤ vec_len message) }
    ensures limit { IfOk result (λ message. vec_len message ≤ 1048575) }
{
    let size = if size < 1 || size > 1_048_575 {
        1
    } else {
        size as usize
    };
    vec![in alloc; 0x62u8; size]
}

/// The length and the last byte.
pub(crate) fn sum_of(message: &[u8]) -> u64 {
    let last = message.last().copied().unwrap_or(0);
    (message.len() as u64).wrapping_add(last as u64)
}

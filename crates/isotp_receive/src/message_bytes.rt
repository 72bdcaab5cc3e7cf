//! The bytes of a message that is received, as far as they have come.

ghost use Rattle.std.specs.Prelude.{◌≡◌, ◌≤◌, ◌+◌, ◌-◌, ◌*◌, [], ◌++◌, length, take, replicate, OnOk, is_ok, if◌then◌else◌, vec_len, vec_capacity};
ghost use Rattle.isotp_receive.specs.Capacities.{GrowsWithin};

use crate::MESSAGE_LIMIT;
use std::alloc::{AllocError, Global};
use std::marker::Model;
use std::mem::replace;

/// How many bytes a full consecutive frame of 8 bytes carries.
const FULL: usize = 7;

/// The bytes that have come, at the front of a buffer, whose other bytes are room for more.
#[derive(Drop)]
pub(crate) struct MessageBytes {
    buffer: Vec<u8>,
    len: usize,
}

impl Model for MessageBytes {
    ghost use Rattle.std.specs.Prelude.{◌≤◌, take, length, vec_capacity};
    ghost use Rattle.isotp_receive.specs.Capacities.{BytesValue};

    ghost Value = { BytesValue };

    ghost view = { λ bytes. record { bytes = take bytes.len bytes.buffer.items; capacity = vec_capacity bytes.buffer } };

    ghost invariant = { λ bytes. bytes.len ≤ length bytes.buffer.items };
}

impl MessageBytes {
    /// No bytes, and no memory yet.
    pub(crate) fn new(alloc: Global) -> MessageBytes
        ensures { result ≡ record { bytes = []; capacity = 0 } }
    {
        MessageBytes {
            buffer: Vec::new(alloc),
            len: 0,
        }
    }

    /// Lets the bytes go. The memory is kept.
    pub(crate) fn clear(&mut self)
        ensures { self.new ≡ record { bytes = []; capacity = self.old.capacity } }
    {
        self.len = 0;
    }

    /// How many bytes there are.
    #[inline(always)]
    pub(crate) fn len(&self) -> usize
        ensures { result ≡ length self.now.bytes }
    {
        self.len
    }

    /// The bytes.
    #[inline(always)]
    pub(crate) fn as_slice(&self) -> &[u8]
        ensures { result.now ≡ self.now.bytes }
    {
        &self.buffer.as_slice()[..self.len]
    }

    /// Stores more bytes of a message of `len` bytes, or leaves them as they were. It is called, so that what calls it stays
    /// short: only then its caller goes from a frame's layout straight to what is done with it. The bytes of a full frame that
    /// there is room for go a way of their own: it calls nothing, and so saves no registers.
    #[inline(never)]
    pub(crate) fn store(&mut self, len: usize, bytes: &[u8]) -> Result<(), AllocError>
        requires limit { len ≤ MESSAGE_LIMIT }
        requires fits { length self.old.bytes + length bytes.now ≤ len }
        ensures bytes { self.new.bytes ≡ (if is_ok result then self.old.bytes ++ bytes.now else self.old.bytes) }
        ensures capacity { GrowsWithin len (length self.old.bytes + length bytes.now) self.old.capacity self.new.capacity }
    {
        if bytes.len() == FULL && self.len + FULL <= self.buffer.len() {
            lay(self.buffer.as_mut_slice(), self.len, &bytes[..FULL]);
            self.len += FULL;
            return Ok(());
        }
        self.store_any(len, bytes)
    }

    /// The same for any number of bytes, and where room is still to be made.
    #[inline(never)]
    fn store_any(&mut self, len: usize, bytes: &[u8]) -> Result<(), AllocError>
        requires limit { len ≤ MESSAGE_LIMIT }
        requires fits { length self.old.bytes + length bytes.now ≤ len }
        ensures bytes { self.new.bytes ≡ (if is_ok result then self.old.bytes ++ bytes.now else self.old.bytes) }
        ensures capacity { GrowsWithin len (length self.old.bytes + length bytes.now) self.old.capacity self.new.capacity }
    {
        if self.len + bytes.len() > self.buffer.len() {
            make_room(&mut self.buffer, self.len, len, bytes.len())?;
        }
        lay(self.buffer.as_mut_slice(), self.len, bytes);
        self.len += bytes.len();
        Ok(())
    }
}

/// Writes bytes over those from `at` on.
#[inline(always)]
fn lay(buffer: &mut [u8], at: usize, bytes: &[u8])
    requires { at + length bytes.now ≤ length buffer.old }
    ensures laid { take (at + length bytes.now) buffer.new ≡ take at buffer.old ++ bytes.now }
    ensures long { length buffer.new ≡ length buffer.old }
{
    buffer[at..at + bytes.len()].copy_from_slice(bytes);
}

/// Makes room behind the first `have` bytes for more of a message of `len` bytes, where there is too little. A buffer without
/// it grows to twice what has come, and to no more than the message will have: what a first frame announces takes no memory
/// before it comes.
#[inline(never)]
fn make_room(buffer: &mut Vec<u8>, have: usize, len: usize, more: usize) -> Result<(), AllocError>
    requires limit { len ≤ MESSAGE_LIMIT }
    requires fits { have + more ≤ len }
    requires have { have ≤ vec_len buffer.old }
    requires little { vec_len buffer.old ≤ have + more }
    ensures bytes { take have buffer.new.items ≡ take have buffer.old.items }
    ensures have { have ≤ vec_len buffer.new }
    ensures room { OnOk result (have + more ≤ vec_len buffer.new) }
    ensures capacity { GrowsWithin len (have + more) (vec_capacity buffer.old) (vec_capacity buffer.new) }
{
    let room = len.min(2 * (have + more));
    buffer.reserve_exact(room - buffer.len())?;
    fill(buffer, room);
    Ok(())
}

/// Puts zeros behind the bytes until there are `room`, in memory that is there.
fn fill(buffer: &mut Vec<u8>, room: usize)
    requires more { vec_len buffer.old ≤ room }
    requires memory { room ≤ vec_capacity buffer.old }
    ensures items { buffer.new.items ≡ buffer.old.items ++ replicate (room - vec_len buffer.old) 0 }
    ensures capacity { vec_capacity buffer.new ≡ vec_capacity buffer.old }
{
    // Where only its address is known, a byte that is stored may be one of the buffer's own length: so they would go one by one.
    let mut filled = replace(buffer, Vec::new(*buffer.allocator()));
    for _ in filled.len()..room {
        filled.push_reserved(0);
    }
    *buffer = filled;
}

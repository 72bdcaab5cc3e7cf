//! Messages that are kept, in blocks of memory that are never moved. A message goes behind those of the block that is
//! being filled, where that has room; else it begins a new block, which is filled from then on unless the message is a
//! long one. The first block lies apart from the later ones, so both ways have a case of their own for it.

ghost use Rattle.std.specs.Prelude.{◌≡◌, ◌<◌, ◌≤◌, ◌+◌, ◌++◌, ◌∷◌, [], ℕ, IsTrue, IfOk, OnOk, OnErr, length};
ghost use Rattle.uds_exchange.specs.Blocks.{block_at, bytes_at, IsInside, Lays};
ghost use Rattle.uds_exchange.specs.declared.messages.TheConstants.{LAST_START};
ghost use Rattle.uds_exchange.specs.proving.Blocks.{block_bytes, IsSpan, MayGoOn};

use std::alloc::{AllocError, Global};
use std::marker::Model;

/// The first block has so many bytes, or those of a longer first message.
const FIRST_BLOCK: usize = 1_024;

/// Up to this number of a block its bytes double with its number: up to 65,536. So few messages take little memory, and
/// many few blocks.
const DOUBLINGS: u32 = 6;

/// A longer message has a block of its own length, so that at most a sixteenth of a large block is left empty.
const LONG: usize = 4_096;

/// The last place in a block at which a message may begin: a start is a `u16`.
const LAST_START: usize = 65_535;

/// Messages, each whole in a block, where it stays when more are kept: so what is kept takes its own length, and is
/// copied once.
#[derive(Drop)]
pub struct Messages {
    /// It lies beside the list of the later ones, so that a few messages take memory once.
    first: Vec<u8>,
    later: Vec<Vec<u8>>,
    /// The number of the block that is being filled. That of the first is 0.
    filling: u32,
}

/// Where the bytes of a message lie.
#[derive(Clone, Copy)]
pub struct Span {
    pub(crate) len: usize,
    pub(crate) block: u32,
    pub(crate) start: u16,
}

impl Model for Messages {
    ghost use Rattle.std.specs.Prelude.{List, ℕ, ◌∷◌};
    ghost use Rattle.uds_exchange.specs.proving.Blocks.{block_bytes};

    ghost Value = { List (List ℕ) };

    ghost view = { λ m. block_bytes (m.first ∷ m.later.items) };
}

impl Messages {
    /// No message. It takes no memory.
    pub fn new(alloc: Global) -> Messages
        ensures { result ≡ [] ∷ [] }
    {
        Messages {
            first: Vec::new(alloc),
            later: Vec::new(alloc),
            filling: 0,
        }
    }

    /// The message that lies there.
    #[inline(always)]
    pub fn message(&self, span: Span) -> &[u8]
        requires { IsInside self.now span }
        ensures { result.now ≡ bytes_at self.now span }
    {
        let start = span.start as usize;
        &self.block(span.block)[start..start + span.len]
    }

    /// Keeps one message more, and answers where it lies. After an `Err` nothing has changed.
    #[inline(always)]
    pub fn append(&mut self, message: &[u8]) -> Result<Span, AllocError>
        ensures laid { IfOk result (λ span. Lays self.old span message.now self.new) }
        ensures err { OnErr result (self.new ≡ self.old) }
    {
        let number = self.filling;
        if self.has_room(number, message.len()) {
            self.lay_behind(number, message)
        } else {
            self.lay_anew(message)
        }
    }

    /// Drops all messages, and keeps the memory of the first block.
    pub(crate) fn clear(&mut self)
        ensures { self.new ≡ [] ∷ [] }
    {
        self.first.clear();
        self.later.clear();
        self.filling = 0;
    }

    /// The bytes of a block.
    #[inline(always)]
    fn block(&self, number: u32) -> &[u8]
        requires { number < length self.now }
        ensures { result.now ≡ block_at self.now number }
    {
        if number == 0 {
            self.first.as_slice()
        } else {
            self.later[number as usize - 1].as_slice()
        }
    }

    /// Whether the block of this number has room for so many bytes more, so that it need not grow.
    #[inline(always)]
    fn has_room(&self, number: u32, len: usize) -> bool
        ensures { IsTrue result → MayGoOn self.now number }
    {
        if number == 0 {
            fits(&self.first, len)
        } else {
            match self.later.get(number as usize - 1) {
                Some(block) => fits(block, len),
                None => false,
            }
        }
    }

    /// Lays a message behind what is in the block of this number.
    #[inline(always)]
    fn lay_behind(&mut self, number: u32, message: &[u8]) -> Result<Span, AllocError>
        requires { MayGoOn self.old number }
        ensures laid { IfOk result (λ span. Lays self.old span message.now self.new) }
        ensures err { OnErr result (self.new ≡ self.old) }
    {
        if number == 0 {
            extend_block(&mut self.first, number, message)
        } else {
            let block = &mut self.later[number as usize - 1];
            extend_block(block, number, message)
        }
    }

    /// Lays a message into a new block, which is filled from then on, unless it has the length of a long message.
    #[inline(never)]
    fn lay_anew(&mut self, message: &[u8]) -> Result<Span, AllocError>
        ensures laid { IfOk result (λ span. Lays self.old span message.now self.new) }
        ensures err { OnErr result (self.new ≡ self.old) }
    {
        if self.first.is_empty() {
            return start_first(&mut self.first, message);
        }
        let span = start_later(&mut self.later, message)?;
        if span.len <= LONG {
            self.filling = span.block;
        }
        Ok(span)
    }
}

/// Whether so many bytes fit behind those of a block.
#[inline(always)]
fn fits(block: &Vec<u8>, len: usize) -> bool
    ensures { IsTrue result → length block.now.items ≤ LAST_START }
{
    block.len() <= LAST_START && len <= block.capacity() - block.len()
}

/// Lays a message behind what is in a block, which has this number.
#[inline(always)]
fn extend_block(block: &mut Vec<u8>, number: u32, message: &[u8]) -> Result<Span, AllocError>
    requires { length block.old.items ≤ LAST_START }
    ensures bytes { OnOk result (block.new.items ≡ block.old.items ++ message.now) }
    ensures span { IfOk result (λ span. IsSpan span number (length block.old.items) (length message.now)) }
    ensures err { OnErr result (block.new.items ≡ block.old.items) }
{
    let start = block.len() as u16;
    block.extend_from_slice(message)?;
    let len = message.len();
    Ok(Span {
        len,
        block: number,
        start,
    })
}

/// Lays a message into the first block, which is empty, in new memory.
fn start_first(first: &mut Vec<u8>, message: &[u8]) -> Result<Span, AllocError>
    requires { first.old.items ≡ [] }
    ensures bytes { OnOk result (first.new.items ≡ first.old.items ++ message.now) }
    ensures span { IfOk result (λ span. IsSpan span 0 (length first.old.items) (length message.now)) }
    ensures err { OnErr result (first.new.items ≡ first.old.items) }
{
    let len = message.len();
    *first = block_with(*first.allocator(), room_of(0, len), message)?;
    Ok(Span {
        len,
        block: 0,
        start: 0,
    })
}

/// Lays a message into one more of the later blocks.
fn start_later(later: &mut Vec<Vec<u8>>, message: &[u8]) -> Result<Span, AllocError>
    ensures bytes { OnOk result (block_bytes later.new.items ≡ block_bytes later.old.items ++ message.now ∷ []) }
    ensures span { IfOk result (λ span. IsSpan span (length later.old.items + 1) 0 (length message.now)) }
    ensures err { OnErr result (block_bytes later.new.items ≡ block_bytes later.old.items) }
{
    // No limit of a log allows so many blocks.
    let Ok(block) = u32::try_from(later.len() + 1) else {
        return Err(AllocError);
    };
    let len = message.len();
    let room = room_of(block, len);
    let bytes = block_with(*later.allocator(), room, message)?;
    later.push(bytes)?;
    Ok(Span {
        len,
        block,
        start: 0,
    })
}

/// How many bytes the block of this number has that begins with a message of so many.
fn room_of(number: u32, len: usize) -> usize {
    if len > LONG {
        len
    } else {
        len.max(FIRST_BLOCK << number.min(DOUBLINGS))
    }
}

/// A block of so many bytes, with a message in it. Inlined, so that no call is added for a message that has new memory
/// of its own.
#[inline(always)]
pub(crate) fn block_with(alloc: Global, room: usize, message: &[u8]) -> Result<Vec<u8>, AllocError>
    ensures { IfOk result (λ block. block.items ≡ message.now) }
{
    let mut block = Vec::with_capacity(alloc, room)?;
    block.extend_from_slice(message)?;
    Ok(block)
}

//! Calls that keep messages, with ample memory, at each size at which a buffer may have to grow: none of them gives up. The
//! sizes are the powers of two up to 2^20, with one byte less and one more. One byte less than 2^20 is the longest message that
//! a log can have. What a log can have, `tests/memory/ample_memory.py` takes through the built program, which is faster by far.

use direction::Dir::{self, Tester, Unit};
use std::alloc::{AllocError, Global};
use std::test::Fail;
use uds_exchange::{Item, Meaning, MessageSink, Orderer, Pairing};

/// The exponent of the largest power of two.
const LARGEST: u32 = 20;

/// As many pieces of 4,096 bytes have more bytes than that power.
const PIECES: usize = 257;

const REQUEST: u8 = 0x22;

const ANSWER: u8 = 0x62;

/// The first byte of a message of the unit that answers no request.
const STRAY: u8 = 0x59;

/// 0, 1 and 2, 1, 2 and 3, 3, 4 and 5, and so on.
fn sizes(alloc: Global) -> Result<Vec<usize>, AllocError> {
    let mut sizes = Vec::new(alloc);
    let mut power = 1usize;
    for _ in 0..=LARGEST {
        sizes.push(power.saturating_sub(1))?;
        sizes.push(power)?;
        sizes.push(power.saturating_add(1))?;
        power = power.saturating_mul(2);
    }
    Ok(sizes)
}

/// More bytes than the largest size, all alike.
fn whole_of(alloc: Global, byte: u8) -> Result<Vec<u8>, AllocError> {
    let piece = [byte; 4096];
    let mut whole = Vec::new(alloc);
    for _ in 0..PIECES {
        whole.extend_from_slice(&piece)?;
    }
    Ok(whole)
}

/// Its first bytes, as many as the size.
fn front_of(whole: &[u8], size: usize) -> &[u8] {
    whole.get(..size).unwrap_or(whole)
}

/// How many bytes the items of a meaning have in all.
fn bytes_in(meaning: &Meaning) -> usize {
    let mut bytes = 0usize;
    for i in 0..meaning.len() {
        bytes = bytes.saturating_add(match meaning.item(i) {
            Some(Item::Exchange { request, answer }) => {
                let answered = match answer {
                    Some(answer) => answer.len(),
                    None => 0,
                };
                request.len().saturating_add(answered)
            }
            Some(Item::Stray { bytes, .. }) => bytes.len(),
            None => 0,
        });
    }
    bytes
}

#[test]
fn messages_of_each_size_are_paired(rt: HostRuntime) -> Result<(), Fail> {
    let alloc = rt.alloc();
    let (request, answer, stray) = (
        whole_of(alloc, REQUEST)?,
        whole_of(alloc, ANSWER)?,
        whole_of(alloc, STRAY)?,
    );
    for size in sizes(alloc)? {
        let mut pairing = Pairing::new(alloc);
        pairing.take(Tester, front_of(&request, size))?;
        pairing.take(Unit, front_of(&answer, size))?;
        pairing.take(Unit, front_of(&stray, size))?;
        assert!(rt; bytes_in(&pairing.finish()) == size.saturating_mul(3));
    }
    Ok(())
}

/// Counts the bytes of the messages that are put.
#[derive(Drop)]
struct Bytes {
    put: usize,
}

impl MessageSink for Bytes {
    ghost use Rattle.std.specs.Prelude.{⊤};

    type Fault = &'static str;

    ghost after_ok = { λ old dir message new. ⊤ };

    ghost after_err = { λ old dir message fault new. ⊤ };

    fn put(&mut self, _dir: Dir, message: &[u8]) -> Result<(), &'static str> {
        self.put = self.put.saturating_add(message.len());
        Ok(())
    }
}

#[test]
fn strays_of_each_size_are_held_together(rt: HostRuntime) -> Result<(), Fail> {
    let alloc = rt.alloc();
    let stray = whole_of(alloc, STRAY)?;
    let mut bytes = Bytes { put: 0 };
    let mut orderer = Orderer::new(alloc);
    orderer.take(Tester, &[REQUEST], &mut bytes)?;
    let mut held = 0usize;
    for size in sizes(alloc)? {
        orderer.take(Unit, front_of(&stray, size), &mut bytes)?;
        held = held.saturating_add(size);
    }
    assert!(rt; orderer.held() == held as u64 && bytes.put == 1);
    orderer.take(Unit, &[ANSWER], &mut bytes)?;
    assert!(rt; bytes.put == held.saturating_add(2));
    Ok(())
}

//! Calls that take memory, with ample supply and much to keep: none of them gives up.

use crate::rows::frame_of;
use direction::Dir::{self, Tester, Unit};
use isotp_receive::{Channel, Pair, Verdict};
use std::test::Fail;
use uds_exchange::{MessageSink, Orderer, Pairing};

/// How many messages of a kind a session has.
const MANY: usize = 500;

/// A stray, of which hundreds make kilobytes.
const STRAY: [u8; 100] = [0x59; 100];

#[test]
fn hundreds_of_exchanges_are_paired(rt: HostRuntime) -> Result<(), Fail> {
    let mut pairing = Pairing::new(rt.alloc());
    for _ in 0..MANY {
        pairing.take(Tester, &[0x22, 0xF1, 0x90])?;
        pairing.take(Unit, &STRAY)?;
        pairing.take(Unit, &[0x62, 0xF1, 0x90, 0x41])?;
    }
    assert!(rt; pairing.finish().len() == 2 * MANY);
    Ok(())
}

#[test]
fn hundreds_of_strays_are_paired(rt: HostRuntime) -> Result<(), Fail> {
    let mut pairing = Pairing::new(rt.alloc());
    pairing.take(Tester, &[0x22, 0xF1, 0x90])?;
    for _ in 0..MANY {
        pairing.take(Unit, &STRAY)?;
    }
    assert!(rt; pairing.finish().len() == MANY + 1);
    Ok(())
}

/// Counts the messages that are put, and their bytes.
#[derive(Drop)]
struct Counted {
    messages: usize,
    bytes: usize,
}

impl MessageSink for Counted {
    ghost use Rattle.std.specs.Prelude.{⊤};

    type Fault = &'static str;

    ghost after_ok = { λ old dir message new. ⊤ };

    ghost after_err = { λ old dir message fault new. ⊤ };

    fn put(&mut self, _dir: Dir, message: &[u8]) -> Result<(), &'static str> {
        self.messages = self.messages.saturating_add(1);
        self.bytes = self.bytes.saturating_add(message.len());
        Ok(())
    }
}

#[test]
fn kilobytes_are_held_for_an_answer(rt: HostRuntime) -> Result<(), Fail> {
    let mut put = Counted {
        messages: 0,
        bytes: 0,
    };
    let mut orderer = Orderer::new(rt.alloc());
    orderer.take(Tester, &[0x22, 0xF1, 0x90], &mut put)?;
    for _ in 0..MANY {
        orderer.take(Unit, &STRAY, &mut put)?;
    }
    assert!(rt; orderer.held() == 50_000 && put.messages == 1);
    orderer.take(Unit, &[0x62, 0xF1, 0x90], &mut put)?;
    assert!(rt; orderer.held() == 0 && put.messages == MANY + 2 && put.bytes == 50_006);
    Ok(())
}

#[test]
fn thousands_of_frames_are_received(rt: HostRuntime) -> Result<(), Fail> {
    let alloc = rt.alloc();
    let mut pair = Pair::new(alloc);
    let (mut begun, mut finished) = (0usize, 0usize);
    let first = frame_of(alloc, "7E8#100862F190414243")?;
    let last = frame_of(alloc, "7E8#214445")?;
    for _ in 0..2 * MANY {
        if pair.accept(1, 0, Channel::Unit, &first)?.verdict == Verdict::Began {
            begun = begun.saturating_add(1);
        }
        if pair.accept(1, 0, Channel::Unit, &last)?.verdict
            == Verdict::Message(b"\x62\xF1\x90ABCDE")
        {
            finished = finished.saturating_add(1);
        }
    }
    assert!(rt; begun == 2 * MANY && finished == 2 * MANY);
    Ok(())
}

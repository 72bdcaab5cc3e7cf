//! Messages in order: held after a request that nothing answers, or put at once.

use crate::message::sum_of;
use direction::Dir;
use std::alloc::{AllocError, Global};
use uds_exchange::{MessageSink, Orderer};

/// Adds up what the messages are.
#[derive(Drop)]
struct Sum {
    sum: u64,
}

impl MessageSink for Sum {
    ghost use Rattle.std.specs.Prelude.{⊤};

    type Fault = ();

    ghost after_ok = { λ old dir message new. ⊤ };

    ghost after_err = { λ old dir message fault new. ⊥ };

    fn put(&mut self, _: Dir, message: &[u8]) -> Result<(), ()> {
        self.sum = self.sum.wrapping_add(sum_of(message));
        Ok(())
    }
}

/// The lengths and the last bytes of a request that nothing answers and of `count` messages after it, all held to the
/// end, added up as they are put.
pub(crate) fn sum_of_held(alloc: Global, count: u64) -> Result<u64, AllocError> {
    let mut put = Sum { sum: 0 };
    let mut orderer = Orderer::new(alloc);
    let mut refused = orderer
        .take(Dir::Tester, &[0x22, 0xF1, 0x90], &mut put)
        .is_err();
    for number in 0..count {
        let [low, high, ..] = number.to_le_bytes();
        refused |= orderer
            .take(Dir::Unit, &[0x6E, high, low], &mut put)
            .is_err();
    }
    refused |= orderer.finish(&mut put).is_err();
    if refused {
        Err(AllocError)
    } else {
        Ok(put.sum)
    }
}

/// The same of `count` messages that are put as they come: requests, each with its answer after it.
pub(crate) fn sum_of_put(alloc: Global, count: u64) -> Result<u64, AllocError> {
    let mut put = Sum { sum: 0 };
    let mut orderer = Orderer::new(alloc);
    let mut refused = false;
    for number in 0..count {
        let [low, high, ..] = number.to_le_bytes();
        let (dir, sid) = if number % 2 == 0 {
            (Dir::Tester, 0x22)
        } else {
            (Dir::Unit, 0x62)
        };
        refused |= orderer.take(dir, &[sid, high, low], &mut put).is_err();
    }
    if refused {
        Err(AllocError)
    } else {
        Ok(put.sum)
    }
}

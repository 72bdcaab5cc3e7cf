//! One request that nothing answers, and messages after it.

use crate::message::sum_of;
use direction::Dir;
use std::alloc::{AllocError, Global};
use uds_exchange::{Item, Pairing};

/// The lengths and the last bytes of `count` messages after the request, as in their meaning, added up.
pub(crate) fn sum_of_strays(alloc: Global, count: u64) -> Result<u64, AllocError> {
    let mut pairing = Pairing::new(alloc);
    pairing.take(Dir::Tester, &[0x22, 0xF1, 0x90])?;
    for number in 0..count {
        let [low, high, ..] = number.to_le_bytes();
        pairing.take(Dir::Unit, &[0x6E, high, low])?;
    }
    let meaning = pairing.finish();
    let mut sum = 0u64;
    for index in 0..meaning.len() {
        if let Some(Item::Stray { bytes, .. }) = meaning.item(index) {
            sum = sum.wrapping_add(sum_of(bytes));
        }
    }
    Ok(sum)
}

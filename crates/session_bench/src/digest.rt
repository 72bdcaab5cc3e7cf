//! A sum of all that the calls answered and wrote.

use std::io::{self, Write};
use trace_log::Summary;

/// A number that each byte and each number of the results goes into, in their order, however a text is cut.
#[derive(Debug, Drop)]
pub(crate) struct Digest {
    sum: u64,
    /// All that the sum has been, added up: so the order counts (Fletcher's checksum, of 64 bits).
    sums: u64,
    /// The last bytes, which are not yet eight.
    part: u64,
    /// How many they are.
    held: u32,
    /// How many calls were answered, and how many of them by a fault.
    answers: u64,
    faults: u64,
}

impl Digest {
    /// Of no result.
    pub(crate) fn new() -> Digest {
        Digest {
            sum: 0,
            sums: 0,
            part: 0,
            held: 0,
            answers: 0,
            faults: 0,
        }
    }

    /// Takes a number in.
    pub(crate) fn note(&mut self, number: u64) {
        self.sum = self.sum.wrapping_add(number);
        self.sums = self.sums.wrapping_add(self.sum);
    }

    /// Takes a text in.
    pub(crate) fn take(&mut self, text: &[u8]) {
        for piece in text.chunks(8) {
            match piece.split_first_chunk::<8>() {
                Some((eight, _)) => self.take_eight(u64::from_le_bytes(*eight)),
                None => self.take_bytes(piece),
            }
        }
    }

    /// Takes eight bytes in.
    fn take_eight(&mut self, eight: u64) {
        let shift = 8 * (self.held % 8);
        if shift == 0 {
            self.note(eight);
            return;
        }
        self.note(self.part | eight.wrapping_shl(shift));
        self.part = eight.wrapping_shr(64 - shift);
    }

    /// The same byte by byte.
    fn take_bytes(&mut self, text: &[u8]) {
        for byte in text {
            self.part |= u64::from(*byte).wrapping_shl(8 * (self.held % 8));
            self.held = (self.held % 8) + 1;
            if self.held == 8 {
                self.note(self.part);
                self.part = 0;
                self.held = 0;
            }
        }
    }

    /// Takes what another digest has come to in.
    pub(crate) fn add(&mut self, other: &Digest) {
        self.note(other.result().2);
    }

    /// Takes the counts of a log in, or that a call had no answer.
    pub(crate) fn count(&mut self, counts: Option<&Summary>) {
        self.answers = self.answers.wrapping_add(1);
        let Some(counts) = counts else {
            self.faults = self.faults.wrapping_add(1);
            return;
        };
        for count in [
            counts.lines,
            counts.frames,
            counts.messages,
            counts.dropped,
            counts.ended,
            counts.unfinished,
            counts.pending,
        ] {
            self.note(count);
        }
    }

    /// How many calls were answered, how many of them by a fault, and the sum of all results.
    pub(crate) fn result(&self) -> (u64, u64, u64) {
        let sum = self.sums.rotate_left(32).wrapping_add(self.sum);
        (
            self.answers,
            self.faults,
            sum.wrapping_mul(0x9FB2_1C65_1E98_DF25) ^ self.part,
        )
    }
}

impl Write for Digest {
    fn write(&mut self, piece: &[u8]) -> io::Result<usize> {
        self.take(piece);
        Ok(piece.len())
    }

    fn flush(&mut self) -> io::Result<()> {
        Ok(())
    }
}

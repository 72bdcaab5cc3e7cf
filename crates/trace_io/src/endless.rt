//! A source that never ends, for tests of what reads from it.
ghost use Rattle.std.specs.Prelude.{◌≡◌, None, [], replicate, false};

use crate::device::{DeviceFault, Source};
use std::marker::Model;

/// Gives one byte at each read, the same again and again, and never ends.
///
/// Where a reader of std is needed, a [`Short`](crate::Short) around [`repeat`](std::io::repeat) gives the same bytes.
#[derive(Drop)]
pub struct Endless {
    byte: u8,
    reads: u64,
    given: u64,
}

impl Model for Endless {
    ghost use Rattle.trace_io.specs.Counted.{EndlessBytes};

    ghost Value = { EndlessBytes };

    ghost view = { λ e. record { byte = e.byte; reads = e.reads; given = e.given } };
}

impl Endless {
    /// This byte without end. The counts begin at 0.
    pub fn new(byte: u8) -> Self
        ensures { result ≡ record { byte = byte; reads = 0; given = 0 } }
    {
        Endless {
            byte,
            reads: 0,
            given: 0,
        }
    }
}

impl Source for Endless {
    ghost given = { λ e. replicate e.given e.byte };

    ghost is_over = { λ _. false };

    ghost remaining = { λ _. None };

    ghost first = { λ _. [] };

    ghost reads = { λ e. e.reads };

    ghost failures = { λ _. 0 };

    fn read(&mut self, buf: &mut [u8]) -> Result<usize, DeviceFault> {
        self.reads += 1;
        if buf.is_empty() {
            return Ok(0);
        }
        buf[0] = self.byte;
        self.given += 1;
        Ok(1)
    }

    fn first(&self) -> &[u8] {
        &[]
    }

    fn has_ended(&self) -> bool {
        false
    }

    fn reads(&self) -> u64 {
        self.reads
    }

    fn given(&self) -> u64 {
        self.given
    }

    fn failures(&self) -> u64 {
        0
    }
}

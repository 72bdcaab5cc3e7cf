//! Bytes in memory as a source.
ghost use Rattle.std.specs.Prelude.{◌≡◌, Some, [], false};

use crate::device::{DeviceFault, Source};
use crate::history::History;
use std::marker::Model;

/// A source of bytes that lie in memory. Its reads never fail.
#[derive(Drop)]
pub struct Bytes<'a> {
    rest: &'a [u8],
    reads: u64,
    given: u64,
    is_over: bool,
    // Only contracts look at it.
    history: History,
}

impl<'a> Model for Bytes<'a> {
    ghost use Rattle.trace_io.specs.Counted.{BytesInMemory};

    ghost Value = { BytesInMemory };

    ghost view = { λ b. record { rest = b.rest.now; reads = b.reads; is_over = b.is_over; given = b.history.bytes } };

    ghost use Rattle.std.specs.Prelude.{◌≡◌, length};

    ghost invariant = { λ b. b.given ≡ length b.history.bytes };
}

impl<'a> Bytes<'a> {
    /// These bytes, of which none was read yet. The counts begin at 0.
    pub fn new(bytes: &'a [u8]) -> Self
        ensures { result ≡ record { rest = bytes.now; reads = 0; is_over = false; given = [] } }
    {
        Bytes {
            rest: bytes,
            reads: 0,
            given: 0,
            is_over: false,
            history: History::new(),
        }
    }
}

impl<'a> Source for Bytes<'a> {
    ghost given = { λ b. b.given };

    ghost is_over = { λ b. b.is_over };

    ghost remaining = { λ b. Some b.rest };

    ghost first = { λ _. [] };

    ghost reads = { λ b. b.reads };

    ghost failures = { λ _. 0 };

    fn read(&mut self, buf: &mut [u8]) -> Result<usize, DeviceFault> {
        let n = self.rest.len().min(buf.len());
        buf[..n].copy_from_slice(&self.rest[..n]);
        self.rest = &self.rest[n..];
        self.reads += 1;
        self.given += n as u64;
        self.is_over = n == 0 && !buf.is_empty();
        self.history.note(&buf[..n]);
        Ok(n)
    }

    fn first(&self) -> &[u8] {
        &[]
    }

    fn has_ended(&self) -> bool {
        self.is_over
    }

    fn reads(&self) -> u64 {
        self.reads
    }

    fn given(&self) -> u64 {
        self.given
    }

    fn failures(&self) -> u64 {
        0
    }
}

//! A reader of std as a source.
ghost use Rattle.std.specs.Prelude.{◌≡◌, [], false};

use crate::device::{DeviceFault, Source};
use crate::history::History;
use std::io::Read;
use std::marker::Model;

/// A reader of std that counts, with the history of what its reads gave.
///
/// Any error of the reader inside is a failure, [`ErrorKind::Interrupted`](std::io::ErrorKind) too: nothing is read again.
#[derive(Drop)]
pub struct Reading<R> {
    inner: R,
    reads: u64,
    given: u64,
    failures: u64,
    is_over: bool,
    // Only contracts look at it.
    history: History,
}

impl<R> Model for Reading<R> {
    ghost use Rattle.trace_io.specs.Counted.{CountedReader};

    ghost Value = { CountedReader R };

    ghost view = { λ r. record { inner = r.inner; reads = r.reads; failures = r.failures; is_over = r.is_over; given = r.history.bytes } };

    ghost use Rattle.std.specs.Prelude.{◌≡◌, length};

    ghost invariant = { λ r. r.given ≡ length r.history.bytes };
}

impl<R> Reading<R> {
    /// A reader that was not yet read through this device: the counts begin at 0.
    pub fn new(inner: R) -> Self
        ensures { result ≡ record { inner = inner; reads = 0; failures = 0; is_over = false; given = [] } }
    {
        Reading {
            inner,
            reads: 0,
            given: 0,
            failures: 0,
            is_over: false,
            history: History::new(),
        }
    }

    /// The reader inside, as the reads have left it.
    pub fn into_inner(self) -> R
        ensures { result ≡ self.inner }
    {
        let Reading { inner, .. } = self;
        inner
    }
}

impl<R: Read> Source for Reading<R> {
    ghost given = { λ r. r.given };

    ghost is_over = { λ r. r.is_over };

    ghost remaining = { λ r. R.remaining r.inner };

    ghost first = { λ _. [] };

    ghost reads = { λ r. r.reads };

    ghost failures = { λ r. r.failures };

    fn read(&mut self, buf: &mut [u8]) -> Result<usize, DeviceFault> {
        self.reads += 1;
        match self.inner.read(buf) {
            Ok(n) => {
                self.given += n as u64;
                self.is_over = n == 0 && !buf.is_empty();
                self.history.note(&buf[..n]);
                Ok(n)
            }
            Err(_) => {
                self.is_over = false;
                self.failures += 1;
                Err(DeviceFault)
            }
        }
    }

    fn first(&self) -> &[u8] {
        &[]
    }

    fn has_ended(&self) -> bool {
        self.is_over
    }

    fn reads(&self) -> u64 {
        self.reads
    }

    fn given(&self) -> u64 {
        self.given
    }

    fn failures(&self) -> u64 {
        self.failures
    }
}

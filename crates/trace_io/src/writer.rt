//! A writer of std as a target.
ghost use Rattle.std.specs.Prelude.{◌≡◌, false, []};

use crate::device::{DeviceFault, Target};
use crate::history::History;
use std::io::Write;
use std::marker::Model;

/// A writer of std that counts, with the history of what its writes took. It holds the bytes that the writer inside tells.
///
/// Any error of the writer inside is a failure, and so is a write that takes nothing of a piece with bytes.
#[derive(Drop)]
pub struct Writing<W> {
    inner: W,
    failures: u64,
    has_taken: bool,
    // Only contracts look at these four. For each flush that did not fail one byte is noted.
    had_empty_write: bool,
    is_flushed: bool,
    flushes: History,
    history: History,
}

impl<W> Model for Writing<W> {
    ghost use Rattle.std.specs.Prelude.{◌≡◌, length, nat_lt};
    ghost use Rattle.trace_io.specs.Counted.{CountedWriter};

    ghost Value = { CountedWriter W };

    ghost view = { λ w. record { inner = w.inner; failures = w.failures; had_empty_write = w.had_empty_write; is_flushed = w.is_flushed; flushes = length w.flushes.bytes; taken = w.history.bytes } };

    ghost invariant = { λ w. w.has_taken ≡ nat_lt 0 (length w.history.bytes) };
}

impl<W> Writing<W> {
    /// A writer that was not yet written to through this device: the count begins at 0.
    pub fn new(inner: W) -> Self
        ensures { result ≡ record { inner = inner; failures = 0; had_empty_write = false; is_flushed = false; flushes = 0; taken = [] } }
    {
        Writing {
            inner,
            failures: 0,
            has_taken: false,
            had_empty_write: false,
            is_flushed: false,
            flushes: History::new(),
            history: History::new(),
        }
    }

    /// The writer inside, as the writes have left it.
    pub fn into_inner(self) -> W
        ensures { result ≡ self.inner }
    {
        let Writing { inner, .. } = self;
        inner
    }
}

impl<W: Write> Target for Writing<W> {
    ghost taken = { λ w. w.taken };

    ghost contents = { λ w. W.contents w.inner };

    ghost failures = { λ w. w.failures };

    ghost had_empty_write = { λ w. w.had_empty_write };

    ghost is_flushed = { λ w. w.is_flushed };

    ghost flushes = { λ w. w.flushes };

    fn write(&mut self, piece: &[u8]) -> Result<usize, DeviceFault> {
        self.is_flushed = false;
        match self.inner.write(piece) {
            Ok(n) if n > 0 => {
                self.has_taken = true;
                self.history.note(&piece[..n]);
                Ok(n)
            }
            Ok(_) if piece.is_empty() => {
                self.had_empty_write = true;
                Ok(0)
            }
            _ => {
                self.failures += 1;
                Err(DeviceFault)
            }
        }
    }

    fn flush(&mut self) -> Result<(), DeviceFault> {
        match self.inner.flush() {
            Ok(()) => {
                self.is_flushed = true;
                self.flushes.note(b"\n");
                Ok(())
            }
            Err(_) => {
                self.failures += 1;
                Err(DeviceFault)
            }
        }
    }

    fn has_taken(&self) -> bool {
        self.has_taken
    }

    fn failures(&self) -> u64 {
        self.failures
    }
}

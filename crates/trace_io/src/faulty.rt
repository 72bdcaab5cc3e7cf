//! Readers and writers of std that are short, fail or fill up, for tests of what uses them.
//!
//! Each wraps another one, so that they can be joined: [`FailsAt`] around a [`Short`] of one byte fails after some bytes.
ghost use Rattle.std.specs.Prelude.{◌≡◌, ◌+◌, ◌<◌, ◌≤◌, Some, Ok, IfOk, OnErr, IsErrAnd, IsTrue, ◌↔◌};
ghost use Rattle.std.specs.Io.{ReadsAtMost, WritesAtMost};
ghost use Rattle.std.specs.Io.KnownBytes.{Keeps, ReadConsumes, WriteAppends};
ghost use Rattle.std.specs.IoError.{error_kind};
ghost use Rattle.trace_io.specs.Faulty.{calls_left};

use std::io::{Error, ErrorKind, Read, Result, Write};

/// Gives or takes at most `most` bytes a call.
#[derive(Drop)]
pub struct Short<D> {
    /// The device inside.
    pub inner: D,
    /// The most bytes of a call, one at least.
    pub most: usize,
    ghost some: { 0 < most },
}

impl<R: Read> Read for Short<R> {
    ghost remaining = { λ s. R.remaining s.inner };

    fn read(&mut self, buf: &mut [u8]) -> Result<usize>
        ensures bound { ReadsAtMost result buf.new }
        ensures bytes { ReadConsumes (R.remaining self.old.inner) (R.remaining self.new.inner) result buf.new }
        ensures short { IfOk result (λ n. n ≤ self.old.most) }
        ensures most { self.new.most ≡ self.old.most }
    {
        let room = buf.len().min(self.most);
        self.inner.read(&mut buf[..room])
    }
}

impl<W: Write> Write for Short<W> {
    ghost contents = { λ s. W.contents s.inner };

    fn write(&mut self, buf: &[u8]) -> Result<usize>
        ensures bound { WritesAtMost result buf.now }
        ensures bytes { WriteAppends (W.contents self.old.inner) (W.contents self.new.inner) result buf.now }
        ensures short { IfOk result (λ n. n ≤ self.old.most) }
        ensures most { self.new.most ≡ self.old.most }
    {
        let room = buf.len().min(self.most);
        self.inner.write(&buf[..room])
    }

    fn flush(&mut self) -> Result<()> {
        self.inner.flush()
    }
}

/// Fails once, at one call. That call gives and takes nothing; all others are handed on to the device inside.
#[derive(Drop)]
pub struct FailsAt<D> {
    /// The device inside.
    pub inner: D,
    /// How many calls (reads, writes and flushes) come before the one that fails. `None` once it has failed.
    pub after: Option<u64>,
    /// The kind of its error.
    pub kind: ErrorKind,
}

/// Counts a call, and tells whether it is the one that fails.
fn is_due(after: &mut Option<u64>) -> bool
    ensures due { IsTrue result ↔ (after.old ≡ Some 0) }
    ensures after { after.new ≡ calls_left after.old }
{
    let is_due = *after == Some(0);
    *after = after.and_then(|left| left.checked_sub(1));
    is_due
}

impl<R: Read> Read for FailsAt<R> {
    ghost remaining = { λ f. R.remaining f.inner };

    fn read(&mut self, buf: &mut [u8]) -> Result<usize>
        ensures bound { ReadsAtMost result buf.new }
        ensures bytes { ReadConsumes (R.remaining self.old.inner) (R.remaining self.new.inner) result buf.new }
        ensures fails { self.old.after ≡ Some 0 → IsErrAnd result (λ e. error_kind e ≡ self.old.kind) }
        ensures after { self.new.after ≡ calls_left self.old.after }
        ensures kind { self.new.kind ≡ self.old.kind }
    {
        if is_due(&mut self.after) {
            return Err(Error::from(self.kind));
        }
        self.inner.read(buf)
    }
}

impl<W: Write> Write for FailsAt<W> {
    ghost contents = { λ f. W.contents f.inner };

    fn write(&mut self, buf: &[u8]) -> Result<usize>
        ensures bound { WritesAtMost result buf.now }
        ensures bytes { WriteAppends (W.contents self.old.inner) (W.contents self.new.inner) result buf.now }
        ensures fails { self.old.after ≡ Some 0 → IsErrAnd result (λ e. error_kind e ≡ self.old.kind) }
        ensures after { self.new.after ≡ calls_left self.old.after }
        ensures kind { self.new.kind ≡ self.old.kind }
    {
        if is_due(&mut self.after) {
            return Err(Error::from(self.kind));
        }
        self.inner.write(buf)
    }

    fn flush(&mut self) -> Result<()>
        ensures bytes { Keeps (W.contents self.old.inner) (W.contents self.new.inner) }
        ensures fails { self.old.after ≡ Some 0 → IsErrAnd result (λ e. error_kind e ≡ self.old.kind) }
        ensures after { self.new.after ≡ calls_left self.old.after }
        ensures kind { self.new.kind ≡ self.old.kind }
    {
        if is_due(&mut self.after) {
            return Err(Error::from(self.kind));
        }
        self.inner.flush()
    }
}

/// Gives or takes `room` bytes, and fails from then on. A flush is handed on to the device inside.
#[derive(Drop)]
pub struct FailsAfter<D> {
    /// The device inside.
    pub inner: D,
    /// How many bytes it still gives or takes.
    pub room: usize,
    /// The kind of its errors.
    pub kind: ErrorKind,
}

impl<R: Read> Read for FailsAfter<R> {
    ghost remaining = { λ f. R.remaining f.inner };

    fn read(&mut self, buf: &mut [u8]) -> Result<usize>
        ensures bound { ReadsAtMost result buf.new }
        ensures bytes { ReadConsumes (R.remaining self.old.inner) (R.remaining self.new.inner) result buf.new }
        ensures fails { self.old.room ≡ 0 → IsErrAnd result (λ e. error_kind e ≡ self.old.kind) }
        ensures room { IfOk result (λ n. self.old.room ≡ self.new.room + n) }
        ensures kept { OnErr result (self.new.room ≡ self.old.room) }
        ensures kind { self.new.kind ≡ self.old.kind }
    {
        if self.room == 0 {
            return Err(Error::from(self.kind));
        }
        let room = buf.len().min(self.room);
        let n = self.inner.read(&mut buf[..room])?;
        self.room -= n;
        Ok(n)
    }
}

impl<W: Write> Write for FailsAfter<W> {
    ghost contents = { λ f. W.contents f.inner };

    fn write(&mut self, buf: &[u8]) -> Result<usize>
        ensures bound { WritesAtMost result buf.now }
        ensures bytes { WriteAppends (W.contents self.old.inner) (W.contents self.new.inner) result buf.now }
        ensures fails { self.old.room ≡ 0 → IsErrAnd result (λ e. error_kind e ≡ self.old.kind) }
        ensures room { IfOk result (λ n. self.old.room ≡ self.new.room + n) }
        ensures kept { OnErr result (self.new.room ≡ self.old.room) }
        ensures kind { self.new.kind ≡ self.old.kind }
    {
        if self.room == 0 {
            return Err(Error::from(self.kind));
        }
        let room = buf.len().min(self.room);
        let n = self.inner.write(&buf[..room])?;
        self.room -= n;
        Ok(n)
    }

    fn flush(&mut self) -> Result<()> {
        self.inner.flush()
    }
}

/// Takes `room` bytes, and then takes nothing, call after call, without an error.
#[derive(Drop)]
pub struct FullAfter<W> {
    /// The writer inside.
    pub inner: W,
    /// How many bytes it still takes.
    pub room: usize,
}

impl<W: Write> Write for FullAfter<W> {
    ghost contents = { λ f. W.contents f.inner };

    fn write(&mut self, buf: &[u8]) -> Result<usize>
        ensures bound { WritesAtMost result buf.now }
        ensures bytes { WriteAppends (W.contents self.old.inner) (W.contents self.new.inner) result buf.now }
        ensures full { self.old.room ≡ 0 → result ≡ Ok 0 }
        ensures room { IfOk result (λ n. self.old.room ≡ self.new.room + n) }
        ensures kept { OnErr result (self.new.room ≡ self.old.room) }
    {
        if self.room == 0 {
            return Ok(0);
        }
        let room = buf.len().min(self.room);
        let n = self.inner.write(&buf[..room])?;
        self.room -= n;
        Ok(n)
    }

    fn flush(&mut self) -> Result<()> {
        self.inner.flush()
    }
}

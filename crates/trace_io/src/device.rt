//! What an engine asks of the devices that it reads from and writes to.
ghost use Rattle.std.specs.Prelude.{◌≡◌, ℕ, ◌+◌, ◌^◌, ◌<◌, ◌≤◌, ◌==◌, Bool, true, false, ◌||◌, ◌&&◌, nat_lt, List, ◌++◌, length, take, Option, IfOk, OnOk, MatchResult};
ghost use Rattle.std.specs.Io.KnownBytes.{ReadConsumes, Keeps, WriteAppends};

/// A device failed at a call. The kind of the failure is not kept.
#[derive(Clone, Copy, Debug, PartialEq, Eq)]
pub struct DeviceFault;

/// Gives bytes, and counts the calls, the bytes and the failures.
///
/// A contract over any source names its history: the bytes that its reads have `given`, in order; whether it `is_over`; and its
/// counts. The counts of reads, of bytes and of failures are `u64`s, and whoever reads keeps each of them below 2^63.
pub trait Source {
    /// The bytes that the reads gave, in order.
    ghost given: { Self → List ℕ };

    /// Whether the last read had room and gave nothing: that is the end.
    ghost is_over: { Self → Bool };

    /// The bytes still to come, where the source tells them. It need not: a socket does not.
    ghost remaining: { Self → Option (List ℕ) };

    /// The first bytes that it gave, as many as it keeps. It need not keep any.
    ghost first: { Self → List ℕ };

    /// How often it was read.
    ghost reads: { Self → ℕ };

    /// How many reads failed.
    ghost failures: { Self → ℕ };

    /// Puts the next bytes at the front of the buffer, and answers how many. `Ok(0)` for a buffer with room is the end. A read
    /// that fails gives nothing, and may be made again.
    fn read(&mut self, buf: &mut [u8]) -> Result<usize, DeviceFault>
        requires reads { reads self.old < 2 ^ 63 }
        requires given { length (given self.old) + length buf.old ≤ 2 ^ 63 }
        requires failures { failures self.old < 2 ^ 63 }

        ensures bound { IfOk result (λ n. n ≤ length buf.new) }

        // what it counts
        ensures reads { reads self.new ≡ reads self.old + 1 }
        ensures failures { MatchResult result
            (λ _. failures self.new ≡ failures self.old) (λ _. failures self.new ≡ failures self.old + 1) }

        // which bytes it gave, and whether that was all
        ensures given { MatchResult result
            (λ n. given self.new ≡ given self.old ++ take n buf.new) (λ _. given self.new ≡ given self.old) }
        ensures over { MatchResult result
            (λ n. is_over self.new ≡ (n == 0 && nat_lt 0 (length buf.new))) (λ _. is_over self.new ≡ false) }

        // where it tells the bytes to come, they are these
        ensures told { ReadConsumes (remaining self.old) (remaining self.new) result buf.new };

    /// The first bytes that it gave, as many as it keeps.
    fn first(&self) -> &[u8]
        ensures { result.now ≡ first self.now };

    /// Whether the last read had room and gave nothing: that is the end.
    fn has_ended(&self) -> bool
        ensures { result ≡ is_over self.now };

    /// How often it was read.
    fn reads(&self) -> u64
        ensures { result ≡ reads self.now };

    /// How many bytes it gave.
    fn given(&self) -> u64
        ensures { result ≡ length (given self.now) };

    /// How many reads failed.
    fn failures(&self) -> u64
        ensures { result ≡ failures self.now };
}

/// Takes bytes, and counts the failures.
///
/// A contract over any target names its history: the bytes that its writes have `taken`, in order; its `failures`, a `u64` that
/// whoever writes keeps below 2^63; whether it `had_empty_write`; whether it `is_flushed`; and its `flushes`.
pub trait Target {
    /// The bytes that its writes took, in order.
    ghost taken: { Self → List ℕ };

    /// The bytes that it holds, where it tells them. It need not: a socket does not.
    ghost contents: { Self → Option (List ℕ) };

    /// How many calls failed.
    ghost failures: { Self → ℕ };

    /// Whether there was a write that took nothing and did not fail: one of an empty piece.
    ghost had_empty_write: { Self → Bool };

    /// Whether it was flushed, and took no write since.
    ghost is_flushed: { Self → Bool };

    /// How many flushes did not fail.
    ghost flushes: { Self → ℕ };

    /// Takes bytes from the front of the piece, and answers how many: one at least, where there is one. A write that fails took
    /// none, and may be made again.
    fn write(&mut self, piece: &[u8]) -> Result<usize, DeviceFault>
        requires { failures self.old < 2 ^ 63 }

        ensures bound { IfOk result (λ n. n ≤ length piece.now) }
        ensures progress { IfOk result (λ n. 0 < length piece.now → 0 < n) }
        ensures failures { MatchResult result
            (λ _. failures self.new ≡ failures self.old) (λ _. failures self.new ≡ failures self.old + 1) }
        ensures had_empty_write { MatchResult result
            (λ n. had_empty_write self.new ≡ (had_empty_write self.old || n == 0)) (λ _. had_empty_write self.new ≡ had_empty_write self.old) }
        ensures unflushed { OnOk result (is_flushed self.new ≡ false) }
        ensures flushes { flushes self.new ≡ flushes self.old }

        // which bytes it took
        ensures taken { MatchResult result
            (λ n. taken self.new ≡ taken self.old ++ take n piece.now) (λ _. taken self.new ≡ taken self.old) }

        // where it tells the bytes that it holds, these came behind them
        ensures told { WriteAppends (contents self.old) (contents self.new) result piece.now };

    /// Hands on what it holds back, as a buffer does. The bytes that it took stay the same.
    fn flush(&mut self) -> Result<(), DeviceFault>
        requires { failures self.old < 2 ^ 63 }
        ensures failures { MatchResult result
            (λ _. failures self.new ≡ failures self.old) (λ _. failures self.new ≡ failures self.old + 1) }
        ensures had_empty_write { had_empty_write self.new ≡ had_empty_write self.old }
        ensures flushed { OnOk result (is_flushed self.new ≡ true) }
        ensures flushes { MatchResult result
            (λ _. flushes self.new ≡ flushes self.old + 1) (λ _. flushes self.new ≡ flushes self.old) }
        ensures taken { taken self.new ≡ taken self.old }
        ensures told { Keeps (contents self.old) (contents self.new) };

    /// Whether its writes took any byte.
    fn has_taken(&self) -> bool
        ensures { result ≡ nat_lt 0 (length (taken self.now)) };

    /// How many calls failed.
    fn failures(&self) -> u64
        ensures { result ≡ failures self.now };
}

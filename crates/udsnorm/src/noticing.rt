//! A reader that keeps the first bytes that it gave, for the cause of a refusal.

ghost use Rattle.std.specs.Prelude.{◌≡◌, ◌+◌, ◌≤◌, [], ◌++◌, false, length, take};
ghost use Rattle.arrayvec.specs.ArrayVec.{array_vec_len};
ghost use Rattle.udsnorm.specs.declared.noticing.TheConstants.{KEPT};

use arrayvec::ArrayVec;
use std::io::Read;
use std::marker::Model;
use trace_io::{DeviceFault, Reading, Source};

/// How many bytes are kept.
pub(crate) const KEPT: usize = 16;

/// A [`Reading`] that keeps the first bytes that it gave.
#[derive(Drop)]
pub struct Noticing<R> {
    reading: Reading<R>,
    first: ArrayVec<u8, KEPT>,
}

impl<R> Model for Noticing<R> {
    ghost use Rattle.std.specs.Prelude.{◌≡◌, take};
    ghost use Rattle.trace_io.specs.Counted.{CountedReader};
    ghost use Rattle.udsnorm.specs.declared.noticing.TheConstants.{KEPT};

    ghost Value = { CountedReader R };

    ghost view = { λ n. n.reading };

    ghost invariant = { λ n. n.first.items ≡ take KEPT n.reading.given };
}

impl<R> Noticing<R> {
    /// A reader that was not yet read through this device: the counts begin at 0.
    pub fn new(inner: R) -> Self
        ensures { result ≡ record { inner = inner; reads = 0; failures = 0; is_over = false; given = [] } }
    {
        Noticing {
            reading: Reading::new(inner),
            first: ArrayVec::new(),
        }
    }

    /// The reader inside, as the reads have left it.
    pub fn into_inner(self) -> R
        ensures { result ≡ self.inner }
    {
        let Noticing { reading, .. } = self;
        reading.into_inner()
    }
}

impl<R: Read> Source for Noticing<R> {
    ghost given = { λ n. n.given };

    ghost is_over = { λ n. n.is_over };

    ghost remaining = { λ n. R.remaining n.inner };

    ghost use Rattle.std.specs.Prelude.{take};
    ghost use Rattle.udsnorm.specs.declared.noticing.TheConstants.{KEPT};

    ghost first = { λ n. take KEPT n.given };

    ghost reads = { λ n. n.reads };

    ghost failures = { λ n. n.failures };

    fn read(&mut self, buf: &mut [u8]) -> Result<usize, DeviceFault> {
        let n = self.reading.read(buf)?;
        keep(&mut self.first, &buf[..n]);
        Ok(n)
    }

    fn first(&self) -> &[u8] {
        self.first.as_slice()
    }

    fn has_ended(&self) -> bool {
        self.reading.has_ended()
    }

    fn reads(&self) -> u64 {
        self.reading.reads()
    }

    fn given(&self) -> u64 {
        self.reading.given()
    }

    fn failures(&self) -> u64 {
        self.reading.failures()
    }
}

/// Puts bytes behind the first ones, as long as there is room.
#[tactic(auto, using(crate::proofs::Fronts::front_taken))]
fn keep(first: &mut ArrayVec<u8, KEPT>, piece: &[u8])
    ensures { first.new.items ≡ take KEPT (first.old.items ++ piece.now) }
{
    let room = KEPT - first.len();
    append(first, &piece[..room.min(piece.len())]);
}

/// Puts bytes behind the first ones.
fn append(first: &mut ArrayVec<u8, KEPT>, bytes: &[u8])
    requires { array_vec_len first.old + length bytes.now ≤ KEPT }
    ensures { first.new.items ≡ first.old.items ++ bytes.now }
{
    first.try_extend_from_slice(bytes).unwrap()
}

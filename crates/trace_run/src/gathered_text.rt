//! The text that is gathered on a sheet, so that it is written in few pieces.

ghost use Rattle.std.specs.Prelude.{◌≡◌, ◌+◌, ◌<◌, ◌≤◌, [], ◌++◌, length, take, true, false};

use can_log::LONGEST_LINE;
use std::marker::Model;
use std::simd::{u8x4, u8x8, u8x16};

/// The most bytes that a sheet holds: 64 canonical lines of the longest kind.
pub(crate) const SHEET_LENGTH: usize = 64 * LONGEST_LINE;

/// Text that is gathered for one write. What stands behind it is left over from an earlier one: nothing is cleared.
#[derive(Drop)]
pub(crate) struct GatheredText {
    bytes: [u8; SHEET_LENGTH],
    len: usize,
}

impl Model for GatheredText {
    ghost use Rattle.std.specs.Prelude.{◌≡◌, ℕ, ◌≤◌, List, length, take};
    ghost use Rattle.trace_run.specs.declared.gathered_text.TheConstants.{SHEET_LENGTH};

    ghost Value = { List ℕ };

    ghost view = { λ gathered. take gathered.len gathered.bytes };

    ghost invariant = { λ gathered. (gathered.len ≤ SHEET_LENGTH) × (length gathered.bytes ≡ SHEET_LENGTH) };
}

impl GatheredText {
    /// No text.
    pub(crate) fn new() -> GatheredText
        ensures { result ≡ [] }
    {
        GatheredText {
            bytes: [0; SHEET_LENGTH],
            len: 0,
        }
    }

    /// Lets the text go.
    #[inline(always)]
    pub(crate) fn clear(&mut self)
        ensures { self.new ≡ [] }
    {
        self.len = 0;
    }

    /// Whether there is no text.
    #[inline(always)]
    pub(crate) fn is_empty(&self) -> bool
        ensures none { result ≡ true → self.now ≡ [] }
        ensures some { result ≡ false → 0 < length self.now }
    {
        self.len == 0
    }

    /// The text.
    #[inline(always)]
    pub(crate) fn as_slice(&self) -> &[u8]
        ensures value { result.now ≡ self.now }
    {
        &self.bytes[..self.len]
    }

    /// How many bytes more it has room for.
    #[inline(always)]
    pub(crate) fn room(&self) -> usize
        ensures { result + length self.now ≡ SHEET_LENGTH }
    {
        SHEET_LENGTH - self.len
    }

    /// Appends the bytes where there is room for them. Answers whether there was.
    #[inline(always)]
    pub(crate) fn try_append(&mut self, bytes: &[u8]) -> bool
        ensures took { result ≡ true → self.new ≡ self.old ++ bytes.now }
        ensures full { result ≡ false → (self.new ≡ self.old) × (0 < length bytes.now) }
    {
        if self.len + bytes.len() > SHEET_LENGTH {
            return false;
        }
        self.append(bytes);
        true
    }

    /// Appends three texts, one after another, where there is room for them all. Answers whether there was. Where their
    /// lengths are known when it is compiled, each is copied without a call.
    #[inline(always)]
    pub(crate) fn try_append_three(&mut self, first: &[u8], second: &[u8], third: &[u8]) -> bool
        ensures took { result ≡ true → self.new ≡ self.old ++ (first.now ++ second.now ++ third.now) }
        ensures full { result ≡ false → self.new ≡ self.old }
    {
        let room = self.room();
        let first_two = first.len() + second.len();
        if first_two > room || third.len() > room - first_two {
            return false;
        }
        let first_at = self.len;
        let third_at = first_at + first_two;
        lay(&mut self.bytes, first_at, first);
        lay(&mut self.bytes, first_at + first.len(), second);
        lay(&mut self.bytes, third_at, third);
        self.len = third_at + third.len();
        true
    }

    /// Appends bytes that there is room for.
    #[inline(always)]
    pub(crate) fn append(&mut self, bytes: &[u8])
        requires { length self.old + length bytes.now ≤ SHEET_LENGTH }
        ensures { self.new ≡ self.old ++ bytes.now }
    {
        let end = self.len + bytes.len();
        copy(bytes, &mut self.bytes[self.len..end]);
        self.len = end;
    }
}

/// Copies bytes over as many others. From 4 to 16 they are copied by two stores, which may overlap: that needs no call.
#[inline(always)]
fn copy(from: &[u8], to: &mut [u8])
    requires { length from.now ≡ length to.old }
    ensures { to.new ≡ from.now }
{
    let count = from.len();
    if 8 <= count && count <= 16 {
        let front = u8x8::from_slice(from);
        let back = u8x8::from_slice(&from[count - 8..]);
        front.copy_to_slice(to);
        back.copy_to_slice(&mut to[count - 8..]);
    } else if 4 <= count && count < 8 {
        let front = u8x4::from_slice(from);
        let back = u8x4::from_slice(&from[count - 4..]);
        front.copy_to_slice(to);
        back.copy_to_slice(&mut to[count - 4..]);
    } else {
        to.copy_from_slice(from);
    }
}

/// Lays a text over the bytes from `at` on. This is for a text whose length is mostly known when it is compiled, so
/// that no test of it is left; for one whose length varies there is `copy`. Sixteen bytes are laid by one store,
/// whatever memory they are in.
#[inline(always)]
fn lay(bytes: &mut [u8], at: usize, text: &[u8])
    requires { at + length text.now ≤ length bytes.old }
    ensures laid { take (at + length text.now) bytes.new ≡ take at bytes.old ++ text.now }
    ensures length { length bytes.new ≡ length bytes.old }
{
    if text.len() == 16 {
        u8x16::from_slice(text).copy_to_slice(&mut bytes[at..]);
    } else {
        bytes[at..at + text.len()].copy_from_slice(text);
    }
}

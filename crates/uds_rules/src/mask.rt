//! What a mask does with the bytes behind a prefix.

ghost use Rattle.std.specs.Prelude.{◌≡◌, ◌≤◌, ◌++◌, take, drop, vec_len, if◌then◌else◌};
ghost use Rattle.uds_rules.specs.Mask.{masked_bytes};

use std::alloc::AllocError;
use std::marker::Model;

/// The most places of a mask: each is a bit of a number.
pub const MOST_PLACES: u8 = 64;

/// Of the bytes behind a prefix, which are masked, and whether those behind the last place are cut off.
#[derive(Clone, Copy, Debug, PartialEq, Eq)]
pub struct Mask {
    /// A bit for each place, the lowest for the first, which is 1 where the byte is masked.
    masked: u64,
    count: u8,
    cuts: bool,
}

impl Model for Mask {
    ghost use Rattle.std.specs.Prelude.{length};
    ghost use Rattle.uds_rules.specs.Mask.{MaskValue};
    ghost use Rattle.std.proofs.Common.{refl};
    ghost use Rattle.uds_rules.specs.proving.Bits.{ArePlaces, number_of, places_of, places_length};

    ghost Value = { MaskValue };

    ghost view = { λ m. record { places = places_of m.count m.masked; cuts = m.cuts } };

    ghost invariant = { λ m. ArePlaces m.count m.masked };

    ghost inverse = { λ v. record { masked = number_of v.places; count = length v.places; cuts = v.cuts } };

    ghost inverse_ok = { λ m held. Prim.rw held.number (Prim.rw (places_length m.count m.masked) refl) };
}

impl Mask {
    ghost use Rattle.std.specs.Prelude.{◌≡◌, ◌≤◌, ◌++◌, [], length, take, drop, Some, IfSome, IfNone, OnOk};
    ghost use Rattle.uds_rules.specs.Mask.{masked};
    ghost use Rattle.uds_rules.specs.proving.Bits.{left_count};
    ghost use Rattle.uds_rules.specs.Legal.{masks_something, keeps_first};
    ghost use Rattle.uds_rules.specs.Pattern.{behind, few_places};

    /// A mask of no places.
    pub(crate) fn new(cuts: bool) -> Mask
        ensures { result ≡ record { places = []; cuts = cuts } }
    {
        Mask {
            masked: 0,
            count: 0,
            cuts,
        }
    }

    /// This mask with one more place in front, or `None` where it has 64.
    pub(crate) fn behind(self, is_masked: bool) -> Option<Mask>
        ensures { result ≡ few_places (Some (behind is_masked self)) }
    {
        if self.count >= MOST_PLACES {
            return None;
        }
        Some(Mask {
            masked: self.masked * 2 + bit(is_masked),
            count: self.count + 1,
            cuts: self.cuts,
        })
    }

    /// The first place, whether it is masked, and this mask without it; `None` where there is none.
    pub fn split_first(self) -> Option<(bool, Mask)>
        ensures first { IfSome result (λ parts. self ≡ behind parts.0 parts.1) }
        ensures none { IfNone result (self.places ≡ []) }
    {
        if self.count == 0 {
            return None;
        }
        let rest = Mask {
            masked: self.masked / 2,
            count: self.count - 1,
            cuts: self.cuts,
        };
        Some((self.masked % 2 == 1, rest))
    }

    /// The number of places.
    pub fn len(&self) -> usize
        ensures value { result ≡ length self.now.places }
        ensures most { result ≤ 64 }
    {
        self.count as usize
    }

    /// Whether what follows the last place is cut off.
    pub fn cuts(&self) -> bool
        ensures { result ≡ self.now.cuts }
    {
        self.cuts
    }

    /// Whether a place is masked, or what follows them is cut off.
    pub(crate) fn masks_something(&self) -> bool
        ensures { result ≡ masks_something self.now }
    {
        self.masked != 0 || self.cuts
    }

    /// Whether the first byte behind the prefix is kept.
    pub(crate) fn keeps_first(&self) -> bool
        ensures { result ≡ keeps_first self.now.places self.now.cuts }
    {
        if self.count == 0 {
            !self.cuts
        } else {
            self.masked % 2 == 0
        }
    }

    /// How many of so many bytes behind a prefix are left.
    fn left_count(&self, count: usize) -> usize
        ensures { result ≡ left_count self.now count }
    {
        if self.cuts {
            count.min(self.len())
        } else {
            count
        }
    }

    /// Lays a copy of the message into `room`, in which the bytes from `start` on are masked.
    pub(crate) fn lay(
        &self,
        start: usize,
        message: &[u8],
        room: &mut Vec<u8>,
    ) -> Result<(), AllocError>
        requires { start ≤ length message.now }
        ensures { OnOk result (room.new.items ≡ take start message.now ++ masked self.now (drop start message.now)) }
    {
        let count = self.left_count(message.len() - start);
        room.clear();
        room.extend_from_slice(&message[..start + count])?;
        mask_bytes(*self, start, room);
        Ok(())
    }
}

/// The bit of a place.
fn bit(is_masked: bool) -> u64
    ensures { result ≡ (if is_masked then 1 else 0) }
{
    if is_masked { 1 } else { 0 }
}

/// Masks the bytes from `start` on at the places of a mask, and cuts off nothing.
fn mask_bytes(mask: Mask, start: usize, bytes: &mut Vec<u8>)
    requires { start ≤ vec_len bytes.old }
    ensures { bytes.new.items ≡ take start bytes.old.items ++ masked_bytes mask.places (drop start bytes.old.items) }
{
    let mut left = mask;
    'bytes: for at in start..bytes.len() {
        let Some((is_masked, rest)) = left.split_first() else {
            return;
        };
        bytes[at] = shown(is_masked, bytes[at]);
        left = rest;
    }
}

/// A byte, or 0 where it is masked.
#[inline(always)]
fn shown(is_masked: bool, byte: u8) -> u8
    ensures { result ≡ (if is_masked then 0 else byte) }
{
    if is_masked { 0 } else { byte }
}

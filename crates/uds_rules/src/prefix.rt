//! The bytes that the messages of a rule begin with.

use std::marker::Model;

/// The most bytes of a prefix.
pub const MOST_PREFIX: usize = 16;

/// One to 16 bytes.
#[derive(Clone, Copy, Debug, PartialEq, Eq)]
pub struct Prefix {
    bytes: [u8; 16],
    count: u8,
}

impl Model for Prefix {
    ghost use Rattle.std.specs.Prelude.{ℕ, List, length, take};
    ghost use Rattle.std.proofs.Common.{refl};
    ghost use Rattle.uds_rules.specs.proving.Padded.{IsPrefixHeld, padded, held_length};

    ghost Value = { List ℕ };

    ghost view = { λ p. take p.count p.bytes };

    ghost invariant = { λ p. IsPrefixHeld p.count p.bytes };

    ghost inverse = { λ v. record { bytes = padded v; count = length v } };

    ghost inverse_ok = { λ p held. Prim.rw held.filled (Prim.rw (held_length p.count p.bytes held) refl) };
}

impl Prefix {
    ghost use Rattle.std.specs.Prelude.{◌≡◌, ◌≤◌, [], ◌∷◌, length};
    ghost use Rattle.uds_message.specs.Message.{sid};
    ghost use Rattle.uds_rules.specs.Pattern.{prefix_in};

    /// The bytes that two digits each spell, if they are 1 to 16.
    pub(crate) fn spelled(digits: &[u8]) -> Option<Prefix>
        ensures { result ≡ prefix_in digits.now }
    {
        let count = digits.len() / 2;
        if count == 0 {
            return None;
        }
        if count > MOST_PREFIX {
            return None;
        }
        let mut bytes = [0; 16];
        match hex::decode_to_slice(digits, &mut bytes[..count]) {
            Ok(()) => Some(Prefix {
                bytes,
                count: count as u8,
            }),
            Err(_) => None,
        }
    }

    /// The prefix of the one byte 0.
    pub(crate) fn zero() -> Prefix
        ensures { result ≡ 0 ∷ [] }
    {
        Prefix {
            bytes: [0; 16],
            count: 1,
        }
    }

    /// The first byte.
    #[inline(always)]
    pub(crate) fn first(&self) -> u8
        ensures value { result ≡ sid self.now }
        ensures least { 1 ≤ length self.now }
    {
        self.bytes[0]
    }

    /// The bytes.
    pub fn bytes(&self) -> &[u8]
        ensures value { result.now ≡ self.now }
        ensures least { 1 ≤ length self.now }
        ensures most { length self.now ≤ 16 }
    {
        &self.bytes[..self.count as usize]
    }
}

//! The head of a message that is under way: what its first frame said, and how far it has come.

use crate::event::{Cause, Ended, Reason};
use direction::Dir;

/// What the first frame said, and how far the message has come.
#[derive(Clone, Copy)]
pub(crate) struct Head {
    pub(crate) line: u64,
    pub(crate) len: u32,
    pub(crate) rx_dl: u8,
    /// How many consecutive frames have come.
    pub(crate) taken: u32,
    /// The time that N_Cr runs from, in microseconds.
    pub(crate) reference: u64,
}

impl Head {
    ghost use Rattle.std.specs.Prelude.{◌≡◌, ◌<◌, ◌+◌, ◌%◌, ◌^◌, Some};

    /// The sequence number of the next consecutive frame.
    pub(crate) fn expected(self) -> u8
        requires { self.taken < 2 ^ 31 }
        ensures { result ≡ (self.taken + 1) % 16 }
    {
        ((self.taken + 1) % 16) as u8
    }

    /// Why a consecutive frame with another sequence number is dropped.
    pub(crate) fn wrong_number(self, found: u8) -> Reason
        requires { self.taken < 2 ^ 31 }
        ensures { result ≡ Reason.NextSequence ((self.taken + 1) % 16) found }
    {
        Reason::NextSequence {
            expected: self.expected(),
            found,
        }
    }

    /// The reception that ended so.
    pub(crate) fn ended(self, cause: Cause, dir: Dir) -> Ended
        ensures { result ≡ record { dir = dir; begun_line = self.line; len = self.len; cause = cause } }
    {
        Ended {
            dir,
            begun_line: self.line,
            len: self.len,
            cause,
        }
    }
}

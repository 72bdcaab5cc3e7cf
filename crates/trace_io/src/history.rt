//! Bytes that only proofs read.
ghost use Rattle.std.specs.Prelude.{◌≡◌, ℕ, List, [], ◌++◌};
ghost use Rattle.std.specs.Borrow.{ftrue};

use std::marker::{Model, PhantomData};

/// The bytes that were noted, in order. It takes no memory, and noting does nothing at run time.
#[derive(Drop)]
pub struct History {
    of: PhantomData<u8>,
    pub ghost bytes: { List ℕ },
}

impl Model for History {
    ghost also_owns = { λ _. ftrue };
}

impl History {
    /// Nothing was noted.
    pub(crate) fn new() -> History
        ensures { result.bytes ≡ [] }
    {
        History { of: PhantomData }
    }

    /// Notes these bytes.
    pub(crate) fn note(&mut self, _piece: &[u8])
        ensures { self.new.bytes ≡ self.old.bytes ++ _piece.now }
    {}
}

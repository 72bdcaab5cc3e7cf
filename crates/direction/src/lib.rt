//! The two sides of a diagnostic session.
//!
//! A frame and a message have a direction: the tester sent it, or the control unit did. Nothing else is here, so that the
//! crates that receive frames and those that pair messages speak of the same two sides, and need nothing else of each other.
//!
//! ```text
//! Dir::Tester.other()   Unit
//! ```
#![tactic(auto)]

ghost use Rattle.std.specs.Prelude.{◌≡◌};
ghost use Rattle.direction.specs.Dir.{other_direction};

/// Which of the two sides of a diagnostic session sent a frame or a message.
#[derive(Clone, Copy, Debug, PartialEq, Eq)]
pub enum Dir {
    /// From the tester to the control unit.
    Tester,
    /// From the control unit to the tester.
    Unit,
}

impl Dir {
    /// The other direction.
    pub fn other(self) -> Dir
        ensures { result ≡ other_direction self }
    {
        match self {
            Dir::Tester => Dir::Unit,
            Dir::Unit => Dir::Tester,
        }
    }
}

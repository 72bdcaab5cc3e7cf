//! Two sessions that are kept.

ghost use Rattle.std.specs.Prelude.{◌≡◌};

use crate::session::KeptSession;
use std::marker::Model;

/// What two logs say, kept. Contracts see both sessions.
#[derive(Debug, Drop)]
pub struct KeptSessions<'a> {
    left: KeptSession<'a>,
    right: KeptSession<'a>,
}

impl<'a> Model for KeptSessions<'a> {
    ghost use Rattle.trace_report.specs.Kept.{KeptSessionsValue};

    ghost Value = { KeptSessionsValue };

    ghost view = { λ both. record { left = both.left; right = both.right } };
}

impl<'a> KeptSessions<'a> {
    /// Both sessions.
    pub(crate) fn of(left: KeptSession<'a>, right: KeptSession<'a>) -> KeptSessions<'a>
        ensures left { result.left ≡ left.entry }
        ensures right { result.right ≡ right.entry }
    {
        KeptSessions { left, right }
    }

    /// The first session.
    pub fn left(&self) -> &KeptSession<'a>
        ensures { result.now ≡ self.now.left }
    {
        &self.left
    }

    /// The second session.
    pub fn right(&self) -> &KeptSession<'a>
        ensures { result.now ≡ self.now.right }
    {
        &self.right
    }
}

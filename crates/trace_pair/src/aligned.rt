//! Two sessions that are kept, side by side.

ghost use Rattle.std.specs.Prelude.{◌≡◌, ◌≢◌, ◌+◌, ◌⊎◌, [], IfErr, IfOk, length};
ghost use Rattle.uds_difference.specs.Bound.{bound_for};
ghost use Rattle.uds_difference.specs.Rows.{is_shortest, rows_of};
ghost use Rattle.trace_pair.specs.Compared.{comparison_in};
ghost use Rattle.trace_pair.specs.Sessions.{values_in};

use crate::comparing::comparison_of;
use crate::sessions::{ItemsOf, Sessions};
use crate::verdict::FoundDifference;
use std::alloc::{AllocError, Global};
use std::marker::Model;
use trace_canon::Comparison;
use trace_report::KeptSessions;
use uds_difference::{Difference, bound_for};

/// What two logs say, kept, and what stands beside what in them. Contracts see both sessions.
#[derive(Debug, Drop)]
pub struct Aligned<'a> {
    two: KeptSessions<'a>,
    difference: Difference,
}

impl<'a> Model for Aligned<'a> {
    ghost use Rattle.std.specs.Prelude.{◌≡◌};
    ghost use Rattle.trace_report.specs.Kept.{KeptSessionsValue};
    ghost use Rattle.uds_difference.specs.Rows.{is_shortest, rows_of};
    ghost use Rattle.trace_pair.specs.Sessions.{values_in};

    ghost Value = { KeptSessionsValue };

    ghost view = { λ aligned. aligned.two };

    ghost invariant = { λ aligned. (aligned.difference.rows.items ≡ rows_of (values_in aligned.two.left) (values_in aligned.two.right))
        × (aligned.difference.shortest ≡ is_shortest (values_in aligned.two.left) (values_in aligned.two.right)) };
}

impl<'a> Aligned<'a> {
    /// Both sessions, which are set side by side now. Where neither has an item, no memory is asked for.
    pub fn of(alloc: Global, two: KeptSessions<'a>) -> Result<Aligned<'a>, AllocError>
        ensures kept { IfOk result (λ aligned. aligned ≡ two.entry) }
        ensures refused { IfErr result (λ refused. (values_in two.entry.left ≢ []) ⊎ (values_in two.entry.right ≢ [])) }
    {
        let difference = Difference::between(alloc, &ItemsOf(two.left()), &ItemsOf(two.right()))?;
        Ok(Aligned { two, difference })
    }

    /// Both sessions.
    pub fn two(&self) -> &KeptSessions<'a>
        ensures { result.now ≡ self.now }
    {
        &self.two
    }

    /// What both sessions are to each other.
    pub fn comparison(&self) -> Comparison
        ensures { result ≡ comparison_in self.now }
    {
        comparison_of(self.found().rows)
    }

    /// Both sessions, by their rows.
    pub(crate) fn sessions(&self) -> Sessions<'_>
        ensures left { result.left.now ≡ self.now.left }
        ensures right { result.right.now ≡ self.now.right }
    {
        Sessions {
            left: self.two.left(),
            right: self.two.right(),
        }
    }

    /// What is found of them.
    pub(crate) fn found(&self) -> FoundDifference<'_>
        ensures rows { result.rows.now ≡ rows_of (values_in self.now.left) (values_in self.now.right) }
        ensures shortest { result.shortest ≡ is_shortest (values_in self.now.left) (values_in self.now.right) }
        ensures bound { result.bound ≡ bound_for (length (values_in self.now.left) + length (values_in self.now.right)) }
    {
        let items = self.two.left().rows().item_count() + self.two.right().rows().item_count();
        FoundDifference {
            rows: &self.difference.rows,
            shortest: self.difference.shortest,
            bound: bound_for(items) as usize,
        }
    }
}

//! Two identifiers, one of which answered the other, and the line that tells how often.

ghost use Rattle.std.specs.Cmp.{partial_order_from_own_ties};
ghost use Rattle.std.specs.Cmp.Lexicographic.{slice_cmp};
ghost use Rattle.std.specs.Cmp.Rules.{comparing};
ghost use Rattle.std.specs.Option.{option_cmp};
ghost use Rattle.std.specs.Ordering.{as_partial_cmp, flip_args, nat_cmp, on, then_cmp};
ghost use Rattle.std.proofs.Common.{rules};
ghost use Rattle.uds_find.specs.proving.Ties.{line_tie};

use arrayvec::ArrayVec;
use can_log::Id;
use std::cmp::Ordering;

/// An identifier that asks, and one that answers it.
#[derive(Clone, Copy, Debug, PartialEq, Eq, PartialOrd, Ord)]
pub struct IdPair {
    pub tester: Id,
    pub unit: Id,
}

/// An identifier that answers, and a service that it answers.
#[derive(Clone, Copy, Debug, PartialEq, Eq, PartialOrd, Ord)]
pub(crate) struct UnitService {
    pub unit: Id,
    pub service: u8,
}

/// A unit and its tester by the texts of their identifiers, with how many of the unit's answers are credited to it, and
/// how many requests the tester sent. A functional identifier stands beside them, where the log has one that is neither.
/// Lines are ordered by the most credits, and then by the first two texts, as a reader of the list orders them.
#[derive(Debug, Drop, PartialEq, Eq)]
pub struct CreditLine {
    pub credits: u64,
    pub requests: u64,
    pub tester: ArrayVec<u8, 8>,
    pub unit: ArrayVec<u8, 8>,
    pub functional: Option<ArrayVec<u8, 8>>,
}

// `cmp` is `line_order` of the definitions, in the form that `comparing` searches.
impl Ord for CreditLine {
    ghost cmp = { then_cmp (flip_args (on (λ line. line.credits) nat_cmp))
        (then_cmp (on (λ line. line.tester.items) (slice_cmp nat_cmp))
        (then_cmp (on (λ line. line.unit.items) (slice_cmp nat_cmp))
        (then_cmp (flip_args (on (λ line. line.requests) nat_cmp))
        (on (λ line. line.functional) (option_cmp (on (λ text. text.items) (slice_cmp nat_cmp))))))) };

    ghost total = { Prim.search (comparing, rules) depth 9 };

    ghost matches_partial_cmp = { Prim.search (comparing, rules) depth 9 };

    ghost matches_eq = { λ x y. line_tie x.credits y.credits x.requests y.requests x.tester.items y.tester.items x.unit.items y.unit.items
        x.functional y.functional };

    fn cmp(&self, other: &CreditLine) -> Ordering {
        other
            .credits
            .cmp(&self.credits)
            .then_with(|| self.tester.cmp(&other.tester))
            .then_with(|| self.unit.cmp(&other.unit))
            .then_with(|| other.requests.cmp(&self.requests))
            .then_with(|| self.functional.cmp(&other.functional))
    }
}

// `partial_cmp` is the same order.
impl PartialOrd for CreditLine {
    ghost partial_cmp = { as_partial_cmp (then_cmp (flip_args (on (λ line. line.credits) nat_cmp))
        (then_cmp (on (λ line. line.tester.items) (slice_cmp nat_cmp))
        (then_cmp (on (λ line. line.unit.items) (slice_cmp nat_cmp))
        (then_cmp (flip_args (on (λ line. line.requests) nat_cmp))
        (on (λ line. line.functional) (option_cmp (on (λ text. text.items) (slice_cmp nat_cmp)))))))) };

    ghost laws = { partial_order_from_own_ties (Prim.search (comparing, rules) depth 9)
        (λ x y. line_tie x.credits y.credits x.requests y.requests x.tester.items y.tester.items x.unit.items y.unit.items
        x.functional y.functional) };

    fn partial_cmp(&self, other: &CreditLine) -> Option<Ordering> {
        Some(self.cmp(other))
    }
}

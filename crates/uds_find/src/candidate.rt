//! Which identifier is the tester of a unit: what each of those is judged by that have credits of it.

ghost use Rattle.std.specs.Prelude.{◌≡◌};
ghost use Rattle.std.specs.Ordering.{is_lt};
ghost use Rattle.can_log.specs.declared.frame.Id.TheVariants as id;
ghost use Rattle.uds_find.specs.proving.Steps as Steps;
ghost use Rattle.uds_find.specs.Tester as Spec;

use can_log::{Id, identifier_text};

/// An identifier that has credits of a unit, how many, and whether it is functional.
#[derive(Clone, Copy, Debug)]
pub(crate) struct Candidate {
    pub tester: Id,
    pub credits: u64,
    pub functional: bool,
}

/// The first of two candidates, where there is one already.
pub(crate) fn first_of(best: Option<Candidate>, later: Candidate) -> Candidate
    ensures { result ≡ Steps.first_of best later }
{
    match best {
        Some(best) if !is_before(later, best) => best,
        _ => later,
    }
}

/// Whether one candidate stands before another.
fn is_before(one: Candidate, other: Candidate) -> bool
    ensures { result ≡ is_lt (Spec.candidate_order one other) }
{
    let one_text = identifier_text(one.tester);
    let other_text = identifier_text(other.tester);
    one.functional
        .cmp(&other.functional)
        .then(other.credits.cmp(&one.credits))
        .then(one_text.cmp(&other_text))
        .is_lt()
}

/// The partner of a unit's identifier, if it has one.
pub(crate) fn partner_of(unit: Id) -> Option<Id>
    ensures { result ≡ Spec.partner_of unit }
{
    match unit {
        Id::Std(number) => base_partner_of(number),
        Id::Ext(number) => extended_partner_of(number),
    }
}

/// The partner of a base identifier: the one that is lower by 8.
fn base_partner_of(number: u16) -> Option<Id>
    ensures { result ≡ Spec.partner_of (id.Std number) }
{
    if 0x7E8 <= number && number <= 0x7EF {
        Some(Id::Std(number - 8))
    } else {
        None
    }
}

/// The partner of an extended identifier: the one with both addresses exchanged.
fn extended_partner_of(number: u32) -> Option<Id>
    ensures { result ≡ Spec.partner_of (id.Ext number) }
{
    let target = number / 256 % 256;
    let sender = number % 256;
    if number / 65536 == 0x18DA && target != sender {
        Some(Id::Ext(0x18DA_0000 + sender * 256 + target))
    } else {
        None
    }
}

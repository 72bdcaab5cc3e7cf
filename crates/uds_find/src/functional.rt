//! Functional identifiers: which ones a log has, and which of them the line of a unit tells.

ghost use Rattle.std.specs.Prelude.{◌≡◌, ◌==◌, true, false, IfOk, OnOk, OnErr};
ghost use Rattle.std.specs.BTreeSet.{IsUnchanged};
ghost use Rattle.std.specs.List.{find, list_any};
ghost use Rattle.std.specs.List.Sorted.{IsStrictlySortedBy};
ghost use Rattle.can_log.specs.declared.frame.Id.TheVariants as id;
ghost use Rattle.uds_find.specs.Credit.{is_same};
ghost use Rattle.uds_find.specs.Functional as Spec;
ghost use Rattle.uds_find.specs.proving.Steps as Steps;

use crate::pair::IdPair;
use can_log::{Frame, Id};
use isotp_pdu::{Pdu, layout_of};
use std::alloc::AllocError;
use std::collections::BTreeSet;

/// Whether it is an identifier for functional requests.
fn is_functional_identifier(id: Id) -> bool
    ensures { result ≡ Spec.is_functional_identifier id }
{
    match id {
        Id::Std(number) => number == 0x7DF,
        Id::Ext(number) => number / 65536 == 0x18DB,
    }
}

/// Whether it is a functional frame: a single frame of such an identifier.
fn is_functional_frame(frame: &Frame) -> bool
    ensures { result ≡ Spec.is_functional_frame frame.now }
{
    if !is_functional_identifier(frame.id()) {
        return false;
    }
    match layout_of(frame) {
        Ok(Pdu::Single(_)) => true,
        Ok(Pdu::First { .. }) | Ok(Pdu::Next { .. }) | Ok(Pdu::Flow(_)) | Err(_) => false,
    }
}

/// Keeps the identifier of a functional frame, and says whether it is new.
pub(crate) fn keep_functional(
    functional: &mut BTreeSet<Id>,
    frame: &Frame,
) -> Result<bool, AllocError>
    ensures kept { OnOk result (Steps.IsKeptMore frame.now functional.old.keys functional.new.keys) }
    ensures sorted { OnOk result (IsStrictlySortedBy Spec.number_order functional.old.keys
        → IsStrictlySortedBy Spec.number_order functional.new.keys) }
    ensures old { IfOk result (λ is_new.
        Steps.without_id frame.now.id is_new functional.new.keys ≡ functional.old.keys) }
    ensures err { OnErr result (IsUnchanged functional.old functional.new) }
    ensures needs { OnErr result ((Spec.is_functional_frame frame.now ≡ true)
        × (list_any (is_same frame.now.id) functional.old.keys ≡ false)) }
{
    if is_functional_frame(frame) {
        Ok(functional.insert(frame.id())?)
    } else {
        Ok(false)
    }
}

/// Takes an identifier back that is new.
pub(crate) fn take_back(functional: &mut BTreeSet<Id>, id: Id, is_new: bool)
    ensures { functional.new.keys ≡ Steps.without_id id is_new functional.old.keys }
{
    if is_new {
        functional.remove(&id);
    }
}

/// The first of these identifiers that is third beside a pair.
pub(crate) fn functional_beside(functional: &BTreeSet<Id>, pair: IdPair) -> Option<Id>
    ensures { result ≡ find (Spec.is_third pair) functional.now.keys }
{
    'identifiers: for id in functional {
        if is_third(pair, *id) {
            return Some(*id);
        }
    }
    None
}

/// Whether an identifier has as many digits as a unit, and is neither this nor its tester.
fn is_third(pair: IdPair, id: Id) -> bool
    ensures { result ≡ Spec.is_third pair id }
{
    has_as_many_digits(id, pair.unit) && id != pair.tester && id != pair.unit
}

/// Whether two identifiers have as many digits.
fn has_as_many_digits(one: Id, other: Id) -> bool
    ensures { result ≡ Spec.has_as_many_digits one other }
{
    match (one, other) {
        (Id::Std(_), Id::Std(_)) | (Id::Ext(_), Id::Ext(_)) => true,
        (Id::Std(_), Id::Ext(_)) | (Id::Ext(_), Id::Std(_)) => false,
    }
}

//! The credit lines of a log's units, of what was counted.

ghost use Rattle.std.specs.Prelude.{◌≡◌, ℕ, ◌<◌, length, map, IfOk, OnErr, None};
ghost use Rattle.std.specs.List.{IsDistinct};
ghost use Rattle.std.specs.Map.{keys_of, lookup};
ghost use Rattle.std.specs.Option.{option_map};
ghost use Rattle.can_log.specs.declared.frame.Id.{Id as IdValue};
ghost use Rattle.uds_find.specs.Credit.{is_same};
ghost use Rattle.uds_find.specs.Finding.{id_text};
ghost use Rattle.uds_find.specs.proving.Steps.{first_among, line_in, tester_beside, unit_beside, unit_in};
ghost use Rattle.uds_find.specs.Tester as Spec;

use crate::candidate::{Candidate, first_of, partner_of};
use crate::functional::functional_beside;
use crate::pair::{CreditLine, IdPair};
use crate::tables::{credits_of, requests_of};
use arrayvec::ArrayVec;
use can_log::{Id, identifier_text};
use std::alloc::{AllocError, Global};
use std::collections::{BTreeMap, BTreeSet};

/// Of each unit with a credit the first of those that have credits of it.
pub(crate) fn first_candidates(
    alloc: Global,
    credits: &BTreeMap<IdPair, u64>,
    functional: &BTreeSet<Id>,
) -> Result<BTreeMap<Id, Candidate>, AllocError>
    ensures each { IfOk result (λ candidates. (unit : IdValue)
        → lookup (is_same unit) candidates.entries ≡ first_among functional.now.keys unit None credits.now.entries) }
    ensures once { IfOk result (λ candidates. IsDistinct is_same (keys_of candidates.entries)) }
    ensures needs { OnErr result (0 < length credits.now.entries) }
{
    let mut candidates = BTreeMap::new(alloc);
    'pairs: for (pair, counted) in credits {
        let later = Candidate {
            tester: pair.tester,
            credits: *counted,
            functional: functional.contains(&pair.tester),
        };
        let first = first_of(candidates.get(&pair.unit).copied(), later);
        candidates.insert(pair.unit, first)?;
    }
    Ok(candidates)
}

/// The credit lines of the units, in the order of the map.
pub(crate) fn lines_of(
    alloc: Global,
    candidates: BTreeMap<Id, Candidate>,
    credits: &BTreeMap<IdPair, u64>,
    requests: &BTreeMap<Id, u64>,
    functional: &BTreeSet<Id>,
) -> Result<Vec<CreditLine>, AllocError>
    ensures lines { IfOk result (λ lines. lines.items
        ≡ map (λ entry. line_in credits.now.entries requests.now.entries
        (unit_in requests.now.entries functional.now.keys entry)) candidates.entries) }
    ensures needs { OnErr result (0 < length candidates.entries) }
{
    let mut lines = Vec::new(alloc);
    // `pop_first` empties it: nothing is copied.
    let mut rest = candidates;
    'units: while let Some((unit, first)) = rest.pop_first() {
        let tester = tester_of(unit, first.tester, requests);
        let pair = IdPair { tester, unit };
        lines.push(line_of(pair, credits, requests, functional))?;
    }
    Ok(lines)
}

/// The tester of a unit: its partner, where that asks, or else the first candidate.
fn tester_of(unit: Id, first: Id, requests: &BTreeMap<Id, u64>) -> Id
    ensures { result ≡ tester_beside requests.now.entries (Spec.partner_of unit) first }
{
    match partner_of(unit) {
        Some(partner) if requests_of(requests, partner) != 0 => partner,
        _ => first,
    }
}

/// The credit line of a unit and its tester.
fn line_of(
    pair: IdPair,
    credits: &BTreeMap<IdPair, u64>,
    requests: &BTreeMap<Id, u64>,
    functional: &BTreeSet<Id>,
) -> CreditLine
    ensures { result ≡ line_in credits.now.entries requests.now.entries (unit_beside functional.now.keys pair) }
{
    CreditLine {
        credits: credits_of(credits, pair),
        requests: requests_of(requests, pair.tester),
        tester: identifier_text(pair.tester),
        unit: identifier_text(pair.unit),
        functional: text_of(functional_beside(functional, pair)),
    }
}

/// The text of an identifier, where there is one.
fn text_of(id: Option<Id>) -> Option<ArrayVec<u8, 8>>
    ensures { result ≡ option_map id_text id }
{
    match id {
        Some(id) => Some(identifier_text(id)),
        None => None,
    }
}

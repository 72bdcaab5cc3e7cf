//! The tables of a finder: how much is counted under each key, and which asking a unit answered last.

ghost use Rattle.std.specs.Prelude.{◌≡◌, ℕ, false, IfOk, IsSome, OnOk, OnErr};
ghost use Rattle.std.specs.BTreeMap.{IsUnchanged};
ghost use Rattle.std.specs.Map.{lookup};
ghost use Rattle.std.specs.Option.{is_some};
ghost use Rattle.can_log.specs.declared.frame.Id.{Id as IdValue};
ghost use Rattle.uds_find.specs.Credit.{is_same, is_same_pair};
ghost use Rattle.uds_find.specs.Finding.{IsTally, is_same_unit_service, number_at};
ghost use Rattle.uds_find.specs.proving.Steps.{HasOnePlace, IsNewIn, IsWritten, RisesByOne, without_new};
ghost use Rattle.uds_find.specs.proving.Steps as Steps;
ghost use Rattle.uds_find.specs.declared.pair.UnitService.{UnitService as UnitServiceValue};

use crate::pair::{IdPair, UnitService};
use can_log::Id;
use std::alloc::AllocError;
use std::collections::BTreeMap;

/// Counts one more credit of a pair.
fn count_credit(credits: &mut BTreeMap<IdPair, u64>, pair: IdPair) -> Result<(), AllocError>
    ensures ok { OnOk result (RisesByOne is_same_pair pair credits.old.entries credits.new.entries) }
    ensures err { OnErr result (IsUnchanged credits.old credits.new) }
    ensures needs { OnErr result (Steps.credits_in credits.old.entries pair ≡ 0) }
{
    let counted = credits_of(credits, pair);
    // Below 2^62 frames it does not saturate, and no log has as many.
    credits.insert(pair, counted.saturating_add(1))?;
    Ok(())
}

/// Counts one more request of an identifier.
pub(crate) fn count_request(requests: &mut BTreeMap<Id, u64>, asker: Id) -> Result<(), AllocError>
    ensures ok { OnOk result (RisesByOne is_same asker requests.old.entries requests.new.entries) }
    ensures err { OnErr result (IsUnchanged requests.old requests.new) }
    ensures needs { OnErr result ((count : IdValue → ℕ)
        → IsTally is_same count requests.old.entries → count asker ≡ 0) }
{
    let counted = requests_of(requests, asker);
    requests.insert(asker, counted.saturating_add(1))?;
    Ok(())
}

/// How many credits a pair has.
pub(crate) fn credits_of(credits: &BTreeMap<IdPair, u64>, pair: IdPair) -> u64
    ensures { result ≡ Steps.credits_in credits.now.entries pair }
{
    credits.get(&pair).copied().unwrap_or(0)
}

/// How many requests an identifier sent.
pub(crate) fn requests_of(requests: &BTreeMap<Id, u64>, asker: Id) -> u64
    ensures { result ≡ Steps.requests_in requests.now.entries asker }
{
    requests.get(&asker).copied().unwrap_or(0)
}

/// Which asking a unit answered last.
pub(crate) fn last_answered(answered: &BTreeMap<UnitService, u64>, key: UnitService) -> u64
    ensures { result ≡ number_at answered.now.entries key }
{
    answered.get(&key).copied().unwrap_or(0)
}

/// Credits an answer to a pair: writes which asking its unit has answered, and counts one more credit.
pub(crate) fn credit_once(
    answered: &mut BTreeMap<UnitService, u64>,
    credits: &mut BTreeMap<IdPair, u64>,
    answer: UnitService,
    pair: IdPair,
    asking: u64,
) -> Result<(), AllocError>
    ensures number { OnOk result (IsWritten answer asking answered.old.entries answered.new.entries) }
    ensures place { OnOk result (HasOnePlace answer answered.old.entries answered.new.entries) }
    ensures count { OnOk result (RisesByOne is_same_pair pair credits.old.entries credits.new.entries) }
    ensures err { OnErr result (IsUnchanged answered.old answered.new) }
    ensures credits_err { OnErr result (IsUnchanged credits.old credits.new) }
    ensures needs { OnErr result (IsNewIn answered.old.entries credits.old.entries answer pair) }
{
    let is_new = make_place(answered, answer)?;
    if let Err(refused) = count_credit(credits, pair) {
        take_place_back(answered, answer, is_new);
        return Err(refused);
    }
    number_answer(answered, answer, asking);
    Ok(())
}

/// Makes a place for a unit and a service, and says whether there was none.
fn make_place(
    answered: &mut BTreeMap<UnitService, u64>,
    key: UnitService,
) -> Result<bool, AllocError>
    ensures place { OnOk result (HasOnePlace key answered.old.entries answered.new.entries) }
    ensures stays { OnOk result ((other : UnitServiceValue)
        → number_at answered.new.entries other ≡ number_at answered.old.entries other) }
    ensures old { IfOk result (λ is_new. without_new key is_new answered.new.entries ≡ answered.old.entries) }
    ensures err { OnErr result (IsUnchanged answered.old answered.new) }
    ensures needs { OnErr result (is_some (lookup (is_same_unit_service key) answered.old.entries) ≡ false) }
{
    if answered.contains_key(&key) {
        return Ok(false);
    }
    answered.insert(key, 0)?;
    Ok(true)
}

/// Takes a place back that was made.
fn take_place_back(answered: &mut BTreeMap<UnitService, u64>, key: UnitService, is_new: bool)
    ensures { answered.new.entries ≡ without_new key is_new answered.old.entries }
{
    if is_new {
        answered.remove(&key);
    }
}

/// Writes into its place which asking a unit has answered.
fn number_answer(answered: &mut BTreeMap<UnitService, u64>, key: UnitService, asking: u64)
    requires { IsSome (lookup (is_same_unit_service key) answered.old.entries) }
    ensures number { IsWritten key asking answered.old.entries answered.new.entries }
    ensures place { HasOnePlace key answered.old.entries answered.new.entries }
{
    // It has its place, so that no memory is needed and it does not fail.
    let _ = answered.insert(key, asking);
}

//! The rules of a profile, in the order drops, masks.

ghost use Rattle.std.specs.Prelude.{◌≡◌, ◌+◌, nat_lt, option_map, option_and_then};
ghost use Rattle.toml.specs.View.{array_view, table_view};
ghost use Rattle.toml.specs.Data.{as_str, get_item};
ghost use Rattle.profile.specs.ProfileRules as Spec;
ghost use Rattle.profile.specs.ProfileRules.{items_or_none};
ghost use Rattle.profile.specs.Answers.{added, seen_rules};

use crate::document::{array_at, item_count};
use crate::keys::rule_in;
use crate::wrong::{RuleKey, Wrong};
use toml::Table;
use toml::value::Array;
use uds_rules::{MOST_RULES, Rule, RuleTable, RulesFault};

/// The rules that a profile has, or what is wrong with them beside one another.
#[tactic(auto, using(crate::proofs::Behind::stops))]
pub(crate) fn profile_rules<'a>(document: &'a Table) -> Result<RuleTable, Wrong<'a>>
    ensures { seen_rules result ≡ Spec.profile_rules (table_view document.now) }
{
    let drops = array_at(document, "drop");
    let masks = array_at(document, "mask");
    if are_many(item_count(drops), item_count(masks)) {
        return Err(Wrong::ManyRules);
    }
    let mut rules = RuleTable::none();
    if let Some(wrong) = add_items(&mut rules, RuleKey::Drop, drops) {
        return Err(wrong);
    }
    if let Some(wrong) = add_items(&mut rules, RuleKey::Mask, masks) {
        return Err(wrong);
    }
    Ok(rules)
}

/// The text of the rule at a place, in the order drops, masks, if a text stands there.
pub fn written_rule<'a>(document: &'a Table, place: usize) -> Option<&'a str>
    ensures { option_map (λ text. text.now) result ≡ Spec.written_rule place (table_view document.now) }
{
    let drops = array_at(document, "drop");
    let masks = array_at(document, "mask");
    let count = item_count(drops);
    if place < count {
        text_in(drops, place)
    } else {
        text_in(masks, place - count)
    }
}

/// The text at a place of an array, if one stands there.
fn text_in<'a>(array: Option<&'a Array>, place: usize) -> Option<&'a str>
    ensures { option_map (λ text. text.now) result
        ≡ option_and_then as_str (get_item place (items_or_none (option_map (λ array. array_view array.now) array.entry))) }
{
    match array {
        Some(array) => match array.get(place) {
            Some(value) => value.as_str(),
            None => None,
        },
        None => None,
    }
}

/// Whether so many drops and masks are more than 64 rules.
fn are_many(drops: usize, masks: usize) -> bool
    ensures { result ≡ nat_lt 64 (drops + masks) }
{
    drops > MOST_RULES || masks > MOST_RULES - drops
}

/// Adds the rules of an array, up to the first that can't stand beside the earlier ones.
#[tactic(auto, using(crate::proofs::Behind::stops))]
fn add_items<'a>(rules: &mut RuleTable, key: RuleKey, array: Option<&'a Array>) -> Option<Wrong<'a>>
    ensures { added result rules.new ≡ Spec.items_behind key (items_or_none (option_map (λ array. array_view array.now) array.entry)) (Ok rules.old) }
{
    let Some(array) = array else {
        return None;
    };
    'items: for item in array {
        if let Some(wrong) = add_item(rules, key, item.as_str()) {
            return Some(wrong);
        }
    }
    None
}

/// Adds the rule of an element, if it is a text that spells one.
fn add_item<'a>(rules: &mut RuleTable, key: RuleKey, text: Option<&'a str>) -> Option<Wrong<'a>>
    ensures { added result rules.new ≡ Spec.item_behind key (option_map (λ text. text.now) text.entry) (Ok rules.old) }
{
    match text {
        Some(text) => match rule_in(key, text) {
            Ok(rule) => add_rule(rules, rule),
            Err(_) => None,
        },
        None => None,
    }
}

/// Adds a rule, or says what is wrong with it beside the earlier ones.
fn add_rule<'a>(rules: &mut RuleTable, rule: Rule) -> Option<Wrong<'a>>
    ensures { added result rules.new ≡ Spec.rule_behind rules.old rule }
{
    let count = rules.as_slice().len();
    match rules.add(rule) {
        Ok(()) => None,
        Err(RulesFault::Clash(place)) => Some(Wrong::Shared(place, count)),
        Err(RulesFault::TooMany) => Some(Wrong::ManyRules),
    }
}

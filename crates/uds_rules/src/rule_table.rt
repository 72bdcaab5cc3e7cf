//! The rules of a profile in a table, in which the rule of a message is found by its first byte.

ghost use Rattle.std.specs.Prelude.{◌≡◌, ◌+◌, drop, option_map};
ghost use Rattle.uds_rules.specs.Legal.{clash_in};
ghost use Rattle.uds_rules.specs.Rule.{rule_of};
ghost use Rattle.uds_rules.specs.proving.Held as Held;

use crate::mask::Mask;
use crate::prefix::Prefix;
use crate::rule::Rule;
use crate::rules::{Ruled, RulesFault};
use std::alloc::AllocError;
use std::marker::Model;
use uds_message::sid;

/// The most rules of a profile.
pub const MOST_RULES: usize = 64;

/// At most 64 rules, no two of which speak of one message. They lie in place, in 3,336 bytes: once all are added,
/// [`Rules`](crate::Rules) holds them elsewhere.
#[derive(Clone, Copy, PartialEq, Eq)]
pub struct RuleTable {
    rules: [Rule; 64],
    /// Of each byte, the place of the first rule that begins with it, counted from 1, and 0 where none does: of most
    /// messages no rule is looked at, and of others none that stands before it.
    first_places: [u8; 256],
    count: u8,
}

impl Model for RuleTable {
    ghost use Rattle.std.specs.Prelude.{List, take};
    ghost use Rattle.uds_rules.specs.Rule.{RuleValue};

    ghost Value = { List RuleValue };

    ghost use Rattle.std.specs.Prelude.{length};
    ghost use Rattle.std.proofs.Common.{refl, sym};
    ghost use Rattle.uds_rules.specs.proving.Held as held;

    ghost view = { λ r. take r.count r.rules };

    ghost invariant = { λ r. held.AreHeld r.count r.rules r.first_places };

    ghost inverse = { λ v. record { rules = held.filled v; first_places = held.first_places v; count = length v } };

    ghost inverse_ok = { λ r are. Prim.rw (held.held_whole r.count r.rules r.first_places are)
        (Prim.rw (held.held_count r.count r.rules r.first_places are) (Prim.rw (sym are.places) refl)) };
}

impl RuleTable {
    ghost use Rattle.std.specs.Prelude.{◌≡◌, ◌++◌, ◌∷◌, ◌<◌, ◌≤◌, [], true, false, length, Some, None, IfSome, OnOk, IfOk, IfErr, OnErr};
    ghost use Rattle.uds_rules.specs.Rule.{made_of, is_masked, is_spoken_of, mask_of, rule_of};
    ghost use Rattle.uds_rules.specs.Rule as Spec;
    ghost use Rattle.uds_rules.specs.Legal.{AreRules};
    ghost use Rattle.uds_rules.specs.Answers.{CanAdd, CannotAdd, IsRuled};

    /// No rules.
    pub fn none() -> RuleTable
        ensures { result ≡ [] }
    {
        let unused = Rule::dropping(Prefix::zero());
        RuleTable {
            rules: [unused; 64],
            first_places: [0; 256],
            count: 0,
        }
    }

    /// Whether there are none.
    #[inline(always)]
    pub fn is_empty(&self) -> bool
        ensures none { result ≡ true → self.now ≡ [] }
        ensures some { result ≡ false → 1 ≤ length self.now }
    {
        self.count == 0
    }

    /// Adds a rule, or says why it can't stand beside the others.
    pub fn add(&mut self, rule: Rule) -> Result<(), RulesFault>
        ensures ok { OnOk result (self.new ≡ self.old ++ rule ∷ []) }
        ensures may { OnOk result (CanAdd self.old rule) }
        ensures err { IfErr result (λ fault. (self.new ≡ self.old) × CannotAdd self.old rule fault) }
    {
        let count = self.count as usize;
        if count >= MOST_RULES {
            return Err(RulesFault::TooMany);
        }
        match first_clash(&self.rules[..count], &rule) {
            Some(place) => Err(RulesFault::Clash(place)),
            None => {
                let _ = rule.deed();
                let first = rule.prefix().first() as usize;
                self.first_places[first] = earlier(self.first_places[first], self.count + 1);
                self.rules[count] = rule;
                self.count += 1;
                Ok(())
            }
        }
    }

    /// The rules, in the order in which they were added.
    pub fn as_slice(&self) -> &[Rule]
        ensures value { result.now ≡ self.now }
        ensures legal { AreRules self.now }
    {
        &self.rules[..self.count as usize]
    }

    /// The place of the rule that speaks of a message, if one does: no other rule does. Of most messages no rule is looked
    /// at.
    #[inline(always)]
    pub(crate) fn rule_of(&self, message: &[u8]) -> Option<usize>
        ensures value { result ≡ rule_of self.now message.now }
        ensures within { IfSome result (λ place. place < length self.now) }
        ensures legal { AreRules self.now }
    {
        match self.first_places[sid(message) as usize] {
            0 => None,
            place => rule_from(self.as_slice(), place as usize - 1, message),
        }
    }

    /// The mask of the rule that speaks of a message, if it masks, and the place behind the prefix where it begins.
    pub(crate) fn mask_of(&self, message: &[u8]) -> Option<(Mask, usize)>
        ensures value { result ≡ mask_of self.now message.now }
        ensures within { IfSome result (λ found. found.1 ≤ length message.now) }
    {
        match self.rule_of(message) {
            Some(place) => self.as_slice()[place].mask(),
            None => None,
        }
    }

    /// Whether a rule begins with the first byte of a message: else none speaks of it, and it stays as it is. No rule is looked
    /// at.
    #[inline(always)]
    pub(crate) fn may_speak_of(&self, message: &[u8]) -> bool
        ensures value { result ≡ Spec.may_speak_of self.now message.now }
        ensures none { result ≡ false → is_spoken_of self.now message.now ≡ false }
        ensures stays { result ≡ false → made_of self.now message.now ≡ Some message.now }
        ensures ruled { result ≡ false → rule_of self.now message.now ≡ None }
        ensures masked { result ≡ false → mask_of self.now message.now ≡ None }
    {
        self.first_places[sid(message) as usize] != 0
    }

    /// What the rules make of a message. A masked copy is laid into `room`, and for that alone memory can be refused:
    /// with the same `room` for each message only one longer than all before takes any.
    pub(crate) fn apply(&self, message: &[u8], room: &mut Vec<u8>) -> Result<Ruled, AllocError>
        ensures ok { IfOk result (λ ruled. IsRuled (made_of self.now message.now) message.now ruled room.new.items) }
        ensures err { OnErr result (is_masked self.now message.now ≡ true) }
    {
        match self.rule_of(message) {
            Some(place) => match self.as_slice()[place].make(message, room) {
                Ok(ruled) => Ok(ruled),
                Err(refused) => Err(refused),
            },
            None => Ok(Ruled::AsItIs),
        }
    }
}

/// The earlier of a place that is noted and one behind it: 0 stands for no place.
#[inline(always)]
fn earlier(noted: u8, later: u8) -> u8
    ensures { result ≡ Held.earlier noted later }
{
    match noted {
        0 => later,
        _ => noted,
    }
}

/// The place of the first of these rules from `start` on that speaks of the message, if one does.
#[inline(always)]
fn rule_from(rules: &[Rule], start: usize, message: &[u8]) -> Option<usize>
    ensures { result ≡ option_map (λ place. start + place) (rule_of (drop start rules.now) message.now) }
{
    'rules: for at in start..rules.len() {
        if rules[at].speaks_of(message) {
            return Some(at);
        }
    }
    None
}

/// The place of the first of these rules which speaks of a message that this one speaks of, if there is one.
fn first_clash(rules: &[Rule], rule: &Rule) -> Option<usize>
    ensures { result ≡ clash_in rules.now rule.now.prefix }
{
    let mut place = 0;
    'rules: for other in rules {
        if !other.is_apart(rule) {
            return Some(place);
        }
        place += 1;
    }
    None
}

//! The rules that messages are under.

ghost use Rattle.std.specs.Prelude.{◌≡◌};

use crate::mask::Mask;
use crate::rule::Rule;
use crate::rule_table::RuleTable;
use std::alloc::{AllocError, Global};
use std::fmt::{self, Debug, Formatter, Write};
use std::marker::Model;

/// What rules make of a message.
#[derive(Clone, Copy, Debug, PartialEq, Eq)]
pub enum Ruled {
    /// It stays as it is.
    AsItIs,
    /// Bytes of it are masked: the copy is to be read in its place.
    Masked,
    /// It is left out.
    LeftOut,
}

/// Why a rule can't stand beside others.
#[derive(Clone, Copy, Debug, PartialEq, Eq)]
pub enum RulesFault {
    /// There are 64.
    TooMany,
    /// A message could begin with its prefix and with that of the rule at this place, the first such one.
    Clash(usize),
}

/// The rules that messages are under: none, or those of a table. They are small, and where there are none they take no
/// memory.
#[derive(Drop)]
pub struct Rules {
    /// A table with one rule or more.
    table: Option<Box<RuleTable>>,
}

impl Model for Rules {
    ghost use Rattle.std.specs.Prelude.{◌≤◌, List, [], length, unwrap_or, option_map, IfSome};
    ghost use Rattle.uds_rules.specs.Rule.{RuleValue};

    ghost Value = { List RuleValue };

    ghost view = { λ r. unwrap_or (option_map (λ table. table.value) r.table) [] };

    ghost invariant = { λ r. IfSome r.table (λ table. 1 ≤ length table.value) };
}

impl Rules {
    ghost use Rattle.std.specs.Prelude.{◌≡◌, ◌<◌, ◌≤◌, [], true, false, length, Some, None, IfSome, IfOk, OnErr};
    ghost use Rattle.uds_rules.specs.Rule.{made_of, is_masked, is_spoken_of, mask_of, rule_of};
    ghost use Rattle.uds_rules.specs.Rule as Spec;
    ghost use Rattle.uds_rules.specs.Legal.{AreRules};
    ghost use Rattle.uds_rules.specs.Answers.{IsRuled};

    /// No rules.
    pub fn none() -> Rules
        ensures { result ≡ [] }
    {
        Rules { table: None }
    }

    /// The rules of a table. Memory is taken once, and only where there is a rule.
    pub fn of_table(alloc: Global, table: RuleTable) -> Result<Rules, AllocError>
        ensures ok { IfOk result (λ rules. rules ≡ table) }
        ensures err { OnErr result (1 ≤ length table) }
    {
        if table.is_empty() {
            return Ok(Rules::none());
        }
        match Box::new(alloc, table) {
            Ok(table) => Ok(Rules { table: Some(table) }),
            Err(_) => Err(AllocError),
        }
    }

    /// Whether there are none.
    #[inline(always)]
    pub fn is_empty(&self) -> bool
        ensures none { result ≡ true → self.now ≡ [] }
        ensures some { result ≡ false → 1 ≤ length self.now }
    {
        self.table.is_none()
    }

    /// The rules, in the order in which they were added.
    pub fn as_slice(&self) -> &[Rule]
        ensures value { result.now ≡ self.now }
        ensures legal { AreRules self.now }
    {
        match &self.table {
            Some(table) => table.as_slice(),
            None => &[],
        }
    }

    /// The place of the rule that speaks of a message, if one does: no other rule does. Of most messages no rule is looked
    /// at.
    #[inline(always)]
    pub fn rule_of(&self, message: &[u8]) -> Option<usize>
        ensures value { result ≡ rule_of self.now message.now }
        ensures within { IfSome result (λ place. place < length self.now) }
        ensures legal { AreRules self.now }
    {
        match &self.table {
            Some(table) => table.rule_of(message),
            None => None,
        }
    }

    /// The mask of the rule that speaks of a message, if it masks, and the place behind the prefix where it begins.
    #[inline(always)]
    pub fn mask_of(&self, message: &[u8]) -> Option<(Mask, usize)>
        ensures value { result ≡ mask_of self.now message.now }
        ensures within { IfSome result (λ found. found.1 ≤ length message.now) }
    {
        match &self.table {
            Some(table) => table.mask_of(message),
            None => None,
        }
    }

    /// Whether a rule begins with the first byte of a message: else none speaks of it, and it stays as it is. No rule is looked
    /// at: it costs less than to ask for the rule, of which most messages have none.
    #[inline(always)]
    pub fn may_speak_of(&self, message: &[u8]) -> bool
        ensures value { result ≡ Spec.may_speak_of self.now message.now }
        ensures none { result ≡ false → is_spoken_of self.now message.now ≡ false }
        ensures stays { result ≡ false → made_of self.now message.now ≡ Some message.now }
        ensures ruled { result ≡ false → rule_of self.now message.now ≡ None }
        ensures masked { result ≡ false → mask_of self.now message.now ≡ None }
    {
        match &self.table {
            Some(table) => table.may_speak_of(message),
            None => false,
        }
    }

    /// What the rules make of a message. A masked copy is laid into `room`, and for that alone memory can be refused:
    /// with the same `room` for each message only one longer than all before takes any.
    pub fn apply(&self, message: &[u8], room: &mut Vec<u8>) -> Result<Ruled, AllocError>
        ensures ok { IfOk result (λ ruled. IsRuled (made_of self.now message.now) message.now ruled room.new.items) }
        ensures err { OnErr result (is_masked self.now message.now ≡ true) }
    {
        match &self.table {
            Some(table) => table.apply(message, room),
            None => Ok(Ruled::AsItIs),
        }
    }
}

/// The rules that there are.
impl Debug for Rules {
    fn fmt<W: Write>(&self, f: &mut Formatter<W>) -> fmt::Result {
        f.debug_tuple("Rules").field(&self.as_slice()).finish()
    }
}

//! One rule.

ghost use Rattle.std.specs.Prelude.{◌≡◌};
ghost use Rattle.uds_rules.specs.Legal as Spec;
ghost use Rattle.uds_rules.specs.Rule.{begins_with};

use crate::mask::Mask;
use crate::prefix::Prefix;
use crate::rules::Ruled;
use std::alloc::AllocError;
use std::marker::Model;
use uds_message::{has_sub_function, is_negative_response};

/// The service identifier of TesterPresent.
const TESTER_PRESENT: u8 = 0x3E;

/// What is done with the messages that a rule speaks of.
#[derive(Clone, Copy, Debug, PartialEq, Eq)]
pub enum Deed {
    /// They are left out.
    Drop,
    /// Bytes of them are masked.
    Mask(Mask),
}

/// The bytes that messages begin with, and what is done with such a message.
#[derive(Clone, Copy, Debug, PartialEq, Eq)]
pub struct Rule {
    deed: Deed,
    prefix: Prefix,
}

/// Why a text spells no rule.
#[derive(Clone, Copy, Debug, PartialEq, Eq)]
pub enum RuleFault {
    /// It is no prefix, or no pattern.
    NotAPattern,
    /// Its pattern has neither `..` nor `*`.
    NothingMasked,
    /// It masks messages that begin with 3E or 7F, of which later bytes tell what they are.
    KindMasked,
    /// It masks a sub-function, or cuts it off.
    SubFunctionMasked,
}

impl Model for Rule {
    ghost use Rattle.uds_rules.specs.Rule.{RuleValue};

    ghost Value = { RuleValue };

    ghost use Rattle.uds_rules.specs.Legal.{IsRule};

    ghost view = { λ r. record { prefix = r.prefix; deed = r.deed } };

    ghost invariant = { λ r. IsRule (record { prefix = r.prefix; deed = r.deed }) };

    ghost inverse = { λ v. record { deed = v.deed; prefix = v.prefix } };
}

impl Rule {
    ghost use Rattle.std.specs.Prelude.{◌≡◌, true, IfOk, OnErr};
    ghost use Rattle.uds_rules.specs.Rule.{speaks_of, made_by, mask_by, masks};
    ghost use Rattle.uds_rules.specs.Legal.{IsRule, are_apart};
    ghost use Rattle.uds_rules.specs.Pattern.{masking};
    ghost use Rattle.uds_rules.specs.Answers.{IsRuled};

    /// The rule that leaves out each message that begins with this prefix.
    pub fn dropping(prefix: Prefix) -> Rule
        ensures { result ≡ record { prefix = prefix; deed = Deed.Drop } }
    {
        let _ = prefix.bytes();
        Rule {
            deed: Deed::Drop,
            prefix,
        }
    }

    /// The rule that masks each message that begins with this prefix, or the first reason why there is none.
    pub fn masking(prefix: Prefix, mask: Mask) -> Result<Rule, RuleFault>
        ensures { result ≡ masking prefix mask }
    {
        let bytes = prefix.bytes();
        if !mask.masks_something() {
            return Err(RuleFault::NothingMasked);
        }
        if !is_maskable(bytes) {
            return Err(RuleFault::KindMasked);
        }
        if !keeps_sub_function(bytes, mask) {
            return Err(RuleFault::SubFunctionMasked);
        }
        let _ = mask.len();
        Ok(Rule {
            deed: Deed::Mask(mask),
            prefix,
        })
    }

    /// The bytes that its messages begin with.
    pub fn prefix(&self) -> &Prefix
        ensures { result.now ≡ self.now.prefix }
    {
        &self.prefix
    }

    /// What is done with such a message.
    pub fn deed(&self) -> Deed
        ensures value { result ≡ self.now.deed }
        ensures legal { IsRule self.now }
    {
        self.deed
    }

    /// The mask on its messages, if it masks, and the place behind the prefix where that begins.
    pub(crate) fn mask(&self) -> Option<(Mask, usize)>
        ensures { result ≡ mask_by self.now.deed self.now.prefix }
    {
        match self.deed {
            Deed::Drop => None,
            Deed::Mask(mask) => Some((mask, self.prefix.bytes().len())),
        }
    }

    /// Whether it speaks of a message.
    #[inline(always)]
    pub fn speaks_of(&self, message: &[u8]) -> bool
        ensures { result ≡ speaks_of self.now message.now }
    {
        begins_with(self.prefix.bytes(), message)
    }

    /// Whether no message can begin with the prefixes of both.
    pub fn is_apart(&self, other: &Rule) -> bool
        ensures { result ≡ are_apart self.now.prefix other.now.prefix }
    {
        !self.speaks_of(other.prefix.bytes()) && !other.speaks_of(self.prefix.bytes())
    }

    /// Makes of a message of the rule what the rule says. A masked copy is laid into `room`.
    pub(crate) fn make(&self, message: &[u8], room: &mut Vec<u8>) -> Result<Ruled, AllocError>
        requires { speaks_of self.now message.now ≡ true }
        ensures ok { IfOk result (λ ruled. IsRuled (made_by self.now.deed self.now.prefix message.now) message.now ruled room.new.items) }
        ensures err { OnErr result (masks self.now.deed ≡ true) }
    {
        match self.deed {
            Deed::Drop => Ok(Ruled::LeftOut),
            Deed::Mask(mask) => {
                mask.lay(self.prefix.bytes().len(), message, room)?;
                Ok(Ruled::Masked)
            }
        }
    }
}

/// Whether a message begins with these bytes. They are few, and most messages differ from the first of them: a call that
/// compares memory costs more than the loop.
#[inline(always)]
fn begins_with(prefix: &[u8], message: &[u8]) -> bool
    ensures { result ≡ begins_with prefix.now message.now }
{
    if prefix.len() > message.len() {
        return false;
    }
    'bytes: for at in 0..prefix.len() {
        if prefix[at] != message[at] {
            return false;
        }
    }
    true
}

/// Whether messages with this prefix can be masked: their later bytes don't tell what they are.
fn is_maskable(prefix: &[u8]) -> bool
    ensures { result ≡ Spec.is_maskable prefix.now }
{
    match prefix {
        [] => false,
        [first, ..] => *first != TESTER_PRESENT && !is_negative_response(prefix),
    }
}

/// Whether the mask changes no sub-function: the byte behind a prefix of one byte, where the service has one.
fn keeps_sub_function(prefix: &[u8], mask: Mask) -> bool
    ensures { result ≡ Spec.keeps_sub_function prefix.now mask }
{
    match prefix {
        [service] => !has_sub_function(*service) || mask.keeps_first(),
        _ => true,
    }
}

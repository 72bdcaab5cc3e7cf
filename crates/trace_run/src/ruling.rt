//! Messages under rules: how many are left out, and the copy of one that is masked.

ghost use Rattle.std.specs.Prelude.{◌≡◌, ◌+◌, ◌^◌, ◌<◌, List, true, is_none, option_map, IfOk, OnOk, OnErr};
ghost use Rattle.direction.specs.declared.Dir.{Dir as DirValue};
ghost use Rattle.isotp_receive.specs.EventSeen.{seen_verdict};
ghost use Rattle.isotp_receive.specs.Verdict.{told_message};
ghost use Rattle.trace_log.specs.Summing.{more_if};
ghost use Rattle.trace_run.specs.proving.Ruling.{IsMaskedVerdict, IsRuledVerdict};
ghost use Rattle.uds_rules.specs.Answers.{IsRuled};
ghost use Rattle.uds_rules.specs.Rule.{RuleValue, is_masked, made_of};
ghost use Rattle.uds_rules.specs.Under.{left_out, sent_as, under};

use isotp_receive::Verdict;
use std::alloc::{AllocError, Global};
use trace_log::Config;
use uds_rules::{Ruled, Rules};

/// How many messages rules left out so far, and the copy of the last one that they masked.
#[derive(Drop)]
pub(crate) struct Ruling {
    pub left_out: u64,
    pub masked: Vec<u8>,
}

impl Ruling {
    /// Before the first message.
    pub(crate) fn new(alloc: Global) -> Ruling
        ensures { result.left_out ≡ 0 }
    {
        Ruling {
            left_out: 0,
            masked: Vec::new(alloc),
        }
    }

    /// Has the rules make what they make of the message that a frame completed, if it completed one. Without rules this
    /// is one test of each message, and of one whose first byte no rule begins with it is one more.
    #[inline(always)]
    pub(crate) fn take(
        &mut self,
        config: &Config,
        verdict: Verdict<'_>,
    ) -> Result<Ruled, AllocError>
        ensures ok { IfOk result (λ ruled.
            IsRuledVerdict config.now.rules (seen_verdict verdict.entry) ruled self.new.masked.items) }
        ensures counted { OnOk result ((d : DirValue) → self.old.left_out < 2 ^ 62 → self.new.left_out
            ≡ self.old.left_out + left_out config.now.rules (told_message d (seen_verdict verdict.entry))) }
        ensures err { OnErr result (IsMaskedVerdict config.now.rules (seen_verdict verdict.entry)) }
    {
        // A `match` here and below, as in `Receiver::receive`: returned as it is, the answer is read by a covering load.
        match verdict {
            Verdict::Message(message) => match self.rule(config, message) {
                Ok(ruled) => Ok(ruled),
                Err(refused) => Err(refused),
            },
            Verdict::Began | Verdict::Stored | Verdict::Flow | Verdict::Dropped(_) => {
                Ok(Ruled::AsItIs)
            }
        }
    }

    /// Has the rules make of a message what they make of it.
    #[inline(always)]
    fn rule(&mut self, config: &Config, message: &[u8]) -> Result<Ruled, AllocError>
        ensures ok { IfOk result (λ ruled.
            IsRuled (made_of config.now.rules message.now) message.now ruled self.new.masked.items) }
        ensures counted { OnOk result (self.new.left_out
            ≡ more_if (is_none (made_of config.now.rules message.now)) self.old.left_out) }
        ensures err { OnErr result (is_masked config.now.rules message.now ≡ true) }
    {
        let rules = config.rules();
        if !rules.may_speak_of(message) {
            return Ok(Ruled::AsItIs);
        }
        match self.apply(rules, message) {
            Ok(ruled) => Ok(ruled),
            Err(refused) => Err(refused),
        }
    }

    /// Applies these rules to a message, and counts it if they leave it out. It is a call of its own, so that what most
    /// logs do without is not inlined.
    #[inline(never)]
    fn apply(&mut self, rules: &Rules, message: &[u8]) -> Result<Ruled, AllocError>
        ensures ok { IfOk result (λ ruled.
            IsRuled (made_of rules.now message.now) message.now ruled self.new.masked.items) }
        ensures counted { OnOk result (self.new.left_out
            ≡ more_if (is_none (made_of rules.now message.now)) self.old.left_out) }
        ensures err { OnErr result (is_masked rules.now message.now ≡ true) }
    {
        match rules.apply(message, &mut self.masked) {
            Ok(Ruled::AsItIs) => Ok(Ruled::AsItIs),
            Ok(Ruled::Masked) => Ok(Ruled::Masked),
            Ok(Ruled::LeftOut) => {
                self.left_out = self.left_out.saturating_add(1);
                Ok(Ruled::LeftOut)
            }
            Err(refused) => Err(refused),
        }
    }

    /// What the rules show of the message that a frame completed, where they made this of it.
    #[inline(always)]
    pub(crate) fn shown<'a>(&'a self, verdict: Verdict<'a>, ruled: Ruled) -> Option<&'a [u8]>
        ensures { (rules : List RuleValue) (d : DirValue)
            → IsRuledVerdict rules (seen_verdict verdict.entry) ruled self.now.masked.items
            → sent_as d (option_map (λ bytes. bytes.now) result)
            ≡ under rules (told_message d (seen_verdict verdict.entry)) }
    {
        match verdict {
            Verdict::Message(message) => match ruled {
                Ruled::AsItIs => Some(message),
                Ruled::Masked => Some(self.masked.as_slice()),
                Ruled::LeftOut => None,
            },
            Verdict::Began | Verdict::Stored | Verdict::Flow | Verdict::Dropped(_) => None,
        }
    }
}

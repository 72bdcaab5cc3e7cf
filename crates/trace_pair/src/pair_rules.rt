//! The rules that a page of two logs is under, and of how many messages of each log they spoke.

use text_parts::{Part, say};
use trace_io::TextSink;
use trace_report::{RulesEnd, RulesStart};
use trace_text::{MessagesWord, Number, RuleText};
use uds_rules::{Rule, Rules};

/// The rules of two sessions, which are those of one configuration, and of how many messages of each log they spoke:
/// nothing, where there are none.
#[derive(Clone, Copy)]
pub(crate) struct PairRules<'a>(pub &'a Rules, pub &'a [u64], pub &'a [u64]);

impl<'a> Part for PairRules<'a> {
    ghost use Rattle.trace_pair.specs.PairRules.{pair_rules_text};

    ghost text = { λ all. pair_rules_text all.0.now all.1.now all.2.now };

    fn say<S: TextSink>(self, out: &mut S) {
        let PairRules(rules, left, right) = self;
        let rules = rules.as_slice();
        if !rules.is_empty() {
            say(
                out,
                (
                    RulesStart(rules.len() as u64),
                    PairRuleLines(rules, left, right),
                    RulesEnd,
                ),
            );
        }
    }
}

/// Each rule in its order, and of how many messages of each log it spoke.
#[derive(Clone, Copy)]
struct PairRuleLines<'a>(&'a [Rule], &'a [u64], &'a [u64]);

impl<'a> Part for PairRuleLines<'a> {
    ghost use Rattle.trace_pair.specs.PairRules.{pair_rule_lines};

    ghost text = { λ lines. pair_rule_lines lines.0.now lines.1.now lines.2.now };

    fn say<S: TextSink>(self, out: &mut S) {
        let PairRuleLines(rules, lefts, rights) = self;
        let mut left_counts = lefts;
        let mut right_counts = rights;
        let mut waiting = rules;
        'rules: while let Some((rule, later)) = waiting.split_first() {
            let Some((left, lefts_behind)) = left_counts.split_first() else {
                return;
            };
            let Some((right, rights_behind)) = right_counts.split_first() else {
                return;
            };
            say(
                out,
                (
                    "<li><code>",
                    RuleText(rule),
                    "</code>: ",
                    MessagesWord(*left),
                    " of A, ",
                    Number(*right),
                    " of B\n",
                ),
            );
            waiting = later;
            left_counts = lefts_behind;
            right_counts = rights_behind;
        }
    }
}

/// These rules where nothing is compared, so that no message is counted: nothing, where there are none.
#[derive(Clone, Copy)]
pub(crate) struct UncountedRules<'a>(pub &'a Rules);

impl<'a> Part for UncountedRules<'a> {
    ghost use Rattle.trace_pair.specs.PairRules.{uncounted_rules};

    ghost text = { λ t. uncounted_rules t.0.now };

    fn say<S: TextSink>(self, out: &mut S) {
        let rules = self.0.as_slice();
        if !rules.is_empty() {
            say(
                out,
                (
                    RulesStart(rules.len() as u64),
                    UncountedLines(rules),
                    RulesEnd,
                ),
            );
        }
    }
}

/// Each rule in its order.
#[derive(Clone, Copy)]
struct UncountedLines<'a>(&'a [Rule]);

impl<'a> Part for UncountedLines<'a> {
    ghost use Rattle.std.specs.List.{flat_map};
    ghost use Rattle.trace_pair.specs.PairRules.{uncounted_line};

    ghost text = { λ t. flat_map uncounted_line t.0.now };

    fn say<S: TextSink>(self, out: &mut S) {
        'rules: for rule in self.0 {
            say(out, ("<li><code>", RuleText(rule), "</code>\n"));
        }
    }
}

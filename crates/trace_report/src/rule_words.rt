//! What a page says of the rules that it is under.

use text_parts::{Either, Part, say};
use trace_io::TextSink;
use trace_text::{MessagesWord, Number, RuleText};
use uds_rules::{Rule, Rules};

/// What a page of a log says above its verdict of the rules that it is under, with these counts of messages: nothing,
/// where there are none.
#[derive(Clone, Copy)]
pub(crate) struct RulesSection<'a>(pub &'a Rules, pub &'a [u64]);

impl<'a> Part for RulesSection<'a> {
    ghost use Rattle.trace_report.specs.RuleWords.{rules_text};

    ghost text = { λ section. rules_text section.0.now section.1.now };

    fn say<S: TextSink>(self, out: &mut S) {
        let rules = self.0.as_slice();
        if !rules.is_empty() {
            say(
                out,
                (
                    RulesStart(rules.len() as u64),
                    RuleLines(rules, self.1),
                    RulesEnd,
                ),
            );
        }
    }
}

/// The start of what a page says of so many rules.
#[derive(Clone, Copy)]
pub struct RulesStart(pub u64);

impl Part for RulesStart {
    ghost use Rattle.trace_report.specs.RuleWords.{rules_start};

    ghost text = { λ start. rules_start start.0 };

    fn say<S: TextSink>(self, out: &mut S) {
        say(
            out,
            (
                "<section id=\"rules\">\n<h2>Under ",
                RulesWord(self.0),
                "</h2>\n",
                "<p>Messages that begin so are left out, or masked, before anything else is made of them: <code>..</code> is a masked byte, and <code>*</code> stands where what follows, if anything, is cut off.</p>\n<ul>\n",
            ),
        );
    }
}

/// The end of it.
#[derive(Clone, Copy)]
pub struct RulesEnd;

impl Part for RulesEnd {
    ghost use Rattle.trace_report.specs.RuleWords.{rules_end};

    ghost text = { λ end. rules_end };

    fn say<S: TextSink>(self, out: &mut S) {
        say(out, "</ul>\n</section>\n");
    }
}

/// So many rules.
#[derive(Clone, Copy)]
pub struct RulesWord(pub u64);

impl Part for RulesWord {
    ghost use Rattle.trace_report.specs.RuleWords.{rules_word};

    ghost text = { λ word. rules_word word.0 };

    fn say<S: TextSink>(self, out: &mut S) {
        let several = (Number(self.0), " rules");
        say(out, Either(self.0 == 1, "1 rule", several));
    }
}

/// Each rule in its order, and of how many messages of the log it spoke.
#[derive(Clone, Copy)]
struct RuleLines<'a>(&'a [Rule], &'a [u64]);

impl<'a> Part for RuleLines<'a> {
    ghost use Rattle.trace_report.specs.RuleWords.{rule_lines};

    ghost text = { λ lines. rule_lines lines.0.now lines.1.now };

    fn say<S: TextSink>(self, out: &mut S) {
        let RuleLines(rules, counts) = self;
        let mut left = rules;
        let mut rest = counts;
        'rules: while let Some((rule, behind)) = left.split_first() {
            let Some((count, others)) = rest.split_first() else {
                return;
            };
            say(out, RuleLine(rule, *count));
            left = behind;
            rest = others;
        }
    }
}

/// A rule, and of how many messages of the log it spoke.
#[derive(Clone, Copy)]
struct RuleLine<'a>(&'a Rule, u64);

impl<'a> Part for RuleLine<'a> {
    ghost use Rattle.trace_report.specs.RuleWords.{rule_line};

    ghost text = { λ line. rule_line line.0.now line.1 };

    fn say<S: TextSink>(self, out: &mut S) {
        let RuleLine(rule, count) = self;
        say(
            out,
            (
                "<li><code>",
                RuleText(rule),
                "</code>: ",
                MessagesWord(count),
                "\n",
            ),
        );
    }
}

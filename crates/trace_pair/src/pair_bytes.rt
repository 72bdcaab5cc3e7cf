//! Two items that changed, one above the other.

ghost use Rattle.std.specs.Prelude.{◌≡◌};
ghost use Rattle.trace_report.specs.Items.{item_of};
ghost use Rattle.trace_pair.specs.ItemRows as Spec;
ghost use Rattle.trace_pair.specs.ItemRows.{both_bytes, outcome_by};

use crate::outcome::{Outcome, OutcomeMark, came_of, same_outcome};
use crate::parted_roles::PartedRoleWords;
use crate::told_items::ToldAnswer;
use byte_columns::ByteColumns;
use pair_words::{LetterMark, PairLog, ShownLogs, have_word, say_columns};
use shown_bytes::Data;
use text_parts::{Either, Part, When, say};
use trace_io::TextSink;
use trace_report::{PlacedItem, RowMessage, is_request_role};
use uds_rules::Rules;

/// Two items that changed: what is the same once, what differs byte under byte, and other outcomes in lines of their
/// own.
#[derive(Clone, Copy)]
pub(crate) struct ToldPair<'a>(pub &'a Rules, pub PlacedItem<'a>, pub PlacedItem<'a>);

impl<'a> Part for ToldPair<'a> {
    ghost use Rattle.trace_report.specs.Items.{item_of};
    ghost use Rattle.trace_pair.specs.ItemRows.{told_pair};

    ghost text = { λ pair. told_pair pair.0.now (item_of pair.1) (item_of pair.2) };

    fn say<S: TextSink>(self, out: &mut S) {
        let ToldPair(rules, one, other) = self;
        let answers = Answers(rules, one, other);
        let same = same_outcome(outcome_by(one), outcome_by(other));
        say(
            out,
            (
                OfBoth(rules, one.begin, other.begin),
                When(
                    is_request_role(one.begin.sent.role),
                    Either(
                        same,
                        (" &#8594; ", SameOutcomes(answers)),
                        OtherOutcomes(answers),
                    ),
                ),
            ),
        );
    }
}

/// What came of the request that begins an item.
pub(crate) fn outcome_by(item: PlacedItem<'_>) -> Outcome
    ensures { result ≡ outcome_by (item_of item.entry).begin.bytes (item_of item.entry).answer }
{
    match item.answer {
        Some(reply) => came_of(item.begin.bytes, Some(reply.bytes)),
        None => came_of(item.begin.bytes, None),
    }
}

/// A message of two items, once where it is the same in both.
#[derive(Clone, Copy)]
struct OfBoth<'a>(&'a Rules, RowMessage<'a>, RowMessage<'a>);

impl<'a> Part for OfBoth<'a> {
    ghost use Rattle.trace_report.specs.Items.{message_of};
    ghost use Rattle.trace_pair.specs.ItemRows.{message_of_both};

    ghost text = { λ both. message_of_both both.0.now (message_of both.1) (message_of both.2) };

    fn say<S: TextSink>(self, out: &mut S) {
        let OfBoth(rules, one, other) = self;
        say(out, PartedRoleWords(one.sent.role, one.sent.dir, one.bytes));
        if one.bytes == other.bytes {
            say(
                out,
                Data {
                    rules,
                    message: one.bytes,
                },
            );
        } else {
            say_both_bytes(rules, one.bytes, other.bytes, out);
        }
    }
}

/// Says two messages that differ: byte under byte, and as text, too, where one of them may be text; but where rules
/// mask one of them, each in a line of its own.
fn say_both_bytes<S: TextSink>(rules: &Rules, one: &[u8], other: &[u8], out: &mut S)
    ensures { S.says out.old (both_bytes rules.now one.now other.now) out.new }
{
    if are_masked(rules, one, other) {
        say(
            out,
            (
                "<div class=\"hx out\">",
                MessageLine(rules, PairLog::A, one),
                MessageLine(rules, PairLog::B, other),
                "</div>",
            ),
        );
    } else {
        let columns = ByteColumns::of(one, other);
        say_columns(ShownLogs::Both, have_word(one, other), &columns, out);
    }
}

/// Whether rules mask one of two messages that they have left.
pub(crate) fn are_masked(rules: &Rules, one: &[u8], other: &[u8]) -> bool
    ensures { result ≡ Spec.are_masked rules.now one.now other.now }
{
    rules.mask_of(one).is_some() || rules.mask_of(other).is_some()
}

/// The message of a log in a line of its own.
#[derive(Clone, Copy)]
struct MessageLine<'a>(&'a Rules, PairLog, &'a [u8]);

impl<'a> Part for MessageLine<'a> {
    ghost use Rattle.trace_pair.specs.ItemRows.{message_line};

    ghost text = { λ line. message_line line.0.now line.1 line.2.now };

    fn say<S: TextSink>(self, out: &mut S) {
        let MessageLine(rules, log, message) = self;
        let shown = Data { rules, message };
        say(out, ("<div>", LetterMark(log), shown, "</div>"));
    }
}

/// The answers of two exchanges, under these rules.
#[derive(Clone, Copy)]
struct Answers<'a>(&'a Rules, PlacedItem<'a>, PlacedItem<'a>);

/// The answers of two exchanges that have the same outcome: byte under byte.
#[derive(Clone, Copy)]
struct SameOutcomes<'a>(Answers<'a>);

impl<'a> Part for SameOutcomes<'a> {
    ghost use Rattle.trace_report.specs.Items.{item_of};
    ghost use Rattle.trace_pair.specs.ItemRows.{same_outcomes};

    ghost text = { λ pair. same_outcomes pair.0.0.now (item_of pair.0.1).begin.bytes (item_of pair.0.1).answer (item_of pair.0.2).answer };

    fn say<S: TextSink>(self, out: &mut S) {
        let Answers(rules, one, other) = self.0;
        match (one.answer, other.answer) {
            (Some(answer), Some(reply)) => say(out, OfBoth(rules, answer, reply)),
            (None, _) | (Some(_), None) => {
                say(out, ToldAnswer(rules, one.begin.bytes, one.answer))
            }
        }
    }
}

/// The answers of two exchanges that have other outcomes: each in a line of its own, where the outcome has a mark.
#[derive(Clone, Copy)]
struct OtherOutcomes<'a>(Answers<'a>);

impl<'a> Part for OtherOutcomes<'a> {
    ghost use Rattle.trace_report.specs.Items.{item_of};
    ghost use Rattle.trace_pair.specs.ItemRows.{other_outcomes};

    ghost text = { λ pair. other_outcomes pair.0.0.now (item_of pair.0.1).begin.bytes (item_of pair.0.1).answer (item_of pair.0.2).begin.bytes (item_of pair.0.2).answer };

    fn say<S: TextSink>(self, out: &mut S) {
        let Answers(rules, one, other) = self.0;
        say(
            out,
            (
                "<div class=\"hx out\">",
                OutcomeLine(rules, PairLog::A, one),
                OutcomeLine(rules, PairLog::B, other),
                "</div>",
            ),
        );
    }
}

/// The outcome of an exchange in one log, with a mark, and the bytes of its answer.
#[derive(Clone, Copy)]
struct OutcomeLine<'a>(&'a Rules, PairLog, PlacedItem<'a>);

impl<'a> Part for OutcomeLine<'a> {
    ghost use Rattle.trace_report.specs.Items.{item_of};
    ghost use Rattle.trace_pair.specs.ItemRows.{outcome_line};

    ghost text = { λ line. outcome_line line.0.now line.1 (item_of line.2).begin.bytes (item_of line.2).answer };

    fn say<S: TextSink>(self, out: &mut S) {
        let OutcomeLine(rules, log, item) = self;
        say(
            out,
            (
                "<div>",
                LetterMark(log),
                "&#8594; <mark>",
                OutcomeMark(outcome_by(item)),
                "</mark>",
                AnswerData(rules, item.answer),
                "</div>",
            ),
        );
    }
}

/// The bytes of an answer, if there is one, behind what it is.
#[derive(Clone, Copy)]
struct AnswerData<'a>(&'a Rules, Option<RowMessage<'a>>);

impl<'a> Part for AnswerData<'a> {
    ghost use Rattle.std.specs.Prelude.{option_map};
    ghost use Rattle.trace_report.specs.Items.{message_of};
    ghost use Rattle.trace_pair.specs.ItemRows.{answer_data};

    ghost text = { λ answer. answer_data answer.0.now (option_map message_of answer.1) };

    fn say<S: TextSink>(self, out: &mut S) {
        let AnswerData(rules, answer) = self;
        if let Some(reply) = answer {
            let shown = Data {
                rules,
                message: reply.bytes,
            };
            say(out, (" ", shown));
        }
    }
}

//! How two items differ, in words.

ghost use Rattle.std.specs.Prelude.{Some};
ghost use Rattle.trace_pair.specs.ItemWords.{answer_bytes};

use crate::outcome::{Outcome, OutcomesDiffer, came_of, same_outcome};
use pair_words::ByteWords;
use text_parts::{Part, say};
use trace_io::TextSink;
use uds_exchange::Item;
use uds_rules::Rules;

/// How two items of one service differ: in the request, in the answer, or in both.
#[derive(Clone, Copy)]
pub(crate) struct DifferWords<'a>(pub &'a Rules, pub Item<'a>, pub Item<'a>);

impl<'a> Part for DifferWords<'a> {
    ghost use Rattle.uds_exchange.specs.ItemSeen.{item_value};
    ghost use Rattle.trace_pair.specs.ItemWords.{differ};

    ghost text = { λ items. differ items.0.now (item_value items.1) (item_value items.2) };

    fn say<S: TextSink>(self, out: &mut S) {
        let DifferWords(rules, one, other) = self;
        match (one, other) {
            (
                Item::Exchange { request, answer },
                Item::Exchange {
                    request: asked,
                    answer: reply,
                },
            ) => {
                let left_outcome = came_of(request, answer);
                let right_outcome = came_of(asked, reply);
                if request == asked {
                    say(
                        out,
                        AnswersDiffer {
                            rules,
                            before: "",
                            one: left_outcome,
                            other: right_outcome,
                            answer,
                            reply,
                        },
                    );
                } else {
                    say(
                        out,
                        (
                            "request",
                            ByteWords(rules, request, asked),
                            AnswersDiffer {
                                rules,
                                before: "; ",
                                one: left_outcome,
                                other: right_outcome,
                                answer,
                                reply,
                            },
                        ),
                    );
                }
            }
            (Item::Stray { bytes, .. }, Item::Stray { bytes: others, .. }) => say(
                out,
                ("message", ByteWords(rules, bytes, others)),
            ),
            (Item::Exchange { .. }, Item::Stray { .. })
            | (Item::Stray { .. }, Item::Exchange { .. }) => {}
        }
    }
}

/// How the answers of two exchanges differ, behind what stands before: in what came of the request, or else in bytes.
#[derive(Clone, Copy)]
struct AnswersDiffer<'a> {
    rules: &'a Rules,
    before: &'static str,
    one: Outcome,
    other: Outcome,
    answer: Option<&'a [u8]>,
    reply: Option<&'a [u8]>,
}

impl<'a> Part for AnswersDiffer<'a> {
    ghost use Rattle.std.specs.Prelude.{option_map};
    ghost use Rattle.trace_pair.specs.ItemWords.{answers_differ};

    ghost text = { λ words. answers_differ words.rules.now words.before.now words.one words.other (option_map (λ answer. answer.now) words.answer) (option_map (λ reply. reply.now) words.reply) };

    fn say<S: TextSink>(self, out: &mut S) {
        let AnswersDiffer {
            rules,
            before,
            one,
            other,
            answer,
            reply,
        } = self;
        if same_outcome(one, other) {
            if let (Some(answer), Some(reply)) = (answer, reply) {
                say_answer_bytes(rules, before, answer, reply, out);
            }
        } else {
            say(out, (before, OutcomesDiffer(one, other)));
        }
    }
}

/// Says at which bytes two answers differ, where they do.
fn say_answer_bytes<S: TextSink>(
    rules: &Rules,
    before: &'static str,
    answer: &[u8],
    reply: &[u8],
    out: &mut S,
)
    ensures { S.says out.old (answer_bytes rules.now before.now (Some answer.now) (Some reply.now)) out.new }
{
    if answer != reply {
        say(out, (before, "answer", ByteWords(rules, answer, reply)));
    }
}

//! The text of a meaning under rules, said item by item.
ghost use Rattle.uds_exchange.specs.ItemSeen.{item_value};
ghost use Rattle.trace_text.specs.ItemLines.{item_line, list_text, worded_line};

use crate::item_objects::say_item_object_line;
use crate::item_style::{ItemStyle, Numbering};
use crate::name_parts::{ResponseCode, Sender, ServiceName};
use crate::notation::Notation;
use crate::numbers::Number;
use crate::ruled_bytes::RuledBytes;
use text_parts::{Part, say};
use trace_io::TextSink;
use uds_exchange::{Item, Meaning};
use uds_message::{is_negative_response, is_suppressing, response_code, sid};
use uds_rules::Rules;

/// Says the line of each item, in order.
pub fn say_items<S: TextSink>(meaning: &Meaning, style: ItemStyle, rules: &Rules, out: &mut S)
    ensures { S.says out.old (list_text rules.now style meaning.now) out.new }
{
    'items: for i in 0..meaning.len() {
        if let Some(item) = meaning.item(i) {
            say_item_line(i as u64 + 1, style, rules, item, out);
        }
    }
}

/// Says the line of an item, which has this number.
pub fn say_item_line<S: TextSink>(
    number: u64,
    style: ItemStyle,
    rules: &Rules,
    item: Item<'_>,
    out: &mut S,
)
    ensures { S.says out.old (item_line rules.now style number (item_value item.entry)) out.new }
{
    match style.notation {
        Notation::Text => say_worded_line(number, style.numbering, rules, item, out),
        Notation::Json => say_item_object_line(number, style.numbering, rules, item, out),
    }
}

/// Says the line of an item in words.
pub fn say_worded_line<S: TextSink>(
    number: u64,
    numbering: Numbering,
    rules: &Rules,
    item: Item<'_>,
    out: &mut S,
)
    ensures { S.says out.old (worded_line rules.now numbering number (item_value item.entry)) out.new }
{
    say(
        out,
        (
            ItemNumber { number, numbering },
            ItemWords { rules, item },
            "\n",
        ),
    );
}

/// The number of an item, where it is shown.
#[derive(Clone, Copy)]
struct ItemNumber {
    number: u64,
    numbering: Numbering,
}

impl Part for ItemNumber {
    ghost use Rattle.trace_text.specs.ItemLines.{number_text};

    ghost text = { λ number. number_text number.numbering number.number };

    #[inline(always)]
    fn say<S: TextSink>(self, out: &mut S) {
        match self.numbering {
            Numbering::Shown => say(out, (Number(self.number), " ")),
            Numbering::Hidden => {}
        }
    }
}

/// What an item is.
#[derive(Clone, Copy)]
struct ItemWords<'a> {
    rules: &'a Rules,
    item: Item<'a>,
}

impl<'a> Part for ItemWords<'a> {
    ghost use Rattle.uds_exchange.specs.ItemSeen.{item_value};
    ghost use Rattle.trace_text.specs.ItemLines.{item_text};

    ghost text = { λ words. item_text words.rules.now (item_value words.item) };

    #[inline(always)]
    fn say<S: TextSink>(self, out: &mut S) {
        let rules = self.rules;
        match self.item {
            Item::Exchange { request, answer } => say(
                out,
                (
                    "exchange ",
                    ServiceName(sid(request)),
                    " ",
                    RuledBytes {
                        rules,
                        message: request,
                    },
                    " -> ",
                    RequestOutcome {
                        rules,
                        request,
                        answer,
                    },
                ),
            ),
            Item::Stray { dir, bytes } => say(
                out,
                (
                    "stray ",
                    Sender(dir),
                    " ",
                    RuledBytes {
                        rules,
                        message: bytes,
                    },
                ),
            ),
        }
    }
}

/// What came of a request.
#[derive(Clone, Copy)]
struct RequestOutcome<'a> {
    rules: &'a Rules,
    request: &'a [u8],
    answer: Option<&'a [u8]>,
}

impl<'a> Part for RequestOutcome<'a> {
    ghost use Rattle.std.specs.Prelude.{option_map};
    ghost use Rattle.trace_text.specs.ItemLines.{outcome_text};

    ghost text = { λ outcome. outcome_text outcome.rules.now outcome.request.now
        (option_map (λ reply. reply.now) outcome.answer) };

    #[inline(always)]
    fn say<S: TextSink>(self, out: &mut S) {
        match self.answer {
            None if is_suppressing(self.request) => say(out, "silent"),
            None => say(out, "unanswered"),
            Some(reply) => say(
                out,
                WordedAnswer {
                    rules: self.rules,
                    reply,
                },
            ),
        }
    }
}

/// The answer to a request, in words.
#[derive(Clone, Copy)]
struct WordedAnswer<'a> {
    rules: &'a Rules,
    reply: &'a [u8],
}

impl<'a> Part for WordedAnswer<'a> {
    ghost use Rattle.trace_text.specs.ItemLines.{answer_text};

    ghost text = { λ answer. answer_text answer.rules.now answer.reply.now };

    #[inline(always)]
    fn say<S: TextSink>(self, out: &mut S) {
        let WordedAnswer { rules, reply } = self;
        let bytes = RuledBytes {
            rules,
            message: reply,
        };
        if is_negative_response(reply) {
            say(
                out,
                ("negative ", ResponseCode(response_code(reply)), " ", bytes),
            );
        } else {
            say(out, ("positive ", bytes));
        }
    }
}

//! The items of a meaning under rules as objects of JSON. What is said at once goes from one value to the next, quotes
//! included, since each piece more takes longer to say.
//!
//! So an object is cut amid its quotes, in an `OpenObject`, which has an `ObjectFront` and an `OpenItem`, and the quote
//! and the brace that end each object:
//!
//! ```text
//! {"item":3,"kind":"exchange","service":"..","request":"22F190","outcome":"positive","answer":"62F190"}
//! <- ObjectFront --><----------------------------------- OpenItem ---------------------------------->
//!                                                             <-- OpenOutcome, here an OpenAnswer -->
//! <------------------------------------------- OpenObject ------------------------------------------>
//! ```
ghost use Rattle.std.specs.Prelude.{◌++◌};
ghost use Rattle.uds_exchange.specs.ItemSeen.{item_value};
ghost use Rattle.trace_text.specs.Json.{object, object_line, value_text};
ghost use Rattle.trace_text.specs.ItemLines.{item_object};
ghost use Rattle.trace_text.specs.proving.OpenItems.{open_object};

use crate::item_style::Numbering;
use crate::name_parts::{ResponseCode, Sender, ServiceName};
use crate::numbers::Number;
use crate::ruled_bytes::RuledBytes;
use text_parts::{Either, Part, say};
use trace_io::TextSink;
use uds_echo::answers_other;
use uds_exchange::Item;
use uds_message::{is_negative_response, is_suppressing, response_code, sid};
use uds_rules::Rules;

/// Says an item, which has this number, as an object of JSON, without the end of its line.
pub fn say_item_object<S: TextSink>(
    number: u64,
    numbering: Numbering,
    rules: &Rules,
    item: Item<'_>,
    out: &mut S,
)
    ensures { S.says out.old
        (value_text (object (item_object rules.now numbering number (item_value item.entry)))) out.new }
{
    say_closed(number, numbering, rules, item, "\"}", out);
}

/// Says an item, which has this number, as an object of JSON in a line of its own.
pub(crate) fn say_item_object_line<S: TextSink>(
    number: u64,
    numbering: Numbering,
    rules: &Rules,
    item: Item<'_>,
    out: &mut S,
)
    ensures { S.says out.old (object_line (item_object rules.now numbering number (item_value item.entry))) out.new }
{
    say_closed(number, numbering, rules, item, "\"}\n", out);
}

/// Says an object up to its last quote, and then this end.
#[inline(always)]
fn say_closed<S: TextSink>(
    number: u64,
    numbering: Numbering,
    rules: &Rules,
    item: Item<'_>,
    end: &str,
    out: &mut S,
)
    ensures { S.says out.old (open_object rules.now numbering number (item_value item.entry) ++ end.now) out.new }
{
    let open = OpenObject {
        number,
        numbering,
        rules,
        item,
    };
    say(out, (open, end));
}

/// The object up to the quote and the brace that end it, whatever the item is.
#[derive(Clone, Copy)]
struct OpenObject<'a> {
    number: u64,
    numbering: Numbering,
    rules: &'a Rules,
    item: Item<'a>,
}

impl<'a> Part for OpenObject<'a> {
    ghost use Rattle.uds_exchange.specs.ItemSeen.{item_value};
    ghost use Rattle.trace_text.specs.proving.OpenItems.{open_object};

    ghost text = { λ object. open_object object.rules.now object.numbering object.number (item_value object.item) };

    #[inline(never)]
    fn say<S: TextSink>(self, out: &mut S) {
        let front = ObjectFront {
            number: self.number,
            numbering: self.numbering,
        };
        let item = OpenItem {
            rules: self.rules,
            item: self.item,
        };
        say(out, (front, item));
    }
}

/// The front of the object, with the number where it is shown, up to the word of its kind.
#[derive(Clone, Copy)]
struct ObjectFront {
    number: u64,
    numbering: Numbering,
}

impl Part for ObjectFront {
    ghost use Rattle.trace_text.specs.proving.OpenItems.{front_of_item};

    ghost text = { λ front. front_of_item front.numbering front.number };

    #[inline(always)]
    fn say<S: TextSink>(self, out: &mut S) {
        match self.numbering {
            Numbering::Shown => say(out, ("{\"item\":", Number(self.number), ",\"kind\":\"")),
            Numbering::Hidden => say(out, "{\"kind\":\""),
        }
    }
}

/// What an item is, from the word of its kind on.
#[derive(Clone, Copy)]
struct OpenItem<'a> {
    rules: &'a Rules,
    item: Item<'a>,
}

impl<'a> Part for OpenItem<'a> {
    ghost use Rattle.uds_exchange.specs.ItemSeen.{item_value};
    ghost use Rattle.trace_text.specs.proving.OpenItems.{open_item};

    ghost text = { λ words. open_item words.rules.now (item_value words.item) };

    #[inline(always)]
    fn say<S: TextSink>(self, out: &mut S) {
        let rules = self.rules;
        match self.item {
            Item::Exchange { request, answer } => say(
                out,
                (
                    "exchange\",\"service\":\"",
                    ServiceName(sid(request)),
                    "\",\"request\":\"",
                    RuledBytes {
                        rules,
                        message: request,
                    },
                    OpenOutcome {
                        rules,
                        request,
                        answer,
                    },
                ),
            ),
            Item::Stray { dir, bytes } => say(
                out,
                (
                    "stray\",\"direction\":\"",
                    Sender(dir),
                    "\",\"message\":\"",
                    RuledBytes {
                        rules,
                        message: bytes,
                    },
                ),
            ),
        }
    }
}

/// What came of a request, from the quote behind it on.
#[derive(Clone, Copy)]
struct OpenOutcome<'a> {
    rules: &'a Rules,
    request: &'a [u8],
    answer: Option<&'a [u8]>,
}

impl<'a> Part for OpenOutcome<'a> {
    ghost use Rattle.std.specs.Prelude.{option_map};
    ghost use Rattle.trace_text.specs.proving.OpenItems.{open_outcome};

    ghost text = { λ outcome. open_outcome outcome.rules.now outcome.request.now
        (option_map (λ reply. reply.now) outcome.answer) };

    #[inline(always)]
    fn say<S: TextSink>(self, out: &mut S) {
        match self.answer {
            None if is_suppressing(self.request) => say(out, "\",\"outcome\":\"silent"),
            None => say(out, "\",\"outcome\":\"unanswered"),
            Some(reply) => say(
                out,
                OpenAnswer {
                    rules: self.rules,
                    request: self.request,
                    reply,
                },
            ),
        }
    }
}

/// The answer to a request, from the quote behind the request on.
#[derive(Clone, Copy)]
struct OpenAnswer<'a> {
    rules: &'a Rules,
    request: &'a [u8],
    reply: &'a [u8],
}

impl<'a> Part for OpenAnswer<'a> {
    ghost use Rattle.trace_text.specs.proving.OpenItems.{open_answer};

    ghost text = { λ answer. open_answer answer.rules.now answer.request.now answer.reply.now };

    #[inline(always)]
    fn say<S: TextSink>(self, out: &mut S) {
        let OpenAnswer {
            rules,
            request,
            reply,
        } = self;
        let bytes = RuledBytes {
            rules,
            message: reply,
        };
        if is_negative_response(reply) {
            say(
                out,
                (
                    "\",\"outcome\":\"negative\",\"code\":\"",
                    ResponseCode(response_code(reply)),
                    "\",\"answer\":\"",
                    bytes,
                ),
            );
        } else {
            let is_other = answers_other(rules, request, reply);
            say(
                out,
                (
                    Either(
                        is_other,
                        "\",\"outcome\":\"positive\",\"echo\":false,\"answer\":\"",
                        "\",\"outcome\":\"positive\",\"answer\":\"",
                    ),
                    bytes,
                ),
            );
        }
    }
}

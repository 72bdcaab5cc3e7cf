//! The rows of messages, and of items without an answer, in blocks that are folded at first: one line of words each,
//! without a shape.

ghost use Rattle.trace_report.specs.BriefRows.{brief_message, brief_missing, brief_no_answer};

use crate::message_rows::{MessageFront, say_message_row};
use crate::message_words::After;
use crate::missing_rows::{NoAnswerFront, say_missing_row, say_no_answer_row};
use crate::roles::MessageRole;
use crate::row::{MessagePlace, Missing, SentMessage, Silence};
use crate::sorts::{message_needs_attention, silence_needs_attention};
use crate::targets::Side;
use direction::Dir;
use shown_bytes::BriefData;
use text_parts::{Part, When, say};
use trace_io::TextSink;
use trace_text::{Number, ServiceName};
use uds_message::sid;
use uds_rules::Rules;

/// Says the row of a message that rules have left in a block of brief rows: what needs attention has its full row
/// there, too.
pub(crate) fn say_brief_message<S: TextSink>(
    rules: &Rules,
    origin: u64,
    sent: SentMessage,
    message: &[u8],
    out: &mut S,
)
    ensures { S.says out.old (brief_message rules.now origin sent.role sent.dir sent.place message.now) out.new }
{
    let SentMessage { role, dir, place } = sent;
    if message_needs_attention(role) {
        say_message_row(rules, origin, sent, message, out);
    } else {
        let words = BriefWords {
            rules,
            role,
            place,
            message,
        };
        say(
            out,
            (
                MessageFront {
                    linked: true,
                    origin,
                    role,
                    place,
                },
                "<td class=\"",
                Side(dir),
                "\">",
                words,
                "\n",
            ),
        );
    }
}

/// The words of a brief row, of a message that needs no attention.
#[derive(Clone, Copy)]
struct BriefWords<'a> {
    rules: &'a Rules,
    role: MessageRole,
    place: MessagePlace,
    message: &'a [u8],
}

impl<'a> Part for BriefWords<'a> {
    ghost use Rattle.trace_report.specs.BriefRows.{brief_words};

    ghost text = { λ words. brief_words words.rules.now words.role words.place words.message.now };

    fn say<S: TextSink>(self, out: &mut S) {
        let BriefWords {
            rules,
            role,
            place,
            message,
        } = self;
        let data = BriefData { rules, message };
        let functional = When(place.is_functional, "functional ");
        let first = place.first.micros;
        match role {
            MessageRole::Request => say(
                out,
                (
                    ServiceName(sid(message)),
                    " request ",
                    functional,
                    data,
                    " &#8594;",
                ),
            ),
            MessageRole::Positive { asked } => say(
                out,
                ("&#8592; positive ", data, " ", After(asked, first)),
            ),
            MessageRole::Pending { asked } => say(
                out,
                ("&#8592; pending ", data, " ", After(asked, first)),
            ),
            MessageRole::KeepAlive => say(out, ("keep-alive ", functional, data, " &#8594;")),
            MessageRole::Negative { .. } | MessageRole::Stray => {}
        }
    }
}

/// Says the row of what is missing in a block of brief rows, to which links lead.
pub(crate) fn say_brief_missing<S: TextSink>(origin: u64, missing: Missing, out: &mut S)
    ensures { S.says out.old (brief_missing origin missing) out.new }
{
    match missing {
        Missing::NoAnswer { number, silence } => say_brief_no_answer(number, silence, out),
        Missing::Dropped { .. } | Missing::Ended { .. } | Missing::Unfinished { .. } =>
            say_missing_row(true, origin, missing, out),
    }
}

/// Says the row of an item without an answer in a block of brief rows: one that needs attention has its full row there,
/// too.
fn say_brief_no_answer<S: TextSink>(number: u64, silence: Silence, out: &mut S)
    ensures { S.says out.old (brief_no_answer number silence) out.new }
{
    if silence_needs_attention(silence) {
        say_no_answer_row(number, silence, out);
    } else {
        say(
            out,
            (
                NoAnswerFront(number, silence),
                "<td class=\"",
                Side(Dir::Unit),
                "\">",
                BriefSilence(number, silence),
                "\n",
            ),
        );
    }
}

/// The words of the brief row of an item without an answer, which needs no attention.
#[derive(Clone, Copy)]
struct BriefSilence(u64, Silence);

impl Part for BriefSilence {
    ghost use Rattle.trace_report.specs.BriefRows.{brief_silence};

    ghost text = { λ words. brief_silence words.0 words.1 };

    fn say<S: TextSink>(self, out: &mut S) {
        let BriefSilence(number, silence) = self;
        let item = Number(number);
        match silence {
            Silence::Suppressed => say(
                out,
                ("silent: item ", item, " asked for no positive answer"),
            ),
            Silence::ToAllUnits => say(
                out,
                ("no answer to item ", item, ", which went to all units"),
            ),
            Silence::Unanswered => {}
        }
    }
}

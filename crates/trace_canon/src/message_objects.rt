//! The line of a message as an object of JSON.

ghost use Rattle.std.specs.Prelude.{option_map};
ghost use Rattle.trace_text.specs.Json.{object_line};
ghost use Rattle.trace_canon.specs.MessagesScript.{judged_at, placed_members, reply_value};

use crate::message_parts::{FrameExtent, ReplyMembers, ToldReply};
use text_parts::{When, say};
use trace_io::TextSink;
use trace_text::{Number, Role, RuledBytes, Sender, Stamp};
use uds_exchange::Judged;
use uds_rules::Rules;

/// Says the line of a message, from its first frame to its last one, as an object, with what is told of it as a reply.
pub(crate) fn say_message_object<S: TextSink>(
    rules: &Rules,
    message: &Judged<'_>,
    extent: FrameExtent,
    reply: Option<ToldReply>,
    out: &mut S,
)
    ensures { S.says out.old
        (object_line (placed_members rules.now (judged_at message.now extent) (option_map reply_value reply))) out.new }
{
    say(
        out,
        (
            (
                "{\"item\":",
                Number(message.item_number),
                ",\"role\":\"",
                Role(message.step),
                "\",\"direction\":\"",
                Sender(message.dir),
            ),
            (
                "\",\"first_line\":",
                Number(extent.first.line),
                ",\"last_line\":",
                Number(extent.last.line),
            ),
            (
                ",\"start\":\"",
                Stamp(extent.first.micros),
                "\",\"end\":\"",
                Stamp(extent.last.micros),
            ),
            (
                "\"",
                ReplyMembers {
                    reply,
                    began: extent.first.micros,
                },
                When(extent.is_functional, ",\"functional\":true"),
                ",\"message\":\"",
                RuledBytes {
                    rules,
                    message: message.bytes,
                },
                "\"}\n",
            ),
        ),
    );
}

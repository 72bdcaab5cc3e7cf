//! The rows of a report that tell messages.

ghost use Rattle.std.specs.Prelude.{◌≡◌, ◌&&◌};
ghost use Rattle.trace_report.specs.MessageRows.{message_row};

use crate::cells::{Arrow, CellEnd, CellFront, RowFront};
use crate::durations::Seconds;
use crate::message_words::{FunctionalWord, Note, RoleWords};
use crate::roles::{MessageRole, begins_item};
use crate::row::{MessagePlace, SentMessage};
use crate::targets::{LinkTarget, target_if};
use shown_bytes::{Data, known_length};
use text_parts::{Either, Part, say};
use trace_io::TextSink;
use trace_text::Number;
use uds_rules::Rules;

/// Says the row of a message that rules have left, in a page whose first frame has the time `origin`.
pub(crate) fn say_message_row<S: TextSink>(
    rules: &Rules,
    origin: u64,
    sent: SentMessage,
    message: &[u8],
    out: &mut S,
)
    ensures { S.says out.old (message_row rules.now origin sent.role sent.dir sent.place message.now) out.new }
{
    say(
        out,
        MessageRow {
            linked: true,
            origin,
            sent,
            words: RoleWords(sent.role, sent.dir, message),
            bytes: Data { rules, message },
            count: known_length(rules, message),
        },
    );
}

/// The row of a message, to which links lead or not: with these words of what it is, its bytes as they are shown, and how
/// many it has, where that is known. A word more in the last cell is one line here, and one of `shown_row`.
#[derive(Clone, Copy)]
pub struct MessageRow<W, B> {
    pub linked: bool,
    pub origin: u64,
    pub sent: SentMessage,
    pub words: W,
    pub bytes: B,
    pub count: Option<u64>,
}

impl<W: Part, B: Part> Part for MessageRow<W, B> {
    ghost use Rattle.trace_report.specs.MessageRows.{shown_row};

    ghost text = { λ row. shown_row (record {
      linked = row.linked;
      origin = row.origin;
      is = row.sent.role;
      d = row.sent.dir;
      place = row.sent.place;
      words = W.text row.words;
      bytes = B.text row.bytes;
      count = row.count;
    }) };

    fn say<S: TextSink>(self, out: &mut S) {
        let MessageRow {
            linked,
            origin,
            sent,
            words,
            bytes,
            count,
        } = self;
        let SentMessage { role, dir, place } = sent;
        say(
            out,
            (
                MessageFront {
                    linked,
                    origin,
                    role,
                    place,
                },
                CellFront(dir),
                words,
                FunctionalWord(place.is_functional),
                bytes,
                Note(role, place, count),
                CellEnd(dir, Arrow::Headed),
            ),
        );
    }
}

/// Where a message stands, as a row to which links lead or not.
#[derive(Clone, Copy)]
pub(crate) struct MessageFront {
    pub linked: bool,
    pub origin: u64,
    pub role: MessageRole,
    pub place: MessagePlace,
}

impl Part for MessageFront {
    ghost use Rattle.trace_report.specs.MessageRows.{message_front};

    ghost text = { λ front. message_front front.linked front.origin front.role front.place };

    fn say<S: TextSink>(self, out: &mut S) {
        let MessageFront {
            linked,
            origin,
            role,
            place,
        } = self;
        let begins = begins_item(role);
        let is_place = is_item_place(linked, begins);
        let number = Number(place.item);
        say(
            out,
            RowFront {
                class: RoleClass(role),
                target: target_if(is_place, LinkTarget::Item(place.item)),
                item: Either(begins, ("<th scope=\"row\">", number), ("<td>", number)),
                lines: Lines(place.first.line, place.last.line),
                time: Seconds(origin, place.last.micros),
            },
        );
    }
}

/// Whether links lead as to an item to the row of a message, which begins one or does not. A call of its own, so that a
/// proof can name the test.
fn is_item_place(linked: bool, begins: bool) -> bool
    ensures { result ≡ (linked && begins) }
{
    linked && begins
}

/// The class of the style by which a message is shown. The other rows have some, too:
///
/// | Class | Rows | How they are shown |
/// |---|---|---|
/// | `q` | a request | the tester's colour |
/// | `ok` | a positive answer | the unit's colour |
/// | `p` | a pending reply, a keep-alive; an item that asked for no positive answer | grey |
/// | `n` | a negative answer | red |
/// | `m`, `x` | no answer; what was dropped, ended or stands unfinished | red, with a dashed arrow |
/// | `s` | a stray | the colour of a warning |
#[derive(Clone, Copy)]
struct RoleClass(MessageRole);

impl Part for RoleClass {
    ghost use Rattle.trace_report.specs.MessageRows.{role_class};

    ghost text = { λ class. role_class class.0 };

    fn say<S: TextSink>(self, out: &mut S) {
        match self.0 {
            MessageRole::Request => say(out, "q"),
            MessageRole::Positive { .. } => say(out, "ok"),
            MessageRole::Negative { .. } => say(out, "n"),
            MessageRole::Pending { .. } => say(out, "p"),
            MessageRole::KeepAlive => say(out, "p"),
            MessageRole::Stray => say(out, "s"),
        }
    }
}

/// The lines of the log from one to another.
#[derive(Clone, Copy)]
pub(crate) struct Lines(pub u64, pub u64);

impl Part for Lines {
    ghost use Rattle.trace_report.specs.MessageRows.{lines_text};

    ghost text = { λ lines. lines_text lines.0 lines.1 };

    fn say<S: TextSink>(self, out: &mut S) {
        let Lines(first, last) = self;
        let several = (Number(first), "&#8211;", Number(last));
        say(out, Either(first == last, Number(first), several));
    }
}

/// The lines of the log from one to another, behind the word line or lines.
#[derive(Clone, Copy)]
pub struct NamedLines(pub u64, pub u64);

impl Part for NamedLines {
    ghost use Rattle.trace_report.specs.MessageRows.{named_lines};

    ghost text = { λ lines. named_lines lines.0 lines.1 };

    fn say<S: TextSink>(self, out: &mut S) {
        let NamedLines(first, last) = self;
        let word = Either(first == last, "line ", "lines ");
        say(out, (word, Lines(first, last)));
    }
}

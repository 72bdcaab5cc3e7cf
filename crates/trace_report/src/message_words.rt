//! What is said of a message in its row: what it is to its item, how many frames carry it, and how long it took.

use crate::durations::Milliseconds;
use crate::roles::{MessageRole, asked_at};
use crate::row::MessagePlace;
use direction::Dir;
use shown_bytes::PageCode;
use text_parts::{Part, say};
use trace_io::TextSink;
use trace_text::{Number, Sender, ServiceName};
use uds_message::{response_code, sid};

/// What a message is to its item.
#[derive(Clone, Copy)]
pub struct RoleWords<'a>(pub MessageRole, pub Dir, pub &'a [u8]);

impl<'a> Part for RoleWords<'a> {
    ghost use Rattle.trace_report.specs.MessageRows.{role_words};

    ghost text = { λ words. role_words words.0 words.1 words.2.now };

    fn say<S: TextSink>(self, out: &mut S) {
        let RoleWords(role, dir, message) = self;
        match role {
            MessageRole::Request => say(
                out,
                ("<b>", ServiceName(sid(message)), "</b> <i>request</i> "),
            ),
            MessageRole::Positive { .. } => say(out, "<b>positive</b> "),
            MessageRole::Negative { .. } => say(
                out,
                (
                    "<b>negative</b> <em>",
                    PageCode(response_code(message)),
                    "</em> ",
                ),
            ),
            MessageRole::Pending { .. } => say(out, "<b>pending</b> "),
            MessageRole::KeepAlive => say(out, "<b>keep-alive</b> "),
            MessageRole::Stray => say(out, ("<b>stray</b> <i>from the ", Sender(dir), "</i> ")),
        }
    }
}

/// The word of a message to all units; any other has none.
#[derive(Clone, Copy)]
pub(crate) struct FunctionalWord(pub bool);

impl Part for FunctionalWord {
    ghost use Rattle.trace_report.specs.MessageRows.{functional_word};

    ghost text = { λ word. functional_word word.0 };

    fn say<S: TextSink>(self, out: &mut S) {
        say(out, if self.0 { "<i>functional</i> " } else { "" });
    }
}

/// The note on a message of so many bytes, where it is known how many it has: how many frames carry them, and how long
/// after its request the first of them came, if it replies to one.
#[derive(Clone, Copy)]
pub(crate) struct Note(pub MessageRole, pub MessagePlace, pub Option<u64>);

impl Part for Note {
    ghost use Rattle.trace_report.specs.MessageRows.{note_text};

    ghost text = { λ note. note_text note.0 note.1 note.2 };

    fn say<S: TextSink>(self, out: &mut S) {
        let Note(role, place, count) = self;
        let asked = asked_at(role);
        let first = place.first.micros;
        if place.frames > 1 {
            say(
                out,
                (
                    "<br><i>",
                    CarriedWords(count),
                    "in ",
                    Number(place.frames),
                    " frames",
                    FurtherNote(asked, first),
                    "</i>",
                ),
            );
        } else if let Some(asked) = asked {
            say(out, (" <i>", After(asked, first), "</i>"));
        }
    }
}

/// How many bytes several frames carry, where that is known.
#[derive(Clone, Copy)]
struct CarriedWords(Option<u64>);

impl Part for CarriedWords {
    ghost use Rattle.trace_report.specs.MessageRows.{carried_words};

    ghost text = { λ words. carried_words words.0 };

    fn say<S: TextSink>(self, out: &mut S) {
        if let Some(count) = self.0 {
            say(out, (Number(count), " bytes "));
        }
    }
}

/// How long after its request a message began, behind another note, if it replies to one.
#[derive(Clone, Copy)]
pub struct FurtherNote(pub Option<u64>, pub u64);

impl Part for FurtherNote {
    ghost use Rattle.trace_report.specs.MessageRows.{further_note};

    ghost text = { λ note. further_note note.0 note.1 };

    fn say<S: TextSink>(self, out: &mut S) {
        let FurtherNote(asked, first) = self;
        if let Some(asked) = asked {
            say(out, (", ", After(asked, first)));
        }
    }
}

/// How long after a request a frame came.
#[derive(Clone, Copy)]
pub(crate) struct After(pub u64, pub u64);

impl Part for After {
    ghost use Rattle.trace_report.specs.MessageRows.{after_text};

    ghost text = { λ after. after_text after.0 after.1 };

    fn say<S: TextSink>(self, out: &mut S) {
        let After(asked, first) = self;
        say(out, ("after ", Milliseconds(asked, first)));
    }
}

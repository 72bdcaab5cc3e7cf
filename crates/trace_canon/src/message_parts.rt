//! The frames of a message, and what is told of a reply, as parts of what `messages` says of it.

use crate::reception_starts::FramePlace;
use text_parts::{Part, When, say};
use trace_io::TextSink;
use trace_text::{Number, Stamp};

/// The first frame of a message and its last one: their lines and their times.
#[derive(Clone, Copy)]
pub(crate) struct FrameExtent {
    pub first: FramePlace,
    pub last: FramePlace,
    /// Whether they are one frame that the tester sent to all units.
    pub is_functional: bool,
}

impl Part for FrameExtent {
    ghost use Rattle.trace_canon.specs.MessagesScript.{extent_text};

    ghost text = { λ extent. extent_text extent };

    #[inline(always)]
    fn say<S: TextSink>(self, out: &mut S) {
        say(
            out,
            (
                "lines ",
                Number(self.first.line),
                " to ",
                Number(self.last.line),
                " at ",
                Stamp(self.first.micros),
                " to ",
                Stamp(self.last.micros),
            ),
        );
    }
}

/// What is told of a reply.
#[derive(Clone, Copy, Debug)]
pub(crate) struct ToldReply {
    /// The time of the last frame of its request, in microseconds.
    pub asked: u64,
    /// Whether it is an answer that is other than was asked.
    pub is_other: bool,
}

/// The members of an object that tell of a message as a reply, behind others; of no reply there are none.
#[derive(Clone, Copy)]
pub(crate) struct ReplyMembers {
    pub reply: Option<ToldReply>,
    /// The time of the first frame of the message, in microseconds.
    pub began: u64,
}

impl Part for ReplyMembers {
    ghost use Rattle.std.specs.Prelude.{option_map};
    ghost use Rattle.trace_canon.specs.MessagesScript.{reply_text, reply_value};

    ghost text = { λ members. reply_text (option_map reply_value members.reply) members.began };

    #[inline(always)]
    fn say<S: TextSink>(self, out: &mut S) {
        if let Some(reply) = self.reply {
            say(
                out,
                (
                    ",\"after_us\":",
                    MicrosBetween {
                        asked: reply.asked,
                        began: self.began,
                    },
                    When(reply.is_other, ",\"echo\":false"),
                ),
            );
        }
    }
}

/// The microseconds from one time to another, below zero where this is the earlier one.
#[derive(Clone, Copy)]
struct MicrosBetween {
    asked: u64,
    began: u64,
}

impl Part for MicrosBetween {
    ghost use Rattle.trace_text.specs.Json.{value_text};
    ghost use Rattle.trace_canon.specs.MessagesScript.{micros_between};

    ghost text = { λ micros. value_text (micros_between micros.asked micros.began) };

    #[inline(always)]
    fn say<S: TextSink>(self, out: &mut S) {
        if self.asked <= self.began {
            say(out, Number(self.began - self.asked));
        } else {
            say(out, ("-", Number(self.asked - self.began)));
        }
    }
}

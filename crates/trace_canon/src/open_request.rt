//! The request that is open, with its time, for what is told of the replies to it.

ghost use Rattle.std.specs.Prelude.{◌≡◌, None, option_map};
ghost use Rattle.trace_canon.specs.MessagesScript.{reply_value};
ghost use Rattle.trace_canon.specs.OpenRequests.{reply_behind};
ghost use Rattle.trace_canon.specs.proving.Asking.{asked_with};

use crate::message_parts::ToldReply;
use asked_request::AskedRequest;
use std::marker::Model;
use uds_echo::answers_other;
use uds_exchange::{Judged, Step};
use uds_rules::Rules;

/// What is kept of the request that is open, if one is.
#[derive(Drop)]
pub(crate) struct OpenRequest {
    /// The time of its last frame in microseconds.
    asked: Option<u64>,
    /// What is kept of it, or of the last one.
    kept: AskedRequest,
}

impl Model for OpenRequest {
    ghost use Rattle.std.specs.Prelude.{Option, option_map};
    ghost use Rattle.trace_canon.specs.OpenRequests.{KeptRequest, kept_at};

    ghost Value = { Option KeptRequest };

    ghost view = { λ r. option_map (λ micros. kept_at r.kept micros) r.asked };
}

impl OpenRequest {
    /// None is.
    pub(crate) fn none() -> OpenRequest
        ensures { result ≡ None }
    {
        OpenRequest {
            asked: None,
            kept: AskedRequest::none(),
        }
    }

    /// What is told of a message as a reply.
    pub(crate) fn reply(&self, rules: &Rules, message: &Judged<'_>) -> Option<ToldReply>
        ensures { option_map reply_value result ≡ reply_behind rules.now self.now message.now.step message.now.bytes.now }
    {
        let asked = self.asked?;
        match message.step {
            Step::Answer => Some(ToldReply {
                asked,
                is_other: answers_other(rules, self.kept.bytes(), message.bytes),
            }),
            Step::Removed => Some(ToldReply {
                asked,
                is_other: false,
            }),
            Step::Request(_) | Step::Hold | Step::Pass => None,
        }
    }

    /// Takes one more message, whose last frame has this time.
    pub(crate) fn take(&mut self, message: &Judged<'_>, micros: u64)
        ensures { self.new ≡ asked_with message.now.step self.old message.now.bytes.now micros }
    {
        match message.step {
            Step::Request(_) => {
                self.kept.keep(message.bytes);
                self.asked = Some(micros);
            }
            Step::Answer => self.asked = None,
            Step::Removed | Step::Hold | Step::Pass => {}
        }
    }
}

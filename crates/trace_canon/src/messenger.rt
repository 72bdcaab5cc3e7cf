//! `messages`: a machine that says the line of each message, as it is delivered: with the places of its first frame and
//! of its last one, which are where these stand in the log; as JSON, of a reply also how long after its request it came.

ghost use Rattle.isotp_receive.specs.declared.TheConstants.{MESSAGE_LIMIT};
ghost use Rattle.std.specs.Prelude.{◌≡◌};
ghost use Rattle.trace_canon.specs.MessagesScript.{judged_at, placed_line, placed_members, messages_script};
ghost use Rattle.trace_canon.specs.OpenRequests.{reply_behind};
ghost use Rattle.trace_canon.specs.proving.Asking.{asked_with};
ghost use Rattle.trace_text.specs.Json.{object_line};
ghost use Rattle.trace_run.specs.Script.{answers_counts, command, needs_none, says_no_refusal};
ghost use Rattle.trace_run.specs.Ran.{RanLenient};
ghost use Rattle.trace_io.specs.Counted.{IsLowCount};
ghost use Rattle.trace_log.specs.Devices.{HasLowCounts};

use crate::message_objects::say_message_object;
use crate::message_parts::FrameExtent;
use crate::open_request::OpenRequest;
use crate::reception_starts::{FramePlace, ReceptionStarts};
use isotp_receive::Pair;
use std::alloc::{AllocError, Global};
use text_parts::say;
use trace_io::{Source, Target, TextSink};
use trace_log::{Config, Fault, Summary};
use trace_run::{Glimpse, Machine, NoAnswer, Seen, run_lenient};
use trace_text::{Notation, Number, Role, RuledBytes, Sender};
use uds_exchange::Judged;
use uds_rules::Rules;

/// Reads a log and writes a line for each message that is delivered and that rules leave, as it comes, in words or as
/// an object of JSON: the number that [`list`](crate::list) gives its item, its role in that item, its direction, the
/// lines and the time stamps of its first frame and its last one, and its bytes. An object also tells of a reply how long
/// after its request it came, and of an answer that it is other than was asked; for that alone the open request is kept, in
/// place.
///
/// The target is not flushed.
pub fn messages<R: Source, W: Target>(
    alloc: Global,
    config: &Config,
    notation: Notation,
    source: &mut R,
    target: &mut W,
) -> Result<Summary, Fault>
    requires source { HasLowCounts R.Source source.old }
    requires target { IsLowCount (W.failures target.old) }

    // What is answered and written; that it is written before more is read; and what was done with the devices.
    ensures ran { RanLenient R.Source W.Target
        (command (messages_script notation MESSAGE_LIMIT config.now.rules) says_no_refusal answers_counts needs_none)
        config.now source.old target.old result source.new target.new }
{
    let machine = Messenger {
        notation,
        rules: config.rules(),
        starts: ReceptionStarts::start(),
        asking: OpenRequest::none(),
    };
    run_lenient(alloc, config, machine, source, target)
}

/// Says the line of each message. It takes no memory.
#[derive(Drop)]
pub(crate) struct Messenger<'a> {
    pub notation: Notation,
    pub rules: &'a Rules,
    pub starts: ReceptionStarts,
    /// What is kept of the request that is open, of which objects tell.
    pub asking: OpenRequest,
}

impl<'a> Machine for Messenger<'a> {
    ghost use Rattle.isotp_receive.specs.declared.TheConstants.{MESSAGE_LIMIT};
    ghost use Rattle.trace_canon.specs.proving.MessageSaying.{SaysMessages};
    ghost use Rattle.trace_canon.specs.MessagesScript.{messages_script};
    ghost use Rattle.trace_run.specs.Script.{answers_counts, needs_none};

    type Answer = Summary;

    ghost stands = { λ rules start T now.
        SaysMessages start.notation rules T now.notation now.rules.now now.starts now.asking };

    ghost script = { λ rules start. messages_script start.notation MESSAGE_LIMIT rules };

    ghost answers = { λ rules start. answers_counts };

    ghost needs = { λ rules start. needs_none };

    #[inline(always)]
    fn is_strict(&self) -> bool {
        false
    }

    #[inline(always)]
    fn event<S: TextSink>(&mut self, seen: Seen<'_>, out: &mut S) -> Result<(), AllocError> {
        let here = FramePlace {
            line: seen.line,
            micros: seen.micros,
        };
        let first = self.starts.take(here, seen.channel, seen.event);
        let Some(message) = seen.message else {
            return Ok(());
        };
        let extent = FrameExtent {
            first,
            last: here,
            is_functional: seen.channel.is_functional(),
        };
        match self.notation {
            Notation::Text => {
                say_message_line(self.rules, &message, extent, out);
                Ok(())
            }
            Notation::Json => {
                say_next_object(self.rules, &mut self.asking, &message, extent, out);
                Ok(())
            }
        }
    }

    fn end<S: TextSink>(
        self,
        _pair: &Pair,
        summary: &Summary,
        _out: &mut S,
    ) -> Result<Summary, NoAnswer> {
        Ok(*summary)
    }

    fn refused<S: TextSink>(
        self,
        _summary: &Summary,
        _why: Fault,
        _glimpse: Glimpse<'_>,
        _out: &mut S,
    ) {}
}

/// Says the object of the next message, with what is told of it as a reply to the open request.
fn say_next_object<S: TextSink>(
    rules: &Rules,
    asking: &mut OpenRequest,
    message: &Judged<'_>,
    extent: FrameExtent,
    out: &mut S,
)
    ensures now { asking.new ≡ asked_with message.now.step asking.old message.now.bytes.now extent.last.micros }
    ensures says { S.says out.old
        (object_line (placed_members rules.now (judged_at message.now extent)
        (reply_behind rules.now asking.old message.now.step message.now.bytes.now)))
        out.new }
{
    let reply = asking.reply(rules, message);
    asking.take(message, extent.last.micros);
    say_message_object(rules, message, extent, reply, out);
}

/// Says the line of a message in words.
fn say_message_line<S: TextSink>(
    rules: &Rules,
    message: &Judged<'_>,
    extent: FrameExtent,
    out: &mut S,
)
    ensures { S.says out.old (placed_line rules.now (judged_at message.now extent)) out.new }
{
    say(
        out,
        (
            Number(message.item_number),
            " ",
            Role(message.step),
            " ",
            Sender(message.dir),
            " ",
            extent,
            " ",
            RuledBytes {
                rules,
                message: message.bytes,
            },
            "\n",
        ),
    );
}

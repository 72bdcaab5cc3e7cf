//! The rows of a session, as its frames come.

ghost use Rattle.std.specs.Prelude.{◌≡◌, Bool, List, [], ◌∷◌, ◌++◌};
ghost use Rattle.direction.specs.Dir.{Message};
ghost use Rattle.isotp_receive.specs.declared.TheConstants.{MESSAGE_LIMIT};
ghost use Rattle.isotp_receive.specs.EventSeen.{seen_event};
ghost use Rattle.isotp_receive.specs.StandingReception.{receptions_after};
ghost use Rattle.isotp_receive.specs.Trace.{Entry};
ghost use Rattle.isotp_receive.specs.Verdict.{verdict};
ghost use Rattle.uds_rules.specs.Rule.{RuleValue};
ghost use Rattle.trace_run.specs.Seen.{IsSeen};
ghost use Rattle.uds_exchange.specs.Judging.{IsJudgedAfter, number_after, sent, step_after};
ghost use Rattle.trace_canon.specs.FirstFrames.{place_of};
ghost use Rattle.trace_report.specs.Events.{closing_before, closing_rows, end_rows, ended_rows, frame_rows};
ghost use Rattle.trace_report.specs.Roles.{role_of_step as role_by};
ghost use Rattle.trace_report.specs.Rows.{message as tells_message, row_of};
ghost use Rattle.trace_report.specs.proving.Following.{Follows, IsSilence, IsWaiting, MeetsMessage, OnlyTesterAsksAll, dropped_rows, row_if, rows_in, unfinished_if};

use crate::extents::{MessageExtent, ReceptionExtents};
use crate::roles::role_of_step;
use crate::row::{MessagePlace, Missing, SentMessage, SessionRow, Silence};
use crate::silences::{silence_behind_pending, silence_of};
use direction::Dir;
use isotp_receive::{Ended, Event, Pair, Verdict};
use trace_canon::reception_starts::FramePlace;
use trace_run::Seen;
use uds_exchange::{Judged, Step};

/// The rows that a frame adds, or the end of a log: three at the most, in this order.
#[derive(Clone, Copy, Debug)]
pub(crate) struct NewRows<'a> {
    pub first: Option<SessionRow<'a>>,
    pub second: Option<SessionRow<'a>>,
    pub third: Option<SessionRow<'a>>,
}

/// What the rows of the frames to come depend on.
#[derive(Clone, Copy, Debug)]
pub(crate) struct Follower {
    /// The number of the exchange that waits for its answer, if one does.
    pub waits: Option<u64>,
    pub extents: ReceptionExtents,
    /// When the last request was complete.
    pub asked: u64,
    /// Why the last request has no answer, as long as it has none.
    pub silence: Silence,
}

impl Follower {
    /// Before the first frame.
    pub(crate) fn start() -> Follower
        ensures { (rules : List RuleValue) → Follows rules [] result }
    {
        Follower {
            waits: None,
            extents: ReceptionExtents::start(),
            asked: 0,
            silence: Silence::Unanswered,
        }
    }

    /// Takes what a frame did, and answers its rows. Most frames add none: inlined, so that no room is cleared for rows
    /// then.
    #[inline(always)]
    pub(crate) fn take<'a>(&mut self, seen: Seen<'a>) -> NewRows<'a>
        ensures next { (rules : List RuleValue) (T : List Entry) (e : Entry) → IsSeen rules T e seen.entry
            → Follows rules T self.old → Follows rules (T ++ e ∷ []) self.new }
        ensures rows { (rules : List RuleValue) (T : List Entry) (e : Entry) → IsSeen rules T e seen.entry
            → Follows rules T self.old → rows_in result ≡ frame_rows MESSAGE_LIMIT rules T e }
    {
        let here = here_of(seen);
        let extent = self.extents.take(here, seen.channel, seen.event);
        let first = ended_rows(here, seen.event.ended);
        match seen.message {
            Some(message) => {
                let (second, row) = self.take_message(here, message, extent);
                NewRows {
                    first,
                    second,
                    third: Some(row),
                }
            }
            None => NewRows {
                first,
                second: None,
                third: dropped_rows(here, seen.channel.dir(), seen.event),
            },
        }
    }

    /// Takes a message that a frame here completed. Answers the row of the item that it closes, if it closes one, and
    /// its own.
    #[inline(always)]
    fn take_message<'a>(
        &mut self,
        here: FramePlace,
        message: Judged<'a>,
        extent: MessageExtent,
    ) -> (Option<SessionRow<'a>>, SessionRow<'a>)
        ensures extents { self.new.extents ≡ self.old.extents }
        ensures next { (M : List Message) (to_all : Bool) → IsJudgedAfter M message.entry → message.entry.item_number ≡ number_after M (sent message.entry)
            → OnlyTesterAsksAll message.entry.dir extent.is_functional → IsWaiting M self.old.waits → IsSilence M to_all self.old.silence
            → MeetsMessage M (sent message.entry) here extent.is_functional self.old.asked to_all self.new }
        ensures closing { (M : List Message) (to_all : Bool) → IsJudgedAfter M message.entry → IsWaiting M self.old.waits
            → IsSilence M to_all self.old.silence → row_if result.0 ≡ closing_before M to_all (step_after M (sent message.entry)) }
        ensures row { (M : List Message) → IsJudgedAfter M message.entry → message.entry.item_number ≡ number_after M (sent message.entry)
            → row_of result.1 ≡ tells_message (role_by self.old.asked (step_after M (sent message.entry)) message.entry.dir message.entry.bytes.now) message.entry.dir
            (record { item = number_after M (sent message.entry); first = extent.first; last = here; frames = extent.frames; is_functional = extent.is_functional }) message.entry.bytes.now }
    {
        let waiting = closing_rows(self.waits, self.silence);
        let sent = SentMessage {
            role: role_of_step(self.asked, message.step, message.dir, message.bytes),
            dir: message.dir,
            place: MessagePlace {
                item: message.item_number,
                first: extent.first,
                last: here,
                frames: extent.frames,
                is_functional: extent.is_functional,
            },
        };
        let row = SessionRow::Message {
            sent,
            message: message.bytes,
        };
        match message.step {
            Step::Request(_) => {
                self.waits = Some(message.item_number);
                self.asked = here.micros;
                self.silence = silence_of(extent.is_functional, message.bytes);
                (waiting, row)
            }
            Step::Answer => {
                self.waits = None;
                (None, row)
            }
            Step::Removed => {
                self.silence = silence_behind_pending(self.silence);
                (None, row)
            }
            Step::Hold | Step::Pass => (None, row),
        }
    }

    /// The rows of the end of the log, where these receptions stand.
    pub(crate) fn end<'a>(&self, pair: &Pair) -> NewRows<'a>
        ensures { (rules : List RuleValue) (T : List Entry) → Follows rules T self.now
            → pair.now.receptions ≡ receptions_after MESSAGE_LIMIT T → rows_in result ≡ end_rows MESSAGE_LIMIT rules T }
    {
        NewRows {
            first: unfinished_if(Dir::Tester, pair.open(Dir::Tester)),
            second: unfinished_if(Dir::Unit, pair.open(Dir::Unit)),
            third: closing_rows(self.waits, self.silence),
        }
    }
}

/// The row that tells that the request of the open exchange has no answer, if one is open.
fn closing_rows<'a>(waits: Option<u64>, silence: Silence) -> Option<SessionRow<'a>>
    ensures { (M : List Message) (to_all : Bool) → IsWaiting M waits → IsSilence M to_all silence → row_if result ≡ closing_rows M to_all }
{
    let number = waits?;
    Some(SessionRow::Missing(Missing::NoAnswer { number, silence }))
}

/// Where a frame stands.
#[inline(always)]
fn here_of(seen: Seen<'_>) -> FramePlace
    ensures { result ≡ record { line = seen.entry.line; micros = seen.entry.micros } }
{
    FramePlace {
        line: seen.line,
        micros: seen.micros,
    }
}

/// The row of a frame here, if it was dropped.
#[inline(always)]
fn dropped_rows<'a>(here: FramePlace, dir: Dir, event: Event<'_>) -> Option<SessionRow<'a>>
    ensures { row_if result ≡ dropped_rows here dir (seen_event event.entry) }
{
    match event.verdict {
        Verdict::Dropped(reason) => Some(SessionRow::Missing(Missing::Dropped {
            place: here,
            dir,
            linked: event.ended.is_none(),
            reason,
        })),
        Verdict::Message(_) | Verdict::Began | Verdict::Stored | Verdict::Flow => None,
    }
}

/// The row of what a frame here ended, if it ended something.
fn ended_rows<'a>(here: FramePlace, ended: Option<Ended>) -> Option<SessionRow<'a>>
    ensures { (e : Entry) → here ≡ place_of e → row_if result ≡ ended_rows e ended }
{
    let ended = ended?;
    Some(SessionRow::Missing(Missing::Ended { place: here, ended }))
}

/// The row of a reception that stands at the end, if one does: the line of its first frame, and the bytes that this
/// announced.
fn unfinished_if<'a>(dir: Dir, begun: Option<(u64, u32)>) -> Option<SessionRow<'a>>
    ensures { row_if result ≡ unfinished_if dir begun }
{
    let (line, len) = begun?;
    Some(SessionRow::Missing(Missing::Unfinished { dir, line, len }))
}

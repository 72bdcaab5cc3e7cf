//! Where receptions and messages begin, and how many frames they have.

ghost use Rattle.std.specs.Prelude.{◌≡◌, List, [], ◌∷◌, ◌++◌};
ghost use Rattle.isotp_receive.specs.declared.TheConstants.{MESSAGE_LIMIT};
ghost use Rattle.isotp_receive.specs.Channels.{is_functional};
ghost use Rattle.isotp_receive.specs.StandingReception.{stands};
ghost use Rattle.isotp_receive.specs.Trace.{Entry, role};
ghost use Rattle.trace_run.specs.Seen.{IsEventOf};
ghost use Rattle.trace_canon.specs.FirstFrames.{CompletesMessage, first_frame, place_of};
ghost use Rattle.trace_report.specs.Events.{frames_by};
ghost use Rattle.trace_report.specs.proving.Following.{KnowsExtents, frames_counted};

use crate::frames::{FrameCounts, frames_carrying};
use direction::Dir;
use isotp_receive::{Channel, Ended, Event};
use trace_canon::reception_starts::{FramePlace, ReceptionStarts, still_begun};

/// Where the receptions began that stand, and how many frames they took.
#[derive(Clone, Copy, Debug)]
pub(crate) struct ReceptionExtents {
    pub begun: ReceptionStarts,
    pub frames: FrameCounts,
}

/// Where a message begins, how many frames carry it, and whether it was sent to all units.
#[derive(Clone, Copy, Debug)]
pub(crate) struct MessageExtent {
    pub first: FramePlace,
    pub frames: u64,
    pub is_functional: bool,
}

impl ReceptionExtents {
    /// Before the first frame.
    pub(crate) fn start() -> ReceptionExtents
        ensures { KnowsExtents [] result }
    {
        ReceptionExtents {
            begun: ReceptionStarts::start(),
            frames: FrameCounts::start(),
        }
    }

    /// Takes what a frame in this place did, and answers the extent of the message that it completed. Where it
    /// completed none, the answer says nothing.
    #[inline(always)]
    pub(crate) fn take(
        &mut self,
        here: FramePlace,
        channel: Channel,
        event: Event<'_>,
    ) -> MessageExtent
        ensures next { (T : List Entry) (e : Entry) → IsEventOf T e here.line here.micros channel event.entry
            → KnowsExtents T self.old → KnowsExtents (T ++ e ∷ []) self.new }
        ensures first { (T : List Entry) (e : Entry) → IsEventOf T e here.line here.micros channel event.entry
            → KnowsExtents T self.old → CompletesMessage MESSAGE_LIMIT T e → result.first ≡ place_of (first_frame T e) }
        ensures frames { (T : List Entry) (e : Entry) → IsEventOf T e here.line here.micros channel event.entry
            → KnowsExtents T self.old → CompletesMessage MESSAGE_LIMIT T e
            → result.frames ≡ frames_by (stands MESSAGE_LIMIT e.channel T) (role e.channel e) }
        ensures functional { result.is_functional ≡ is_functional channel }
    {
        let frames = self.frames_of(channel, event.ended);
        let first = self.begun.take(here, channel, event);
        self.frames.take(channel, event.verdict);
        MessageExtent {
            first,
            frames,
            is_functional: channel.is_functional(),
        }
    }

    /// How many frames carry a message that a frame of this channel completes, and that ends this. Where it completes
    /// none, the answer says nothing.
    #[inline(always)]
    fn frames_of(&self, channel: Channel, ended: Option<Ended>) -> u64
        ensures { result ≡ frames_counted channel ended self.now.begun self.now.frames }
    {
        match channel {
            Channel::Tester => frames_carrying(
                still_begun(Dir::Tester, ended, self.begun.tester),
                self.frames.tester,
            ),
            Channel::Unit => frames_carrying(
                still_begun(Dir::Unit, ended, self.begun.unit),
                self.frames.unit,
            ),
            Channel::Functional => 1,
        }
    }
}

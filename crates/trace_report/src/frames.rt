//! How many frames carry a message.

ghost use Rattle.std.specs.Prelude.{◌≡◌, true};
ghost use Rattle.direction.specs.declared.Dir.TheVariants.{Tester, Unit};
ghost use Rattle.isotp_receive.specs.EventSeen.{seen_verdict};
ghost use Rattle.trace_report.specs.proving.Following.{counted_by, frames_with, taken_after};

use crate::counting::one_more;
use isotp_receive::{Channel, Verdict};
use trace_canon::reception_starts::FramePlace;

/// Of each direction how many consecutive frames the reception took that stands, if one does.
#[derive(Clone, Copy, Debug)]
pub(crate) struct FrameCounts {
    pub tester: u64,
    pub unit: u64,
}

impl FrameCounts {
    /// Before the first frame.
    pub(crate) fn start() -> FrameCounts
        ensures tester { result.tester ≡ 0 }
        ensures unit { result.unit ≡ 0 }
    {
        FrameCounts { tester: 0, unit: 0 }
    }

    /// Takes what became of a frame.
    pub(crate) fn take(&mut self, channel: Channel, verdict: Verdict<'_>)
        ensures tester { self.new.tester ≡ taken_after Tester channel (seen_verdict verdict.entry) self.old.tester }
        ensures unit { self.new.unit ≡ taken_after Unit channel (seen_verdict verdict.entry) self.old.unit }
    {
        match channel {
            Channel::Tester => self.tester = counted(verdict, self.tester),
            Channel::Unit => self.unit = counted(verdict, self.unit),
            Channel::Functional => {}
        }
    }
}

/// The count after what became of a frame of its direction.
fn counted(verdict: Verdict<'_>, taken: u64) -> u64
    ensures { result ≡ counted_by true (seen_verdict verdict.entry) taken }
{
    match verdict {
        Verdict::Began => 0,
        Verdict::Stored => one_more(taken),
        Verdict::Message(_) | Verdict::Flow | Verdict::Dropped(_) => taken,
    }
}

/// How many frames carry a message that a frame completed, where the reception began there that stood and that the
/// frame did not end, if one did, and took so many consecutive frames.
pub(crate) fn frames_carrying(begun: Option<FramePlace>, taken: u64) -> u64
    ensures { result ≡ frames_with begun taken }
{
    match begun {
        Some(_) => one_more(one_more(taken)),
        None => 1,
    }
}

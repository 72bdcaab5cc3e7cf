//! Where the receptions that stand began, frame by frame. The page of `trace_report` stands on it, too.

ghost use Rattle.std.specs.Prelude.{◌≡◌, List, [], ◌∷◌, ◌++◌, None, unwrap_or, if◌then◌else◌};
ghost use Rattle.direction.specs.declared.Dir.{Dir as DirValue};
ghost use Rattle.isotp_receive.specs.declared.TheConstants.{MESSAGE_LIMIT};
ghost use Rattle.isotp_receive.specs.Channels.{dir_of};
ghost use Rattle.isotp_receive.specs.EventSeen.{seen_event, seen_verdict};
ghost use Rattle.isotp_receive.specs.Trace.{Entry, same_direction};
ghost use Rattle.trace_run.specs.Seen.{IsEventOf};
ghost use Rattle.trace_canon.specs.FirstFrames.{CompletesMessage, first_frame, place_of};
ghost use Rattle.trace_canon.specs.ReceptionStarts.{AreStartsAfter, message_start, reception_start, start_after_event, start_after_verdict};
ghost use Rattle.trace_canon.specs.ReceptionStarts as Spec;

use direction::Dir;
use isotp_receive::{Channel, Ended, Event, Verdict};

/// Where a frame stands: its line and its time in microseconds.
#[derive(Clone, Copy, Debug)]
pub struct FramePlace {
    pub line: u64,
    pub micros: u64,
}

/// Of each direction the place of the first frame of the reception that stands, if one does.
#[derive(Clone, Copy, Debug)]
pub struct ReceptionStarts {
    pub tester: Option<FramePlace>,
    pub unit: Option<FramePlace>,
}

impl ReceptionStarts {
    /// Before the first frame.
    pub fn start() -> ReceptionStarts
        ensures none { (d : DirValue) → reception_start result d ≡ None }
        ensures begun { AreStartsAfter MESSAGE_LIMIT [] result }
    {
        ReceptionStarts {
            tester: None,
            unit: None,
        }
    }

    /// Where the reception of a direction began, if one stands.
    pub fn of(&self, dir: Dir) -> Option<FramePlace>
        ensures { result ≡ reception_start self.now dir }
    {
        match dir {
            Dir::Tester => self.tester,
            Dir::Unit => self.unit,
        }
    }

    /// Takes what a frame in this place did, and answers where the message began that it completed. Where it completed
    /// none, the answer says nothing, and nobody reads it: an `Option` would be made and taken apart at each frame. A
    /// message to all units is one frame, and no start is moved by it.
    #[inline(always)]
    pub fn take(&mut self, here: FramePlace, channel: Channel, event: Event<'_>) -> FramePlace
        ensures begun { (T : List Entry) (e : Entry) → IsEventOf T e here.line here.micros channel event.entry
            → AreStartsAfter MESSAGE_LIMIT T self.old → AreStartsAfter MESSAGE_LIMIT (T ++ e ∷ []) self.new }
        ensures place { (T : List Entry) (e : Entry) → IsEventOf T e here.line here.micros channel event.entry
            → AreStartsAfter MESSAGE_LIMIT T self.old → CompletesMessage MESSAGE_LIMIT T e
            → result ≡ place_of (first_frame T e) }
        ensures stands { (d : DirValue)
            → reception_start self.new d
            ≡ start_after_event d channel (seen_event event.entry) here (reception_start self.old d) }
        ensures first { result ≡ message_start channel (seen_event event.entry) here (reception_start self.old (dir_of channel)) }
    {
        self.end(event.ended);
        match channel {
            Channel::Functional => here,
            _ => self.move_on(here, channel.dir(), event.verdict),
        }
    }

    /// The same of a frame that a side sends to the other alone, apart from the reception that it ended.
    #[inline(always)]
    fn move_on(&mut self, here: FramePlace, dir: Dir, verdict: Verdict<'_>) -> FramePlace
        ensures stands { (d : DirValue) → reception_start self.new d
            ≡ start_after_verdict (same_direction d dir) (seen_verdict verdict.entry) here
            (reception_start self.old d) }
        ensures first { result ≡ unwrap_or (reception_start self.old dir) here }
    {
        let begun = self.of(dir);
        self.move_by(here, dir, verdict);
        begun.unwrap_or(here)
    }

    /// Takes the end of a reception, if one ended.
    #[inline(always)]
    fn end(&mut self, ended: Option<Ended>)
        ensures { (d : DirValue) → reception_start self.new d ≡ Spec.still_begun d ended (reception_start self.old d) }
    {
        // Most frames end none, and then nothing is moved.
        if let Some(_) = ended {
            let tester = still_begun(Dir::Tester, ended, self.tester);
            let unit = still_begun(Dir::Unit, ended, self.unit);
            *self = ReceptionStarts { tester, unit };
        }
    }

    /// Takes what became of a frame, apart from the reception that it ended.
    #[inline(always)]
    fn move_by(&mut self, here: FramePlace, dir: Dir, verdict: Verdict<'_>)
        ensures { (d : DirValue) → reception_start self.new d
            ≡ start_after_verdict (same_direction d dir) (seen_verdict verdict.entry) here
            (reception_start self.old d) }
    {
        match verdict {
            Verdict::Message(_) => self.set(dir, None),
            Verdict::Began => self.set(dir, Some(here)),
            Verdict::Stored | Verdict::Flow | Verdict::Dropped(_) => {}
        }
    }

    /// Keeps where the reception of a direction began, if one stands.
    #[inline(always)]
    fn set(&mut self, dir: Dir, begun: Option<FramePlace>)
        ensures { (d : DirValue) → reception_start self.new d
            ≡ (if same_direction d dir then begun else reception_start self.old d) }
    {
        match dir {
            Dir::Tester => self.tester = begun,
            Dir::Unit => self.unit = begun,
        }
    }
}

/// Where the reception of a direction began, if it still stands after this end. A page asks, whose rows tell of the end
/// before they tell of the frame.
#[inline(always)]
pub fn still_begun(dir: Dir, ended: Option<Ended>, begun: Option<FramePlace>) -> Option<FramePlace>
    ensures { result ≡ Spec.still_begun dir ended begun }
{
    match ended {
        Some(ended) if ended.dir == dir => None,
        _ => begun,
    }
}

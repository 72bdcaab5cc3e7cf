//! What tells that tester and unit are swapped (`Exchanged`).

ghost use Rattle.std.specs.Prelude.{◌≡◌, [], List, ℕ, Option};
ghost use Rattle.direction.specs.Dir.{Message};
ghost use Rattle.uds_exchange.specs.Exchanged.{sides_of};
ghost use Rattle.uds_exchange.specs.Exchanged as Spec;
ghost use Rattle.uds_exchange.specs.OneMessage.{step_of};
ghost use Rattle.uds_exchange.specs.proving.Judging.{noted, noted_other};

use crate::step::Step;
use direction::Dir;
use uds_message::{is_response_sid, sid};

/// What tester and unit sent, as far as it tells whether they are swapped.
#[derive(Clone, Copy, Debug, PartialEq, Eq)]
pub struct Sides {
    /// The tester sent a request.
    pub tester_asked: bool,
    /// The tester sent a message with the service identifier of a response.
    pub tester_responds: bool,
    /// The unit sent one without.
    pub unit_sends_other: bool,
}

impl Sides {
    /// Before the first message.
    pub(crate) fn none() -> Sides
        ensures { result ≡ sides_of [] }
    {
        Sides {
            tester_asked: false,
            tester_responds: false,
            unit_sends_other: false,
        }
    }

    /// Notes one more message, and what becomes of it.
    #[inline(always)]
    pub(crate) fn note(&mut self, step: Step, dir: Dir, message: &[u8])
        ensures { (open_sid : Option ℕ) → step ≡ step_of open_sid (dir, message.now)
            → self.new ≡ noted (dir, message.now) self.old }
    {
        match step {
            Step::Request(_) => self.tester_asked = true,
            Step::Answer | Step::Removed | Step::Hold | Step::Pass => self.note_other(dir, message),
        }
    }

    /// Notes a message that is no request.
    #[inline(always)]
    fn note_other(&mut self, dir: Dir, message: &[u8])
        ensures { self.new ≡ noted_other (dir, message.now) self.old }
    {
        let responds = is_response_sid(sid(message));
        match dir {
            Dir::Tester => self.tester_responds = self.tester_responds || responds,
            Dir::Unit => self.unit_sends_other = self.unit_sends_other || !responds,
        }
    }

    /// Whether tester and unit look swapped.
    pub fn look_exchanged(&self) -> bool
        ensures { (M : List Message) → self.now ≡ sides_of M → result ≡ Spec.look_exchanged M }
    {
        !self.tester_asked && self.tester_responds && self.unit_sends_other
    }
}

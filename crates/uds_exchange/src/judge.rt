//! What becomes of the messages, as they come.

ghost use Rattle.std.specs.Prelude.{◌≡◌, ◌^◌, ◌<◌, ◌-◌, ◌++◌, ◌∷◌, [], List, length};
ghost use Rattle.direction.specs.Dir.{Message};
ghost use Rattle.uds_exchange.specs.Exchanged.{sides_of};
ghost use Rattle.uds_exchange.specs.Judging.{HasCounted, IsJudgeOf, IsOpenSid, number_after, one_more, sent, step_after};
ghost use Rattle.uds_exchange.specs.proving.Judging.{judge_after_step, number_in};

use crate::sides::Sides;
use crate::step::{Step, step_of};
use direction::Dir;

/// A message of which it is known what becomes of it.
#[derive(Clone, Copy, Debug)]
pub struct Judged<'a> {
    /// Who sent it.
    pub dir: Dir,
    /// Its bytes, lent.
    pub bytes: &'a [u8],
    /// What becomes of it.
    pub step: Step,
    /// The number of its item, from 1. A reply that is removed has that of the exchange that it puts off.
    pub item_number: u64,
}

/// Says of each message what becomes of it. It holds no message, so that it takes no memory.
#[derive(Clone, Copy, Debug)]
pub struct Judge {
    /// The first byte of the open request: the last one, where it waits for its answer.
    pub(crate) open_sid: Option<u8>,
    /// How many items there are.
    items: u64,
    /// How many of them are strays behind the open request.
    held_count: u64,
    /// How many replies were removed.
    removed: u64,
    /// What tells whether tester and unit are swapped.
    sides: Sides,
}

impl Judge {
    /// Before the first message.
    pub fn new() -> Judge
        ensures { IsJudgeOf [] result }
    {
        Judge {
            open_sid: None,
            items: 0,
            held_count: 0,
            removed: 0,
            sides: Sides::none(),
        }
    }

    /// Judges one more message. Inlined: what a call answers in memory is read by covering loads.
    #[inline(always)]
    pub fn take<'a>(&mut self, dir: Dir, message: &'a [u8]) -> Judged<'a>
        ensures next { (M : List Message) → length M < 2 ^ 62 → HasCounted M self.old
            → HasCounted (M ++ (dir, message.now) ∷ []) self.new }
        ensures sent { sent result ≡ (dir, message.now) }
        ensures is_open { (M : List Message) → IsOpenSid M self.old.open_sid
            → IsOpenSid (M ++ (dir, message.now) ∷ []) self.new.open_sid }
        ensures step { (M : List Message) → IsOpenSid M self.old.open_sid
            → result.step ≡ step_after M (dir, message.now) }
        ensures item { (M : List Message) → length M < 2 ^ 62 → HasCounted M self.old
            → result.item_number ≡ number_after M (dir, message.now) }
        ensures sides { (M : List Message) → self.old.sides ≡ sides_of M
            → self.new.sides ≡ sides_of (M ++ (dir, message.now) ∷ []) }
    {
        let step = step_of(self.open_sid, dir, message);
        self.sides.note(step, dir, message);
        let item_number = self.count(step);
        Judged {
            dir,
            bytes: message,
            step,
            item_number,
        }
    }

    /// How many replies were removed.
    pub fn removed(&self) -> u64
        ensures { result ≡ self.now.removed }
    {
        self.removed
    }

    /// What tells whether tester and unit are swapped.
    pub fn sides(&self) -> Sides
        ensures { result ≡ self.now.sides }
    {
        self.sides
    }

    /// Counts one more message by what becomes of it, and answers the number of its item.
    fn count(&mut self, step: Step) -> u64
        ensures now { self.new ≡ judge_after_step step self.old }
        ensures number { result ≡ number_in step self.old }
    {
        match step {
            Step::Request(sid) => {
                self.open_sid = Some(sid);
                self.held_count = 0;
                self.next_number()
            }
            Step::Answer => {
                let number = self.open_number();
                self.open_sid = None;
                self.held_count = 0;
                number
            }
            Step::Removed => {
                self.removed = self.removed.saturating_add(1);
                self.open_number()
            }
            Step::Hold => {
                self.held_count = self.held_count.saturating_add(1);
                self.next_number()
            }
            Step::Pass => self.next_number(),
        }
    }

    /// The number of the open exchange: only the strays that are held come after it.
    #[inline(always)]
    fn open_number(&self) -> u64
        ensures { result ≡ self.now.items - self.now.held_count }
    {
        self.items.saturating_sub(self.held_count)
    }

    /// Counts one more item, and answers its number.
    fn next_number(&mut self) -> u64
        ensures now { self.new ≡ record self.old { items = one_more self.old.items } }
        ensures number { result ≡ one_more self.old.items }
    {
        self.items = self.items.saturating_add(1);
        self.items
    }
}

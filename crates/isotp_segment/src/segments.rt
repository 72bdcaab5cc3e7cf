//! The canonical frames of a message, given one at a time.

ghost use Rattle.std.specs.Prelude.{◌≡◌, ◌≤◌, length};
ghost use Rattle.isotp_receive.specs.declared.TheConstants.{MESSAGE_LIMIT};
ghost use Rattle.isotp_segment.specs.CanonicalFrames.{canonical_frames};

use crate::frame::{canonical_frame, frame_count, full_frame};
use direction::Dir;
use isotp_receive::MESSAGE_LIMIT;
use std::iter::FusedIterator;
use std::marker::Model;

/// The canonical frames of a message, one after another: who sends it, and its bytes.
#[derive(Debug, Drop)]
pub struct Segments<'a> {
    dir: Dir,
    message: &'a [u8],
    /// How many frames there are.
    count: usize,
    /// The number of the next one, from 0.
    number: usize,
}

// A contract sees the frames that it still gives.
impl<'a> Model for Segments<'a> {
    ghost use Rattle.std.specs.Prelude.{ℕ, List, drop};
    ghost use Rattle.direction.specs.declared.Dir.{Dir};
    ghost use Rattle.isotp_receive.specs.declared.TheConstants.{MESSAGE_LIMIT};
    ghost use Rattle.isotp_segment.specs.CanonicalFrames.{canonical_frames};
    ghost use Rattle.isotp_segment.specs.proving.Given.{HasGiven};

    ghost Value = { List (Dir × List ℕ) };

    ghost view = { λ s. drop s.number (canonical_frames MESSAGE_LIMIT s.dir s.message.now) };

    ghost invariant = { λ s. HasGiven s.message.now s.count s.number };
}

impl<'a> Segments<'a> {
    ghost use Rattle.std.specs.Prelude.{◌≡◌, ◌≤◌, [], ◌∷◌, List, ℕ, length, IfSome, IfNone, IsSome};
    ghost use Rattle.isotp_segment.specs.CanonicalFrames.{canonical_frames};
    ghost use Rattle.isotp_segment.specs.FullFrames.{FullFrameIsNext};
    ghost use Rattle.isotp_receive.specs.declared.TheConstants.{MESSAGE_LIMIT};

    /// The frames of a message that is sent in the direction `dir`.
    pub fn new(dir: Dir, message: &'a [u8]) -> Segments<'a>
        requires some { 1 ≤ length message.now }
        requires limit { length message.now ≤ MESSAGE_LIMIT }
        ensures frames { result ≡ canonical_frames MESSAGE_LIMIT dir message.now }
    {
        Segments {
            dir,
            message,
            count: frame_count(message.len()) as usize,
            number: 0,
        }
    }

    /// The next frame, if it is a consecutive one of this sender, which must be that of `new`, and the message fills it.
    /// For a loop over the frames of a long message.
    #[tactic(auto, using(crate::proofs::Frames::drop_canonical_frames), unfolding(crate::specs::CanonicalFrames::canonical_frame))]
    #[inline(always)]
    pub fn next_full(&mut self, sender: Dir) -> Option<[u8; 8]>
        ensures some { IfSome result (λ frame. self.old ≡ (sender, frame) ∷ self.new) }
        ensures none { IfNone result (self.new ≡ self.old) }
        ensures misses_none { FullFrameIsNext sender self.old → IsSome result }
    {
        // Frames 0 and 1 are the first frame and the continue frame: frame 2 is consecutive frame 1. A message of one
        // frame has no frame 2.
        if self.number < 2 || self.count <= self.number || sender != self.dir {
            return None;
        }
        // The control byte takes the place of the byte before those of the message.
        let frame = full_frame(self.message, self.number - 1)?;
        self.number += 1;
        Some(frame)
    }

    /// The next frame, of whatever kind.
    #[tactic(auto, using(crate::proofs::Frames::drop_canonical_frames, crate::proofs::Frames::drop_at_end))]
    #[inline(never)]
    fn next_any(&mut self) -> Option<(Dir, [u8; 8])>
        ensures some { IfSome result (λ frame. self.old ≡ frame ∷ self.new) }
        ensures none { IfNone result ((self.old ≡ []) × (self.new ≡ [])) }
    {
        if self.count <= self.number {
            return None;
        }
        let frame = canonical_frame(self.dir, self.message, self.number);
        self.number += 1;
        Some(frame)
    }
}

impl<'a> Iterator for Segments<'a> {
    type Item = (Dir, [u8; 8]);

    ghost use Rattle.std.specs.Prelude.{IfSome};
    ghost use Rattle.std.specs.Iterator.{UpTo, YieldsFirst, at_most};
    ghost use Rattle.std.specs.Iterator.SizeHint.{IsWithinCount};

    ghost next_gives = { YieldsFirst (λ frames. frames) };

    ghost remaining = { λ frames. at_most (length frames) };

    // Most frames are consecutive ones that the message fills. They go a way of their own, and the others by a call.
    #[inline(always)]
    fn next(&mut self) -> Option<(Dir, [u8; 8])> {
        let sender = self.dir;
        match self.next_full(sender) {
            Some(frame) => Some((sender, frame)),
            None => self.next_any(),
        }
    }

    #[tactic(auto, using(crate::proofs::Frames::count_left))]
    fn size_hint(&self) -> (usize, Option<usize>)
        ensures lower { IsWithinCount result.0 (at_most (length self.now)) }
        ensures upper { IfSome result.1 (UpTo (at_most (length self.now))) }
        ensures exact { result ≡ (length self.now, Some (length self.now)) }
    {
        let left = self.count - self.number;
        (left, Some(left))
    }
}

impl<'a> ExactSizeIterator for Segments<'a> {
    #[tactic(auto, using(crate::proofs::Frames::count_left))]
    fn len(&self) -> usize {
        self.count - self.number
    }
}

impl<'a> FusedIterator for Segments<'a> {}

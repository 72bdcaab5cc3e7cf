//! Laws of canonical frames, for the proofs of callers. Each law is its contract; a call does nothing.

ghost use Rattle.isotp_segment.specs.Laws.{FrameCountByLength, ConsecutiveCountIsLeast, CanonicalFramesHaveEightBytes, ShortMessageIsOneFrame};
ghost use Rattle.isotp_segment.specs.Laws.{CanonicalFramesAreARecording, CanonicalFramesAreClean, CanonicalFramesDeliver, CanonicalFramesDeliverNothingBefore};

/// By its count of frames a message of at most 7 bytes has one, and a longer one two more than its consecutive frames.
pub fn frame_count_by_length()
    ensures { FrameCountByLength }
{}

/// The consecutive frames of a message are as many as its bytes ask for, and no more.
pub fn consecutive_count_is_least()
    ensures { ConsecutiveCountIsLeast }
{}

/// Each canonical frame has 8 bytes.
pub fn canonical_frames_have_eight_bytes()
    ensures { CanonicalFramesHaveEightBytes }
{}

/// A message of 1 to 7 bytes has one canonical frame: a single frame that holds it.
pub fn short_message_is_one_frame()
    ensures { ShortMessageIsOneFrame }
{}

/// The canonical frames of any messages, each a millisecond after the one before, are a recording of these messages:
/// from any line and time on, and under any two identifiers.
pub fn canonical_frames_are_a_recording()
    ensures { CanonicalFramesAreARecording }
{}

/// The canonical frames of any messages, each a millisecond after the one before, are a clean trace: no frame is
/// dropped, none ends a reception, and nothing is left over. So each stands on the side, in the place and at the time
/// where a receiver waits for it: a continue frame from the side of the message would be dropped.
pub fn canonical_frames_are_clean()
    ensures { CanonicalFramesAreClean }
{}

/// Received after any trace, the canonical frames of a message deliver it at the last of them, and nothing before.
pub fn canonical_frames_deliver()
    ensures message { CanonicalFramesDeliver }
    ensures nothing_before { CanonicalFramesDeliverNothingBefore }
{}

//! Laws of receptions and recordings, for the proofs of callers: functions that do nothing.
//!
//! A *recording* of a list of messages is a trace in which each message is one single frame, or a
//! first frame and its consecutive frames, and whatever else is there carries nothing. It says
//! nothing of how the frames are paced within the time-out, how long they are, or what they are
//! padded with: so these can't change what is read.

ghost use Rattle.std.specs.Prelude.{◌≡◌};
ghost use Rattle.isotp_receive.specs.declared.TheConstants.{MESSAGE_LIMIT};
ghost use Rattle.isotp_receive.specs.Laws.{WhatStandsIsOpen, WhatIsOpenStands, WhatStandsIsFixed, OneIsOpen, OneReference, OnTimeIsWithinASecond, KeepsFewerBytes};
ghost use Rattle.isotp_receive.specs.Laws.{AMessageIsDelivered, MessagesAreDelivered, TheVerdictIsTabled, FunctionalFramesStandAlone, PlacesAgreeOnBytes, PlacesAgreeOnFit};
ghost use Rattle.isotp_receive.specs.MessageLaws.{MessagesGoOn, MessagesAreFew, MessagesFit, MessagesHoldBytes};
ghost use Rattle.isotp_receive.specs.MessageLaws.{EventsGoOn, EventsAreAsMany, FirstFrameIsRead, TooLongIsAnnounced, KeptIsWithin, CleanIsCounted};
ghost use Rattle.isotp_receive.specs.RecordingLaws.{RecordingDelivers, RecordingDeliversBehind, RecordingDeliversAtLastPosition, RecordingDeliversByFrames, CleanTraceIsARecording};
ghost use Rattle.isotp_receive.specs.Growth.{RefusedLeavesTheOther};
ghost use Rattle.isotp_receive.specs.Capacities.{CapacitiesStayWithin, NewPairKeepsWithin, OneMoreKeepsWithin};

/// What stands after a trace is the reception that is open at its end by the positions of its frames,
/// with all that is known of it: line, length, RX_DL, bytes and the time that N_Cr runs from.
pub fn what_stands_is_open()
    ensures is_open { WhatStandsIsOpen }
    ensures stands { WhatIsOpenStands }
    ensures fixed { WhatStandsIsFixed }
{}

/// At most one reception of a channel is open at a position.
pub fn one_is_open()
    ensures { OneIsOpen }
{}

/// A frame has at most one reference frame, from which N_Cr runs.
pub fn one_reference()
    ensures { OneReference }
{}

/// N_Cr is one second (ISO 15765-2, section 9.8): a consecutive frame is on time exactly where it comes at most
/// 1,000,000 microseconds after its reference frame, and late after that.
pub fn on_time_is_within_a_second()
    ensures { OnTimeIsWithinASecond }
{}

/// A pair keeps fewer bytes of a message than the message has, and that is at most the limit.
pub fn keeps_fewer_bytes()
    ensures { KeepsFewerBytes }
{}

/// The verdict on a frame is a message exactly where the trace delivers that message with the frame.
pub fn a_message_is_delivered()
    ensures { AMessageIsDelivered }
{}

/// The messages of a trace are exactly those that its frames deliver, in order.
pub fn messages_are_delivered()
    ensures { MessagesAreDelivered }
{}

/// The table of verdicts has one for each frame, and that is the verdict.
pub fn the_verdict_is_tabled()
    ensures { TheVerdictIsTabled }
{}

/// A frame to all units is told by its layout alone: what stands is what stood, and nothing stands for its channel.
pub fn functional_frames_stand_alone()
    ensures { FunctionalFramesStandAlone }
{}

/// What the places say of bytes and lengths is what the reception counts and tests.
pub fn places_agree()
    ensures carried { PlacesAgreeOnBytes }
    ensures fits { PlacesAgreeOnFit }
{}

/// Where memory was refused, nothing stands for the direction of the frame, and the other direction
/// is as it was.
pub fn refused_leaves_the_other()
    ensures { RefusedLeavesTheOther }
{}

/// What a pair keeps, over all frames that it takes from [`Pair::new`](crate::Pair::new) on: for each direction memory for at
/// most twice the most bytes that had come of one of its messages, and for no more than the largest message has.
///
/// After a trace that it took whole the bound is named by the trace: a new pair keeps within it, and with each frame again.
pub fn capacities_stay_within()
    ensures run { CapacitiesStayWithin }
    ensures new { NewPairKeepsWithin }
    ensures more { OneMoreKeepsWithin }
{}

/// The limit that the contracts of [`Pair`](crate::Pair) name: messages have at most 1,048,575 bytes.
pub fn the_message_limit()
    ensures { MESSAGE_LIMIT ≡ 1048575 }
{}

/// A trace that goes on delivers the messages of its first frames, and then those of the others. It delivers no more
/// messages than it has frames.
pub fn messages_go_on()
    ensures more { MessagesGoOn }
    ensures few { MessagesAreFew }
{}

/// Each message of a trace has at least one byte and at most the limit; where the frames hold bytes, so does it.
pub fn messages_fit()
    ensures length { MessagesFit }
    ensures bytes { MessagesHoldBytes }
{}

/// The frames of a trace that goes on do what the first frames do, and then what the others do: each one thing.
pub fn events_go_on()
    ensures more { EventsGoOn }
    ensures count { EventsAreAsMany }
{}

/// What is a first frame to the reception of a channel was sent on that channel, and has that layout.
pub fn first_frame_is_read()
    ensures { FirstFrameIsRead }
{}

/// A frame is dropped as too long exactly where it announces a length above the limit.
pub fn too_long_is_announced()
    ensures { TooLongIsAnnounced }
{}

/// A frame that is not dropped announces no length above the limit.
pub fn kept_is_within()
    ensures { KeptIsWithin }
{}

/// A trace is clean exactly where nothing of it is counted as dropped, ended or unfinished.
pub fn clean_is_counted()
    ensures { CleanIsCounted }
{}

/// A recording delivers exactly its messages, in order, each at the last of its frames; after any
/// trace too, even where a reception stands there. Each message is given the positions of the frames
/// that make it, and each single, first and consecutive frame belongs to exactly one message.
pub fn recording_delivers()
    ensures alone { RecordingDelivers }
    ensures behind_any_trace { RecordingDeliversBehind }
    ensures at_last_position { RecordingDeliversAtLastPosition }
    ensures frames { RecordingDeliversByFrames }
{}

/// A trace of which nothing is dropped, ended or left over is a recording of what it delivers. Each
/// message is given the positions of the frames that make it: of its single frame, or of its first
/// frame and all consecutive frames since. Each single, first and consecutive frame of the trace
/// belongs to exactly one delivered message.
pub fn clean_trace_is_a_recording()
    ensures certificate { CleanTraceIsARecording }
{}

//! What holds of what logs mean, of why they are refused, and of canonical logs.
ghost use Rattle.trace_log.specs.Laws.{ChannelIsById, OutcomeIsThere, OutcomeIsOne, NoRulesChangeNothing, CountsKnowNoRules, CleanKnowsNoRules, MasksKeepItems, CanonicalIsCanonical, SameMeaningSameText, RecordingHasCanonicalLog, CleanSummaryIsCertificate, CleanLogIsRecording, CleanLogHasBothSides, FramesAreOfTwoSides, PendingAreTheRest, EarlyTextStays, EarlyTextGrows, LinesReadAreThere, LinesReadAreOne, ReadingIsThere, ReadingIsOne, FittingIsLongest, FaultLeavesFront, LongestMessage, LargestLimit, ReadsByPieces, WritesByPieces, CanonicalLogLength, CanonicalLogLengthBySides, BadLineIsLowest, OversizeIsLowest, LargerLimitKeeps, SummaryCertifies, CertificateKnowsNoRules};

/// A frame has a channel exactly where its identifier is that of the channel.
pub fn channel_is_by_id()
    ensures { ChannelIsById }
{}

/// Each log has an outcome.
pub fn outcome_is_there()
    ensures { OutcomeIsThere }
{}

/// A log has one outcome: it is accepted with one text and summary, or refused for one reason.
pub fn outcome_is_one()
    ensures { OutcomeIsOne }
{}

/// Without rules a log has the messages that its trace delivers, and none is left out.
pub fn no_rules_change_nothing()
    ensures { NoRulesChangeNothing }
{}

/// The frames of a log, and what became of them, are counted as without rules; so a log is clean exactly where it is without
/// rules.
pub fn counts_know_no_rules()
    ensures counts { CountsKnowNoRules }
    ensures clean { CleanKnowsNoRules }
{}

/// Where no rule leaves messages out, the meaning under the rules is the meaning, item by item under them.
pub fn masks_keep_items()
    ensures { MasksKeepItems }
{}

/// A canonical log is accepted, is its own canonical log, under the rules and without them, and has the meaning of the
/// log that it was made of; nothing of it is dropped, ended, left unfinished or left out.
pub fn canonical_is_canonical()
    ensures { CanonicalIsCanonical }
{}

/// Two accepted logs have one meaning exactly where their canonical logs are equal.
pub fn same_meaning_same_text()
    ensures { SameMeaningSameText }
{}

/// All accepted recordings of some messages have one canonical log: that of the messages' meaning under the rules.
pub fn recording_has_canonical_log()
    ensures { RecordingHasCanonicalLog }
{}

/// Where a summary counts nothing dropped, ended or unfinished, the trace is a recording of what the log delivers.
pub fn clean_summary_is_certificate()
    ensures lines { CleanSummaryIsCertificate }
    ensures log { SummaryCertifies }
    ensures rules { CertificateKnowsNoRules }
{}

/// A clean log is a recording of exactly the messages that it delivers.
pub fn clean_log_is_recording()
    ensures { CleanLogIsRecording }
{}

/// A clean log has a frame of each side.
pub fn clean_log_has_both_sides()
    ensures { CleanLogHasBothSides }
{}

/// Each frame of a summary is one of the tester or one of the unit.
pub fn frames_are_of_two_sides()
    ensures { FramesAreOfTwoSides }
{}

/// The messages that a log delivers are those of its meaning and those left out, as responses pending or by rules.
pub fn pending_are_the_rest()
    ensures { PendingAreTheRest }
{}

/// What is written before a log ends begins its canonical log, and all that is written later.
pub fn early_text_stays()
    ensures stays { EarlyTextStays }
    ensures grows { EarlyTextGrows }
{}

/// The lines of a log that were read before a fault exist, and are the same however they are found.
pub fn lines_read_are_one()
    ensures there { LinesReadAreThere }
    ensures one { LinesReadAreOne }
{}

/// A log is refused at the first thing that can refuse it: its refused place, or a line that announces too much.
pub fn first_thing_refuses()
    ensures bad_line { BadLineIsLowest }
    ensures oversize { OversizeIsLowest }
{}

/// Where no announced length refuses a log, it is read as one thing.
pub fn reading_is_one()
    ensures there { ReadingIsThere }
    ensures one { ReadingIsOne }
{}

/// What fits of a text is the longest front of it that is whole lines and within the limit.
pub fn fitting_is_longest()
    ensures { FittingIsLongest }
{}

/// The longest message has 1,048,575 bytes. A first frame can announce up to 2^32 - 1 (ISO 15765-2).
pub fn longest_message()
    ensures { LongestMessage }
{}

/// The limit of a log, and of its canonical log, is 1 to 2^40 bytes.
pub fn largest_limit()
    ensures { LargestLimit }
{}

/// A log is read in pieces of at most 4,096 bytes: reading and writing lag behind what was given by no more.
pub fn pieces_are_short()
    ensures reads { ReadsByPieces }
    ensures writes { WritesByPieces }
{}

/// Whatever fault ends a run, what was written is a front of the canonical log of the lines read before it.
pub fn fault_leaves_front()
    ensures { FaultLeavesFront }
{}

/// A canonical log has a line for each canonical frame, of the length that the identifier of its side gives; and all lines
/// have one length where the identifiers do.
pub fn canonical_log_length()
    ensures one { CanonicalLogLength }
    ensures sides { CanonicalLogLengthBySides }
{}

/// A log accepted with a limit of messages is accepted in the same way with a larger one, so a
/// canonical log stays one.
pub fn larger_limit_keeps()
    ensures { LargerLimitKeeps }
{}

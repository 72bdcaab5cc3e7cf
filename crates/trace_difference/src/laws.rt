//! What holds of the text of any two sessions. Each law is its contract; a call does nothing.
ghost use Rattle.trace_difference.specs.Laws.{HunksLeadToTheRight, ListedLinesAreTheList, NothingIsWrittenOfEqualSessions};

/// What the text removes from the left list and adds to it is the right list. Both are lists as `list` writes them without
/// numbers.
pub fn hunks_lead_to_the_right()
    ensures hunks { HunksLeadToTheRight }
    ensures lines { ListedLinesAreTheList }
{}

/// Nothing is written in words exactly where both sessions are equal.
pub fn nothing_is_written_of_equal_sessions()
    ensures { NothingIsWrittenOfEqualSessions }
{}

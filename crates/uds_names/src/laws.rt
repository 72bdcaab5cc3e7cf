//! What holds of the names. Each law is its contract; a call does nothing.

ghost use Rattle.uds_names.specs.Laws.{NamesArePlain, NothingIsNamedTwice, TroubleCodesArePlain, TroubleCodeIsReadBack, TroubleRecordsAreWhole};

/// Each name is of letters, digits, blanks, hyphens, strokes and commas alone: it opens and closes nothing in HTML.
pub fn names_are_plain()
    ensures { NamesArePlain }
{}

/// No service and no response code that `uds_message` names has a name here.
pub fn nothing_is_named_twice()
    ensures { NothingIsNamedTwice }
{}

/// Each trouble code is of letters, digits and a hyphen alone.
pub fn trouble_codes_are_plain()
    ensures { TroubleCodesArePlain }
{}

/// The bytes of a trouble code are read back from it: no two codes are spelled alike.
pub fn trouble_code_is_read_back()
    ensures { TroubleCodeIsReadBack }
{}

/// The trouble codes of a message are whole: each has its three bytes and its status.
pub fn trouble_records_are_whole()
    ensures { TroubleRecordsAreWhole }
{}

//! What holds of two messages on a page, whatever they are. A law is its contract; a call does nothing.

ghost use Rattle.pair_words.specs.ColumnLaws.{EachByteIsCounted, EachLogHasItsLine, MarksAreOfColumnsThatDiffer};
ghost use Rattle.pair_words.specs.ByteLaws.{AloneBytesArePutIn};

/// Each byte that differs has a mark, and no other.
pub fn marks_are_of_columns_that_differ()
    ensures { MarksAreOfColumnsThatDiffer }
{}

/// A line that stands once is what both logs have there, and any other stands as each has it.
pub fn each_log_has_its_line()
    ensures { EachLogHasItsLine }
{}

/// Of what is folded or not shown each byte is counted, and each that differs.
pub fn each_byte_is_counted()
    ensures { EachByteIsCounted }
{}

/// Bytes that are said to be in one log alone are put into the message of the other one, and no other differs.
pub fn alone_bytes_are_put_in()
    ensures { AloneBytesArePutIn }
{}

//! What holds of a text that is not ours, in a line. Each law is its contract; a call does nothing.

ghost use Rattle.line_text.specs.Laws.{NameWritesNoControl, ClippedWritesNoControl, AsWrittenWritesNoControl};

/// Whatever bytes a text has, no control character stands in what is told of it: no byte below 20, and no 7F.
pub fn no_control_is_written()
    ensures name { NameWritesNoControl }
    ensures clipped { ClippedWritesNoControl }
    ensures as_written { AsWrittenWritesNoControl }
{}

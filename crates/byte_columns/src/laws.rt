//! What holds of the columns of any two messages. Each law is its contract; a call does nothing.
ghost use Rattle.byte_columns.specs.Laws.{ColumnsHaveBothMessages, CommonEndsStandTogether, EqualLengthsPairByPlace, LinesHaveTheColumns, LinesStandOnce, NoneDiffersInTheSame, OnlyPutIn, StretchesAreOfOneKind};

/// Without gaps the columns are both messages.
pub fn columns_have_both_messages()
    ensures { ColumnsHaveBothMessages }
{}

/// Messages of one length pair byte by byte.
pub fn equal_lengths_pair_by_place()
    ensures { EqualLengthsPairByPlace }
{}

/// What both messages begin with stands under each other, and of what is left that what both end with; between the two
/// the bytes pair by place.
pub fn common_ends_stand_together()
    ensures { CommonEndsStandTogether }
{}

/// No column differs exactly where the messages are the same.
pub fn none_differs_in_the_same()
    ensures { NoneDiffersInTheSame }
{}

/// Where no more columns differ than one message is longer, it is the other one with these bytes put in.
pub fn only_put_in()
    ensures { OnlyPutIn }
{}

/// Each column stands in one line, in order, or behind all that are shown.
pub fn lines_have_the_columns()
    ensures { LinesHaveTheColumns }
{}

/// Each line stands once, in order, shown or folded.
pub fn lines_stand_once()
    ensures { LinesStandOnce }
{}

/// Each stretch is a line that is there and shown, or a longest run of lines that are there and not shown.
pub fn stretches_are_of_one_kind()
    ensures { StretchesAreOfOneKind }
{}

//! What holds of the texts of messages, and of lists of items.
ghost use Rattle.trace_text.specs.Laws.{UnnumberedListsJoin, EqualListsHaveEqualTexts, RolesHaveTexts, AnswerIsNamed};
ghost use Rattle.trace_text.specs.Laws.{SilenceWasAskedFor, SilenceWasAskedForInJson};
ghost use Rattle.trace_text.specs.RuledLaws.{NoRulesMarkNothing, UnspokenIsNotMarked, EqualMessagesHaveEqualTexts};

/// The lists of items without numbers, one after another, are the list of all: so an item more is a line more, and
/// changes no other.
pub fn unnumbered_lists_join()
    ensures { UnnumberedListsJoin }
{}

/// Lists of items have one text exactly where they are equal: in words and as JSON, with numbers and without.
pub fn equal_lists_have_equal_texts()
    ensures { EqualListsHaveEqualTexts }
{}

/// A request without an answer is told as silent exactly where it asked for no positive response (ISO 14229-1,
/// suppressPosRspMsgIndicationBit).
pub fn silence_was_asked_for()
    ensures words { SilenceWasAskedFor }
    ensures json { SilenceWasAskedForInJson }
{}

/// Two steps have one text exactly where they tell one role, and an answer is called `answer`.
pub fn roles_have_texts()
    ensures distinct { RolesHaveTexts }
    ensures answer { AnswerIsNamed }
{}

/// Messages that rules leave have one text exactly where they are equal: what is masked is told by marks, and nothing
/// else is.
pub fn equal_messages_have_equal_texts()
    ensures { EqualMessagesHaveEqualTexts }
{}

/// A message that no rule speaks of has the text of its bytes, and so has each without rules.
pub fn unspoken_is_not_marked()
    ensures rules { UnspokenIsNotMarked }
    ensures none { NoRulesMarkNothing }
{}

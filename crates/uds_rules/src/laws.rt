//! What holds of messages under rules and of the texts of rules, whatever applies or reads them. Each law is its
//! contract; a call does nothing.

ghost use Rattle.uds_rules.specs.Laws.{UnderGoesOn, LeftOutGoesOn, LeftOutAreTheRest, NoRulesKeepAll, UnderTwice, WhatIsLeftStays, WhatStaysIsLeft, RuleSpeaksAlone, ApartSharesNoMessage, ClashSharesMessage, MaskKeepsKind, MaskedByPlaces, NoByteIsMadeUp, NoByteIsAdded, PrefixIsReadBack, PatternIsReadBack, ReadAsSpelled};
ghost use Rattle.uds_rules.specs.KeptLaws.{UnspokenStays, SubFunctionStays, NegativeResponseStays, TesterPresentStays};
ghost use Rattle.uds_rules.specs.LegalLaws.{SpelledDropIsRule, SpelledMaskIsRule, NoneAreRules, AddedAreRules};

/// What becomes of a message doesn't depend on those beside it, nor does how many are left out.
pub fn under_goes_on()
    ensures messages { UnderGoesOn }
    ensures count { LeftOutGoesOn }
{}

/// Each message is left, or left out.
pub fn left_out_are_the_rest()
    ensures { LeftOutAreTheRest }
{}

/// Without rules nothing changes.
pub fn no_rules_keep_all()
    ensures { NoRulesKeepAll }
{}

/// Rules applied twice are rules applied once.
pub fn under_twice()
    ensures { UnderTwice }
{}

/// What rules leave of messages they leave as it is, and of what they leave as it is they make nothing else.
pub fn what_is_left_stays()
    ensures left { WhatIsLeftStays }
    ensures stays { WhatStaysIsLeft }
{}

/// The order of rules tells nothing: of a message each rule that speaks of it makes what all of them make.
pub fn rule_speaks_alone()
    ensures { RuleSpeaksAlone }
{}

/// Two rules are refused beside one another exactly where a message begins with the prefixes of both.
pub fn apart_shares_no_message()
    ensures apart { ApartSharesNoMessage }
    ensures clash { ClashSharesMessage }
{}

/// A mask changes nothing of what a message is, nor whether it asks for silence; it makes none longer, and none empty.
pub fn mask_keeps_kind()
    ensures { MaskKeepsKind }
{}

/// A mask works place by place.
pub fn masked_by_places()
    ensures { MaskedByPlaces }
{}

/// No byte of a message is made up but 0, and none is added.
pub fn no_byte_is_made_up()
    ensures bytes { NoByteIsMadeUp }
    ensures added { NoByteIsAdded }
{}

/// The texts of prefixes and patterns are read back, and what is read as a mask is spelled so.
pub fn pattern_is_read_back()
    ensures prefix { PrefixIsReadBack }
    ensures pattern { PatternIsReadBack }
    ensures spelled { ReadAsSpelled }
{}

/// A message that no rule speaks of stays as it is.
pub fn unspoken_stays()
    ensures { UnspokenStays }
{}

/// A mask changes no sub-function, and nothing of a negative response or of a TesterPresent.
pub fn mask_keeps_bytes()
    ensures sub_function { SubFunctionStays }
    ensures negative { NegativeResponseStays }
    ensures tester_present { TesterPresentStays }
{}

/// A text that is read as a rule spells a legal one: of `drop`, and of `mask`.
pub fn spelled_is_rule()
    ensures drops { SpelledDropIsRule }
    ensures masks { SpelledMaskIsRule }
{}

/// Rules to which only such are added as can stand behind them are the rules of a profile.
pub fn added_are_rules()
    ensures none { NoneAreRules }
    ensures added { AddedAreRules }
{}

//! What holds of the answers of several calls, and of words. A law is its contract; a call does nothing. A law of a lower
//! crate that a proof needs is called.

ghost use Rattle.udsnorm_c.specs.Laws.{CleanCompareIsRecorded, CleanDiffIsRecorded, CleanExplainIsRecorded, CleanListIsRecorded, CleanMessagesAreRecorded, CleanNormaliseIsRecorded, CleanReportIsRecorded, CleanReportPairIsRecorded};
ghost use Rattle.udsnorm_c.specs.Laws.{CompareTellsEqualTexts, DiffAgreesWithCompare, DiffIsEmptyOfEqualLogs, EqualMeaningsHaveEqualTexts, PairPageAgreesWithCompare, SettingsAreOne, StatusesAreToldApart};

use trace_log::laws::{clean_log_has_both_sides, outcome_is_one};
use trace_pair::laws::agrees_with_compare;

/// What a call is handed asks for one configuration at most.
pub fn settings_are_one()
    ensures { SettingsAreOne }
{}

/// Two logs have equal meaning exactly where their canonical logs, as they were put, are equal; and so comparing tells.
pub fn equal_meanings_have_equal_texts()
    ensures meaning { EqualMeaningsHaveEqualTexts }
    ensures compare { CompareTellsEqualTexts }
{
    outcome_is_one();
}

/// Where an answer is clean, the log, or each of two, is a recording of exactly the messages that it delivers, with a frame
/// of each side.
pub fn clean_answer_is_recording()
    ensures normalise { CleanNormaliseIsRecorded }
    ensures list { CleanListIsRecorded }
    ensures messages { CleanMessagesAreRecorded }
    ensures explain { CleanExplainIsRecorded }
    ensures report { CleanReportIsRecorded }
    ensures compare { CleanCompareIsRecorded }
    ensures diff { CleanDiffIsRecorded }
    ensures report_pair { CleanReportPairIsRecorded }
{
    clean_log_has_both_sides();
}

/// The answer of a page of two logs that was made says of them what comparing answers, where that accepts both.
pub fn pair_page_agrees_with_compare()
    ensures { PairPageAgreesWithCompare }
{
    agrees_with_compare();
}

/// So does the answer of the text of where they differ.
pub fn diff_agrees_with_compare()
    ensures { DiffAgreesWithCompare }
{
    agrees_with_compare();
}

/// In words, the text of where two logs differ has no byte exactly where none of their items does.
pub fn diff_is_empty_of_equal_logs()
    ensures { DiffIsEmptyOfEqualLogs }
{}

/// Each status has words of its own, and no other number has them.
pub fn statuses_are_told_apart()
    ensures { StatusesAreToldApart }
{}

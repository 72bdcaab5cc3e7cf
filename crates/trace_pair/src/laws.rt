//! What holds of a page of two logs, whatever logs it is of. A law is its contract; a call does nothing. A law of a
//! lower crate that a proof needs is called.

ghost use Rattle.trace_pair.specs.Laws.{AgreesWithCompare, ChangesAreOfComparison, ComparisonIsOfItems, StyleHoldsNoTag};
ghost use Rattle.trace_pair.specs.ChartLaws.{ChartCountsTheRun, ChartHasTheItem};
ghost use Rattle.trace_pair.specs.LinkLaws.{DifferencesAreTheChanges, LinksHaveTargets, LinksNameIdentifiers, LinksSpellIdentifiers, ListLeadsToTheTable};
ghost use Rattle.trace_pair.specs.TableLaws.{EachItemStandsOnce, EachRowStandsOnce, UnfoldedRowsAreThoseOfHunks};
ghost use Rattle.trace_pair.specs.LongerLaws.{LongerLinksHaveTargets};
ghost use Rattle.trace_pair.specs.LossLaws.{EachLossStandsOnce, LossyWhereLost};
ghost use Rattle.trace_pair.specs.OutcomeLaws.{UnansweredHasNone};
ghost use Rattle.trace_pair.specs.RowLaws.{EachItemHasItsRow, HeadingCountsTheRows};

use trace_report::laws::items_are_the_meaning;

/// The style of a page opens and closes nothing on it.
pub fn style_holds_no_tag()
    ensures { StyleHoldsNoTag }
{}

/// What is answered of how two sessions compare is so of their items.
pub fn comparison_is_of_items()
    ensures { ComparisonIsOfItems }
{}

/// What is answered of two logs beside their page is what `compare` answers, where that accepts both.
pub fn agrees_with_compare()
    ensures { AgreesWithCompare }
{
    items_are_the_meaning();
}

/// The verdict and the first difference of a page are of what is answered of how two sessions compare.
pub fn changes_are_of_comparison()
    ensures { ChangesAreOfComparison }
{}

/// The heading of sessions that differ counts their items as the rows have them.
pub fn heading_counts_the_rows()
    ensures { HeadingCountsTheRows }
{}

/// A chart finds each item of its log in the row that has it.
pub fn each_item_has_its_row()
    ensures { EachItemHasItsRow }
{}

/// The chart of the first difference shows the item that differs, and its answer, or tells that more rows follow, of
/// which that is one.
pub fn chart_has_the_item()
    ensures { ChartHasTheItem }
{}

/// Of a longer run the chart tells how many items begin behind its rows and those that it says it leaves out.
pub fn chart_counts_the_run()
    ensures { ChartCountsTheRun }
{}

/// An item that is said to have no answer has none, wherever the page says so, and so has the log of two that is said
/// to have none.
pub fn unanswered_has_none()
    ensures { UnansweredHasNone }
{}

/// The table of items has each row of two sessions once.
pub fn each_row_stands_once()
    ensures { EachRowStandsOnce }
{}

/// The table of items has each item of both sessions once.
pub fn each_item_stands_once()
    ensures { EachItemStandsOnce }
{}

/// What stands in no fold of the table of items is what the hunks of `diff` have, each row at its place.
pub fn unfolded_rows_are_those_of_hunks()
    ensures { UnfoldedRowsAreThoseOfHunks }
{}

/// What is missing of a log stands with one of its items, once.
pub fn each_loss_stands_once()
    ensures { EachLossStandsOnce }
{}

/// A log is said to be not clean at a change exactly where its rows there tell that something is missing.
pub fn lossy_where_lost()
    ensures { LossyWhereLost }
{}

/// Each difference to which a link leads begins with a row of the table of items.
pub fn links_have_targets()
    ensures { LinksHaveTargets }
{}

/// The differences that rows of the table of items begin are all changes, each at its place.
pub fn differences_are_the_changes()
    ensures { DifferencesAreTheChanges }
{}

/// The list of the differences leads to those that rows of the table of items begin.
pub fn list_leads_to_the_table()
    ensures { ListLeadsToTheTable }
{}

/// Each link to a difference names the identifier of a row.
pub fn links_name_identifiers()
    ensures { LinksNameIdentifiers }
{}

/// What a link to a difference names is how the identifier of a row is spelled.
pub fn links_spell_identifiers()
    ensures { LinksSpellIdentifiers }
{}

/// What the verdict tells of answers that took much longer in a log leads to the row of the slowest.
pub fn longer_links_have_targets()
    ensures { LongerLinksHaveTargets }
{}

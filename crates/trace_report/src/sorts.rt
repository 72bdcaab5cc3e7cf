//! The sorts of a report's rows: what is counted, and where links lead.

ghost use Rattle.std.specs.Prelude.{◌≡◌};
ghost use Rattle.trace_report.specs.Sorts as Spec;
ghost use Rattle.trace_report.specs.Rows.{missing_of, row_of};

use crate::roles::MessageRole;
use crate::row::{Missing, SessionRow, Silence};
use crate::tally::SortCounts;
use crate::targets::LinkTarget;

/// What needs attention, and what else is counted.
#[derive(Clone, Copy, Debug)]
pub(crate) enum Sort {
    Requests,
    Positives,
    Negatives,
    Pendings,
    KeepAlives,
    Strays,
    Unanswered,
    ToAllUnits,
    Silent,
    Dropped,
    Ended,
    Unfinished,
}

/// The sort of a row.
pub(crate) fn sort_of(row: SessionRow<'_>) -> Sort
    ensures { result ≡ Spec.sort_of (row_of row.entry) }
{
    match row {
        SessionRow::Message { sent, .. } => sort_of_role(sent.role),
        SessionRow::Missing(missing) => sort_of_missing(missing),
    }
}

/// The sort of the row of what is missing.
fn sort_of_missing(missing: Missing) -> Sort
    ensures { result ≡ Spec.sort_of (missing_of missing) }
{
    match missing {
        Missing::NoAnswer { silence, .. } => sort_of_silence(silence),
        Missing::Dropped { .. } => Sort::Dropped,
        Missing::Ended { .. } => Sort::Ended,
        Missing::Unfinished { .. } => Sort::Unfinished,
    }
}

/// The sort of the row of a message of this role.
fn sort_of_role(role: MessageRole) -> Sort
    ensures { result ≡ Spec.sort_of_role role }
{
    match role {
        MessageRole::Request => Sort::Requests,
        MessageRole::Positive { .. } => Sort::Positives,
        MessageRole::Negative { .. } => Sort::Negatives,
        MessageRole::Pending { .. } => Sort::Pendings,
        MessageRole::KeepAlive => Sort::KeepAlives,
        MessageRole::Stray => Sort::Strays,
    }
}

/// Whether rows of this sort need attention: a page links to the first of them, and its filter hides each exchange
/// without one.
pub(crate) fn needs_attention(sort: Sort) -> bool
    ensures { result ≡ Spec.needs_attention sort }
{
    match sort {
        Sort::Negatives
        | Sort::Strays
        | Sort::Unanswered
        | Sort::Dropped
        | Sort::Ended
        | Sort::Unfinished => true,
        Sort::Requests
        | Sort::Positives
        | Sort::Pendings
        | Sort::KeepAlives
        | Sort::ToAllUnits
        | Sort::Silent => false,
    }
}

/// Whether a message of this role needs attention.
pub(crate) fn message_needs_attention(role: MessageRole) -> bool
    ensures { result ≡ Spec.message_needs_attention role }
{
    needs_attention(sort_of_role(role))
}

/// Whether rows tell an answer, by how many there are of each sort.
pub(crate) fn has_answers(counts: &SortCounts) -> bool
    ensures { result ≡ Spec.has_answers counts.now }
{
    !(counts.positives == 0 && counts.negatives == 0)
}

/// The sort of the row of an item without an answer.
fn sort_of_silence(silence: Silence) -> Sort
    ensures { result ≡ Spec.sort_of_silence silence }
{
    match silence {
        Silence::Suppressed => Sort::Silent,
        Silence::ToAllUnits => Sort::ToAllUnits,
        Silence::Unanswered => Sort::Unanswered,
    }
}

/// Whether the row of an item without an answer needs attention.
pub(crate) fn silence_needs_attention(silence: Silence) -> bool
    ensures { result ≡ Spec.silence_needs_attention silence }
{
    needs_attention(sort_of_silence(silence))
}

/// Where a link to a row leads: to its item or to its line, or to what stands of its side.
pub(crate) fn target_of(row: SessionRow<'_>) -> LinkTarget
    ensures { result ≡ Spec.target_of (row_of row.entry) }
{
    match row {
        SessionRow::Message { sent, .. } => LinkTarget::Item(sent.place.item),
        SessionRow::Missing(missing) => target_of_missing(missing),
    }
}

/// Where links to the row of what is missing lead.
fn target_of_missing(missing: Missing) -> LinkTarget
    ensures { result ≡ Spec.target_of (missing_of missing) }
{
    match missing {
        Missing::NoAnswer { number, .. } => LinkTarget::Item(number),
        Missing::Dropped { place, .. } => LinkTarget::Line(place.line),
        Missing::Ended { place, .. } => LinkTarget::Line(place.line),
        Missing::Unfinished { dir, .. } => LinkTarget::Side(dir),
    }
}

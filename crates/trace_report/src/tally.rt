//! What a report keeps of its rows for the verdict.

ghost use Rattle.std.specs.Prelude.{◌≡◌, ◌<◌, ◌^◌, ◌-◌, List, [], ◌∷◌, ◌++◌, length, take};
ghost use Rattle.trace_report.specs.Rows.{RowValue, row_of};
ghost use Rattle.trace_report.specs.Sorts.{counts_in, first_targets, most_links, tally_of};
ghost use Rattle.trace_report.specs.proving.Tallying.{counts_with, first_with};

use crate::counting::one_more;
use crate::row::SessionRow;
use crate::sorts::{Sort, sort_of, target_of};
use crate::targets::LinkTarget;
use arrayvec::ArrayVec;

/// How many rows there are of each sort.
#[derive(Clone, Copy, Debug)]
pub struct SortCounts {
    pub requests: u64,
    pub positives: u64,
    pub negatives: u64,
    pub unanswered: u64,
    pub to_all_units: u64,
    pub silent: u64,
    pub pendings: u64,
    pub keep_alives: u64,
    pub strays: u64,
    pub dropped: u64,
    pub ended: u64,
    pub unfinished: u64,
}

impl SortCounts {
    /// Before the first row.
    pub(crate) fn start() -> SortCounts
        ensures { result ≡ counts_in [] }
    {
        SortCounts {
            requests: 0,
            positives: 0,
            negatives: 0,
            unanswered: 0,
            to_all_units: 0,
            silent: 0,
            pendings: 0,
            keep_alives: 0,
            strays: 0,
            dropped: 0,
            ended: 0,
            unfinished: 0,
        }
    }

    /// Takes a row of this sort.
    pub(crate) fn take(&mut self, sort: Sort)
        ensures { self.new ≡ counts_with sort self.old }
    {
        match sort {
            Sort::Requests => self.requests = one_more(self.requests),
            Sort::Positives => self.positives = one_more(self.positives),
            Sort::Negatives => self.negatives = one_more(self.negatives),
            Sort::Pendings => self.pendings = one_more(self.pendings),
            Sort::KeepAlives => self.keep_alives = one_more(self.keep_alives),
            Sort::Strays => self.strays = one_more(self.strays),
            Sort::Unanswered => self.unanswered = one_more(self.unanswered),
            Sort::ToAllUnits => self.to_all_units = one_more(self.to_all_units),
            Sort::Silent => self.silent = one_more(self.silent),
            Sort::Dropped => self.dropped = one_more(self.dropped),
            Sort::Ended => self.ended = one_more(self.ended),
            Sort::Unfinished => self.unfinished = one_more(self.unfinished),
        }
    }
}

/// So many rows of a sort are linked to at the most.
pub(crate) const MOST_LINKS: u64 = 10;

/// Where links to rows of a sort lead: to the first [`MOST_LINKS`] of them.
pub(crate) type Targets = ArrayVec<LinkTarget, 10>;

/// Where links to the first rows lead of each sort that needs attention.
#[derive(Debug, Drop)]
pub(crate) struct FirstTargets {
    pub dropped: Targets,
    pub ended: Targets,
    pub unfinished: Targets,
    pub negatives: Targets,
    pub unanswered: Targets,
    pub strays: Targets,
}

impl FirstTargets {
    /// Before the first row.
    fn start() -> FirstTargets
        ensures { result ≡ first_targets [] }
    {
        FirstTargets {
            dropped: ArrayVec::new(),
            ended: ArrayVec::new(),
            unfinished: ArrayVec::new(),
            negatives: ArrayVec::new(),
            unanswered: ArrayVec::new(),
            strays: ArrayVec::new(),
        }
    }

    /// Takes a row of this sort, to which a link leads there.
    fn take(&mut self, sort: Sort, target: LinkTarget)
        ensures { self.new ≡ first_with sort target self.old }
    {
        match sort {
            Sort::Dropped => push_if_room(&mut self.dropped, target),
            Sort::Ended => push_if_room(&mut self.ended, target),
            Sort::Unfinished => push_if_room(&mut self.unfinished, target),
            Sort::Negatives => push_if_room(&mut self.negatives, target),
            Sort::Unanswered => push_if_room(&mut self.unanswered, target),
            Sort::Strays => push_if_room(&mut self.strays, target),
            Sort::Requests
            | Sort::Positives
            | Sort::Pendings
            | Sort::KeepAlives
            | Sort::ToAllUnits
            | Sort::Silent => {}
        }
    }
}

/// Puts a target behind those before it, if there is room.
pub(crate) fn push_if_room(first: &mut Targets, target: LinkTarget)
    ensures { first.new.items ≡ take most_links (first.old.items ++ target ∷ []) }
{
    if !first.is_full() {
        first.push(target);
    }
}

/// How many rows there are of each sort, and where links to the first of them lead.
#[derive(Debug, Drop)]
pub(crate) struct Tally {
    pub counts: SortCounts,
    pub first: FirstTargets,
}

impl Tally {
    /// Before the first row.
    pub(crate) fn start() -> Tally
        ensures { result ≡ tally_of [] }
    {
        Tally {
            counts: SortCounts::start(),
            first: FirstTargets::start(),
        }
    }

    /// Takes one more row.
    pub(crate) fn take(&mut self, row: SessionRow<'_>)
        ensures { (rows : List RowValue) → length rows < 2 ^ 64 - 1 → self.old ≡ tally_of rows → self.new ≡ tally_of (rows ++ row_of row.entry ∷ []) }
    {
        let sort = sort_of(row);
        self.counts.take(sort);
        self.first.take(sort, target_of(row));
    }
}

//! At how many changes of two sessions a log is not clean.

ghost use Rattle.std.specs.Prelude.{◌≡◌, ◌≤◌, ◌<◌, ◌+◌, ◌^◌, ◌||◌, false, length, if◌then◌else◌};
ghost use Rattle.std.specs.List.{list_any};
ghost use Rattle.shown_rows.specs.Changes.{changes};
ghost use Rattle.pair_words.specs.declared.log.PairLog.TheVariants.{A, B};
ghost use Rattle.trace_pair.specs.Verdict as Spec;
ghost use Rattle.trace_pair.specs.proving.Changing.{count_if, is_lossy_if, lossy_if};

use crate::losses::is_lossy;
use crate::sessions::Sessions;
use pair_words::PairLog;
use shown_rows::{Change, change_at, left_in, right_in};
use text_parts::{Either, Part, say};
use trace_io::TextSink;
use trace_text::Number;
use uds_difference::Row;

/// At how many changes a log is not clean, and which.
pub(crate) fn losses_at_changes(rows: &[Row], sessions: Sessions<'_>) -> LossyLine
    ensures lossy { result.lossy ≡ Spec.lossy_count sessions.entry.left.now sessions.entry.right.now (changes rows.now) }
    ensures all { result.all ≡ length (changes rows.now) }
    ensures left { result.left ≡ list_any (Spec.is_lossy A sessions.entry.left.now) (changes rows.now) }
    ensures right { result.right ≡ list_any (Spec.is_lossy B sessions.entry.right.now) (changes rows.now) }
{
    let mut line = LossyLine::none();
    let mut front = Row::Same;
    let mut i: usize = 0;
    let mut j: usize = 0;
    'rows: for k in 0..rows.len() {
        line = with_change(line, sessions, change_at(front, i, j, &rows[k..]));
        front = rows[k];
        i += left_in(front);
        j += right_in(front);
    }
    line
}

/// With what is missing at a change, if there is one.
fn with_change(line: LossyLine, sessions: Sessions<'_>, change: Option<Change>) -> LossyLine
    requires small { line.all + 1 < 2 ^ 63 }
    requires few { line.lossy ≤ line.all }
    ensures lossy { result.lossy ≡ lossy_if sessions.entry.left.now sessions.entry.right.now change + line.lossy }
    ensures all { result.all ≡ line.all + count_if change }
    ensures left { result.left ≡ (is_lossy_if A sessions.entry.left.now change || line.left) }
    ensures right { result.right ≡ (is_lossy_if B sessions.entry.right.now change || line.right) }
{
    match change {
        Some(change) => line.with(
            is_lossy(PairLog::A, sessions.left, change),
            is_lossy(PairLog::B, sessions.right, change),
        ),
        None => line,
    }
}

/// At how many of all changes a log is not clean, and whether the left log is not clean at one, and the right one.
#[derive(Clone, Copy, Debug)]
pub(crate) struct LossyLine {
    pub lossy: u64,
    pub all: u64,
    pub left: bool,
    pub right: bool,
}

impl LossyLine {
    /// Of no change.
    pub(crate) fn none() -> LossyLine
        ensures lossy { result.lossy ≡ 0 }
        ensures all { result.all ≡ 0 }
        ensures left { result.left ≡ false }
        ensures right { result.right ≡ false }
    {
        LossyLine {
            lossy: 0,
            all: 0,
            left: false,
            right: false,
        }
    }

    /// With one change more, at which the logs are not clean or are.
    pub(crate) fn with(self, left: bool, right: bool) -> LossyLine
        requires small { self.all + 1 < 2 ^ 63 }
        requires few { self.lossy ≤ self.all }
        ensures lossy { result.lossy ≡ (if left || right then 1 else 0) + self.lossy }
        ensures all { result.all ≡ self.all + 1 }
        ensures left { result.left ≡ (left || self.left) }
        ensures right { result.right ≡ (right || self.right) }
    {
        LossyLine {
            lossy: if left || right {
                self.lossy + 1
            } else {
                self.lossy
            },
            all: self.all + 1,
            left: left || self.left,
            right: right || self.right,
        }
    }
}

impl Part for LossyLine {
    ghost use Rattle.trace_pair.specs.Verdict.{lossy_line};

    ghost text = { λ line. lossy_line line.lossy line.all line.left line.right };

    fn say<S: TextSink>(self, out: &mut S) {
        if self.lossy > 0 {
            say(
                out,
                (
                    "<p class=\"lossline\"><b>",
                    AtWords {
                        lossy: self.lossy,
                        all: self.all,
                    },
                    "</b> ",
                    WhoWords {
                        left: self.left,
                        right: self.right,
                    },
                    ": frames are missing, late, out of order or of no legal form there. The recording may differ, and not the session.</p>\n",
                ),
            );
        }
    }
}

/// Which log is not clean at one of them.
#[derive(Clone, Copy)]
struct WhoWords {
    left: bool,
    right: bool,
}

impl Part for WhoWords {
    ghost use Rattle.trace_pair.specs.Verdict.{who_words};

    ghost text = { λ words. who_words words.left words.right };

    fn say<S: TextSink>(self, out: &mut S) {
        match (self.left, self.right) {
            (true, true) => say(out, "A or B is not clean"),
            (true, false) => say(out, "A is not clean"),
            (false, _) => say(out, "B is not clean"),
        }
    }
}

/// At so many of so many changes.
#[derive(Clone, Copy)]
struct AtWords {
    lossy: u64,
    all: u64,
}

impl Part for AtWords {
    ghost use Rattle.trace_pair.specs.Verdict.{at_words};

    ghost text = { λ words. at_words words.lossy words.all };

    fn say<S: TextSink>(self, out: &mut S) {
        let AtWords { lossy, all } = self;
        if lossy == all {
            say(
                out,
                Either(
                    all == 1,
                    "At this difference",
                    "At each of these differences",
                ),
            );
        } else {
            say(
                out,
                (
                    "At ",
                    Number(lossy),
                    " of these ",
                    Number(all),
                    " differences",
                ),
            );
        }
    }
}

//! What is folded of the table of items: items that are the same, in one line.

ghost use Rattle.std.specs.Prelude.{◌+◌, ◌<◌, ◌^◌};
ghost use Rattle.std.specs.List.{flat_map};
ghost use Rattle.trace_pair.specs.ItemTables as Spec;
ghost use Rattle.trace_pair.specs.RowStretches.{fold_rows, parts};

use crate::change_words::say_items_range;
use crate::item_row::{RowPlace, say_item_row};
use crate::losses::count_losses;
use crate::sessions::Sessions;
use crate::standing::FULL_TABLE;
use crate::table_parts::TableStart;
use crate::verdict_words::ItemsWord;
use pair_words::PairLog;
use text_parts::{Part, say};
use trace_io::TextSink;
use trace_text::Number;
use uds_difference::Row;

/// Items that are the same, and folded.
#[derive(Clone, Copy, Debug)]
pub(crate) struct Fold {
    /// So many items of the left session stand before them.
    pub left: usize,
    /// So many of the right one.
    pub right: usize,
    /// So many there are.
    pub count: usize,
}

/// Says a fold: in one table, or in parts.
pub(crate) fn say_fold<S: TextSink>(sessions: Sessions<'_>, fold: Fold, out: &mut S)
    requires left { fold.left + fold.count < 2 ^ 63 }
    requires right { fold.right + fold.count < 2 ^ 63 }
    ensures { S.says out.old (Spec.fold_text sessions.entry.left.now sessions.entry.right.now fold) out.new }
{
    if fold.count <= FULL_TABLE {
        say(out, "<details class=\"b same\">\n<summary>");
        say_fold_line(sessions, fold, out);
        say(out, "</summary>\n");
        say(out, TableStart);
        say_same_rows(sessions, fold, out);
        say(out, "</table>\n</details>\n");
    } else {
        say(out, "<details class=\"b same long\">\n<summary>");
        say_fold_line(sessions, fold, out);
        say(out, "</summary>\n");
        say_fold_parts(sessions, fold, out);
        say(out, "</details>\n");
    }
}

/// Says the line of a fold: how many items, which, and what is missing of them.
fn say_fold_line<S: TextSink>(sessions: Sessions<'_>, fold: Fold, out: &mut S)
    requires left { fold.left + fold.count < 2 ^ 63 }
    requires right { fold.right + fold.count < 2 ^ 63 }
    ensures { S.says out.old (Spec.fold_line sessions.entry.left.now sessions.entry.right.now fold) out.new }
{
    say(
        out,
        ("<b>", ItemsWord(fold.count as u64), ", the same</b> <i>"),
    );
    say_both_ranges(fold, out);
    say(out, "</i>");
    say(
        out,
        FoldLosses(
            PairLog::A,
            count_losses(sessions.left, fold.left, fold.count),
        ),
    );
    say(
        out,
        FoldLosses(
            PairLog::B,
            count_losses(sessions.right, fold.right, fold.count),
        ),
    );
}

/// Says where the items of a fold stand in both logs.
fn say_both_ranges<S: TextSink>(fold: Fold, out: &mut S)
    requires left { fold.left + fold.count < 2 ^ 63 }
    requires right { fold.right + fold.count < 2 ^ 63 }
    ensures { S.says out.old (Spec.both_ranges fold) out.new }
{
    say_items_range(PairLog::A, fold.left, fold.count, out);
    say(out, ", ");
    say_items_range(PairLog::B, fold.right, fold.count, out);
}

/// Says the parts of a long fold.
fn say_fold_parts<S: TextSink>(sessions: Sessions<'_>, fold: Fold, out: &mut S)
    requires left { fold.left + fold.count < 2 ^ 63 }
    requires right { fold.right + fold.count < 2 ^ 63 }
    ensures { S.says out.old (flat_map (Spec.fold_part sessions.entry.left.now sessions.entry.right.now) (parts fold)) out.new }
{
    let mut said: usize = 0;
    'parts: while said < fold.count {
        let count = (fold.count - said).min(FULL_TABLE);
        let part = Fold {
            left: fold.left + said,
            right: fold.right + said,
            count,
        };
        say_fold_part(sessions, part, out);
        said += count;
    }
}

/// Says a part of a long fold.
fn say_fold_part<S: TextSink>(sessions: Sessions<'_>, fold: Fold, out: &mut S)
    requires left { fold.left + fold.count < 2 ^ 63 }
    requires right { fold.right + fold.count < 2 ^ 63 }
    ensures { S.says out.old (Spec.fold_part sessions.entry.left.now sessions.entry.right.now fold) out.new }
{
    say(out, "<details class=\"b\">\n<summary>");
    say_both_ranges(fold, out);
    say(out, "</summary>\n");
    say(out, TableStart);
    say_same_rows(sessions, fold, out);
    say(out, "</table>\n</details>\n");
}

/// Says the rows of a fold.
fn say_same_rows<S: TextSink>(sessions: Sessions<'_>, fold: Fold, out: &mut S)
    requires left { fold.left + fold.count < 2 ^ 63 }
    requires right { fold.right + fold.count < 2 ^ 63 }
    ensures { S.says out.old (Spec.rows_text sessions.entry.left.now sessions.entry.right.now (fold_rows fold)) out.new }
{
    'rows: for k in 0..fold.count {
        let place = RowPlace {
            kind: Row::Same,
            left: fold.left + k,
            right: fold.right + k,
        };
        say_item_row(sessions, place, None, out);
    }
}

/// How much is missing of the folded items of a log, where something is.
#[derive(Clone, Copy)]
struct FoldLosses(PairLog, usize);

impl Part for FoldLosses {
    ghost use Rattle.trace_pair.specs.ItemTables.{fold_losses};

    ghost text = { λ losses. fold_losses losses.0 losses.1 };

    fn say<S: TextSink>(self, out: &mut S) {
        if self.1 > 0 {
            say(
                out,
                (
                    " <em class=\"loss\">",
                    Number(self.1 as u64),
                    " dropped, ended or unfinished in ",
                    self.0,
                    "</em>",
                ),
            );
        }
    }
}

//! The first difference as recorded: both logs around it.

ghost use Rattle.std.specs.Prelude.{◌≡◌, ◌+◌, ◌<◌, ◌^◌, IfSome, false, slice_get};
ghost use Rattle.shown_rows.specs.Changes.{changes};
ghost use Rattle.shown_rows.specs.Rows.{changes_within};
ghost use Rattle.trace_pair.specs.ChangeWords.{IsSmall};
ghost use Rattle.trace_pair.specs.FirstDifference as Spec;
ghost use Rattle.trace_pair.specs.proving.Marks.{charted_of};

use crate::change_words::say_change_line;
use crate::chart::say_chart;
use crate::counterparts::Charted;
use crate::sessions::Sessions;
use pair_words::{LetteredName, PairLog, own_count};
use shown_rows::{Change, change_at, count_changes, left_in, right_in};
use text_parts::{Either, say};
use trace_io::TextSink;
use trace_report::KeptSession;
use uds_difference::Row;

/// Says the first change, if there is one, by the rows of both logs around it.
pub(crate) fn say_first<S: TextSink>(
    left_name: &[u8],
    right_name: &[u8],
    sessions: Sessions<'_>,
    rows: &[Row],
    out: &mut S,
)
    ensures { S.says out.old (Spec.first_text left_name.now right_name.now sessions.entry.left.now sessions.entry.right.now rows.now) out.new }
{
    if let Some(change) = first_change(rows) {
        let names = Names {
            left: &*left_name,
            right: &*right_name,
        };
        let first = First {
            change,
            count: count_changes(rows),
        };
        say_change(names, sessions, rows, first, out);
    }
}

/// The first change of rows, if there is one.
fn first_change(rows: &[Row]) -> Option<Change>
    ensures value { result ≡ slice_get (changes rows.now) 0 }
    ensures small { IfSome result IsSmall }
{
    let mut i: usize = 0;
    let mut j: usize = 0;
    'rows: for k in 0..rows.len() {
        if let Some(change) = change_at(Row::Same, i, j, &rows[k..]) {
            return Some(change);
        }
        i += left_in(rows[k]);
        j += right_in(rows[k]);
    }
    None
}

/// The names of both logs.
#[derive(Clone, Copy)]
struct Names<'a> {
    left: &'a [u8],
    right: &'a [u8],
}

/// The first change of rows, and how many they have.
#[derive(Clone, Copy)]
struct First {
    change: Change,
    count: usize,
}

/// Items of a log: so many, from the one of a place on.
#[derive(Clone, Copy)]
struct ItemRun {
    first: usize,
    count: usize,
}

/// Says the first change of these rows.
fn say_change<S: TextSink>(
    names: Names<'_>,
    sessions: Sessions<'_>,
    rows: &[Row],
    first: First,
    out: &mut S,
)
    requires small { IsSmall first.change }
    requires first { changes_within first.change.left rows.now ≡ false }
    ensures { S.says out.old (Spec.first_change_text first.count names.entry.left.now names.entry.right.now sessions.entry.left.now sessions.entry.right.now rows.now first.change) out.new }
{
    let First { change, count } = first;
    say(
        out,
        (
            "<section id=\"difference\">\n<h2>",
            Either(
                count == 1,
                "The difference, as recorded",
                "The first difference, as recorded",
            ),
            "</h2>\n<p>",
        ),
    );
    say_change_line(count == 1, 1, sessions, change, out);
    say(out, "</p>\n<div class=\"two\">\n");
    let left = Charted {
        log: PairLog::A,
        sessions,
        rows,
        same: change.left,
    };
    let right = Charted {
        log: PairLog::B,
        sessions,
        rows,
        same: change.left,
    };
    let left_run = ItemRun {
        first: change.left,
        count: own_count(PairLog::A, change),
    };
    let right_run = ItemRun {
        first: change.right,
        count: own_count(PairLog::B, change),
    };
    say_side(left, names.left, left_run, sessions.left, out);
    say_side(right, names.right, right_run, sessions.right, out);
    say(out, "</div>\n</section>\n");
}

/// Says the change as one log has it, to whose items these belong.
fn say_side<S: TextSink>(
    chart: Charted<'_>,
    name: &[u8],
    run: ItemRun,
    session: &KeptSession<'_>,
    out: &mut S,
)
    requires same { changes_within chart.same chart.rows.now ≡ false }
    requires small { run.first + run.count < 2 ^ 63 }
    ensures { S.says out.old (Spec.side (charted_of chart.entry) name.now run.first run.count session.now) out.new }
{
    say(
        out,
        ("<section>\n<h3>", LetteredName(chart.log, name), "</h3>\n"),
    );
    say_chart(chart, run.first, run.count, session, out);
    say(out, "</section>\n");
}

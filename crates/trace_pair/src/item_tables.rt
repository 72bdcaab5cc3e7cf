//! The table of items: each row of both sessions once.

ghost use Rattle.std.specs.Prelude.{◌≡◌, ◌==◌, ◌+◌, ◌<◌, ◌&&◌, not, ◌∷◌, List, codes, length, if◌then◌else◌};
ghost use Rattle.uds_difference.specs.declared.row.Row.{Row as RowValue};
ghost use Rattle.uds_difference.specs.declared.row.Row.TheVariants as RowKind;
ghost use Rattle.shown_rows.specs.Rows.{count_of, differs};
ghost use Rattle.trace_pair.specs.ItemTables.{items_text, stretches_text};
ghost use Rattle.trace_pair.specs.RowStretches.{begun, placed, stretches};
ghost use Rattle.trace_pair.specs.proving.Standings.{IsRoomy, row_or_fold, seen_text};

use crate::folds::{Fold, say_fold};
use crate::item_row::{Begun, RowPlace, say_item_row};
use crate::loss_words::say_losses;
use crate::sessions::Sessions;
use crate::standing::{Standing, Table};
use crate::table_parts::{BlockStart, TableEnd, TableStart};
use crate::widths::ItemsClass;
use pair_words::PairLog;
use shown_rows::{change_at, count_changes, count_of, differs, folded, is_shown};
use text_parts::{Part, When, say};
use trace_io::TextSink;
use trace_report::KeptSession;
use uds_difference::Row;

/// Says all items of two sessions with these rows.
pub(crate) fn say_items<S: TextSink>(sessions: Sessions<'_>, rows: &[Row], out: &mut S)
    ensures { S.says out.old (items_text sessions.entry.left.now sessions.entry.right.now rows.now) out.new }
{
    say(
        out,
        (
            "<section id=\"items\" class=\"",
            ItemsClass(sessions),
            "\">\n<h2>Items</h2>\n",
            When(
                is_filtered(rows),
                "<p class=\"filter\"><input type=\"checkbox\" id=\"apart\"> <label for=\"apart\">Show only differences</label></p>\n",
            ),
            LossesOfNoItem(PairLog::A, sessions.left),
            LossesOfNoItem(PairLog::B, sessions.right),
        ),
    );
    say_rows_or_none(sessions, rows, out);
    say(out, "</section>\n");
}

/// What is missing of a log without an item.
#[derive(Clone, Copy)]
struct LossesOfNoItem<'a>(PairLog, &'a KeptSession<'a>);

impl<'a> Part for LossesOfNoItem<'a> {
    ghost use Rattle.trace_pair.specs.ItemTables.{losses_of_no_item};

    ghost text = { λ losses. losses_of_no_item losses.0 losses.1.now };

    fn say<S: TextSink>(self, out: &mut S) {
        let LossesOfNoItem(log, session) = self;
        if session.rows().item_count() == 0 {
            say_losses(log, session, 0, out);
        }
    }
}

/// Whether a box can leave the differences alone: something differs, and something is the same.
fn is_filtered(rows: &[Row]) -> bool
    ensures { result ≡ (differs rows.now && not (count_of RowKind.Same rows.now == 0)) }
{
    differs(rows) && count_of(Row::Same, rows) != 0
}

/// Says all rows, or that there are none.
fn say_rows_or_none<S: TextSink>(sessions: Sessions<'_>, rows: &[Row], out: &mut S)
    ensures { S.says out.old (if length rows.now == 0 then codes "<p>None.</p>\n" else stretches_text sessions.entry.left.now sessions.entry.right.now 0 (stretches (placed rows.now))) out.new }
{
    if rows.is_empty() {
        say(out, "<p>None.</p>\n");
    } else {
        say_rows(sessions, rows, out);
    }
}

/// Says all rows.
fn say_rows<S: TextSink>(sessions: Sessions<'_>, rows: &[Row], out: &mut S)
    ensures { S.says out.old (stretches_text sessions.entry.left.now sessions.entry.right.now 0 (stretches (placed rows.now))) out.new }
{
    let all = count_changes(rows);
    let mut at = Standing::at_start();
    'rows: for k in 0..rows.len() {
        let rest = &rows[k..];
        say_row_or_fold(sessions, all, at, rest, out);
        at = at.behind(rest);
    }
    say(out, TableEnd(at.table));
}

/// Says the first of these rows, where it is shown, or the fold that begins with it, behind the end of the table.
fn say_row_or_fold<S: TextSink>(
    sessions: Sessions<'_>,
    all: usize,
    at: Standing,
    rows: &[Row],
    out: &mut S,
)
    requires { IsRoomy at (length rows.now) }
    ensures { (row : RowValue) (later : List RowValue) → rows.now ≡ row ∷ later
        → S.says out.old (row_or_fold sessions.entry.left.now sessions.entry.right.now all at row later) out.new }
{
    if at.folded == 0 {
        if is_shown(at.still_shown, rows) {
            say_shown(sessions, all, at, rows, out);
        } else {
            say(out, TableEnd(at.table));
            let fold = Fold {
                left: at.left,
                right: at.right,
                count: folded(rows),
            };
            say_fold(sessions, fold, out);
        }
    }
}

/// Says the first of these rows, and what begins before it.
fn say_shown<S: TextSink>(
    sessions: Sessions<'_>,
    all: usize,
    at: Standing,
    rows: &[Row],
    out: &mut S,
)
    requires { IsRoomy at (length rows.now) }
    ensures { (row : RowValue) (later : List RowValue) → rows.now ≡ row ∷ later
        → S.says out.old (seen_text sessions.entry.left.now sessions.entry.right.now all at row later) out.new }
{
    let Some(kind) = rows.first() else {
        return;
    };
    let place = RowPlace {
        kind: *kind,
        left: at.left,
        right: at.right,
    };
    say(out, TableOpening(at));
    let begun = change_begun(at, all, rows);
    say_item_row(sessions, place, begun, out);
}

/// The change that begins with the first of these rows, if one does.
fn change_begun(at: Standing, all: usize, rows: &[Row]) -> Option<Begun>
    requires { IsRoomy at (length rows.now) }
    ensures { (row : RowValue) (later : List RowValue) → rows.now ≡ row ∷ later
        → result ≡ begun at.front at.changes all row later }
{
    let change = change_at(at.front, at.left, at.right, rows)?;
    Some(Begun {
        number: at.changes as u64 + 1,
        all: all as u64,
        count: change.count,
    })
}

/// What begins before a row.
#[derive(Clone, Copy)]
struct TableOpening(Standing);

impl Part for TableOpening {
    ghost use Rattle.trace_pair.specs.proving.Standings.{opening};

    ghost text = { λ before. opening before.0.table before.0.blocks before.0.left before.0.right };

    fn say<S: TextSink>(self, out: &mut S) {
        let at = self.0;
        match at.table {
            Table::Closed => say(out, TableStart),
            Table::Open(_) | Table::Block(_) => {
                if at.table.is_full() {
                    let start = BlockStart {
                        blocks: at.blocks,
                        left: at.left,
                        right: at.right,
                    };
                    say(out, (TableEnd(at.table), start));
                }
            }
        }
    }
}

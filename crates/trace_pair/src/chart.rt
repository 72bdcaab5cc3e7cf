//! A chart of one log: the rows around an item, with a mark at each byte that differs.

ghost use Rattle.std.specs.Prelude.{◌≡◌, ◌+◌, ◌-◌, ◌<◌, ◌^◌, None, drop, false, max, option_map, take};
ghost use Rattle.shown_rows.specs.Rows.{changes_within};
ghost use Rattle.trace_report.specs.Blocks.{begins_exchange as asks};
ghost use Rattle.trace_report.specs.Rows.{missing_of, row_of};
ghost use Rattle.trace_pair.specs.FirstDifference as Spec;
ghost use Rattle.trace_pair.specs.proving.Marks.{charted_of, marked_of};

use crate::chart_bytes::ChartData;
use crate::chart_rows::{chart_from, chart_to, items_left};
use crate::counterparts::{Charted, Marked, counterpart, found_item};
use crate::parted_roles::PartedRoleWords;
use crate::widths::SessionClasses;
use pair_words::{BodyStart, ChartEnd, ItemsEnd, PairChartHead, PairLog};
use shown_bytes::known_length;
use text_parts::say;
use trace_io::TextSink;
use trace_report::{
    KeptRows, KeptSession, MessageRow, Missing, SessionRow, begins_exchange, begins_item,
    say_missing_row,
};
use uds_rules::Rules;

/// A chart has so many rows at most.
const MOST_ROWS: usize = 40;

/// What the rows of a chart are said by: rules, the log, and the time of its first frame.
#[derive(Clone, Copy)]
struct RowSetting<'a> {
    rules: &'a Rules,
    log: PairLog,
    origin: u64,
}

/// Which rows of a log its chart has: around the item of a place, counted from 0, from one place up to another.
#[derive(Clone, Copy)]
struct Around {
    item: usize,
    from: usize,
    to: usize,
}

/// Says the chart of a log around the item of a place, counted from 0, of so many that the difference has from that on.
pub(crate) fn say_chart<S: TextSink>(
    chart: Charted<'_>,
    item: usize,
    count: usize,
    session: &KeptSession<'_>,
    out: &mut S,
)
    requires same { changes_within chart.same chart.rows.now ≡ false }
    requires small { item + count < 2 ^ 63 }
    ensures { S.says out.old (Spec.chart_text (charted_of chart.entry) item count session.now) out.new }
{
    let rows = session.rows();
    let from = chart_from(rows, item);
    let to = chart_to(rows, item);
    let end = to.min(from.saturating_add(MOST_ROWS));
    say(out, PairChartHead(SessionClasses(session)));
    let around = Around {
        item,
        from,
        to: end,
    };
    say_rows(chart, session.first_time(), rows, around, out);
    let rest = ChartEnd {
        more: to.saturating_sub(end),
        ends: to == rows.len(),
    };
    say(out, rest);
    say(out, ItemsEnd(items_left(rows, to, item, count)));
    say(out, "</table>\n");
}

/// Says the rows around an item, in bodies of the table.
fn say_rows<S: TextSink>(
    chart: Charted<'_>,
    origin: u64,
    rows: &KeptRows,
    around: Around,
    out: &mut S,
)
    requires { changes_within chart.same chart.rows.now ≡ false }
    ensures { S.says out.old (Spec.chart_rows_text (charted_of chart.entry) origin None (max around.item 1) (take (around.to - around.from) (drop around.from rows.now))) out.new }
{
    let mut front: Option<bool> = None;
    let mut last = around.item.max(1) as u64;
    'rows: for at in around.from..around.to {
        let Some(row) = rows.row(at) else {
            return;
        };
        let found = found_item(chart, number_of(last, row));
        let other = found.is_other;
        say(
            out,
            BodyStart {
                begins: begins_chart_body(front, row, other),
                other,
            },
        );
        let setting = RowSetting {
            rules: chart.sessions.left.rules(),
            log: chart.log,
            origin,
        };
        say_row(setting, found.marked, row, out);
        front = Some(other);
        last = last_begun(last, row);
    }
}

/// The number of the item that a row is of: what is lost is of the one that began last before it.
fn number_of(last: u64, row: SessionRow<'_>) -> u64
    ensures { result ≡ Spec.number_of last (row_of row.entry) }
{
    match row {
        SessionRow::Message { sent, .. } => sent.place.item,
        SessionRow::Missing(missing) => number_of_missing(last, missing),
    }
}

/// The number of the item of which something is missing.
fn number_of_missing(last: u64, missing: Missing) -> u64
    ensures { result ≡ Spec.number_of last (missing_of missing) }
{
    match missing {
        Missing::NoAnswer { number, .. } => number,
        Missing::Dropped { .. } => last,
        Missing::Ended { .. } => last,
        Missing::Unfinished { .. } => last,
    }
}

/// The number of the item that began last, behind a row.
fn last_begun(last: u64, row: SessionRow<'_>) -> u64
    ensures { result ≡ Spec.last_begun last (row_of row.entry) }
{
    match row {
        SessionRow::Message { sent, .. } => {
            if begins_item(sent.role) {
                sent.place.item
            } else {
                last
            }
        }
        SessionRow::Missing(_) => last,
    }
}

/// Whether a body of the table begins with a row, behind one whose items are others than in the other log, or not.
fn begins_chart_body(front: Option<bool>, row: SessionRow<'_>, other: bool) -> bool
    ensures { result ≡ Spec.begins_chart_body front (asks (row_of row.entry)) other }
{
    match front {
        Some(before) => begins_exchange(row) || is_another(before, other),
        None => true,
    }
}

/// Whether one of both is so, and the other one isn't.
fn is_another(before: bool, other: bool) -> bool
    ensures { result ≡ Spec.is_another before other }
{
    if before { !other } else { other }
}

/// Says a row of a log, to which no link leads, with these marks of its item.
fn say_row<S: TextSink>(
    setting: RowSetting<'_>,
    marked: Option<Marked<'_>>,
    row: SessionRow<'_>,
    out: &mut S,
)
    ensures { S.says out.old (Spec.chart_row setting.entry.rules.now setting.entry.log (option_map marked_of marked.entry) setting.entry.origin (row_of row.entry)) out.new }
{
    let RowSetting { rules, log, origin } = setting;
    match row {
        SessionRow::Message { sent, message } => say(
            out,
            MessageRow {
                linked: false,
                origin,
                sent,
                words: PartedRoleWords(sent.role, sent.dir, message),
                bytes: ChartData {
                    rules,
                    log,
                    message,
                    other: counterpart(marked, sent.role),
                },
                count: known_length(rules, message),
            },
        ),
        SessionRow::Missing(missing) => say_missing_row(false, origin, missing, out),
    }
}

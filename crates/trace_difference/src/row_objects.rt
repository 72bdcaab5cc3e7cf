//! The rows of a difference as objects of JSON.
ghost use Rattle.std.specs.Prelude.{◌≡◌, ◌+◌, ◌<◌, ◌≤◌, ◌^◌, false, slice_get};
ghost use Rattle.trace_text.specs.Json.{object_line, value_text};
ghost use Rattle.shown_rows.specs.Rows.{left_in, right_in};
ghost use Rattle.trace_difference.specs.proving.RowFront.{row_front};
ghost use Rattle.trace_difference.specs.Objects.{change_word, count_members, left_value, listed_value, next_change_number, objects_text, right_value, row_members, row_text, rows_text};

use crate::written::NamedSession;
use shown_rows::{count_of, is_change, left_in, right_in};
use text_parts::{Either, Part, say};
use trace_io::TextSink;
use trace_text::{Number, Numbering, say_item_object};
use uds_difference::Row;
use uds_exchange::Meaning;
use uds_rules::Rules;

/// Says the objects of all rows of two sessions.
pub(crate) fn say_objects<S: TextSink>(
    shortest: bool,
    left: NamedSession<'_>,
    right: NamedSession<'_>,
    rows: &[Row],
    rules: &Rules,
    out: &mut S,
)
    ensures { S.says out.old (objects_text rules.now shortest rows.now left.entry.session.now right.entry.session.now) out.new }
{
    let left_items = &left.session.meaning;
    let right_items = &right.session.meaning;
    say_rows(left_items, right_items, rows, rules, out);
    say_row_counts(
        shortest,
        rows,
        rules,
        left.session.summary.left_out,
        right.session.summary.left_out,
        out,
    );
}

/// Says an object for each row that is a change.
fn say_rows<S: TextSink>(left: &Meaning, right: &Meaning, rows: &[Row], rules: &Rules, out: &mut S)
    ensures { S.says out.old (rows_text rules.now left.now right.now 0 false 0 0 rows.now) out.new }
{
    let mut change_number = 0;
    let mut behind_change = false;
    let mut left_before = 0;
    let mut right_before = 0;
    'rows: for row in rows {
        change_number = next_change_number(change_number, behind_change, *row);
        behind_change = is_change(*row);
        if behind_change {
            say_row(
                left,
                right,
                change_number,
                left_before,
                right_before,
                *row,
                rules,
                out,
            );
        }
        left_before += left_in(*row);
        right_before += right_in(*row);
    }
}

/// The number of the last change up to a row, by that of the last one in front of it, and whether the row in front is a
/// change: such rows that follow one another have one number.
fn next_change_number(change_number: u64, behind_change: bool, row: Row) -> u64
    requires { change_number < 2 ^ 63 }
    ensures value { result ≡ next_change_number change_number behind_change row }
    ensures few { result ≤ change_number + 1 }
{
    if is_change(row) && !behind_change {
        change_number + 1
    } else {
        change_number
    }
}

/// Says the object of a row.
fn say_row<S: TextSink>(
    left: &Meaning,
    right: &Meaning,
    change_number: u64,
    left_before: usize,
    right_before: usize,
    row: Row,
    rules: &Rules,
    out: &mut S,
)
    requires left_small { left_before < 2 ^ 63 }
    requires right_small { right_before < 2 ^ 63 }
    ensures { S.says out.old
        (object_line (row_members rules.now left.now right.now change_number left_before right_before row)) out.new }
{
    say_row_front(change_number, left_before, right_before, row, out);
    say_left(left, left_before, row, rules, out);
    say(out, ",\"right\":");
    say_right(right, right_before, row, rules, out);
    say(out, "}\n");
}

/// Says the object of a row, up to its items.
fn say_row_front<S: TextSink>(
    change_number: u64,
    left_before: usize,
    right_before: usize,
    row: Row,
    out: &mut S,
)
    requires left_small { left_before < 2 ^ 63 }
    requires right_small { right_before < 2 ^ 63 }
    ensures { S.says out.old (row_front change_number (change_word row) (left_before + left_in row) (right_before + right_in row)) out.new }
{
    let left = left_in(row);
    let right = right_in(row);
    say(
        out,
        (
            "{\"place\":",
            Number(change_number),
            ",\"change\":\"",
            ShownChange(row),
        ),
    );
    say(
        out,
        (
            "\",\"left_item\":",
            Number((left_before + left) as u64),
            ",\"right_item\":",
            Number((right_before + right) as u64),
            ",\"left\":",
        ),
    );
}

/// What becomes of the item of a row.
#[derive(Clone, Copy)]
struct ShownChange(Row);

impl Part for ShownChange {
    ghost use Rattle.trace_difference.specs.Objects.{change_word};

    ghost text = { λ change. change_word change.0 };

    fn say<S: TextSink>(self, out: &mut S) {
        match self.0 {
            Row::Same => say(out, "same"),
            Row::Changed => say(out, "changed"),
            Row::OnlyLeft => say(out, "removed"),
            Row::OnlyRight => say(out, "added"),
        }
    }
}

/// Says what a row has of the left session.
fn say_left<S: TextSink>(items: &Meaning, place: usize, row: Row, rules: &Rules, out: &mut S)
    ensures { S.says out.old (value_text (left_value rules.now items.now place row)) out.new }
{
    match row {
        Row::Same | Row::Changed | Row::OnlyLeft => say_listed(items, place, rules, out),
        Row::OnlyRight => say(out, "null"),
    }
}

/// Says what it has of the right one.
fn say_right<S: TextSink>(items: &Meaning, place: usize, row: Row, rules: &Rules, out: &mut S)
    ensures { S.says out.old (value_text (right_value rules.now items.now place row)) out.new }
{
    match row {
        Row::Same | Row::Changed | Row::OnlyRight => say_listed(items, place, rules, out),
        Row::OnlyLeft => say(out, "null"),
    }
}

/// Says the object of the item at a place, or that there is none.
fn say_listed<S: TextSink>(items: &Meaning, place: usize, rules: &Rules, out: &mut S)
    ensures { S.says out.old (value_text (listed_value rules.now (slice_get items.now place))) out.new }
{
    match items.item(place) {
        Some(item) => say_item_object(0, Numbering::Hidden, rules, item, out),
        None => say(out, "null"),
    }
}

/// Says the object of the counts, where the rules left out so many messages of both logs.
fn say_row_counts<S: TextSink>(
    shortest: bool,
    rows: &[Row],
    rules: &Rules,
    left_out: u64,
    right_out: u64,
    out: &mut S,
)
    ensures { S.says out.old (object_line (count_members rules.now shortest rows.now left_out right_out)) out.new }
{
    let same = count_of(Row::Same, rows);
    let removed = count_of(Row::OnlyLeft, rows);
    let added = count_of(Row::OnlyRight, rows);
    let changed = count_of(Row::Changed, rows);
    say(
        out,
        (
            "{\"same\":",
            Number(same as u64),
            ",\"removed\":",
            Number(removed as u64),
            ",\"added\":",
            Number(added as u64),
            ",\"changed\":",
            Number(changed as u64),
            ",\"shortest\":",
            Either(shortest, "true", "false"),
            LeftOut(rules, left_out, right_out),
            "}\n",
        ),
    );
}

/// How many messages the rules left out of both logs, behind other members; nothing, where there are none.
#[derive(Clone, Copy)]
struct LeftOut<'a>(&'a Rules, u64, u64);

impl<'a> Part for LeftOut<'a> {
    ghost use Rattle.trace_text.specs.Json.{later_text};
    ghost use Rattle.trace_difference.specs.Objects.{left_out_members};

    ghost text = { λ out. later_text (left_out_members out.0.now out.1 out.2) };

    fn say<S: TextSink>(self, out: &mut S) {
        if !self.0.is_empty() {
            say(
                out,
                (",\"left_out\":[", Number(self.1), ",", Number(self.2), "]"),
            );
        }
    }
}

//! The lines of a hunk.
ghost use Rattle.std.specs.Prelude.{◌≡◌, ◌+◌, ◌-◌, ◌≤◌, ◌<◌, ◌^◌, ◌++◌, length};
ghost use Rattle.std.specs.List.{flat_map};
ghost use Rattle.trace_difference.specs.Lines.{line_at, line_text, lines_of};
ghost use Rattle.trace_difference.specs.proving.Waiting.{added_lines};

use text_parts::say;
use trace_io::TextSink;
use trace_text::{Numbering, say_worded_line};
use uds_difference::Row;
use uds_exchange::Meaning;
use uds_rules::Rules;

/// Says the lines of the rows of a hunk, before which so many items of both sessions stand. What is added at a place waits
/// until all of it is said that is removed there.
pub(crate) fn say_lines<S: TextSink>(
    left: &Meaning,
    right: &Meaning,
    left_before: usize,
    right_before: usize,
    rows: &[Row],
    rules: &Rules,
    out: &mut S,
)
    requires left_small { left_before < 2 ^ 63 }
    requires right_small { right_before < 2 ^ 63 }
    ensures { S.says out.old
        (flat_map line_text
        (lines_of rules.now left.now right.now left_before right_before rows.now)) out.new }
{
    let mut left_at = left_before;
    let mut right_at = right_before;
    let mut waiting = right_at;
    'rows: for row in rows {
        match row {
            Row::Same => {
                say_added(right, waiting, right_at, rules, out);
                say_line(" ", left, left_at, rules, out);
                left_at += 1;
                right_at += 1;
                waiting = right_at;
            }
            Row::Changed => {
                say_line("-", left, left_at, rules, out);
                left_at += 1;
                right_at += 1;
            }
            Row::OnlyLeft => {
                say_line("-", left, left_at, rules, out);
                left_at += 1;
            }
            Row::OnlyRight => right_at += 1,
        }
    }
    say_added(right, waiting, right_at, rules, out);
}

/// Says the lines of the items from one place up to another, which are added.
fn say_added<S: TextSink>(items: &Meaning, from: usize, to: usize, rules: &Rules, out: &mut S)
    requires { from ≤ to }
    ensures { S.says out.old (flat_map line_text (added_lines rules.now items.now from (to - from))) out.new }
{
    'added: for place in from..to {
        say_line("+", items, place, rules, out);
    }
}

/// Says the line of the item at a place, if there is one, behind its sign.
fn say_line<S: TextSink>(
    sign: &'static str,
    items: &Meaning,
    place: usize,
    rules: &Rules,
    out: &mut S,
)
    ensures { S.says out.old (sign.now ++ line_at rules.now items.now place) out.new }
{
    say(out, sign);
    say_item_at(items, place, rules, out);
}

/// Says the line of the item at a place, if there is one.
fn say_item_at<S: TextSink>(items: &Meaning, place: usize, rules: &Rules, out: &mut S)
    ensures { S.says out.old (line_at rules.now items.now place) out.new }
{
    if let Some(item) = items.item(place) {
        say_worded_line(0, Numbering::Hidden, rules, item, out);
    }
}

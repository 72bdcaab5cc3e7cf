//! The list of the differences.

ghost use Rattle.std.specs.Prelude.{◌≡◌, ◌+◌, ◌<◌, ◌^◌, IfSome, take};
ghost use Rattle.shown_rows.specs.Changes.{changes};
ghost use Rattle.trace_pair.specs.ChangeWords.{IsSmall};
ghost use Rattle.trace_pair.specs.Differences as Spec;
ghost use Rattle.trace_pair.specs.proving.Changing.{count_if, line_if};

use crate::change_words::say_change_line;
use crate::sessions::Sessions;
use pair_words::DifferenceName;
use shown_rows::{Change, change_at, count_changes, left_in, right_in};
use text_parts::{Either, Part, When, say};
use trace_io::TextSink;
use trace_text::Number;
use uds_difference::Row;

/// So many differences stand in the open.
const OPEN: usize = 10;

/// So many stand in the list.
const LISTED: usize = 50;

/// Says the list of all differences, where there are several.
pub(crate) fn say_differences<S: TextSink>(sessions: Sessions<'_>, rows: &[Row], out: &mut S)
    ensures { S.says out.old (Spec.list_text sessions.entry.left.now sessions.entry.right.now (changes rows.now)) out.new }
{
    let count = count_changes(rows);
    if count > 1 {
        say(
            out,
            (
                "<section id=\"differences\">\n",
                DifferencesHeading(count),
                "<ol class=\"dl\">\n",
            ),
        );
        say_lines(sessions, rows, count.min(LISTED), out);
        say(out, DifferencesEnd(count));
        say(out, "</section>\n");
    }
}

/// Says the lines of the first so many changes.
fn say_lines<S: TextSink>(sessions: Sessions<'_>, rows: &[Row], listed: usize, out: &mut S)
    ensures { S.says out.old (Spec.difference_lines sessions.entry.left.now sessions.entry.right.now listed 1 (take listed (changes rows.now))) out.new }
{
    let mut front = Row::Same;
    let mut i: usize = 0;
    let mut j: usize = 0;
    let mut number: usize = 1;
    'rows: for k in 0..rows.len() {
        if number > listed {
            return;
        }
        let change = change_at(front, i, j, &rows[k..]);
        number = say_line_if(sessions, listed, number, change, out);
        front = rows[k];
        i += left_in(front);
        j += right_in(front);
    }
}

/// Says the change that has this number, of so many that are listed, if there is one, and what begins before it.
/// Answers the number of the next one.
fn say_line_if<S: TextSink>(
    sessions: Sessions<'_>,
    listed: usize,
    number: usize,
    change: Option<Change>,
    out: &mut S,
) -> usize
    requires number { number < 2 ^ 63 }
    requires change { IfSome change IsSmall }
    ensures text { S.says out.old (line_if sessions.entry.left.now sessions.entry.right.now listed number change) out.new }
    ensures next { result ≡ number + count_if change }
{
    let Some(change) = change else {
        return number;
    };
    say(
        out,
        When(number == OPEN + 1, MoreStart(listed.saturating_sub(OPEN))),
    );
    say_line(sessions, number, change, out);
    number + 1
}

/// Says the change of a number in a line, with a link to it.
fn say_line<S: TextSink>(sessions: Sessions<'_>, number: usize, change: Change, out: &mut S)
    requires { IsSmall change }
    ensures { S.says out.old (Spec.difference_line sessions.entry.left.now sessions.entry.right.now number change) out.new }
{
    say(out, "<li>");
    say_change_line(true, number, sessions, change, out);
    say(out, "\n");
}

/// How many differences there are, and how many of them are listed.
#[derive(Clone, Copy)]
struct DifferencesHeading(usize);

impl Part for DifferencesHeading {
    ghost use Rattle.trace_pair.specs.Differences.{list_heading};

    ghost text = { λ heading. list_heading heading.0 };

    fn say<S: TextSink>(self, out: &mut S) {
        let count = Number(self.0 as u64);
        if self.0 <= LISTED {
            say(out, ("<h2>All ", count, " differences</h2>\n"));
        } else {
            say(
                out,
                (
                    "<h2>The first ",
                    Number(LISTED as u64),
                    " of ",
                    count,
                    " differences</h2>\n",
                ),
            );
        }
    }
}

/// The start of the fold of so many differences more than stand in the open.
#[derive(Clone, Copy)]
struct MoreStart(usize);

impl Part for MoreStart {
    ghost use Rattle.trace_pair.specs.Differences.{more_start};

    ghost text = { λ more. more_start more.0 };

    fn say<S: TextSink>(self, out: &mut S) {
        let several = (Number(self.0 as u64), " more differences");
        say(
            out,
            (
                "</ol>\n<details class=\"more\">\n<summary>",
                Either(self.0 == 1, "1 more difference", several),
                "</summary>\n<ol class=\"dl\" start=\"",
                Number(OPEN as u64 + 1),
                "\">\n",
            ),
        );
    }
}

/// The end of the list, and where the others stand.
#[derive(Clone, Copy)]
struct DifferencesEnd(usize);

impl Part for DifferencesEnd {
    ghost use Rattle.trace_pair.specs.Differences.{list_end};

    ghost text = { λ end. list_end end.0 };

    fn say<S: TextSink>(self, out: &mut S) {
        let count = self.0;
        let several = (
            Number(count.saturating_sub(LISTED) as u64),
            " more differences stand",
        );
        let others = (
            "<p>",
            Either(count == LISTED + 1, "1 more difference stands", several),
            " below: <a href=\"#",
            DifferenceName(LISTED as u64 + 1),
            "\">go on there</a>.</p>\n",
        );
        say(
            out,
            (
                Either(count > OPEN, "</ol>\n</details>\n", "</ol>\n"),
                Either(count <= LISTED, "", others),
            ),
        );
    }
}

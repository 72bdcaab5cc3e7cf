//! The unified text of a difference.
ghost use Rattle.std.specs.Prelude.{◌≡◌, ◌+◌, ◌<◌, ◌^◌, length};
ghost use Rattle.std.specs.List.{flat_map};
ghost use Rattle.uds_difference.specs.Bound.{bound_for};
ghost use Rattle.shown_rows.specs.Hunks.{Hunk, hunks};
ghost use Rattle.trace_difference.specs.Unified.{header_text, hunk_text, unified_text};
ghost use Rattle.trace_difference.specs.proving.HunkOf.{hunk_of};

use crate::hunk_lines::say_lines;
use crate::labels::Label;
use crate::written::NamedSession;
use shown_rows::{begins_hunk, differs, hunk_length, left_count, left_in, right_count, right_in};
use text_parts::{Part, say};
use trace_io::TextSink;
use trace_text::{MessagesWord, Number, Ordinal, RuleText};
use uds_difference::{Row, bound_for};
use uds_exchange::Meaning;
use uds_rules::{Rule, Rules};

/// Says the text of these rows of two sessions: nothing where nothing differs.
pub(crate) fn say_unified<S: TextSink>(
    shortest: bool,
    left: NamedSession<'_>,
    right: NamedSession<'_>,
    rows: &[Row],
    rules: &Rules,
    out: &mut S,
)
    ensures { S.says out.old
        (unified_text rules.now left.entry.name.now right.entry.name.now shortest
        (bound_for (length left.entry.session.now.meaning + length right.entry.session.now.meaning)) rows.now
        left.entry.session.now right.entry.session.now) out.new }
{
    if differs(rows) {
        let left_items = &left.session.meaning;
        let right_items = &right.session.meaning;
        let bound = u64::from(bound_for(left_items.len() + right_items.len()));
        say(
            out,
            (
                RuleNotes(
                    rules.as_slice(),
                    left.session.spoken.as_slice(),
                    right.session.spoken.as_slice(),
                ),
                DiffNote { shortest, bound },
                DiffHeader(left.name, right.name),
            ),
        );
        say_hunks(left_items, right_items, rows, rules, out);
    }
}

/// Of how many messages of both logs each rule spoke.
#[derive(Clone, Copy)]
struct RuleNotes<'a>(&'a [Rule], &'a [u64], &'a [u64]);

impl<'a> Part for RuleNotes<'a> {
    ghost use Rattle.trace_difference.specs.Unified.{rule_notes};

    ghost text = { λ notes. rule_notes notes.0.now notes.1.now notes.2.now };

    fn say<S: TextSink>(self, out: &mut S) {
        let RuleNotes(rules, lefts, rights) = self;
        let mut left_counts = lefts;
        let mut right_counts = rights;
        let mut waiting = rules;
        'rules: while let Some((rule, later)) = waiting.split_first() {
            let Some((left, lefts_behind)) = left_counts.split_first() else {
                return;
            };
            let Some((right, rights_behind)) = right_counts.split_first() else {
                return;
            };
            say(
                out,
                (
                    "# ",
                    RuleText(rule),
                    ": ",
                    MessagesWord(*left),
                    " of A, ",
                    Number(*right),
                    " of B\n",
                ),
            );
            waiting = later;
            left_counts = lefts_behind;
            right_counts = rights_behind;
        }
    }
}

/// That a shorter script may keep equal items, where this bound was passed up to which one is looked for.
#[derive(Clone, Copy)]
struct DiffNote {
    shortest: bool,
    bound: u64,
}

impl Part for DiffNote {
    ghost use Rattle.trace_difference.specs.Unified.{note_text};

    ghost text = { λ note. note_text note.shortest note.bound };

    fn say<S: TextSink>(self, out: &mut S) {
        if !self.shortest {
            say(
                out,
                (
                    "# perhaps not the shortest: more than ",
                    Number(self.bound),
                    " items would be removed or added\n",
                ),
            );
        }
    }
}

/// The names of both files.
#[derive(Clone, Copy)]
struct DiffHeader<'a>(&'a [u8], &'a [u8]);

impl<'a> Part for DiffHeader<'a> {
    ghost use Rattle.trace_difference.specs.Unified.{header_text};

    ghost text = { λ names. header_text names.0.now names.1.now };

    fn say<S: TextSink>(self, out: &mut S) {
        say(out, ("--- ", Label(self.0), "\n+++ ", Label(self.1), "\n"));
    }
}

/// Says the hunks of all rows of two sessions.
fn say_hunks<S: TextSink>(left: &Meaning, right: &Meaning, rows: &[Row], rules: &Rules, out: &mut S)
    ensures { S.says out.old (flat_map (hunk_text rules.now left.now right.now) (hunks rows.now)) out.new }
{
    let mut shown = 0;
    let mut left_before = 0;
    let mut right_before = 0;
    'rows: for k in 0..rows.len() {
        let rest = &rows[k..];
        if shown > 0 {
            shown -= 1;
        } else if begins_hunk(rest) {
            let length = hunk_length(rest);
            say_hunk(
                left,
                right,
                left_before,
                right_before,
                &rest[..length],
                rules,
                out,
            );
            shown = length - 1;
        }
        left_before += left_in(rows[k]);
        right_before += right_in(rows[k]);
    }
}

/// Says the hunk that has these rows, before which so many items of both sessions stand.
fn say_hunk<S: TextSink>(
    left: &Meaning,
    right: &Meaning,
    left_before: usize,
    right_before: usize,
    rows: &[Row],
    rules: &Rules,
    out: &mut S,
)
    requires left_small { left_before < 2 ^ 63 }
    requires right_small { right_before < 2 ^ 63 }
    ensures { S.says out.old (hunk_text rules.now left.now right.now (hunk_of left_before right_before rows.now)) out.new }
{
    say(
        out,
        (
            "@@ -",
            HunkSpan {
                before: left_before,
                count: left_count(rows),
            },
            " +",
            HunkSpan {
                before: right_before,
                count: right_count(rows),
            },
            " @@\n",
        ),
    );
    say_lines(left, right, left_before, right_before, rows, rules, out);
}

/// Which lines of a list a hunk has.
#[derive(Clone, Copy)]
struct HunkSpan {
    before: usize,
    count: usize,
}

impl Part for HunkSpan {
    ghost use Rattle.trace_difference.specs.Unified.{span_text};

    ghost text = { λ span. span_text span.before span.count };

    fn say<S: TextSink>(self, out: &mut S) {
        match self.count {
            0 => say(out, (Number(self.before as u64), ",0")),
            1 => say(out, Ordinal(self.before)),
            _ => say(out, (Ordinal(self.before), ",", Number(self.count as u64))),
        }
    }
}

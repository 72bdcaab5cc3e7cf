//! Two messages byte under byte, in lines of sixteen columns.

ghost use Rattle.std.specs.Prelude.{◌≡◌, ◌+◌, ◌||◌, ◌≤◌, ◌<◌};
ghost use Rattle.std.specs.List.{flat_map, range_with_len};
ghost use Rattle.pair_words.specs.declared.column_lines.ShownLogs.TheVariants.{Both};
ghost use Rattle.byte_columns.specs.declared.stretches.Stretch.TheVariants.{Folded};
ghost use Rattle.byte_columns.specs.Laws.{IsOfOneKind};
ghost use Rattle.byte_columns.specs.Lines.{line_count, stretches};
ghost use Rattle.shown_bytes.specs.Letters.{has_word};
ghost use Rattle.pair_words.specs.ColumnLines.{line_text, lines_text, stretch_text};

use crate::column_cells::{ColumnLine, say_line_of};
use crate::column_counts::{counts_from, hidden_counts};
use crate::column_words::LineOwner;
use crate::hidden_words::{FoldWords, HiddenWords};
use crate::log::PairLog;
use byte_columns::{ByteColumns, Stretch};
use shown_bytes::has_word;
use text_parts::say;
use trace_io::TextSink;

/// Of which log a page shows the lines.
#[derive(Clone, Copy, Debug)]
pub enum ShownLogs {
    /// Of both: a line that differs stands twice.
    Both,
    /// Of one alone.
    Only(PairLog),
}

/// Says two messages byte under byte: each line with its letters, where they may be text.
pub fn say_columns<S: TextSink>(
    shown: ShownLogs,
    with_letters: bool,
    columns: &ByteColumns<'_>,
    out: &mut S,
)
    ensures { S.says out.old (lines_text shown with_letters columns.now) out.new }
{
    say(out, "<div class=\"hx\">");
    say_stretches(shown, with_letters, columns, out);
    say(out, HiddenWords(shown, hidden_counts(shown, columns)));
    say(out, "</div>");
}

/// Whether one of two messages may be text.
pub fn have_word(one: &[u8], other: &[u8]) -> bool
    ensures { result ≡ (has_word one.now || has_word other.now) }
{
    has_word(one) || has_word(other)
}

/// Says all lines, shown or folded.
fn say_stretches<S: TextSink>(
    shown: ShownLogs,
    with_letters: bool,
    columns: &ByteColumns<'_>,
    out: &mut S,
)
    ensures { S.says out.old (flat_map (stretch_text shown with_letters columns.now) (stretches columns.now)) out.new }
{
    'lines: for stretch in columns.stretches() {
        say_stretch(shown, with_letters, columns, stretch, out);
    }
}

/// Says a line that is shown, or those that are folded together.
fn say_stretch<S: TextSink>(
    shown: ShownLogs,
    with_letters: bool,
    columns: &ByteColumns<'_>,
    stretch: Stretch,
    out: &mut S,
)
    requires { IsOfOneKind columns.now stretch }
    ensures { S.says out.old (stretch_text shown with_letters columns.now stretch) out.new }
{
    match stretch {
        Stretch::Shown(number) => say_line(shown, with_letters, columns, number, out),
        Stretch::Folded { first, count } => {
            let fold = LineRange {
                columns: &*columns,
                first,
                count,
            };
            say_fold(shown, with_letters, fold, out);
        }
    }
}

/// So many lines, from one on.
#[derive(Clone, Copy)]
struct LineRange<'a> {
    columns: &'a ByteColumns<'a>,
    first: usize,
    count: usize,
}

/// Says lines that are folded together.
fn say_fold<S: TextSink>(shown: ShownLogs, with_letters: bool, fold: LineRange<'_>, out: &mut S)
    requires { fold.first + fold.count ≤ line_count fold.columns.now }
    ensures { S.says out.old (stretch_text shown with_letters fold.entry.columns.now (Folded fold.entry.first fold.entry.count)) out.new }
{
    let LineRange {
        columns,
        first,
        count,
    } = fold;
    let counts = counts_from(shown, columns, first, count);
    let told = FoldWords(shown, counts);
    say(out, ("<details><summary>", told, "</summary>"));
    say_lines(shown, with_letters, fold, out);
    say(out, "</details>");
}

/// Says lines, one after another.
fn say_lines<S: TextSink>(shown: ShownLogs, with_letters: bool, fold: LineRange<'_>, out: &mut S)
    requires { fold.first + fold.count ≤ line_count fold.columns.now }
    ensures { S.says out.old (flat_map (line_text shown with_letters fold.entry.columns.now) (range_with_len fold.entry.first fold.entry.count)) out.new }
{
    let LineRange {
        columns,
        first,
        count,
    } = fold;
    'lines: for at in first..first + count {
        say_line(shown, with_letters, columns, at, out);
    }
}

/// Says a line.
fn say_line<S: TextSink>(
    shown: ShownLogs,
    with_letters: bool,
    columns: &ByteColumns<'_>,
    number: usize,
    out: &mut S,
)
    requires { number < line_count columns.now }
    ensures { S.says out.old (line_text shown with_letters columns.now number) out.new }
{
    match shown {
        ShownLogs::Only(log) => {
            let line = ColumnLine { columns, number };
            say_line_of(with_letters, LineOwner::Untold, log, line, out);
        }
        ShownLogs::Both => say_line_of_both(with_letters, columns, number, out),
    }
}

/// Says a line of both logs: twice, where it differs.
fn say_line_of_both<S: TextSink>(
    with_letters: bool,
    columns: &ByteColumns<'_>,
    number: usize,
    out: &mut S,
)
    requires { number < line_count columns.now }
    ensures { S.says out.old (line_text Both with_letters columns.now number) out.new }
{
    let line = ColumnLine { columns, number };
    if columns.differing_in(number) > 0 {
        say_line_of(
            with_letters,
            LineOwner::Of(PairLog::A),
            PairLog::A,
            line,
            out,
        );
        say_line_of(
            with_letters,
            LineOwner::Of(PairLog::B),
            PairLog::B,
            line,
            out,
        );
    } else {
        say_line_of(with_letters, LineOwner::OfBoth, PairLog::A, line, out);
    }
}

//! A line of columns, as one log has it.

ghost use Rattle.std.specs.Prelude.{◌≡◌, ◌-◌, ◌≤◌, ◌<◌, length, take, drop};
ghost use Rattle.byte_columns.specs.Lines.{line, line_count};
ghost use Rattle.pair_words.specs.ColumnLines.{bytes_in, cells, cells_behind, column_letters, grey_columns, letter_or_gap, line_of};
ghost use Rattle.pair_words.specs.Logs as Spec;

use crate::column_words::{
    ByteOrGap, FirstNumber, LineNumber, LineOwner, MarkEnd, MarkStart, MarkStep,
};
use crate::log::{PairLog, other_log};
use byte_columns::{ByteColumns, Column};
use shown_bytes::shown_byte;
use text_parts::say;
use trace_io::TextSink;

/// A line of columns, by its number.
#[derive(Clone, Copy)]
pub(crate) struct ColumnLine<'a> {
    pub columns: &'a ByteColumns<'a>,
    pub number: usize,
}

/// Says a line, as one log has it, behind the number of its first byte and whose it is; with its letters,
/// where the messages may be text.
pub(crate) fn say_line_of<S: TextSink>(
    with_letters: bool,
    whose: LineOwner,
    log: PairLog,
    line: ColumnLine<'_>,
    out: &mut S,
)
    requires { line.number < line_count line.columns.now }
    ensures { S.says out.old (line_of with_letters whose log line.entry.columns.now line.entry.number) out.new }
{
    let ColumnLine { columns, number } = line;
    let range = columns.line_range(number);
    let before = bytes_before(log, columns, range.start);
    if bytes_before(log, columns, range.end) == before {
        say(
            out,
            (
                "<p><i></i> ",
                whose,
                "<code><mark>no byte</mark></code></p>",
            ),
        );
    } else {
        let there = bytes_before(other_log(log), columns, range.start);
        let first = LineNumber {
            lines: columns.line_count(),
            first: FirstNumber {
                whose,
                before,
                there,
            },
        };
        say(out, ("<p><i>", first, "</i> ", whose, "<code>"));
        let own = OwnColumns {
            log,
            columns,
            from: range.start,
            to: range.end,
        };
        say_cells(own, out);
        say(out, "</code>");
        say_letters_if(with_letters, own, out);
        say(out, "</p>");
    }
}

/// How many bytes a log has in the columns before a place.
fn bytes_before(log: PairLog, columns: &ByteColumns<'_>, at: usize) -> usize
    requires { at ≤ length columns.now }
    ensures { result ≡ length (bytes_in log (take at columns.now)) }
{
    match log {
        PairLog::A => columns.left_before(at),
        PairLog::B => columns.right_before(at),
    }
}

/// The columns of a log from one place up to another.
#[derive(Clone, Copy)]
struct OwnColumns<'a> {
    log: PairLog,
    columns: &'a ByteColumns<'a>,
    from: usize,
    to: usize,
}

/// Says what a log has in columns: each that differs has a mark, and a run of those one.
fn say_cells<S: TextSink>(own: OwnColumns<'_>, out: &mut S)
    requires forward { own.from ≤ own.to }
    requires inside { own.to ≤ length own.columns.now }
    ensures { S.says out.old (cells own.entry.log (take (own.entry.to - own.entry.from) (drop own.entry.from own.entry.columns.now))) out.new }
{
    let OwnColumns {
        log,
        columns,
        from,
        to,
    } = own;
    if from < to {
        let column = columns.column(from);
        let differs = column.differs();
        say(
            out,
            (
                MarkStart(MarkStep {
                    marked: false,
                    differs,
                }),
                ByteOrGap(byte_of(log, column)),
            ),
        );
        let behind = OwnColumns {
            log,
            columns,
            from: from + 1,
            to,
        };
        say_cells_behind(behind, differs, out);
    }
}

/// Says the bytes or gaps of a log in columns, behind a column that has a mark or has none.
fn say_cells_behind<S: TextSink>(own: OwnColumns<'_>, marked: bool, out: &mut S)
    requires forward { own.from ≤ own.to }
    requires inside { own.to ≤ length own.columns.now }
    ensures { S.says out.old (cells_behind own.entry.log marked (take (own.entry.to - own.entry.from) (drop own.entry.from own.entry.columns.now))) out.new }
{
    let OwnColumns {
        log,
        columns,
        from,
        to,
    } = own;
    let mut marked = marked;
    'columns: for at in from..to {
        let column = columns.column(at);
        let differs = column.differs();
        let step = MarkStep { marked, differs };
        say(
            out,
            (
                MarkEnd(step),
                " ",
                MarkStart(step),
                ByteOrGap(byte_of(log, column)),
            ),
        );
        marked = differs;
    }
    say(
        out,
        MarkEnd(MarkStep {
            marked,
            differs: false,
        }),
    );
}

/// Says its letters there in grey, where the messages may be text.
fn say_letters_if<S: TextSink>(with_letters: bool, own: OwnColumns<'_>, out: &mut S)
    requires forward { own.from ≤ own.to }
    requires inside { own.to ≤ length own.columns.now }
    ensures { S.says out.old (grey_columns with_letters own.entry.log (take (own.entry.to - own.entry.from) (drop own.entry.from own.entry.columns.now))) out.new }
{
    if with_letters {
        say(out, " <samp>");
        say_letters(own, out);
        say(out, "</samp>");
    }
}

/// Says its letters there: one for each column.
fn say_letters<S: TextSink>(own: OwnColumns<'_>, out: &mut S)
    requires forward { own.from ≤ own.to }
    requires inside { own.to ≤ length own.columns.now }
    ensures { S.says out.old (column_letters own.entry.log (take (own.entry.to - own.entry.from) (drop own.entry.from own.entry.columns.now))) out.new }
{
    let OwnColumns {
        log,
        columns,
        from,
        to,
    } = own;
    'columns: for at in from..to {
        say_letter(byte_of(log, columns.column(at)), out);
    }
}

/// Says the letter for a byte, or a blank in a gap.
fn say_letter<S: TextSink>(byte: Option<u8>, out: &mut S)
    ensures { S.says out.old (letter_or_gap byte) out.new }
{
    match byte {
        Some(byte) => out.put(&[shown_byte(byte)]),
        None => say(out, " "),
    }
}

/// What a log has in a column, if it has a byte there.
pub(crate) fn byte_of(log: PairLog, column: Column) -> Option<u8>
    ensures { result ≡ Spec.byte_of log column }
{
    match log {
        PairLog::A => column.left,
        PairLog::B => column.right,
    }
}

//! Why a log is refused beyond the place, as a hint and a page say it.

ghost use Rattle.std.specs.Prelude.{◌≡◌};
ghost use Rattle.trace_report.specs.Causes.{row_value};
ghost use Rattle.trace_report.specs.Causes as Spec;
ghost use Rattle.trace_run.specs.Script.{glimpse_value};

use crate::first_bytes::{lacks_stamp, look_of};
use crate::looks::{Look, look_row};
use text_parts::{Part, When, say};
use trace_io::TextSink;
use trace_log::{Fault, LARGEST_LIMIT};
use trace_run::Glimpse;
use trace_text::Number;

/// Why a log is refused, beyond the place.
#[derive(Clone, Copy)]
pub enum RefusalCause {
    /// It is no log, and looks like something else.
    Looks(Look),
    /// It is a log up to its end, where the last line breaks off.
    Cut,
    /// This line begins with no stamp, as a notice of dropped frames does.
    NoStamp(u64),
    /// It, or its canonical log, is longer than this limit, and a larger one can be given.
    Limit(u64),
}

/// What is said of a cause, a row of the table of causes.
#[derive(Clone, Copy)]
struct CauseRow {
    /// What stands in front.
    before: &'static str,
    /// A number behind that, if there is one.
    number: Option<u64>,
    /// What stands behind the number.
    between: &'static str,
    /// Whether the name of the log is said there.
    is_named: bool,
    /// What it is.
    words: &'static str,
    /// What mends it.
    command: &'static str,
}

/// The cause of a fault over a log with this limit, by what is seen of its source.
pub fn cause_of(why: Fault, max_bytes: u64, source: Glimpse<'_>) -> Option<RefusalCause>
    ensures { result ≡ Spec.cause_of why max_bytes (glimpse_value source.entry) }
{
    match why {
        Fault::BadLine { line, column } => cause_of_place(line, column, source),
        Fault::LogLimit | Fault::OutputLimit => cause_of_limit(max_bytes),
        Fault::Oversize { .. } | Fault::Read | Fault::Write | Fault::Memory => None,
    }
}

/// The cause of a log that is refused at this place. Nothing is read behind a refused byte: so where all of the log
/// was, the place is behind its last one.
fn cause_of_place(line: u64, column: u32, source: Glimpse<'_>) -> Option<RefusalCause>
    ensures { result ≡ Spec.cause_of_place (glimpse_value source.entry) line column }
{
    if source.is_over {
        return Some(RefusalCause::Cut);
    }
    if lacks_stamp(source.first, line, column) {
        return Some(RefusalCause::NoStamp(line));
    }
    match look_of(source.first, line, column) {
        Some(look) => Some(RefusalCause::Looks(look)),
        None => None,
    }
}

/// The cause where this limit is passed: that, where a larger one can be given.
fn cause_of_limit(max_bytes: u64) -> Option<RefusalCause>
    ensures { result ≡ Spec.cause_of_limit max_bytes }
{
    if max_bytes < LARGEST_LIMIT {
        Some(RefusalCause::Limit(max_bytes))
    } else {
        None
    }
}

/// The table of causes.
fn row_of_cause(cause: RefusalCause) -> CauseRow
    ensures { row_value result ≡ Spec.row_of_cause cause }
{
    match cause {
        RefusalCause::Looks(look) => row_of_look(look),
        RefusalCause::Cut => CauseRow {
            before: "the last line of ",
            number: None,
            between: "",
            is_named: true,
            words: "looks cut",
            command: "sed '$d' leaves it out, and a frame is missing",
        },
        RefusalCause::NoStamp(line) => CauseRow {
            before: "line ",
            number: Some(line),
            between: " of ",
            is_named: true,
            words: "begins with no stamp",
            command: "if it is a notice of candump -d, grep -v ^DROPCOUNT leaves it out",
        },
        RefusalCause::Limit(max_bytes) => CauseRow {
            before: "the limit is ",
            number: Some(max_bytes),
            between: " bytes",
            is_named: false,
            words: "",
            command: "--limit sets it, up to 1099511627776",
        },
    }
}

/// What is said of a log that looks like something else.
fn row_of_look(look: Look) -> CauseRow
    ensures { row_value result ≡ Spec.row_of_cause (RefusalCause.Looks look) }
{
    let row = look_row(look);
    CauseRow {
        before: "",
        number: None,
        between: "",
        is_named: true,
        words: row.words,
        command: row.command,
    }
}

/// The line of the cause of a refusal, where one is known.
#[derive(Clone, Copy)]
pub struct CauseLine(pub Option<RefusalCause>);

impl Part for CauseLine {
    ghost use Rattle.trace_report.specs.Causes.{cause_line};

    ghost text = { λ line. cause_line line.0 };

    fn say<S: TextSink>(self, out: &mut S) {
        if let Some(cause) = self.0 {
            say(
                out,
                (
                    "<p><b>Cause:</b> ",
                    RefusalCauseText(cause, "this log"),
                    ".</p>\n",
                ),
            );
        }
    }
}

/// What is said of a cause, of a log with this name.
#[derive(Clone, Copy)]
pub struct RefusalCauseText<N>(pub RefusalCause, pub N);

impl<N: Part> Part for RefusalCauseText<N> {
    ghost use Rattle.trace_report.specs.Causes.{refusal_cause_text};

    ghost text = { λ cause. refusal_cause_text cause.0 (N.text cause.1) };

    fn say<S: TextSink>(self, out: &mut S) {
        let RefusalCauseText(cause, name) = self;
        say(out, CauseRowText(row_of_cause(cause), name));
    }
}

/// What a row says of a log with this name.
#[derive(Clone, Copy)]
struct CauseRowText<N>(CauseRow, N);

impl<N: Part> Part for CauseRowText<N> {
    ghost use Rattle.trace_report.specs.Causes.{cause_row_text, row_value};

    ghost text = { λ row. cause_row_text (row_value row.0) (N.text row.1) };

    fn say<S: TextSink>(self, out: &mut S) {
        let CauseRowText(row, name) = self;
        say(
            out,
            (
                row.before,
                NumberOf(row.number),
                row.between,
                When(row.is_named, (name, " ")),
                row.words,
                "; ",
                row.command,
            ),
        );
    }
}

/// A number, where there is one.
#[derive(Clone, Copy)]
struct NumberOf(Option<u64>);

impl Part for NumberOf {
    ghost use Rattle.trace_report.specs.Causes.{number_text};

    ghost text = { λ number. number_text number.0 };

    fn say<S: TextSink>(self, out: &mut S) {
        if let Some(number) = self.0 {
            say(out, Number(number));
        }
    }
}

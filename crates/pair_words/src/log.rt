//! The two logs of a page.

ghost use Rattle.std.specs.Prelude.{◌≡◌, ◌≤◌};
ghost use Rattle.pair_words.specs.Logs as Spec;

use shown_bytes::Name;
use shown_rows::Change;
use text_parts::{Part, say};
use trace_io::TextSink;
use uds_difference::Row;

/// One of the two logs, by its letter.
#[derive(Clone, Copy, Debug, PartialEq, Eq)]
pub enum PairLog {
    A,
    B,
}

impl Part for PairLog {
    ghost use Rattle.pair_words.specs.Logs.{letter};

    ghost text = { λ log. letter log };

    fn say<S: TextSink>(self, out: &mut S) {
        match self {
            PairLog::A => say(out, "A"),
            PairLog::B => say(out, "B"),
        }
    }
}

/// The other one of the two logs.
pub(crate) fn other_log(log: PairLog) -> PairLog
    ensures { result ≡ Spec.other_log log }
{
    match log {
        PairLog::A => PairLog::B,
        PairLog::B => PairLog::A,
    }
}

/// The letter of a log, where words go on.
#[derive(Clone, Copy)]
pub struct LetterMark(pub PairLog);

impl Part for LetterMark {
    ghost use Rattle.pair_words.specs.Logs.{letter_mark};

    ghost text = { λ mark. letter_mark mark.0 };

    fn say<S: TextSink>(self, out: &mut S) {
        say(out, ("<span class=\"who\">", self.0, "</span> "));
    }
}

/// A log by its letter and its name.
#[derive(Clone, Copy)]
pub struct LetteredName<'a>(pub PairLog, pub &'a [u8]);

impl<'a> Part for LetteredName<'a> {
    ghost use Rattle.pair_words.specs.Logs.{lettered_name};

    ghost text = { λ name. lettered_name name.0 name.1.now };

    fn say<S: TextSink>(self, out: &mut S) {
        say(out, (LetterMark(self.0), Name(self.1)));
    }
}

/// Whether a row of this kind has an item of the log.
pub fn has_item(log: PairLog, kind: Row) -> bool
    ensures { result ≡ Spec.has_item log kind }
{
    match (log, kind) {
        (_, Row::Same | Row::Changed)
        | (PairLog::A, Row::OnlyLeft)
        | (PairLog::B, Row::OnlyRight) => true,
        (PairLog::A, Row::OnlyRight) | (PairLog::B, Row::OnlyLeft) => false,
    }
}

/// How many items of a log stand before a change.
pub fn items_before(log: PairLog, change: Change) -> usize
    ensures { result ≡ Spec.items_before log change }
{
    match log {
        PairLog::A => change.left,
        PairLog::B => change.right,
    }
}

/// How many items of a log a change has.
pub fn own_count(log: PairLog, change: Change) -> usize
    ensures value { result ≡ Spec.own_count log change }
    ensures few { result ≤ change.count }
{
    if has_item(log, change.kind) {
        change.count
    } else {
        0
    }
}

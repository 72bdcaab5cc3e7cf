//! The words beside two messages byte under byte.

use crate::log::{LetterMark, PairLog};
use text_parts::{Either, Part, When, say};
use trace_io::TextSink;
use trace_text::{Byte, Ordinal};

/// LineOwner a line is.
#[derive(Clone, Copy)]
pub(crate) enum LineOwner {
    Of(PairLog),
    OfBoth,
    Untold,
}

impl Part for LineOwner {
    ghost use Rattle.pair_words.specs.ColumnLines.{whose_text};

    ghost text = { λ whose. whose_text whose };

    fn say<S: TextSink>(self, out: &mut S) {
        match self {
            LineOwner::Of(log) => say(out, LetterMark(log)),
            LineOwner::OfBoth => say(out, "<span class=\"who eq\">=</span> "),
            LineOwner::Untold => {}
        }
    }
}

/// The number of a line's first byte, of so many lines: where several are there.
#[derive(Clone, Copy)]
pub(crate) struct LineNumber {
    pub lines: usize,
    pub first: FirstNumber,
}

impl Part for LineNumber {
    ghost use Rattle.pair_words.specs.ColumnLines.{number_text};

    ghost text = { λ number. number_text number.lines number.first.whose number.first.before number.first.there };

    fn say<S: TextSink>(self, out: &mut S) {
        if self.lines > 1 {
            say(out, self.first);
        }
    }
}

/// The number of a line's first byte, by how many the log has before, and how many the other log has.
#[derive(Clone, Copy)]
pub(crate) struct FirstNumber {
    pub whose: LineOwner,
    pub before: usize,
    pub there: usize,
}

impl Part for FirstNumber {
    ghost use Rattle.pair_words.specs.ColumnLines.{first_number};

    ghost text = { λ number. first_number number.whose number.before number.there };

    fn say<S: TextSink>(self, out: &mut S) {
        let FirstNumber {
            whose,
            before,
            there,
        } = self;
        let other = (", ", Ordinal(there));
        match whose {
            LineOwner::Of(_) => say(out, Ordinal(before)),
            LineOwner::OfBoth => say(out, (Ordinal(before), Either(before == there, (), other))),
            LineOwner::Untold => say(out, Ordinal(before)),
        }
    }
}

/// A step from one column to the next: whether the one has a mark, and whether the other one differs.
#[derive(Clone, Copy)]
pub(crate) struct MarkStep {
    pub marked: bool,
    pub differs: bool,
}

/// The start of a mark, before a column that differs, where none is open.
#[derive(Clone, Copy)]
pub(crate) struct MarkStart(pub MarkStep);

impl Part for MarkStart {
    ghost use Rattle.pair_words.specs.ColumnLines.{mark_start};

    ghost text = { λ start. mark_start start.0.marked start.0.differs };

    fn say<S: TextSink>(self, out: &mut S) {
        let MarkStep { marked, differs } = self.0;
        say(out, When(differs && !marked, "<mark>"));
    }
}

/// The end of a mark that is open, before a column that doesn't differ.
#[derive(Clone, Copy)]
pub(crate) struct MarkEnd(pub MarkStep);

impl Part for MarkEnd {
    ghost use Rattle.pair_words.specs.ColumnLines.{mark_end};

    ghost text = { λ end. mark_end end.0.marked end.0.differs };

    fn say<S: TextSink>(self, out: &mut S) {
        let MarkStep { marked, differs } = self.0;
        say(out, When(marked && !differs, "</mark>"));
    }
}

/// A byte, or a gap.
#[derive(Clone, Copy)]
pub(crate) struct ByteOrGap(pub Option<u8>);

impl Part for ByteOrGap {
    ghost use Rattle.pair_words.specs.ColumnLines.{byte_or_gap};

    ghost text = { λ cell. byte_or_gap cell.0 };

    fn say<S: TextSink>(self, out: &mut S) {
        match self.0 {
            Some(byte) => say(out, Byte(byte)),
            None => say(out, "--"),
        }
    }
}

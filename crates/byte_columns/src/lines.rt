//! The lines of columns.
ghost use Rattle.std.specs.Prelude.{◌≡◌, ◌+◌, ◌-◌, ◌*◌, ◌≤◌, ◌<◌, length, min};
ghost use Rattle.byte_columns.specs.Columns.{differing};
ghost use Rattle.byte_columns.specs.Lines.{differing_before, folded_from, is_shown, line, line_count, line_length, most_in_lines};
ghost use Rattle.byte_columns.specs.Lines as Spec;

use crate::column::ByteColumns;
use std::ops::Range;

/// So many columns has a line, but the last one, which may have fewer.
pub const LINE_LENGTH: usize = 16;

/// So many columns stand in lines at most.
const MOST_IN_LINES: usize = 4_095;

/// Up to so many columns each line is shown.
const ALL_SHOWN: usize = 64;

/// Of more, so many of the lines that differ are shown.
const LINES_SHOWN: usize = 8;

impl<'a> ByteColumns<'a> {
    /// How many columns stand in lines.
    pub fn columns_in_lines(&self) -> usize
        ensures value { result ≡ length (Spec.in_lines self.now) }
        ensures few { result ≡ min (length self.now) most_in_lines }
    {
        self.len().min(MOST_IN_LINES)
    }

    /// How many lines there are.
    pub fn line_count(&self) -> usize
        ensures value { result ≡ line_count self.now }
        ensures few { result ≤ 256 }
    {
        (self.columns_in_lines() + (LINE_LENGTH - 1)) / LINE_LENGTH
    }

    /// From the first column of a line up to the one behind its last.
    pub fn line_range(&self, number: usize) -> Range<usize>
        requires { number < line_count self.now }
        ensures first { result.start ≡ line_length * number }
        ensures end { result.end ≡ min (result.start + line_length) (min (length self.now) most_in_lines) }
        ensures length { result.end ≡ result.start + length (line self.now number) }
        ensures inside { result.end ≤ length self.now }
    {
        let first = number * LINE_LENGTH;
        first..(first + LINE_LENGTH).min(self.columns_in_lines())
    }

    /// How many columns of a line differ.
    pub fn differing_in(&self, number: usize) -> usize
        requires { number < line_count self.now }
        ensures value { result ≡ differing (line self.now number) }
        ensures few { result ≤ line_length }
    {
        let range = self.line_range(number);
        self.differing(range.start, range.end)
    }

    /// Whether a line is shown, before which so many differ.
    fn is_shown(&self, number: usize, before: usize) -> bool
        requires inside { number < line_count self.now }
        requires before { before ≡ differing_before self.now number }
        ensures { result ≡ is_shown self.now number }
    {
        self.len() <= ALL_SHOWN
            || number == 0
            || (self.differing_in(number) > 0 && before < LINES_SHOWN)
    }

    /// How many lines are folded together, from this one on, before which so many differ.
    pub(crate) fn folded(&self, number: usize, before: usize) -> usize
        requires inside { number ≤ line_count self.now }
        requires before { before ≡ differing_before self.now number }
        ensures value { result ≡ folded_from self.now number (line_count self.now - number) }
        ensures inside { result + number ≤ line_count self.now }
    {
        let count = self.line_count();
        let mut differ = before;
        'lines: for at in number..count {
            if self.is_shown(at, differ) {
                return at - number;
            }
            if self.differing_in(at) > 0 {
                differ += 1;
            }
        }
        count - number
    }

    /// How many lines differ before the one behind so many, from this one on, before which so many do.
    pub(crate) fn differing_behind(&self, number: usize, before: usize, count: usize) -> usize
        requires inside { number + count ≤ line_count self.now }
        requires before { before ≡ differing_before self.now number }
        ensures { result ≡ differing_before self.now (number + count) }
    {
        let mut behind = before;
        'lines: for at in number..number + count {
            if self.differing_in(at) > 0 {
                behind += 1;
            }
        }
        behind
    }
}

//! The stretches of lines: each line that a reader is shown, and those between them that are folded.
ghost use Rattle.std.specs.Prelude.{◌≡◌, ◌+◌, ◌≤◌, ◌<◌, ◌∷◌};
ghost use Rattle.byte_columns.specs.Lines.{differing_before, line_count, stretches};
ghost use Rattle.byte_columns.specs.proving.Stretches.{lines_in, stretches_left};

use crate::column::ByteColumns;
use std::marker::Model;

/// What a reader sees: a line, or some that are folded together.
#[derive(Clone, Copy, Debug, PartialEq, Eq)]
pub enum Stretch {
    /// The line of this number.
    Shown(usize),
    /// So many lines, from the one of this number on.
    Folded { first: usize, count: usize },
}

impl Stretch {
    /// How many lines it has.
    fn lines(self) -> usize
        ensures { result ≡ lines_in self }
    {
        match self {
            Stretch::Shown(_number) => 1,
            Stretch::Folded { count, .. } => count,
        }
    }
}

/// The stretches of all lines, one after another, seen as those that it still gives.
#[derive(Drop)]
pub struct Stretches<'a> {
    columns: &'a ByteColumns<'a>,
    /// The number of the next line.
    number: usize,
    /// How many lines before it differ.
    before: usize,
}

impl<'a> Model for Stretches<'a> {
    ghost use Rattle.std.specs.Prelude.{◌≡◌, ◌≤◌, List};
    ghost use Rattle.byte_columns.specs.declared.stretches.Stretch.{Stretch};
    ghost use Rattle.byte_columns.specs.Lines.{differing_before, line_count};
    ghost use Rattle.byte_columns.specs.proving.Stretches.{stretches_left};

    ghost Value = { List Stretch };

    ghost view = { λ s. stretches_left s.columns.now s.number };

    ghost invariant = { λ s. (s.number ≤ line_count s.columns.now) × (s.before ≡ differing_before s.columns.now s.number) };
}

impl<'a> ByteColumns<'a> {
    /// The stretches of all lines.
    pub fn stretches(&self) -> Stretches<'_>
        ensures { result ≡ stretches self.now }
    {
        Stretches {
            columns: self,
            number: 0,
            before: 0,
        }
    }

    /// The stretch that begins with a line, before which so many differ.
    fn stretch_from(&self, number: usize, before: usize) -> Stretch
        requires inside { number < line_count self.now }
        requires before { before ≡ differing_before self.now number }
        ensures first { stretches_left self.now number ≡ result ∷ stretches_left self.now (number + lines_in result) }
        ensures inside { number + lines_in result ≤ line_count self.now }
    {
        let count = self.folded(number, before);
        if count == 0 {
            Stretch::Shown(number)
        } else {
            Stretch::Folded {
                first: number,
                count,
            }
        }
    }
}

impl<'a> Iterator for Stretches<'a> {
    type Item = Stretch;

    ghost use Rattle.std.specs.Iterator.{YieldsFirst, item_count};

    ghost next_gives = { YieldsFirst (λ stretches. stretches) };

    ghost remaining = { item_count (λ stretches. stretches) };

    fn next(&mut self) -> Option<Stretch> {
        let columns = self.columns;
        let number = self.number;
        let before = self.before;
        if columns.line_count() <= number {
            return None;
        }
        let stretch = columns.stretch_from(number, before);
        let lines = stretch.lines();
        self.before = columns.differing_behind(number, before, lines);
        self.number = number + lines;
        Some(stretch)
    }
}

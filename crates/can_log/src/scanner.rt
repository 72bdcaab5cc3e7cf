//! Lines out of the pieces of a log.
//!
//! Each call tries one form of line, and hands any other line on to the next. The left column answers a caller that takes all
//! frames, the right one a caller that wants some:
//!
//! | A line | [`Scanner::scan_into`] | [`Scanner::scan_wanted_into`] |
//! |---|---|---|
//! | of plain form, with ten digits of seconds | `scan_plain_into::<true>` | `scan_plain_wanted_into::<true>` |
//! | of plain form, with fewer | `scan_short_into`, by `scan_plain_into::<false>` | `scan_short_wanted_into`, by `scan_plain_wanted_into::<false>` |
//! | that is blank | `scan_any_into` | `scan_any_into` |
//! | of plain form, cut or near the end of the piece | `scan_padded_into` | `scan_padded_into` |
//! | of any form | `scan_any` | `scan_any` |
//!
//! What takes most lines is inlined; each `scan_short_*`, `scan_any_into` and `scan_any` is a call, for the reason that stands
//! above it.

ghost use Rattle.std.specs.Prelude.{◌≡◌, ◌≤◌, ◌+◌, ◌^◌, ◌++◌, Some, [], ◌<◌, IfNone, IfSome, IsTrue, false, length};
ghost use Rattle.can_log.specs.Refused.{NoLineFeed, HasCompletion};
ghost use Rattle.can_log.specs.Scanning.{Scans, ScansForeign, Finishes};
ghost use Rattle.can_log.specs.WholeLog.{at_start};
ghost use Rattle.can_log.specs.declared.scanner.Scan.TheVariants.{Bad};
ghost use Rattle.can_log.specs.proving.Taking.{TakesPlain};

use crate::frame::Stamped;
use crate::judgement::{Judgement, ended, judgement_on, refused_column};
use crate::padded::{ROOM_OF_PLAIN, is_front_of_plain, put_line};
use crate::plain::{Fields, LONGEST_PLAIN, any_plain_line, plain_identifier, plain_line};
use crate::plain_answers::answer_plain;
use crate::wanted::Wanted;
use arrayvec::ArrayVec;
use memchr::memchr;
use std::marker::Model;

/// What came of a piece of the log, or of its end.
#[derive(Debug, Drop, PartialEq, Eq)]
pub enum Scan {
    /// The whole piece was taken, and no line ended.
    NeedMore,
    /// Line number `line` was taken. Of a piece the first `used` bytes were, the last of them its line feed; the rest of the
    /// piece is handed in again. At the end of the log the line has no line feed, and `used` is 0. A blank line is `None`.
    Line {
        used: usize,
        line: u64,
        what: Option<Stamped>,
    },
    /// The refused place of the log. Lines are counted from 1, and columns are bytes, counted from 1.
    Bad {
        line: u64,
        column: u32,
    },
    /// The log has ended, and no line is unfinished.
    End,
}

/// Reads the lines of a log out of its pieces, however it is cut. It allocates nothing: of a line that is cut it keeps the
/// bytes so far, 223 at most, and judges them again with the next piece.
#[derive(Debug, Drop)]
pub struct Scanner {
    /// The unfinished line, as far as it has come.
    line: ArrayVec<u8, 223>,
    /// How many lines have ended.
    lines: u64,
    /// How many bytes were taken.
    taken: u64,
    /// The refused place, once there is one.
    refused: Option<Place>,
}

/// A line and a column of a log.
#[derive(Clone, Copy, Debug)]
struct Place {
    line: u64,
    column: u32,
}

impl Model for Scanner {
    ghost use Rattle.std.specs.Prelude.{option_map};
    ghost use Rattle.can_log.specs.Scanning.{Standing};
    ghost use Rattle.can_log.specs.proving.Judging.{StandsWell};

    ghost Value = { Standing };

    ghost view = { λ s. record { lines = s.lines; line = s.line.items; taken = s.taken; refused = option_map (λ p. record { line = p.line; column = p.column }) s.refused } };

    ghost invariant = { λ s. StandsWell s.lines s.taken s.line.items };
}

impl Scanner {
    /// A scanner at the start of a log.
    pub fn new() -> Self
        ensures { result ≡ at_start }
    {
        Scanner {
            line: ArrayVec::new(),
            lines: 0,
            taken: 0,
            refused: None,
        }
    }

    /// How many bytes were taken so far.
    pub fn taken(&self) -> u64
        ensures { result ≡ self.now.taken }
    {
        self.taken
    }

    /// How many lines have ended so far.
    #[inline(always)]
    pub fn line_count(&self) -> u64
        ensures { result ≡ self.now.lines }
    {
        self.lines
    }

    /// Takes the next line of a piece, or the whole piece where no line ends in it. A refused byte is answered at once, also
    /// in a line whose end is still to come, and from then on by every call.
    pub fn scan(&mut self, piece: &[u8]) -> Scan
        requires { self.old.taken + length piece.now ≤ 2 ^ 62 }
        ensures answer { Scans self.old piece.now result self.new }
    {
        let mut answer = Scan::NeedMore;
        self.scan_into(piece, &mut answer);
        answer
    }

    /// The same, over an earlier answer: a frame is large, and where a caller keeps one answer for all lines it is not copied.
    pub fn scan_into(&mut self, piece: &[u8], answer: &mut Scan)
        requires { self.old.taken + length piece.now ≤ 2 ^ 62 }
        ensures answer { Scans self.old piece.now answer.new self.new }
    {
        // The way of most lines.
        if self.scan_plain_into::<true>(piece, answer) {
            return;
        }
        self.scan_short_into(piece, answer);
    }

    /// The same for a caller that wants the frames of some identifiers alone. Where a line of plain form records another frame,
    /// its time and its data are not decoded: it is taken, how many bytes of the piece it has is told, and `answer` stays as it
    /// was. In any other form such a line is answered like the rest.
    #[inline(always)]
    pub fn scan_wanted_into(
        &mut self,
        wanted: &Wanted,
        piece: &[u8],
        answer: &mut Scan,
    ) -> Option<usize>
        requires { self.old.taken + length piece.now ≤ 2 ^ 62 }
        ensures foreign { IfSome result (λ used. ScansForeign wanted.now self.old piece.now used self.new) }
        ensures answer { IfNone result (Scans self.old piece.now answer.new self.new) }
    {
        match self.scan_plain_wanted_into::<true>(wanted, piece, answer) {
            Some(foreign) => foreign,
            None => self.scan_short_wanted_into(wanted, piece, answer),
        }
    }

    /// `scan_into` for a line whose seconds have fewer than ten digits, and for any other. It is separate, so that in the way of
    /// most lines each place up to the interface is known when it is compiled.
    #[inline(never)]
    fn scan_short_into(&mut self, piece: &[u8], answer: &mut Scan)
        requires { self.old.taken + length piece.now ≤ 2 ^ 62 }
        ensures answer { Scans self.old piece.now answer.new self.new }
    {
        if self.scan_plain_into::<false>(piece, answer) {
            return;
        }
        self.scan_any_into(piece, answer);
    }

    /// `scan_wanted_into` for such a line.
    #[inline(never)]
    fn scan_short_wanted_into(
        &mut self,
        wanted: &Wanted,
        piece: &[u8],
        answer: &mut Scan,
    ) -> Option<usize>
        requires { self.old.taken + length piece.now ≤ 2 ^ 62 }
        ensures foreign { IfSome result (λ used. ScansForeign wanted.now self.old piece.now used self.new) }
        ensures answer { IfNone result (Scans self.old piece.now answer.new self.new) }
    {
        match self.scan_plain_wanted_into::<false>(wanted, piece, answer) {
            Some(foreign) => foreign,
            None => {
                self.scan_any_into(piece, answer);
                None
            }
        }
    }

    /// Answers the next line of a piece, if it is of plain form, and tells whether it is.
    #[inline(always)]
    fn scan_plain_into<const HAS_TEN_SECONDS: bool>(
        &mut self,
        piece: &[u8],
        answer: &mut Scan,
    ) -> bool
        requires { self.old.taken + length piece.now ≤ 2 ^ 62 }
        ensures answer { IsTrue result → Scans self.old piece.now answer.new self.new }
        ensures left { result ≡ false → self.new ≡ self.old }
    {
        let Some((fields, used)) = self.take_plain::<HAS_TEN_SECONDS>(piece) else {
            return false;
        };
        answer_plain(answer, used, self.lines, fields, plain_identifier(fields));
        true
    }

    /// The same for a caller that wants some identifiers alone: what `scan_wanted_into` gives, if the line is of plain form.
    #[inline(always)]
    fn scan_plain_wanted_into<const HAS_TEN_SECONDS: bool>(
        &mut self,
        wanted: &Wanted,
        piece: &[u8],
        answer: &mut Scan,
    ) -> Option<Option<usize>>
        requires { self.old.taken + length piece.now ≤ 2 ^ 62 }
        ensures foreign { IfSome result (λ foreign. IfSome foreign (λ used. ScansForeign wanted.now self.old piece.now used self.new)) }
        ensures answer { IfSome result (λ foreign. IfNone foreign (Scans self.old piece.now answer.new self.new)) }
        ensures left { IfNone result (self.new ≡ self.old) }
    {
        let (fields, used) = self.take_plain::<HAS_TEN_SECONDS>(piece)?;
        let id = plain_identifier(fields);
        if !wanted.is_wanted(id) {
            return Some(Some(used));
        }
        answer_plain(answer, used, self.lines, fields, id);
        Some(None)
    }

    /// Takes the next line of a piece, if it is of plain form and nothing comes before it: its fields, and how many bytes of
    /// the piece it has.
    #[inline(always)]
    fn take_plain<'a, const HAS_TEN_SECONDS: bool>(
        &mut self,
        piece: &'a [u8],
    ) -> Option<(Fields<'a>, usize)>
        requires { self.old.taken + length piece.now ≤ 2 ^ 62 }
        ensures taken { IfSome result (λ x. TakesPlain self.old piece.now x.0 x.1 self.new) }
        ensures left { IfNone result (self.new ≡ self.old) }
    {
        if self.refused.is_some() || !self.line.is_empty() {
            return None;
        }
        let (fields, rest) = plain_line::<HAS_TEN_SECONDS>(piece)?;
        let used = piece.len() - rest.len();
        self.lines += 1;
        self.taken += used as u64;
        Some((fields, used))
    }

    /// `scan_into` for a line of any form, and for one that is cut. It is separate, so that the calls above make a frame at one
    /// place alone, and have no room for another answer, which would be cleared for each line.
    #[inline(never)]
    fn scan_any_into(&mut self, piece: &[u8], answer: &mut Scan)
        requires { self.old.taken + length piece.now ≤ 2 ^ 62 }
        ensures answer { Scans self.old piece.now answer.new self.new }
    {
        if let [b'\n', ..] = piece {
            if self.line.is_empty() && self.refused.is_none() {
                // A blank line.
                self.lines += 1;
                self.taken += 1;
                *answer = Scan::Line {
                    used: 1,
                    line: self.lines,
                    what: None,
                };
                return;
            }
        }
        if self.scan_padded_into(piece, answer) {
            return;
        }
        *answer = self.scan_any(piece);
    }

    /// Answers a line of plain form that is cut, or that ends so near to the end of the piece that the lanes have no room; and
    /// tells whether it is one.
    #[inline(always)]
    fn scan_padded_into(&mut self, piece: &[u8], answer: &mut Scan) -> bool
        requires { self.old.taken + length piece.now ≤ 2 ^ 62 }
        ensures answer { IsTrue result → Scans self.old piece.now answer.new self.new }
        ensures left { result ≡ false → self.new ≡ self.old }
    {
        // Where the lanes had room, and found no plain form, it is not looked for again.
        let is_tried = self.line.is_empty() && piece.len() >= ROOM_OF_PLAIN;
        if is_tried || self.refused.is_some() {
            return false;
        }
        let Some(at) = memchr(b'\n', piece) else {
            if !is_front_of_plain(self.line.as_slice(), piece) {
                return false;
            }
            self.keep(piece);
            *answer = Scan::NeedMore;
            return true;
        };
        if self.line.len() + at > LONGEST_PLAIN {
            return false;
        }
        let mut padded = [b'\n'; ROOM_OF_PLAIN];
        put_line(&mut padded, self.line.as_slice(), &piece[..at]);
        let Some((fields, _)) = any_plain_line(&padded) else {
            return false;
        };
        self.end_line(at + 1);
        answer_plain(answer, at + 1, self.lines, fields, plain_identifier(fields));
        true
    }

    /// The answer on a line of any form, as a value.
    #[inline(never)]
    fn scan_any(&mut self, piece: &[u8]) -> Scan
        requires { self.old.taken + length piece.now ≤ 2 ^ 62 }
        ensures answer { Scans self.old piece.now result self.new }
    {
        if let Some(place) = self.refused {
            return bad(place);
        }
        match memchr(b'\n', piece) {
            Some(at) => match ended(self.line.as_slice(), &piece[..at]) {
                Ok(what) => {
                    self.end_line(at + 1);
                    Scan::Line {
                        used: at + 1,
                        line: self.lines,
                        what,
                    }
                }
                Err(column) => self.refuse(column),
            },
            None => match refused_column(self.line.as_slice(), piece) {
                None => {
                    self.keep(piece);
                    Scan::NeedMore
                }
                Some(column) => self.refuse(column),
            },
        }
    }

    /// Ends the line after so many bytes of a piece.
    #[inline(always)]
    fn end_line(&mut self, bytes: usize)
        requires some { 1 ≤ bytes }
        requires room { self.old.taken + bytes ≤ 2 ^ 62 }
        ensures { self.new ≡ record self.old { lines = self.old.lines + 1; line = []; taken = self.old.taken + bytes } }
    {
        self.line.clear();
        self.lines += 1;
        self.taken += bytes as u64;
    }

    /// Keeps a piece in which the line does not end.
    #[inline(always)]
    fn keep(&mut self, piece: &[u8])
        requires room { self.old.taken + length piece.now ≤ 2 ^ 62 }
        requires clean { NoLineFeed piece.now }
        requires legal { HasCompletion (self.old.line ++ piece.now) }
        ensures { self.new ≡ record self.old { line = self.old.line ++ piece.now; taken = self.old.taken + length piece.now } }
    {
        // There is room: what can be completed has at most 223 bytes.
        let _ = self.line.try_extend_from_slice(piece);
        self.taken += piece.len() as u64;
    }

    /// Takes the last line of the log, if it has no line feed. It is asked when no piece is left.
    pub fn finish(&mut self) -> Scan
        ensures answer { Finishes self.old result self.new }
    {
        if let Some(place) = self.refused {
            return bad(place);
        }
        if self.line.is_empty() {
            return Scan::End;
        }
        match judgement_on(self.line.as_slice()) {
            Judgement::Means(what) => {
                self.line.clear();
                self.lines += 1;
                Scan::Line {
                    used: 0,
                    line: self.lines,
                    what,
                }
            }
            _ => {
                let column = self.line.len() as u32 + 1;
                self.refuse(column)
            }
        }
    }

    /// Stands at a refused place of the unfinished line.
    fn refuse(&mut self, column: u32) -> Scan
        requires { self.old.lines + 1 < 2 ^ 64 }
        ensures result { result ≡ Bad (self.old.lines + 1) column }
        ensures place { self.new ≡ record self.old { refused = Some (record { line = self.old.lines + 1; column = column }) } }
    {
        let place = Place {
            line: self.lines + 1,
            column,
        };
        self.refused = Some(place);
        bad(place)
    }
}

impl Default for Scanner {
    ghost use Rattle.std.specs.Prelude.{◌≡◌};
    ghost use Rattle.can_log.specs.WholeLog.{at_start};

    ghost is_default = { λ s. s ≡ at_start };

    fn default() -> Self {
        Scanner::new()
    }
}

/// The answer at a refused place.
fn bad(place: Place) -> Scan
    ensures { result ≡ Bad place.line place.column }
{
    Scan::Bad {
        line: place.line,
        column: place.column,
    }
}

//! Logs as a recorder writes them: frames, and the messages that they carry.

use crate::dice::Dice;
use std::alloc::{AllocError, Global};

/// The digits of an identifier of a side.
pub(crate) const TESTER: &[u8] = b"7E0";

pub(crate) const UNIT: &[u8] = b"7E8";

/// What flow control says: go on, without a pause.
const CONTINUE: [u8; 3] = [0x30, 0, 0];

/// The lengths that an FD frame of more than eight bytes can have.
const FD_LENGTHS: [usize; 7] = [12, 16, 20, 24, 32, 48, 64];

const DIGITS: [u8; 16] = *b"0123456789ABCDEF";

const LOWER_DIGITS: [u8; 16] = *b"0123456789abcdef";

/// How a recorder writes.
#[derive(Clone, Copy)]
pub(crate) struct Form {
    /// The name of the interface.
    pub interface: &'static [u8],
    /// Whether stamps count from 1970, with ten digits of seconds, or from the first line.
    pub is_absolute: bool,
    /// Whether ` R` or ` T` stands behind the data.
    pub has_marks: bool,
    /// Whether a carriage return stands before each line feed.
    pub has_returns: bool,
    /// Whether digits are lower-case letters.
    pub is_lower: bool,
    /// How many bytes a frame carries: 8 in classic frames, and up to 64 in FD frames.
    pub frame_size: usize,
    /// How many bytes a frame is filled up to, and by what.
    pub filled: usize,
    pub padding: u8,
    /// How many of a hundred lines record frames of other identifiers.
    pub foreign: u64,
    /// How many of a hundred frames behind a first one are lost.
    pub lost: u64,
}

/// What candump writes of classic frames.
pub(crate) const CANDUMP: Form = Form {
    interface: b"can0",
    is_absolute: true,
    has_marks: false,
    has_returns: false,
    is_lower: false,
    frame_size: 8,
    filled: 8,
    padding: 0xAA,
    foreign: 0,
    lost: 0,
};

/// A log, as far as it is written.
#[derive(Drop)]
pub(crate) struct Recorder {
    form: Form,
    text: Vec<u8>,
    micros: u64,
    /// The data of the next frame.
    frame: Vec<u8>,
    /// Places of digits of data. With another digit there it is another message of the same kind.
    free_digits: Vec<usize>,
    /// The places of the digits that are spoiled, with what stood there.
    spoiled: Vec<(usize, u8)>,
    /// Where the last digit of the serial number stands, of eight.
    serial: usize,
    /// What decides of the lines that are no message.
    noise: Dice,
}

impl Recorder {
    /// A log without lines.
    pub(crate) fn new(alloc: Global, form: Form, noise: Dice) -> Recorder {
        let mut noise = noise;
        let begun = noise.below(2_000_000_000);
        Recorder {
            form,
            text: Vec::new(alloc),
            micros: if form.is_absolute {
                1_700_000_000_000_000
            } else {
                begun
            },
            frame: Vec::new(alloc),
            free_digits: Vec::new(alloc),
            spoiled: Vec::new(alloc),
            serial: 0,
            noise,
        }
    }

    /// Begins the log: the tester reads the serial number of the unit.
    pub(crate) fn begin(&mut self) -> Result<(), AllocError> {
        self.message(TESTER, &[0x22, 0xF1, 0x8C])?;
        self.message(UNIT, &[0x62, 0xF1, 0x8C, 0, 0, 0, 0])?;
        self.serial = self.free_digits.pop().unwrap_or(0);
        Ok(())
    }

    /// The log.
    pub(crate) fn text(&self) -> &[u8] {
        &self.text
    }

    /// Makes another log of the same kind and size: that of the unit with this serial number, with other messages in place of
    /// about one in eight.
    pub(crate) fn change(&mut self, serial: u32, dice: &mut Dice) {
        for i in 0..8 {
            if let Some(digit) = self.text.get_mut(self.serial.saturating_sub(i)) {
                *digit = DIGITS[(serial.wrapping_shr(4 * i as u32) % 16) as usize];
            }
        }
        for place in &self.free_digits {
            if dice.below(8) == 0 {
                if let Some(digit) = self.text.get_mut(*place) {
                    *digit = DIGITS[dice.below(10) as usize % 16];
                }
            }
        }
    }

    /// Makes other messages of a few.
    pub(crate) fn spoil(&mut self, dice: &mut Dice, few: u64) -> Result<(), AllocError> {
        for _ in 0..few {
            let chosen = dice.below(self.free_digits.len() as u64) as usize;
            let place = self.free_digits.get(chosen).copied().unwrap_or(0);
            if let Some(digit) = self.text.get_mut(place) {
                self.spoiled.push((place, *digit))?;
                *digit = if *digit == b'7' { b'3' } else { b'7' };
            }
        }
        Ok(())
    }

    /// Makes the messages again that were spoiled.
    pub(crate) fn mend(&mut self) {
        for (place, earlier) in self.spoiled.iter().rev() {
            if let Some(digit) = self.text.get_mut(*place) {
                *digit = *earlier;
            }
        }
        self.spoiled.clear();
    }

    /// Writes a message of a side, cut into frames as ISO 15765-2 says, and the flow control of the other side.
    pub(crate) fn message(&mut self, side: &'static [u8], bytes: &[u8]) -> Result<(), AllocError> {
        let size = bytes.len();
        let most = self.form.frame_size.clamp(8, 64);
        self.frame.clear();
        if size <= 7 {
            self.frame.push(size as u8)?;
            return self.last_frame(side, bytes);
        }
        if most > 8 && size <= most - 2 {
            self.frame.extend_from_slice(&[0, size as u8])?;
            return self.last_frame(side, bytes);
        }
        let [.., third, second, high, low] = (size as u64).to_be_bytes();
        if size <= 0xFFF {
            self.frame.extend_from_slice(&[0x10 | (high & 0xF), low])?;
        } else {
            self.frame
                .extend_from_slice(&[0x10, 0, third, second, high, low])?;
        }
        let (front, behind) = bytes.split_at((most - self.frame.len().min(6)).min(size));
        self.frame.extend_from_slice(front)?;
        self.frame_line(side)?;
        self.frame.clear();
        self.frame.extend_from_slice(&CONTINUE)?;
        self.frame_line(if side == TESTER { UNIT } else { TESTER })?;
        let mut number = 1u8;
        for part in behind.chunks(most - 1) {
            self.frame.clear();
            self.frame.push(0x20 | number % 16)?;
            number = number.wrapping_add(1);
            if self.noise.happens(self.form.lost) {
                continue;
            }
            self.last_frame(side, part)?;
        }
        Ok(())
    }

    /// Writes the frame of these bytes as they are, whatever they say.
    pub(crate) fn raw(&mut self, side: &'static [u8], bytes: &[u8]) -> Result<(), AllocError> {
        self.frame.clear();
        self.last_frame(side, bytes)
    }

    /// Writes a frame of a message. The last digit of three bytes and more may be changed, if they are no negative answer.
    fn last_frame(&mut self, side: &'static [u8], bytes: &[u8]) -> Result<(), AllocError> {
        self.frame.extend_from_slice(bytes)?;
        let end = 2 * self.frame.len().min(64);
        let start = self.frame_line(side)?;
        let is_fixed = matches!(bytes, [] | [_] | [_, _] | [0x7F, ..]);
        if !is_fixed {
            self.free_digits
                .push(start.wrapping_add(end).wrapping_sub(1))?;
        }
        Ok(())
    }

    /// Writes the line of the frame, with foreign ones before it. Answers where its data begins.
    fn frame_line(&mut self, side: &'static [u8]) -> Result<usize, AllocError> {
        'foreign: for _ in 0..1_000 {
            if !self.noise.happens(self.form.foreign) {
                break 'foreign;
            }
            self.foreign_line()?;
        }
        self.pad()?;
        self.stamp(210)?;
        self.text.extend_from_slice(side)?;
        self.text.push(b'#')?;
        if self.form.frame_size > 8 {
            self.text.extend_from_slice(b"#1")?;
        }
        let start = self.text.len();
        for byte in &self.frame {
            push_byte(&mut self.text, self.form, *byte)?;
        }
        self.end_line(if side == TESTER { b" T" } else { b" R" })?;
        Ok(start)
    }

    /// Fills the frame up.
    fn pad(&mut self) -> Result<(), AllocError> {
        let size = self.frame.len();
        let least = size.max(self.form.filled);
        let full = if least <= 8 {
            least
        } else {
            FD_LENGTHS
                .iter()
                .copied()
                .find(|length| least <= *length)
                .unwrap_or(64)
        };
        for _ in size..full {
            self.frame.push(self.form.padding)?;
        }
        Ok(())
    }

    /// Writes the line of a frame of another identifier: one of some eighty, each with its own length.
    fn foreign_line(&mut self) -> Result<(), AllocError> {
        let chosen = self.noise.below(80) % 80;
        self.stamp(97)?;
        if chosen < 8 {
            push_number(&mut self.text, 0x18DA_0000 + 0x101 * chosen, 8)?;
        } else {
            push_number(&mut self.text, 0x80 + 0x13 * chosen, 3)?;
        }
        self.text.push(b'#')?;
        let size = if chosen % 4 == 0 { 2 + chosen % 7 } else { 8 };
        for _ in 0..size {
            let byte = self.noise.byte();
            push_byte(&mut self.text, self.form, byte)?;
        }
        self.end_line(b" R")
    }

    /// Writes a frame of any identifier of 29 bits.
    pub(crate) fn extended_line(&mut self, id: u64, data: &[u8; 8]) -> Result<(), AllocError> {
        self.stamp(53)?;
        push_number(&mut self.text, id % (1 << 29), 8)?;
        self.text.push(b'#')?;
        for byte in data {
            push_byte(&mut self.text, self.form, *byte)?;
        }
        self.free_digits.push(self.text.len().saturating_sub(1))?;
        self.end_line(b" R")
    }

    /// Writes a line without a frame.
    pub(crate) fn blank_line(&mut self) -> Result<(), AllocError> {
        self.end_line(b"")
    }

    /// Writes a stamp, so much later and a little more, and the interface.
    fn stamp(&mut self, later: u64) -> Result<(), AllocError> {
        let more = self.noise.below(later);
        self.micros = self.micros.saturating_add(later).saturating_add(more);
        self.text.push(b'(')?;
        let seconds = self.micros / 1_000_000;
        let width = if self.form.is_absolute {
            10
        } else {
            decimal_width(seconds)
        };
        push_decimal(&mut self.text, seconds, width)?;
        self.text.push(b'.')?;
        push_decimal(&mut self.text, self.micros % 1_000_000, 6)?;
        self.text.extend_from_slice(b") ")?;
        self.text.extend_from_slice(self.form.interface)?;
        self.text.push(b' ')?;
        Ok(())
    }

    /// Ends a line.
    fn end_line(&mut self, mark: &[u8]) -> Result<(), AllocError> {
        if self.form.has_marks {
            self.text.extend_from_slice(mark)?;
        }
        if self.form.has_returns {
            self.text.push(b'\r')?;
        }
        self.text.push(b'\n')?;
        Ok(())
    }
}

/// How many decimal digits a number of seconds has, at most nine.
fn decimal_width(seconds: u64) -> u32 {
    match seconds {
        0..=9 => 1,
        10..=99 => 2,
        100..=999 => 3,
        1_000..=9_999 => 4,
        10_000..=99_999 => 5,
        100_000..=999_999 => 6,
        1_000_000..=9_999_999 => 7,
        10_000_000..=99_999_999 => 8,
        _ => 9,
    }
}

/// The last decimal digits of a number.
fn push_decimal(text: &mut Vec<u8>, number: u64, width: u32) -> Result<(), AllocError> {
    for i in 0..width.min(10) {
        let place = 10u64.wrapping_pow(width.min(10) - 1 - i);
        let digit = number.checked_div(place).unwrap_or(0) % 10;
        text.push(DIGITS[digit as usize])?;
    }
    Ok(())
}

/// The last hexadecimal digits of a number.
fn push_number(text: &mut Vec<u8>, number: u64, width: u32) -> Result<(), AllocError> {
    for i in 0..width.min(8) {
        let digit = number.wrapping_shr(4 * (width.min(8) - 1 - i)) % 16;
        text.push(DIGITS[digit as usize])?;
    }
    Ok(())
}

/// The two digits of a byte.
fn push_byte(text: &mut Vec<u8>, form: Form, byte: u8) -> Result<(), AllocError> {
    let digits = if form.is_lower {
        &LOWER_DIGITS
    } else {
        &DIGITS
    };
    text.push(digits[usize::from(byte / 16)])?;
    text.push(digits[usize::from(byte % 16)])?;
    Ok(())
}

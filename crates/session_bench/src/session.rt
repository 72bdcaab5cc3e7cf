//! What a tester and a unit say to each other.

use crate::dice::Dice;
use crate::recorder::{Recorder, TESTER, UNIT};
use std::alloc::{AllocError, Global};

/// The longest message: TransferData of a megabyte, less a byte.
const LONGEST: u64 = 1_048_575;

/// What a session is about.
#[derive(Clone, Copy)]
pub(crate) enum Talk {
    /// A bench reads identifiers: most messages have one frame, some 20 to 300 bytes, and some answers are pending.
    Reading,
    /// Each message has one frame.
    Short,
    /// A unit is flashed, by blocks of up to so many bytes.
    Flashing(u64),
    /// The unit tells what nobody asked for.
    Strays,
    /// A request is never answered, and other messages follow.
    Unanswered,
    /// No frame has a layout that is in place, and some lines are blank.
    Faults,
    /// Each frame is that of another identifier.
    Strangers,
}

/// Messages made from the numbers of a seed.
#[derive(Drop)]
pub(crate) struct Speaker {
    dice: Dice,
    bytes: Vec<u8>,
    block: u8,
    fallen: u64,
}

impl Speaker {
    pub(crate) fn new(alloc: Global, dice: Dice) -> Speaker {
        Speaker {
            dice,
            bytes: Vec::new(alloc),
            block: 0,
            fallen: 0,
        }
    }

    /// Has a session of so many exchanges recorded.
    pub(crate) fn record(
        &mut self,
        talk: Talk,
        exchanges: u64,
        recorder: &mut Recorder,
    ) -> Result<(), AllocError> {
        recorder.begin()?;
        if matches!(talk, Talk::Unanswered) {
            recorder.message(TESTER, &[0x31, 0x01, 0xFF, 0x00])?;
        }
        for _ in 0..exchanges {
            self.exchange(talk, recorder)?;
        }
        Ok(())
    }

    /// A request and its answer, or what stands in their place.
    fn exchange(&mut self, talk: Talk, recorder: &mut Recorder) -> Result<(), AllocError> {
        match talk {
            Talk::Reading => self.reading(recorder),
            Talk::Short => self.short(recorder),
            Talk::Flashing(most) => self.block(most, recorder),
            Talk::Strays | Talk::Unanswered => self.stray(recorder),
            Talk::Faults => self.fault(recorder),
            Talk::Strangers => self.stranger(recorder),
        }
    }

    fn reading(&mut self, recorder: &mut Recorder) -> Result<(), AllocError> {
        match self.dice.below(100) {
            0..=69 => self.short(recorder),
            70..=84 => {
                let size = self.dice.among(17, 280);
                self.exchange_of(0x22, 3, size, recorder)
            }
            85..=92 => {
                let size = self.dice.among(17, 110);
                self.exchange_of(0x2E, size, 3, recorder)
            }
            93..=96 => {
                recorder.message(TESTER, &[0x31, 0x01, 0x02, self.dice.byte()])?;
                for _ in 0..self.dice.among(1, 3) {
                    recorder.message(UNIT, &[0x7F, 0x31, 0x78])?;
                }
                recorder.message(UNIT, &[0x71, 0x01, 0x02, self.dice.byte(), 0])
            }
            _ => self.exchange_of(0x19, 3, 60, recorder),
        }
    }

    fn short(&mut self, recorder: &mut Recorder) -> Result<(), AllocError> {
        match self.dice.below(20) {
            0 | 1 => recorder.message(TESTER, &[0x3E, 0x80]),
            2 => {
                recorder.message(TESTER, &[0x22, 0xF1, self.dice.byte()])?;
                recorder.message(UNIT, &[0x7F, 0x22, 0x31])
            }
            3 => self.exchange_of(0x10, 2, 6, recorder),
            _ => {
                let size = self.dice.among(4, 4);
                self.exchange_of(0x22, 3, size, recorder)
            }
        }
    }

    fn block(&mut self, most: u64, recorder: &mut Recorder) -> Result<(), AllocError> {
        self.block = self.block.wrapping_add(1);
        let size = self
            .dice
            .among(most / 4, most - most / 4 + 1)
            .clamp(2, LONGEST);
        self.fill(0x36, size)?;
        if let Some(number) = self.bytes.get_mut(1) {
            *number = self.block;
        }
        recorder.message(TESTER, &self.bytes)?;
        recorder.message(UNIT, &[0x76, self.block])
    }

    fn stray(&mut self, recorder: &mut Recorder) -> Result<(), AllocError> {
        let size = match self.dice.below(10) {
            0 => self.dice.among(8, 60),
            _ => self.dice.among(3, 5),
        };
        self.fill(0x62, size)?;
        recorder.message(UNIT, &self.bytes)
    }

    fn fault(&mut self, recorder: &mut Recorder) -> Result<(), AllocError> {
        let side = if self.dice.happens(50) { TESTER } else { UNIT };
        let first = [0x21, 0x00, 0x3F, 0x40, 0x2A, 0x08, 0x10, 0xF1][self.dice.below(8) as usize
            % 8];
        self.fill(first, 8)?;
        // No first frame announces more bytes than a message may have.
        if let Some(second) = self.bytes.get_mut(1) {
            *second |= 8;
        }
        if self.dice.happens(10) {
            recorder.blank_line()?;
        }
        recorder.raw(side, &self.bytes)
    }

    /// Identifiers come in falling order, and those between them in any.
    fn stranger(&mut self, recorder: &mut Recorder) -> Result<(), AllocError> {
        self.fallen = self.fallen.wrapping_add(1);
        let falling = 0x1FFF_FFFF - (self.fallen % 0x10_0000) * 0x100;
        recorder.extended_line(falling, &[0x03, 0x22, 0xF1, 0x90, 0xAA, 0xAA, 0xAA, 0xAA])?;
        let any = self.dice.below(1 << 29);
        recorder.extended_line(any, &[0x04, 0x62, 0xF1, 0x90, 0x01, 0xAA, 0xAA, 0xAA])
    }

    /// A request of this service and its answer, of so many bytes.
    fn exchange_of(
        &mut self,
        sid: u8,
        asked: u64,
        answered: u64,
        recorder: &mut Recorder,
    ) -> Result<(), AllocError> {
        self.fill(sid, asked)?;
        recorder.message(TESTER, &self.bytes)?;
        self.fill(sid | 0x40, answered)?;
        recorder.message(UNIT, &self.bytes)
    }

    /// A message that begins with this byte.
    fn fill(&mut self, first: u8, size: u64) -> Result<(), AllocError> {
        self.bytes.clear();
        self.bytes.push(first)?;
        for _ in 1..size.min(LONGEST) {
            let byte = self.dice.byte();
            self.bytes.push(byte)?;
        }
        Ok(())
    }
}

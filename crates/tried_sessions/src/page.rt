//! A writer that takes no memory.

use std::io::{Error, ErrorKind, Result as IoResult, Write};
use std::test::Fail;

/// More bytes than a page of a session has.
const PAGE: usize = 32_768;

/// What was written of a page or of an explanation, in memory that no call is asked for.
#[derive(Drop)]
pub struct Page {
    bytes: [u8; PAGE],
    len: usize,
}

impl Page {
    pub fn new() -> Page {
        Page {
            bytes: [0; PAGE],
            len: 0,
        }
    }

    pub fn bytes(&self) -> &[u8] {
        self.bytes.get(..self.len).unwrap_or(&[])
    }

    pub fn assert_begins_with(&self, front: &[u8]) -> Result<(), Fail> {
        if self.bytes().starts_with(front) {
            Ok(())
        } else {
            Err("another front")?
        }
    }

    /// It is whole, and has these words in it.
    pub fn assert_tells(&self, words: &[u8]) -> Result<(), Fail> {
        self.assert_begins_with(b"<!doctype html>\n")?;
        if !self.bytes().ends_with(b"</body>\n</html>\n") {
            Err("the page breaks off")?
        }
        for start in 0..self.len {
            if self
                .bytes
                .get(start..self.len)
                .unwrap_or(&[])
                .starts_with(words)
            {
                return Ok(());
            }
        }
        Err("the page does not say so")?
    }
}

impl Write for Page {
    fn write(&mut self, piece: &[u8]) -> IoResult<usize> {
        for byte in piece {
            match self.bytes.get_mut(self.len) {
                Some(place) => *place = *byte,
                None => return Err(Error::from(ErrorKind::WriteZero)),
            }
            self.len = self.len.saturating_add(1);
        }
        Ok(piece.len())
    }

    fn flush(&mut self) -> IoResult<()> {
        Ok(())
    }
}

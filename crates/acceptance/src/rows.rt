//! Tables in a text: rows are separated by a blank line, and a row is a line with its name and lines that each begin with a
//! mark. A text is proved far faster than an array of arrays. What a call answers is told as a text too, and compared with
//! lines of the row.

use can_log::{Frame, Scan, Scanner};
use direction::Dir::{self, Tester, Unit};
use std::alloc::{AllocError, Global};
use std::fmt::Debug;
use std::process::Abort;
use std::str::Split;
use std::test::Fail;

/// The rows of a table. Like [`lines_of`] it promises nothing, so that no proof of a loop over them reads the table.
pub(crate) fn rows_of(table: &str) -> Split<'_, &'static str> {
    table.split("\n\n")
}

/// The lines of a row, or of a table whose rows are lines.
pub(crate) fn lines_of(row: &str) -> Split<'_, char> {
    row.split('\n')
}

/// The first line of a row.
pub(crate) fn name_of(row: &str) -> &str {
    lines_of(row).next().unwrap_or("")
}

/// The lines of a row that begin with this mark, without it and the space after it.
pub(crate) fn marked(alloc: Global, row: &str, mark: &str) -> Result<String, AllocError> {
    let mut text = String::new(alloc);
    for line in lines_of(row).skip(1) {
        if let Some(rest) = line.strip_prefix(mark) {
            text.push_str(rest.strip_prefix(' ').unwrap_or(rest))?;
            text.push_str("\n")?;
        }
    }
    Ok(text)
}

/// What follows this mark in the first line of a row that begins with it.
pub(crate) fn line_marked<'a>(row: &'a str, mark: &str) -> &'a str {
    for line in lines_of(row).skip(1) {
        if let Some(rest) = line.strip_prefix(mark) {
            return rest.strip_prefix(' ').unwrap_or(rest);
        }
    }
    ""
}

/// These lines are those of the row that begin with this mark.
pub(crate) fn assert_marked(
    rt: &impl Abort,
    alloc: Global,
    row: &str,
    mark: &str,
    found: &str,
) -> Result<(), AllocError> {
    let expected = marked(alloc, row, mark)?;
    assert_text(rt, row, found, expected.as_str());
    Ok(())
}

/// Of this row this text was found, as expected.
pub(crate) fn assert_text(rt: &impl Abort, row: &str, found: &str, expected: &str) {
    assert_eq!(rt; found, expected, "{}", name_of(row));
}

/// These bytes are the first ones of a text, so many.
pub(crate) fn assert_front(rt: &impl Abort, found: &[u8], text: &str, len: usize) {
    assert!(rt; Some(found) == text.as_bytes().get(..len), "{text}");
}

/// The log of a row: its lines with `line`, and the one with `last`, which has no line feed.
pub(crate) fn log_marked(alloc: Global, row: &str) -> Result<String, AllocError> {
    let mut log = marked(alloc, row, "line")?;
    log.push_str(line_marked(row, "last"))?;
    Ok(log)
}

/// The frame that a line of a log spells so.
pub(crate) fn frame_of(alloc: Global, spelled: &str) -> Result<Frame, Fail> {
    let line = format!(in alloc; "(0.000000) can0 {spelled}\n")?;
    let line = line.as_bytes();
    if line.len() > 1000 {
        return Err("no line is so long")?;
    }
    match Scanner::new().scan(line) {
        Scan::Line {
            what: Some(stamped),
            ..
        } => Ok(stamped.frame),
        _ => Err("no frame")?,
    }
}

/// The bytes that these digits spell. Like the next ones it promises nothing, so that no proof of a caller weighs what the call
/// in it promises.
pub(crate) fn bytes_of(alloc: Global, digits: &str) -> Result<Vec<u8>, Fail> {
    Ok(hex::decode(alloc, digits)?)
}

/// The digits of these bytes.
pub(crate) fn digits_of(alloc: Global, bytes: &[u8]) -> Result<String, AllocError> {
    hex::encode_upper(alloc, bytes)
}

/// The number that these digits spell.
pub(crate) fn number_of(digits: &str) -> Result<u64, Fail> {
    Ok(digits.parse::<u64>()?)
}

/// A value as a row spells it.
pub(crate) fn shown<T: Debug>(alloc: Global, value: &T) -> Result<String, AllocError> {
    format!(in alloc; "{value:?}")
}

/// The direction and the bytes of a message, spelled with `#` between them.
pub(crate) fn message_spelled(alloc: Global, spelled: &str) -> Result<(Dir, Vec<u8>), Fail> {
    let (dir, digits) = spelled.split_once('#').ok_or("no message")?;
    let dir = if dir == "Tester" { Tester } else { Unit };
    Ok((dir, bytes_of(alloc, digits)?))
}

/// Tells a message as a row spells it, in a line.
pub(crate) fn push_message(
    alloc: Global,
    text: &mut String,
    dir: Dir,
    bytes: &[u8],
) -> Result<(), AllocError> {
    text.push_str(if dir == Tester { "Tester#" } else { "Unit#" })?;
    text.push_str(&digits_of(alloc, bytes)?)?;
    text.push_str("\n")
}

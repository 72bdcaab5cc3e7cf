//! The canonical frames of a message, where no log shows them. No expected value comes from the program.

use crate::rows::{
    assert_marked, assert_text, bytes_of, digits_of, line_marked, lines_of, message_spelled,
    number_of, push_message, rows_of,
};
use direction::Dir::Unit;
use isotp_receive::MESSAGE_LIMIT;
use isotp_segment::{SINGLE_LIMIT, Segments, frame_count, single_frame};
use std::alloc::Global;
use std::process::Abort;
use std::test::Fail;

/// A message in a line, and its frames.
const MESSAGES: &str = "\
Unit#7F2231
Unit#037F2231CCCCCCCC

Unit#62F1904142434445
Unit#100862F190414243
Tester#300000CCCCCCCCCC
Unit#214445CCCCCCCCCC

Tester#22F190
Tester#0322F190CCCCCCCC";

#[test]
fn each_message_has_its_frames_and_then_none(rt: HostRuntime) -> Result<(), Fail> {
    let alloc = rt.alloc();
    for row in rows_of(MESSAGES) {
        let (message, expected) = row.split_once('\n').ok_or("no frame")?;
        let (dir, message) = message_spelled(alloc, message)?;
        assert!(rt; !message.is_empty() && message.len() <= MESSAGE_LIMIT as usize);
        let count = frame_count(message.len());
        let mut frames = Segments::new(dir, &message);
        let mut text = String::new(alloc);
        for _ in 0..count {
            let (dir, data) = frames.next().ok_or("no frame")?;
            push_message(alloc, &mut text, dir, &data)?;
        }
        assert!(rt; frames.next().is_none() && frames.next().is_none());
        assert_text(&rt, row, text.trim_end(), expected);
    }
    Ok(())
}

/// For each length that one frame holds a message, and the frame: the length in the low half of its first byte, the message, and
/// `CC` up to the eighth byte.
const SINGLE_FRAMES: &str = "\
3E 013ECCCCCCCCCCCC
3E80 023E80CCCCCCCCCC
22F190 0322F190CCCCCCCC
19020AFF 0419020AFFCCCCCC
2EF1900102 052EF1900102CCCC
2711A1B2C3D4 062711A1B2C3D4CC
31010203040506 0731010203040506";

#[test]
fn each_short_message_has_its_single_frame(rt: HostRuntime) -> Result<(), Fail> {
    let alloc = rt.alloc();
    for row in lines_of(SINGLE_FRAMES) {
        let (message, expected) = row.split_once(' ').ok_or("no frame")?;
        let message = bytes_of(alloc, message)?;
        assert!(rt; !message.is_empty() && message.len() <= SINGLE_LIMIT);
        let found = digits_of(alloc, &single_frame(&message))?;
        assert_text(&rt, row, &found, expected);
    }
    Ok(())
}

/// How many bytes a consecutive frame holds.
const IN_CONSECUTIVE: usize = 7;

/// Lengths at which the form of a frame changes, and the longest: how many frames a message of that length has, and the first
/// and the last of them. Its bytes count from 00 to FF, again and again.
const ENDS: &str = "\
the longest message in a single frame
length 7
found 1 frames
found 0700010203040506
found 0700010203040506

the shortest message in more than one frame
length 8
found 3 frames
found 1008000102030405
found 210607CCCCCCCCCC

the longest message with a length of 12 bits whose last frame is full
length 4094
found 586 frames
found 1FFE000102030405
found 28F7F8F9FAFBFCFD

the longest message with a length of 12 bits
length 4095
found 587 frames
found 1FFF000102030405
found 29FECCCCCCCCCCCC

the shortest message with a length of 32 bits
length 4096
found 587 frames
found 1000000010000001
found 29FAFBFCFDFEFFCC

the shortest message with a length of 32 bits whose last frame is full
length 4097
found 587 frames
found 1000000010010001
found 29FAFBFCFDFEFF00

the longest message whose last frame is full
length 1048574
found 149798 frames
found 1000000FFFFE0001
found 24F7F8F9FAFBFCFD

the longest message
length 1048575
found 149799 frames
found 1000000FFFFF0001
found 25FECCCCCCCCCCCC";

/// The frames of a message: how many there are, the first and the last.
#[derive(Clone, Copy, Debug, PartialEq)]
struct Ends {
    frames: u64,
    first: [u8; 8],
    last: [u8; 8],
}

/// The byte of a message at this place, from 0 on.
fn byte_at(place: usize) -> u8 {
    (place % 256) as u8
}

/// The frames of a message of the unit that has so many bytes.
fn ends_of(alloc: Global, len: usize) -> Result<Ends, Fail> {
    let mut message = Vec::new(alloc);
    for place in 0..len {
        message.push(byte_at(place))?;
    }
    if message.is_empty() || message.len() > MESSAGE_LIMIT as usize {
        return Err("no message")?;
    }
    let mut ends = Ends {
        frames: 0,
        first: [0; 8],
        last: [0; 8],
    };
    for (_dir, data) in Segments::new(Unit, &message) {
        if ends.frames == 0 {
            ends.first = data;
        }
        ends.last = data;
        ends.frames = ends.frames.saturating_add(1);
    }
    if ends.frames != frame_count(message.len()) {
        return Err("another number of frames")?;
    }
    Ok(ends)
}

/// The consecutive frame of this number, from 1 on, that holds so many bytes of the message, from this place on.
fn consecutive_frame(number: usize, start: usize, held: usize) -> [u8; 8] {
    let mut frame = [0xCC; 8];
    frame[0] = 0x20 + (number % 16) as u8;
    for i in 0..IN_CONSECUTIVE {
        if i < held {
            frame[i + 1] = byte_at(start.saturating_add(i));
        }
    }
    frame
}

#[test]
fn each_form_of_a_frame_begins_and_ends_at_its_length(rt: HostRuntime) -> Result<(), Fail> {
    let alloc = rt.alloc();
    for row in rows_of(ENDS) {
        let len = number_of(line_marked(row, "length"))?;
        let ends = ends_of(alloc, len as usize)?;
        let mut found = format!(in alloc; "{} frames\n", ends.frames)?;
        found.push_str(&digits_of(alloc, &ends.first)?)?;
        found.push_str("\n")?;
        found.push_str(&digits_of(alloc, &ends.last)?)?;
        found.push_str("\n")?;
        assert_marked(&rt, alloc, row, "found", &found)?;
    }
    Ok(())
}

#[test]
fn a_frame_is_added_where_the_last_one_is_full(rt: HostRuntime) -> Result<(), Fail> {
    let alloc = rt.alloc();
    assert_frames_added(&rt, alloc, 6, 1, 584)?;
    assert_frames_added(&rt, alloc, 2, 585, 700)
}

/// Tries messages whose first frame holds so many bytes, with so many full consecutive frames, from the least number to the
/// most. Up to 4,095 bytes, which are 584 full frames and a byte, a length has 12 bits.
fn assert_frames_added(
    rt: &impl Abort,
    alloc: Global,
    in_first: usize,
    least: usize,
    most: usize,
) -> Result<(), Fail> {
    for number in least..=most {
        let start = in_first.saturating_add(IN_CONSECUTIVE.saturating_mul(number.saturating_sub(
            1,
        )));
        assert_last(rt, alloc, number, start, IN_CONSECUTIVE)?;
        let full = start.saturating_add(IN_CONSECUTIVE);
        assert_last(rt, alloc, number.saturating_add(1), full, 1)?;
    }
    Ok(())
}

/// The last frame of a message is the consecutive one of this number, which holds so many bytes, from this place on. The first
/// frame and the answer to it come before.
fn assert_last(
    rt: &impl Abort,
    alloc: Global,
    number: usize,
    start: usize,
    held: usize,
) -> Result<(), Fail> {
    let ends = ends_of(alloc, start.saturating_add(held))?;
    let frames = number.saturating_add(2) as u64;
    let last = consecutive_frame(number, start, held);
    assert!(rt; ends.frames == frames && ends.last == last, "{number}");
    Ok(())
}

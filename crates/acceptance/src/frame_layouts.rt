//! What a frame says, whatever came before it. No expected value comes from the program.

use crate::rows::{
    assert_marked, assert_text, bytes_of, digits_of, frame_of, line_marked, lines_of, number_of,
    rows_of,
};
use can_log::{Frame, Id, Kind};
use isotp_pdu::{Pdu, layout_of};
use std::alloc::{AllocError, Global};
use std::process::Abort;
use std::test::Fail;

/// Frames, each with its layout or its fault. Of a first frame follow the length of the message and RX_DL, of a consecutive
/// frame its sequence number and CAN_DL; then the bytes of the message.
const FRAMES: &str = "\
remote frame
frame 7E8#R
says Remote

no data
frame 7E8#
says Empty

single frame of length 0
frame 7E8#00
says SingleLength

single frame without its one byte
frame 7E8#01
says SingleLength

single frame of one byte
frame 7E8#0141
says Single #41

single frame of length 8
frame 7E8#0841424344454647
says SingleLength

9 bytes
frame 7E8##0214142434445464748
says FrameLength

11 bytes
frame 7E8##0034142434445464748494A
says FrameLength

padded single frame of 8 bytes
frame 7E8##00341424300000000
says Single #414243

short length in a single frame of 12 bytes
frame 7E8##00341424300000000AAAAAAAA
says SingleLength

full single frame of 12 bytes
frame 7E8##0000A4142434445464748494A
says Single #4142434445464748494A

single frame of 12 bytes, one too many announced
frame 7E8##0000B4142434445464748494A
says SingleLength

first frame of a message of 7 bytes
frame 7E8#1007414243444546
says FirstLength

first frame of 7 bytes
frame 7E8#10084142434445
says FirstLength

first frame of a message of 8 bytes
frame 7E8#1008414243444546
says First 8 8 #414243444546

first frame of 12 bytes, message of 10
frame 7E8##0100A4142434445464748494A
says FirstLength

first frame of 12 bytes, message of 11
frame 7E8##0100B4142434445464748494A
says First 11 12 #4142434445464748494A

escaped 4096
frame 7E8#1000000010004142
says First 4096 8 #4142

escaped 4095
frame 7E8#100000000FFF4142
says FirstLength

escaped 4294967295
frame 7E8#1000FFFFFFFF4142
says First 4294967295 8 #4142

consecutive frame without data
frame 7E8#21
says Next 1 1 #

flow control of 2 bytes
frame 7E8#3000
says FlowShort

short before the flow status
frame 7E8#3F
says FlowShort

flow status 3
frame 7E8#330000
says FlowStatus

continue
frame 7E8#300000
says Flow Continue

wait
frame 7E8#310000
says Flow Wait

overflow
frame 7E8#320000
says Flow Overflow

kind 4
frame 7E8#40
says UnknownKind
";

#[test]
fn each_frame_has_the_layout_or_fault_of_its_row(rt: HostRuntime) -> Result<(), Fail> {
    let alloc = rt.alloc();
    for row in rows_of(FRAMES) {
        let frame = frame_of(alloc, line_marked(row, "frame"))?;
        assert_marked(&rt, alloc, row, "says", &told(alloc, &frame)?)?;
    }
    Ok(())
}

/// Tells what a frame says: its layout with its bytes, or its fault.
fn told(alloc: Global, frame: &Frame) -> Result<String, AllocError> {
    match layout_of(frame) {
        Ok(Pdu::Single(bytes)) => with_bytes(alloc, "Single", bytes),
        Ok(Pdu::First { len, rx_dl, bytes }) => {
            with_bytes(alloc, &format!(in alloc; "First {len} {rx_dl}")?, bytes)
        }
        Ok(Pdu::Next { sn, can_dl, bytes }) => with_bytes(
            alloc,
            &format!(in alloc; "Next {sn} {can_dl}")?,
            bytes,
        ),
        Ok(Pdu::Flow(status)) => format!(in alloc; "Flow {status:?}\n"),
        Err(fault) => format!(in alloc; "{fault:?}\n"),
    }
}

/// Tells a layout and the bytes of the message.
fn with_bytes(alloc: Global, layout: &str, bytes: &[u8]) -> Result<String, AllocError> {
    let digits = digits_of(alloc, bytes)?;
    format!(in alloc; "{layout} #{digits}\n")
}

/// Lengths of frames, how they may begin, and what they then say: the layout with the place of its bytes in the frame, or the
/// fault.
const LENGTHS: &str = "\
no byte
lengths 0
head : Empty

too short for flow control
lengths 1 2
head 1008: FirstLength
head 1007: FirstLength
head 1000: FirstLength
head 1FFF: FirstLength
head 100000001000: FirstLength
head 100000000FFF: FirstLength
head 2F: Next 15, from 1
head 31: FlowShort
head 3F: FlowShort
head 40: UnknownKind

too short for a first frame
lengths 3 4 5 6 7
head 1008: FirstLength
head 1007: FirstLength
head 1000: FirstLength
head 1FFF: FirstLength
head 100000001000: FirstLength
head 100000000FFF: FirstLength
head 2F: Next 15, from 1
head 31: Flow Wait
head 3F: FlowStatus
head 40: UnknownKind

long enough for each kind
lengths 8 12 16 20 24 32 48 64
head 1FFF: First 4095, from 2
head 100000001000: First 4096, from 6
head 100000000FFF: FirstLength
head 2F: Next 15, from 1
head 31: Flow Wait
head 3F: FlowStatus
head 40: UnknownKind

no single frame
lengths 1
head 00: SingleLength
head 01: SingleLength

single frames of 2 bytes
lengths 2
head 01: Single, from 1
head 02: SingleLength

single frames of 3 bytes
lengths 3
head 02: Single, from 1
head 03: SingleLength

single frames of 4 bytes
lengths 4
head 03: Single, from 1
head 04: SingleLength

single frames of 5 bytes
lengths 5
head 04: Single, from 1
head 05: SingleLength

single frames of 6 bytes
lengths 6
head 05: Single, from 1
head 06: SingleLength

single frames of 7 bytes
lengths 7
head 06: Single, from 1
head 07: SingleLength

single and first frames of 8 bytes
lengths 8
head 07: Single, from 1
head 08: SingleLength
head 1008: First 8, from 2
head 1007: FirstLength

single and first frames of 12 bytes
lengths 12
head 000A: Single, from 2
head 000B: SingleLength
head 100B: First 11, from 2
head 100A: FirstLength

single and first frames of 16 bytes
lengths 16
head 000E: Single, from 2
head 000F: SingleLength
head 100F: First 15, from 2
head 100E: FirstLength

single and first frames of 20 bytes
lengths 20
head 0012: Single, from 2
head 0013: SingleLength
head 1013: First 19, from 2
head 1012: FirstLength

single and first frames of 24 bytes
lengths 24
head 0016: Single, from 2
head 0017: SingleLength
head 1017: First 23, from 2
head 1016: FirstLength

single and first frames of 32 bytes
lengths 32
head 001E: Single, from 2
head 001F: SingleLength
head 101F: First 31, from 2
head 101E: FirstLength

single and first frames of 48 bytes
lengths 48
head 002E: Single, from 2
head 002F: SingleLength
head 102F: First 47, from 2
head 102E: FirstLength

single and first frames of 64 bytes
lengths 64
head 003E: Single, from 2
head 003F: SingleLength
head 103F: First 63, from 2
head 103E: FirstLength
";

#[test]
fn every_kind_of_frame_at_every_length(rt: HostRuntime) -> Result<(), Fail> {
    for row in rows_of(LENGTHS) {
        assert_lengths(&rt, rt.alloc(), row)?;
    }
    Ok(())
}

/// Frames of each length of a row say what the row has.
fn assert_lengths(rt: &impl Abort, alloc: Global, row: &str) -> Result<(), Fail> {
    for len in line_marked(row, "lengths").split(' ') {
        assert_heads(rt, alloc, number_of(len)? as usize, row)?;
    }
    Ok(())
}

/// Frames of this length that begin as a row has it say what it has.
fn assert_heads(rt: &impl Abort, alloc: Global, len: usize, row: &str) -> Result<(), Fail> {
    for line in lines_of(row) {
        if let Some(head) = line.strip_prefix("head ") {
            let (head, answer) = head.split_once(": ").ok_or("no answer")?;
            assert_says(rt, alloc, len, head, answer)?;
        }
    }
    Ok(())
}

/// The heads of frames of a length that no CAN frame has.
const HEADS: &str = "1000 1FFF 100000001000 100000000FFF 2F 31 3F 40";

/// The lengths above 8 bytes that a CAN frame has, each between spaces.
const LEGAL: &str = " 12 16 20 24 32 48 64 ";

#[test]
fn no_frame_has_another_length(rt: HostRuntime) -> Result<(), Fail> {
    let alloc = rt.alloc();
    for len in 9..64usize {
        let text = format!(in alloc; " {len} ")?;
        if !LEGAL.contains(text.as_str()) {
            assert_has_no_frame(&rt, alloc, len)?;
        }
    }
    Ok(())
}

/// Bytes of this number are no frame, whatever their head.
fn assert_has_no_frame(rt: &impl Abort, alloc: Global, len: usize) -> Result<(), Fail> {
    let (short, long) = (len.saturating_sub(2), len.saturating_sub(1));
    let heads = format!(in alloc; "00{short:02X} 00{long:02X} {HEADS}")?;
    for head in heads.split(' ') {
        assert_says(rt, alloc, len, head, "FrameLength")?;
    }
    Ok(())
}

/// A frame of this length with this head says this, as a classic frame and in CAN FD.
fn assert_says(
    rt: &impl Abort,
    alloc: Global,
    len: usize,
    head: &str,
    answer: &str,
) -> Result<(), Fail> {
    let mut data = bytes_of(alloc, head)?;
    data.resize(len, 9)?;
    let expected = expected_of(alloc, answer, &data)?;
    if len <= 8 {
        assert_told(rt, alloc, Kind::Classic, &data, &expected)?;
    }
    if len <= 64 {
        assert_told(rt, alloc, Kind::Fd, &data, &expected)?;
    }
    Ok(())
}

/// What is told of a frame with this data: where the answer names the place of the bytes in the frame, the length of the frame
/// and these bytes, and else the answer.
fn expected_of(alloc: Global, answer: &str, data: &[u8]) -> Result<String, Fail> {
    let Some((what, place)) = answer.split_once(", from ") else {
        return Ok(format!(in alloc; "{answer}\n")?);
    };
    let bytes = data.get(number_of(place)? as usize..).ok_or("no place")?;
    if what == "Single" {
        return Ok(with_bytes(alloc, what, bytes)?);
    }
    let len = data.len();
    Ok(with_bytes(alloc, &format!(in alloc; "{what} {len}")?, bytes)?)
}

/// This is told of a frame of this kind with this data.
fn assert_told(
    rt: &impl Abort,
    alloc: Global,
    kind: Kind,
    data: &[u8],
    expected: &str,
) -> Result<(), Fail> {
    let frame = Frame::new(Id::Std(0x7E8), kind, data).ok_or("no frame")?;
    assert_text(rt, expected, &told(alloc, &frame)?, expected);
    Ok(())
}

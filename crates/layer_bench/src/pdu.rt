//! The layouts of frames in memory.

use can_log::{Frame, Id, Kind};
use isotp_pdu::{Pdu, layout_of};
use std::alloc::{AllocError, Global};

/// A request; the answer's first frame, flow control and consecutive frames; and the same in CAN FD.
const FRAMES: [(Kind, &[u8]); 8] = [
    (Kind::Classic, &[0x03, 0x22, 0xF1, 0x90]),
    (
        Kind::Classic,
        &[0x10, 0x14, 0x62, 0xF1, 0x90, 0x57, 0x42, 0x41],
    ),
    (Kind::Classic, &[0x30, 0, 0]),
    (
        Kind::Classic,
        &[0x21, 0x33, 0x41, 0x35, 0x43, 0x35, 0x30, 0x45],
    ),
    (
        Kind::Classic,
        &[0x22, 0x46, 0x31, 0x32, 0x33, 0x34, 0x35, 0x36],
    ),
    (
        Kind::Fd,
        &[
            0x00, 0x0A, 0x62, 0xF1, 0x90, 0x57, 0x42, 0x41, 0x33, 0x41, 0x35, 0x43,
        ],
    ),
    (
        Kind::Fd,
        &[
            0x10, 0x0B, 0x62, 0xF1, 0x90, 0x57, 0x42, 0x41, 0x33, 0x41, 0x35, 0x43,
        ],
    ),
    (
        Kind::Fd,
        &[
            0x21, 0x46, 0xAA, 0xAA, 0xAA, 0xAA, 0xAA, 0xAA, 0xAA, 0xAA, 0xAA, 0xAA,
        ],
    ),
];

/// How many frames are in memory.
const HELD: u64 = 4096;

/// The frames above again and again, in an order that doesn't repeat itself soon.
fn shuffled(alloc: Global) -> Result<Vec<Frame>, AllocError> {
    let mut frames = Vec::new(alloc);
    let mut state = 1u64;
    for _ in 0..HELD {
        state = state
            .wrapping_mul(6_364_136_223_846_793_005)
            .wrapping_add(1_442_695_040_888_963_407);
        let (kind, data) = FRAMES[(state >> 61) as usize];
        if let Some(frame) = Frame::new(Id::Std(0x7E8), kind, data) {
            frames.push(frame)?;
        }
    }
    Ok(frames)
}

/// The numbers of what the frame says, added up.
fn sum_of_layout(frame: &Frame) -> u64 {
    match layout_of(frame) {
        Ok(Pdu::Single(bytes)) => bytes.len() as u64,
        Ok(Pdu::First { len, bytes, .. }) => (len as u64).wrapping_add(bytes.len() as u64),
        Ok(Pdu::Next { sn, bytes, .. }) => (sn as u64).wrapping_add(bytes.len() as u64),
        Ok(Pdu::Flow(status)) => status as u64,
        Err(_) => 0,
    }
}

/// The same of `count` frames, rounded up to whole rounds over the frames in memory.
pub(crate) fn sum_of_layouts(alloc: Global, count: u64) -> Result<u64, AllocError> {
    let frames = shuffled(alloc)?;
    let mut sum = 0u64;
    for _ in 0..count.div_ceil(HELD) {
        for frame in &frames {
            sum = sum.wrapping_add(sum_of_layout(frame));
        }
    }
    Ok(sum)
}

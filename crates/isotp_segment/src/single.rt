//! The frame of a message that one frame holds. Most messages are such, and a copy of so few bytes, whose number is
//! known only when it runs, would be a call: so they are put in their places all at once, by lanes.
//!
//! ```text
//! message                62 F1 90 41 42
//! its ends               62 F1 90 41 F1 90 41 42     the first four bytes, and the last four
//! lanes of the ends      -- 0  1  2  3  7  -- --     PLACES: which of them each byte of the frame is, GAP for none
//! picked                 00 62 F1 90 41 42 00 00
//! blank frame            05 00 00 00 00 00 CC CC     BLANKS
//! frame, both of them    05 62 F1 90 41 42 CC CC
//! ```

ghost use Rattle.std.specs.Prelude.{◌≡◌, ◌≤◌, [], ◌∷◌, length};
ghost use Rattle.direction.specs.declared.Dir.{Dir};
ghost use Rattle.isotp_receive.specs.declared.TheConstants.{MESSAGE_LIMIT};
ghost use Rattle.isotp_segment.specs.CanonicalFrames.{padded, single_control, canonical_frames};
ghost use Rattle.isotp_segment.specs.declared.single.TheConstants.{SINGLE_LIMIT};
ghost use Rattle.isotp_segment.specs.proving.Ends.{ends_of};

use std::simd::prelude::*;

/// The longest message that a canonical single frame holds. In CAN FD a single frame may hold a longer one.
pub const SINGLE_LIMIT: usize = 7;

/// What a frame has after the bytes of the message.
pub(crate) const PADDING: u8 = 0xCC;

/// The frame by the length of its message, with zeros where the bytes of the message go. No message has a length of 0.
static BLANKS: [[u8; 8]; 8] = [
    [0, 0, 0, 0, 0, 0, 0, 0],
    [1, 0, PADDING, PADDING, PADDING, PADDING, PADDING, PADDING],
    [2, 0, 0, PADDING, PADDING, PADDING, PADDING, PADDING],
    [3, 0, 0, 0, PADDING, PADDING, PADDING, PADDING],
    [4, 0, 0, 0, 0, PADDING, PADDING, PADDING],
    [5, 0, 0, 0, 0, 0, PADDING, PADDING],
    [6, 0, 0, 0, 0, 0, 0, PADDING],
    [7, 0, 0, 0, 0, 0, 0, 0],
];

/// For each byte of the frame the lane of [`ends`] that has it, by the length of the message.
static PLACES: [[u8; 8]; 8] = [
    [GAP, GAP, GAP, GAP, GAP, GAP, GAP, GAP],
    [GAP, 0, GAP, GAP, GAP, GAP, GAP, GAP],
    [GAP, 0, 2, GAP, GAP, GAP, GAP, GAP],
    [GAP, 0, 1, 2, GAP, GAP, GAP, GAP],
    [GAP, 0, 1, 2, 3, GAP, GAP, GAP],
    [GAP, 0, 1, 2, 3, 7, GAP, GAP],
    [GAP, 0, 1, 2, 3, 6, 7, GAP],
    [GAP, 0, 1, 2, 3, 5, 6, 7],
];

/// The place of no lane: what is picked there is 0.
const GAP: u8 = 0x80;

/// Eight lanes, and eight zeros behind them. One instruction picks among sixteen lanes, and gives 0 for a place of
/// 0x80: so both the ends and their places are widened.
const WIDENED: [usize; 16] = [0, 1, 2, 3, 4, 5, 6, 7, 8, 9, 10, 11, 12, 13, 14, 15];

/// The one canonical frame of a message of 1 to [`SINGLE_LIMIT`] bytes, whoever sends it: a single frame of 8 bytes,
/// padded (ISO 15765-2:2016, 9.6.2).
#[inline(always)]
pub fn single_frame(message: &[u8]) -> [u8; 8]
    requires some { 1 ≤ length message.now }
    requires single { length message.now ≤ SINGLE_LIMIT }
    ensures value { result ≡ padded (single_control (length message.now)) message.now }
    ensures frames { (direction : Dir)
        → canonical_frames MESSAGE_LIMIT direction message.now ≡ (direction, result) ∷ [] }
{
    let len = message.len();
    let zeros = u8x8::splat(0);
    let ends: u8x16 = ends(message).shuffle(zeros, WIDENED);
    let places: u8x16 = u8x8::from_array(PLACES[len]).shuffle(zeros, WIDENED);
    let bytes: u8x8 = ends.swizzle_dyn(places).swizzle([0, 1, 2, 3, 4, 5, 6, 7]);
    (u8x8::from_array(BLANKS[len]) | bytes).to_array()
}

/// The first four bytes of the message and its last four, which may overlap. Of fewer than four bytes, the first, the
/// one in the middle and the last. So how many bytes are read at once is known when it is compiled.
#[inline(always)]
fn ends(message: &[u8]) -> u8x8
    requires some { 1 ≤ length message.now }
    requires single { length message.now ≤ SINGLE_LIMIT }
    ensures { result ≡ ends_of message.now }
{
    let len = message.len();
    if len >= 4 {
        let first = u8x4::from_slice(message);
        let last = u8x4::from_slice(&message[len - 4..]);
        return first.shuffle(last, [0, 1, 2, 3, 4, 5, 6, 7]);
    }
    u8x8::from_array([
        message[0],
        message[len / 2],
        message[len - 1],
        0,
        0,
        0,
        0,
        0,
    ])
}

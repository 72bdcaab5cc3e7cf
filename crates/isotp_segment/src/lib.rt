//! A message as ISO-TP frames of one fixed spelling: its *canonical* frames.
//!
//! ISO 15765-2 leaves the sender of a message many choices: the size of the frames, the padding, the flow control. Here
//! each choice is made once, so that equal messages become equal frames: classic frames of 8 bytes, padded with `CC`,
//! and one continue frame from the other side directly after a first frame. The frames are made one at a time, from the
//! message itself; nothing is allocated. [`frame_count`] tells how many they are, and a message of one frame has it by
//! [`single_frame`].
//!
//! ```
//! let answer = [0x62, 0xF1, 0x90, 0x41, 0x42, 0x43, 0x44, 0x45];
//! for (dir, bytes) in Segments::new(Dir::Unit, &answer) {
//!     // Unit   10 08 62 F1 90 41 42 43
//!     // Tester 30 00 00 CC CC CC CC CC
//!     // Unit   21 44 45 CC CC CC CC CC
//! }
//! ```
#![tactic(auto)]

mod frame;
pub mod laws;
mod segments;
mod single;

pub use frame::frame_count;
pub use segments::Segments;
pub use single::{SINGLE_LIMIT, single_frame};

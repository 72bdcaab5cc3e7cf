//! Where a log is read from, and where text is written to: devices that count.
//!
//! An engine reads from a [`Source`] and writes to a [`Target`]. Both say in their contracts which bytes they gave or
//! took, and count what an engine promises about: calls, bytes and failures. [`write_all`] writes a whole text.
//! [`Reading`] and [`Writing`] make devices of std's readers and writers, [`Bytes`] gives what lies in memory;
//! [`Short`], [`FailsAt`], [`FailsAfter`], [`FullAfter`] and [`Endless`] are for tests of an engine. To a
//! [`TextSink`] text is said, and it can't fail.
//!
//! ```
//! let mut reader = Reading::new(b"(1.000000) can0 7E0#00".as_slice());
//! let mut buffer = [0; 8];
//! assert_eq!(rt; reader.read(&mut buffer), Ok(8));
//! assert_eq!(rt; (reader.reads(), reader.given(), reader.failures()), (1, 8, 0));
//! ```
#![tactic(auto)]

mod bytes;
mod device;
mod endless;
mod faulty;
mod history;
pub mod laws;
mod reader;
mod text_sink;
mod whole;
mod writer;

pub use bytes::Bytes;
pub use device::{DeviceFault, Source, Target};
pub use endless::Endless;
pub use faulty::{FailsAfter, FailsAt, FullAfter, Short};
pub use reader::Reading;
pub use text_sink::TextSink;
pub use whole::{MOST_FAILURES, write_all};
pub use writer::Writing;

//! A session as tests take it through each call, the devices from which they read it and to which they write, and what they ask of
//! an answer.

use can_log::Id;
use std::alloc::{AllocError, Global};
use std::io::ErrorKind;
use trace_io::{FailsAfter, FailsAt, Short};
use trace_log::{Config, ConfigFault, Fault, Summary};

/// A vehicle identification number, read in five classic frames.
pub const LOG: &str = "\
(1700000000.000000) can0 7E0#0322F190
(1700000000.012000) can0 7E8#101462F190574241
(1700000000.012300) can0 7E0#300000
(1700000000.020000) can0 7E8#2133413543353045
(1700000000.030000) can0 7E8#2246313233343536
";

/// Its canonical log.
pub const CANONICAL: &str = "\
(0000000000.000000) can0 7E0#0322F190CCCCCCCC
(0000000000.001000) can0 7E8#101462F190574241
(0000000000.002000) can0 7E0#300000CCCCCCCCCC
(0000000000.003000) can0 7E8#2133413543353045
(0000000000.004000) can0 7E8#2246313233343536
";

/// The tester 7E0 and the unit 7E8.
pub fn sides() -> Result<Config, ConfigFault> {
    Config::new(Id::Std(0x7E0), Id::Std(0x7E8), 1 << 30)
}

/// A reader of the session that gives a byte a call.
pub fn byte_by_byte() -> Short<&'static [u8]> {
    Short {
        inner: LOG.as_bytes(),
        most: 1,
    }
}

/// The same until the read after a hundred bytes fails.
pub fn failing() -> FailsAt<Short<&'static [u8]>> {
    FailsAt {
        inner: byte_by_byte(),
        after: Some(100),
        kind: ErrorKind::Other,
    }
}

/// A writer that takes a byte a call, and fails after fifty of them.
pub fn full(alloc: Global) -> FailsAfter<Short<Vec<u8>>> {
    FailsAfter {
        inner: Short {
            inner: Vec::new(alloc),
            most: 1,
        },
        room: 50,
        kind: ErrorKind::Other,
    }
}

/// Whether a call has read the whole session.
pub fn is_of_session(answer: &Result<Summary, Fault>) -> bool {
    matches!(
        answer,
        Ok(Summary {
            frames: 5,
            messages: 2,
            ..
        })
    )
}

/// Whether these bytes are the first ones of a text, so many.
pub fn is_front(found: &[u8], text: &str, len: usize) -> bool {
    Some(found) == text.as_bytes().get(..len)
}

/// A text so many times.
pub fn repeated(alloc: Global, text: &str, times: usize) -> Result<String, AllocError> {
    let mut whole = String::new(alloc);
    for _ in 0..times {
        whole.push_str(text)?;
    }
    Ok(whole)
}

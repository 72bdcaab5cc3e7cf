//! Why a file can't be opened.

use std::io::{Error, ErrorKind};

/// Why a file can't be opened.
#[derive(Clone, Copy)]
pub enum OpenFault {
    /// There is none of this name.
    Missing,
    /// It may not be read.
    Denied,
    /// Another reason.
    Other,
}

/// Why a file can't be opened, by the error.
pub fn open_fault(error: &Error) -> OpenFault {
    match error.kind() {
        ErrorKind::NotFound | ErrorKind::NotADirectory => OpenFault::Missing,
        ErrorKind::PermissionDenied => OpenFault::Denied,
        _ => OpenFault::Other,
    }
}

//! Whether two open files are one stream, of which each byte is read once.

use std::fs::{Metadata, OpenFile};
use std::io::IsTerminal;
use std::os::unix::fs::{FileTypeExt, MetadataExt};

/// Whether both are the same pipe or terminal. What the system doesn't tell of is neither.
pub(crate) fn is_one_stream<F: OpenFile + IsTerminal>(left: &F, right: &F) -> bool {
    match (left.metadata(), right.metadata()) {
        (Ok(one), Ok(other)) => is_one_node(&one, &other) && is_stream(&one, left.is_terminal()),
        _ => false,
    }
}

/// Whether a file is the pipe or terminal of which the system tells this.
pub(crate) fn is_stream_with<F: OpenFile + IsTerminal>(file: &F, named: &Metadata) -> bool {
    match file.metadata() {
        Ok(found) => is_one_node(&found, named) && is_stream(&found, file.is_terminal()),
        Err(_) => false,
    }
}

/// Whether the system has both at one place.
fn is_one_node(one: &Metadata, other: &Metadata) -> bool {
    one.dev() == other.dev() && one.ino() == other.ino()
}

/// Whether it is a terminal or a pipe. A socket is none of the files that can be opened.
fn is_stream(found: &Metadata, is_terminal: bool) -> bool {
    is_terminal || found.file_type().is_fifo()
}

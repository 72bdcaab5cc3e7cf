//! How lines of text are written.

/// How what is told is written.
#[derive(Clone, Copy, Debug, PartialEq, Eq)]
pub enum Notation {
    /// Words and numbers with spaces between them, for a person.
    Text,
    /// An object of JSON (RFC 8259) in each line, for a program.
    Json,
}

//! What is seen of the profile that words name.

/// What is seen of the profile that words name. Where they name none it is not looked at.
#[derive(Drop)]
pub enum SeenProfile {
    /// Its bytes: all, or more than a profile can have.
    Read(Vec<u8>),
    /// It can't be opened, or reading it failed.
    Unread,
    /// It is the pipe or the terminal that a log is to be read from.
    Shared,
    /// Memory was refused.
    Memory,
}

//! The files of logs, opened by their names.

ghost use Rattle.std.specs.Prelude.{◌≡◌, MatchResult, false, string_bytes, true};
ghost use Rattle.udsnorm.specs.Opening.{Saying, apart, one_stream, opened, refused, shared, two_files};

use crate::stream::{is_one_stream, is_stream_with};
use command_line::{OpenFault, open_fault};
use std::fs::{self, OpenFile};
use std::io::{IsTerminal, Read};
use std::rt::Files;

/// Opens the files of logs. A contract over any opener names a file by what the system says of it; and only a call shows
/// that it says so.
pub trait Opener {
    type Log: Read + OpenFile + Drop;

    /// That the system says this.
    ghost says: { Self → Saying Self.Log → Type 0 };

    /// Opens the file of this name, to be read from its first byte.
    fn open_log(&self, name: &String) -> Result<Self::Log, OpenFault>
        ensures { MatchResult result
            (λ log. says self.now (opened (string_bytes name.now) log)) (λ fault. says self.now (refused (string_bytes name.now) fault)) };

    /// Whether two files are one stream, of which each byte is read once.
    fn are_one_stream(&self, left: &Self::Log, right: &Self::Log) -> bool
        ensures one { result ≡ true → says self.now (one_stream left.now right.now) }
        ensures two { result ≡ false → says self.now (two_files left.now right.now) };

    /// Whether a file is one stream with that of this name, which is not opened for this.
    fn is_stream_of(&self, file: &Self::Log, name: &str) -> bool
        ensures one { result ≡ true → says self.now (shared file.now name.now) }
        ensures two { result ≡ false → says self.now (apart file.now name.now) };
}

impl<R: Files> Opener for R
where
    R::File: IsTerminal,
{
    ghost use Rattle.std.specs.Prelude.{⊤};

    type Log = R::File;

    // std promises nothing of what the system says.
    ghost says = { λ _ _. ⊤ };

    fn open_log(&self, name: &String) -> Result<R::File, OpenFault> {
        match fs::open(self, name.as_str()) {
            Ok(log) => Ok(log),
            Err(error) => Err(open_fault(&error)),
        }
    }

    fn are_one_stream(&self, left: &R::File, right: &R::File) -> bool {
        is_one_stream(left, right)
    }

    fn is_stream_of(&self, file: &R::File, name: &str) -> bool {
        match fs::metadata(self, name) {
            Ok(named) => is_stream_with(file, &named),
            Err(_) => false,
        }
    }
}

//! What the program is asked to do.

ghost use Rattle.std.specs.Prelude.{◌≡◌};
ghost use Rattle.command_line.specs.declared.job.WordsFault.TheVariants as words_fault;

use crate::commands::{Job, PairJob};
use std::alloc::AllocError;
use thiserror::Error;
use trace_log::{Config, ConfigFault};

/// What a command line asks for.
#[derive(Drop)]
pub enum Plan {
    /// Does a job over one log: that of this file, or else of standard input. Where it is strict, the log has to be clean.
    One {
        job: Job,
        strict: bool,
        config: Config,
        log: Option<String>,
    },
    /// Does a job over the logs of two files. Where it is strict, both have to be clean.
    Two {
        job: PairJob,
        strict: bool,
        config: Config,
        left: String,
        right: String,
    },
}

/// Why a command line asks for nothing that the program does.
#[derive(Debug, Drop, Error)]
pub enum WordsFault {
    /// Help or the version was asked for. This is its text.
    #[error("{0}")]
    Help(String),
    /// The words don't fit the commands and their options. This is the parser's text.
    #[error("{0}")]
    Words(String),
    /// An identifier is not spelled by exactly three or exactly eight hexadecimal digits.
    #[error("identifier is not three or eight hexadecimal digits")]
    Identifier,
    /// There is no configuration of these identifiers and this limit.
    #[error("{0}")]
    Config(ConfigFault),
    /// Two of the options don't fit, or the options and their profile don't, or something is wrong in the profile. This is
    /// the line of that.
    #[error("the words or the profile don't fit")]
    Misfit(Vec<u8>),
    /// The profile can't be opened, or reading it failed. This is the line of that.
    #[error("the profile can't be read")]
    Unread(Vec<u8>),
    /// Memory was refused.
    #[error("out of memory")]
    Memory,
}

impl From<AllocError> for WordsFault {
    ghost from_gives = { λ _ fault. fault ≡ words_fault.Memory };

    fn from(_: AllocError) -> WordsFault {
        WordsFault::Memory
    }
}

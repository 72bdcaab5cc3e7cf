//! What the words of a command line ask for: a plan, by the commands and their options and by what is seen of the profile that
//! they name; or why there is none, what is told of that, and what to write instead.
//!
//! ```text
//! udsnorm list --profile bench.toml --only EPS a.log
//! ```
//!
//! [`found`] asks the parser, [`plan`] makes a [`Plan`] of what it finds: the [`Job`], whether the log has to be clean, the
//! configuration, and the names of files. No log is opened here, and none is read.
//!
//! | What | Files | Definitions |
//! |---|---|---|
//! | the commands, as the parser has them | `commands`, `command` | `Commands` |
//! | what options and files are given | `values` | `Values` |
//! | the configuration, by options and profile | `settings`, `seen_profile` | `Configured` |
//! | the plan, or why there is none | `words`, `job`, `shown` | `Words`, `Shown` |
//! | what is told of wrong words | `words_texts` | `WordsTexts` |
//! | what to write instead | `advice`, `open_faults` | `Advice` |
//! | the profile, as hints speak of it | `under` | `Under` |
#![tactic(auto)]

mod advice;
mod command;
mod commands;
mod job;
mod open_faults;
mod seen_profile;
mod settings;
mod shown;
mod under;
mod values;
mod words;
mod words_texts;

pub use advice::advice_for;
pub use commands::{Job, LEFT, LOG, OTHER, PROFILE, PairJob, RIGHT, Task};
pub use job::{Plan, WordsFault};
pub use open_faults::{OpenFault, open_fault};
pub use seen_profile::SeenProfile;
pub use under::{Under, under_of};
pub use values::{page_name, shown_name, text_of};
pub use words::{asks_for_hints, found, plan};
pub use words_texts::words_text;

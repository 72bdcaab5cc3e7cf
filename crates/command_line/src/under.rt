//! The profile that the words of a run name, as a hint speaks of it.

ghost use Rattle.std.specs.Prelude.{◌≡◌, option_map};
ghost use Rattle.clap.specs.Words.{found_of, rows_of, subcommand_rows_of};
ghost use Rattle.command_line.specs.Under.{has_sides, under_in, under_value};

use crate::commands::{FUNCTIONAL, PROFILE, TESTER, UNIT};
use crate::values::text_of;
use clap::ArgMatches;

/// A profile that words name.
#[derive(Clone, Copy)]
pub struct Under<'a> {
    /// The name of its file.
    pub file: &'a str,
    /// Whether an identifier stands beside it, as none does beside units.
    pub has_sides: bool,
}

/// The profile that the words of a command name, if they name one.
pub fn under_of<'a>(matches: &ArgMatches<'a>) -> Option<Under<'a>>
    ensures { option_map under_value result ≡ under_in (subcommand_rows_of matches.now) }
{
    match matches.subcommand() {
        Some((_, found)) => match text_of(found, PROFILE) {
            Some(file) => Some(Under {
                file,
                has_sides: has_sides(found),
            }),
            None => None,
        },
        None => None,
    }
}

/// Whether the words have an identifier of tester or unit, or of functional requests.
fn has_sides(found: &ArgMatches<'_>) -> bool
    ensures { result ≡ has_sides (rows_of (found_of found.now)) }
{
    text_of(found, TESTER).is_some()
        || text_of(found, UNIT).is_some()
        || text_of(found, FUNCTIONAL).is_some()
}

//! The profile that words name, as its file has it: it is read to its end before a log is opened.

ghost use Rattle.std.specs.Prelude.{◌≡◌, [], List, false, true};
ghost use Rattle.std.specs.Io.KnownBytes.{IsAtEnd};
ghost use Rattle.clap.specs.Words.{Text, found_of, rows_of, subcommand_rows_of};
ghost use Rattle.trace_io.specs.Stream.{Gave};
ghost use Rattle.command_line.specs.Commands.{command_in};
ghost use Rattle.udsnorm.specs.Profiled.{IsApartFrom, IsSeenOf, IsSeenAt, IsSharedWith, WasRead, log_names};
ghost use Rattle.command_line.specs.Words.{AreParsedAs};

use crate::noticing::Noticing;
use crate::opening::Opener;
use clap::{ArgMatches, Error};
use command_line::{LEFT, LOG, OTHER, PROFILE, RIGHT, SeenProfile, text_of};
use profile::LONGEST_PROFILE;
use std::alloc::Global;
use std::io::Read;
use trace_io::Source;

/// The name of a file that is standard input, where no log is named.
pub(crate) const INPUT: &str = "/dev/stdin";

/// How many bytes of a profile are asked for at once.
const PIECE: usize = 4096;

/// Reads the profile that words name of which the parser says this.
pub(crate) fn seen_profile<R: AllocGlobal + Opener>(
    rt: &R,
    parsed: &Result<ArgMatches<'_>, Error>,
) -> SeenProfile
    ensures seen { (words : List Text) → AreParsedAs words parsed.now → IsSeenOf (R.says rt.now) ⟦<Noticing<R::Log> as Source>⟧ (command_in words) result }
{
    match parsed {
        Ok(matches) => seen_of(rt, matches),
        // Of words that the parser does not take nothing is planned.
        Err(_) => SeenProfile::Memory,
    }
}

/// Reads the profile of the command that the parser found.
fn seen_of<R: AllocGlobal + Opener>(rt: &R, matches: &ArgMatches<'_>) -> SeenProfile
    ensures { IsSeenOf (R.says rt.now) ⟦<Noticing<R::Log> as Source>⟧ (subcommand_rows_of matches.now) result }
{
    match matches.subcommand() {
        Some((_, found)) => match text_of(found, PROFILE) {
            Some(name) => seen_at(rt, name, found),
            None => SeenProfile::Unread,
        },
        None => SeenProfile::Unread,
    }
}

/// Reads the profile of this name, for a command with these files. A run without one has no room for its pieces.
#[inline(never)]
fn seen_at<R: AllocGlobal + Opener>(rt: &R, name: &str, found: &ArgMatches<'_>) -> SeenProfile
    ensures { IsSeenAt (R.says rt.now) ⟦<Noticing<R::Log> as Source>⟧ name.entry.now (rows_of (found_of found.now)) result }
{
    let Ok(name) = String::from_str(rt.alloc(), name) else {
        return SeenProfile::Memory;
    };
    match rt.open_log(&name) {
        Ok(file) => if is_of_a_log(rt, &file, found) {
            SeenProfile::Shared
        } else {
            read_profile(rt.alloc(), &mut Noticing::new(file))
        },
        Err(_) => SeenProfile::Unread,
    }
}

/// Whether a file is the pipe or the terminal that a log of the command is to be read from.
fn is_of_a_log<R: Opener>(rt: &R, file: &R::Log, found: &ArgMatches<'_>) -> bool
    ensures one { result ≡ true → IsSharedWith (R.says rt.now) file.now (log_names (rows_of (found_of found.now))) }
    ensures none { result ≡ false → IsApartFrom (R.says rt.now) file.now (log_names (rows_of (found_of found.now))) }
{
    let first = text_of(found, LOG)
        .or(text_of(found, LEFT))
        .unwrap_or(INPUT);
    let second = text_of(found, OTHER)
        .or(text_of(found, RIGHT))
        .unwrap_or(first);
    rt.is_stream_of(file, first) || rt.is_stream_of(file, second)
}

/// Reads a profile to its end, or past the most bytes that one can have.
fn read_profile<F: Read>(alloc: Global, file: &mut Noticing<F>) -> SeenProfile
    requires reads { file.old.reads ≡ 0 }
    requires failures { file.old.failures ≡ 0 }
    requires given { file.old.given ≡ [] }
    ensures gave { Gave file.old.given file.new.given (F.remaining file.old.inner) (F.remaining file.new.inner) }
    ensures ended { (file.old.is_over ≡ true → IsAtEnd (F.remaining file.old.inner))
        → file.new.is_over ≡ true → IsAtEnd (F.remaining file.new.inner) }
    ensures was { WasRead ⟦<Noticing<F> as Source>⟧ file.old file.new result }
{
    let mut text = Vec::new(alloc);
    let mut piece = [0; PIECE];
    'pieces: for _ in 0..=LONGEST_PROFILE {
        match file.read(&mut piece) {
            Ok(0) => return SeenProfile::Read(text),
            Ok(count) => {
                if text.extend_from_slice(&piece[..count]).is_err() {
                    return SeenProfile::Memory;
                }
                if text.len() > LONGEST_PROFILE {
                    return SeenProfile::Read(text);
                }
            }
            Err(_) => return SeenProfile::Unread,
        }
    }
    // Each of these reads gave a byte.
    SeenProfile::Read(text)
}

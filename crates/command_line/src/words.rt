//! What the words of a command line ask for.

ghost use Rattle.std.specs.Prelude.{◌≡◌, Some, None, IfOk, IfErr, IsSome, map, option_map, string_bytes};
ghost use Rattle.clap.specs.Words.{FailsBy, found_of, kind_of, rows_of, subcommand_rows_of};
ghost use Rattle.command_line.specs.Commands.{command_in, refusals, words_or_normalise};
ghost use Rattle.command_line.specs.Words.{AreParsedAs, IsCalled, IsPlanOf, IsPlanned, IsPlannedFrom, IsRefusedFor, asks_for_hints};
ghost use Rattle.command_line.specs.Shown.{IsShown};

use crate::command::command;
use crate::commands::{Job, LOG, PairJob, Task, left_file, right_file, task_named};
use crate::job::{Plan, WordsFault};
use crate::seen_profile::SeenProfile;
use crate::settings::configuration;
use crate::shown::{are_printable, escaped_words, shown};
use crate::values::{is_strict, text_of};
use clap::error::ErrorKind;
use clap::{ArgMatches, Error};
use std::alloc::{AllocError, Global};

/// What is meant where there are no words.
static NO_WORDS: [&str; 1] = ["normalise"];

/// What the words ask for, those after the program's name, of which the parser says this, with what is seen of the profile
/// that they name.
pub fn plan(
    alloc: Global,
    words: &[String],
    parsed: &Result<ArgMatches<'_>, Error>,
    seen: &SeenProfile,
) -> Result<Plan, WordsFault>
    // Where that is what the parser says of them, it is the plan of the command that it finds in the words, by what their
    // profile asks for, or says why there is none.
    ensures words { AreParsedAs (words_or_normalise (map string_bytes words.now)) parsed.now → IsPlanned (words_or_normalise (map string_bytes words.now)) seen.now result }
{
    match parsed {
        Ok(matches) => planned(alloc, matches, seen),
        Err(error) => Err(refusal(alloc, words, error)?),
    }
}

/// What the parser finds in the words.
pub fn found<'a>(alloc: Global, words: &'a [String]) -> Result<ArgMatches<'a>, Error>
    ensures matches { IfOk result (λ m. subcommand_rows_of m ≡ command_in (words_or_normalise (map string_bytes words.entry.now))) }
    ensures kinds { FailsBy (refusals (words_or_normalise (map string_bytes words.entry.now))) result }
{
    let command = command(alloc)?;
    if words.is_empty() {
        command.try_get_matches_from(NO_WORDS.as_slice())
    } else {
        command.try_get_matches_from(words)
    }
}

/// Whether the words ask for hints.
pub fn asks_for_hints(words: &[String]) -> bool
    ensures { result ≡ asks_for_hints (map string_bytes words.now) }
{
    words.iter().any(|word| word.as_str() == "--hints")
}

/// What the parser's error about these words is called.
fn refusal(alloc: Global, words: &[String], error: &Error) -> Result<WordsFault, AllocError>
    ensures { IfOk result (IsCalled (kind_of error.now)) }
{
    match error.kind() {
        ErrorKind::OutOfMemory => Ok(WordsFault::Memory),
        ErrorKind::DisplayHelp | ErrorKind::DisplayVersion => {
            Ok(WordsFault::Help(format!(in alloc; "{error}")?))
        }
        _ => Ok(WordsFault::Words(told(alloc, words, error)?)),
    }
}

/// What is told of words for which the parser has this error: its text, where each word is as it can be shown.
fn told(alloc: Global, words: &[String], error: &Error) -> Result<String, AllocError>
    ensures { IfOk result (λ text. IsShown (string_bytes text)) }
{
    if are_printable(words) {
        return text_of_error(alloc, error);
    }
    let escaped = escaped_words(alloc, words)?;
    told_again(alloc, escaped.as_slice(), error)
}

/// What is told of these words, which are escaped, or else of those for which the parser had the error.
fn told_again(alloc: Global, escaped: &[String], error: &Error) -> Result<String, AllocError>
    ensures { IfOk result (λ text. IsShown (string_bytes text)) }
{
    match found(alloc, escaped) {
        Ok(_) => text_of_error(alloc, error),
        Err(again) => text_of_either(alloc, &again, error),
    }
}

/// The text of an error, if it is of the same kind as the other one, and else of that.
fn text_of_either(alloc: Global, error: &Error, other: &Error) -> Result<String, AllocError>
    ensures { IfOk result (λ text. IsShown (string_bytes text)) }
{
    match error.kind() {
        ErrorKind::OutOfMemory => Err(AllocError),
        kind if kind == other.kind() => text_of_error(alloc, error),
        _ => text_of_error(alloc, other),
    }
}

/// The text of an error, as it can be shown.
fn text_of_error(alloc: Global, error: &Error) -> Result<String, AllocError>
    ensures { IfOk result (λ text. IsShown (string_bytes text)) }
{
    shown(alloc, format!(in alloc; "{error}")?.as_str())
}

/// The plan of the command that the parser found.
fn planned(alloc: Global, matches: &ArgMatches<'_>, seen: &SeenProfile) -> Result<Plan, WordsFault>
    ensures from { IsSome (subcommand_rows_of matches.now) → IsPlannedFrom (subcommand_rows_of matches.now) seen.now result }
{
    match matches.subcommand() {
        Some((name, found)) => match task_named(name, found) {
            Task::One(job) => plan_of_one(alloc, job, found, seen),
            Task::Two(job) => plan_of_two(alloc, job, found, seen),
        },
        // The parser asks for a command.
        None => Err(WordsFault::Words(String::new(alloc))),
    }
}

/// The plan of a job over one log, by the options and the file of its command.
fn plan_of_one(
    alloc: Global,
    job: Job,
    found: &ArgMatches<'_>,
    seen: &SeenProfile,
) -> Result<Plan, WordsFault>
    ensures plan { IfOk result (IsPlanOf (Task.One job) (rows_of (found_of found.now)) seen.now) }
    ensures fault { IfErr result (IsRefusedFor (Task.One job) (rows_of (found_of found.now)) seen.now) }
{
    let config = configuration(alloc, found, seen)?;
    let log = copied(alloc, text_of(found, LOG))?;
    Ok(Plan::One {
        job,
        strict: is_strict(found),
        config,
        log,
    })
}

/// The plan of a job over two logs, by the options and the files of its command.
fn plan_of_two(
    alloc: Global,
    job: PairJob,
    found: &ArgMatches<'_>,
    seen: &SeenProfile,
) -> Result<Plan, WordsFault>
    ensures plan { IfOk result (IsPlanOf (Task.Two job) (rows_of (found_of found.now)) seen.now) }
    ensures fault { IfErr result (IsRefusedFor (Task.Two job) (rows_of (found_of found.now)) seen.now) }
{
    let config = configuration(alloc, found, seen)?;
    let left = text_of(found, left_file(job));
    let right = text_of(found, right_file(job));
    let (Some(left), Some(right)) = (left, right) else {
        // The parser asks for both.
        return Err(WordsFault::Words(String::new(alloc)));
    };
    let left = String::from_str(alloc, left)?;
    let right = String::from_str(alloc, right)?;
    Ok(Plan::Two {
        job,
        strict: is_strict(found),
        config,
        left,
        right,
    })
}

/// A text of its own, if there is one.
fn copied(alloc: Global, text: Option<&str>) -> Result<Option<String>, AllocError>
    ensures { IfOk result (λ copy. option_map string_bytes copy ≡ option_map (λ t. t.now) text.entry) }
{
    match text {
        Some(text) => Ok(Some(String::from_str(alloc, text)?)),
        None => Ok(None),
    }
}

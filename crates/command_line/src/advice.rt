//! What to write instead of words that ask for nothing.

ghost use Rattle.std.specs.Prelude.{◌≡◌, IfOk, map, option_map, string_bytes};
ghost use Rattle.std.specs.Char.{is_ascii_hexdigit};
ghost use Rattle.std.specs.List.{list_all};
ghost use Rattle.clap.specs.Words.{found_of, rows_of, subcommand_rows_of};
ghost use Rattle.command_line.specs.Advice.{IsAdviceFor, IsOfCommand, IsOfFiles, IsOfFirst, IsOfUnread, IsOfUnreadFile, IsOfWords, behind_prefix, file_line, files_line, given_line, is_carried, is_spelled, line_of_word, all_values_line, value_line, values_line};
ghost use Rattle.command_line.specs.Commands.{command_in, words_or_normalise};
ghost use Rattle.command_line.specs.Under.{under_in};

use crate::commands::{COMMANDS, FUNCTIONAL, TESTER, UNIT, USUAL_TESTER, USUAL_UNIT};
use crate::job::WordsFault;
use crate::open_faults::{OpenFault, open_fault};
use crate::under::under_of;
use crate::values::text_of;
use crate::words::found;
use can_log::Id;
use clap::ArgMatches;
use line_text::{Quoted, line_in};
use profile::{identifier_of, is_of_bus};
use std::alloc::{AllocError, Global};
use std::fs;
use std::rt::Files;
use text_parts::{Part, say};
use trace_io::TextSink;
use trace_log::ConfigFault;

/// What is said of a limit that there is not.
const OF_THE_LIMIT: &str = "hint: --limit takes 1 to 1099511627776 bytes\n";

/// What is said of a value that is no identifier, behind it.
const OF_AN_IDENTIFIER: &str =
    "; an identifier has three hexadecimal digits, up to 7FF, or eight, up to 1FFFFFFF\n";

/// What is said of a word that other programs have where a command has its place.
const OF_HELP: &str =
    "hint: udsnorm --help has the commands, udsnorm COMMAND --help the options of one\n";

const OF_VERSION: &str = "hint: udsnorm --version tells the version\n";

const OF_A_DASH: &str = "hint: standard input is read where no file is named: udsnorm list\n";

/// The line of what to write instead of these words, by what is wrong with them. It is empty where there is none.
pub fn advice_for<R: AllocGlobal + Files>(
    rt: &R,
    words: &[String],
    fault: &WordsFault,
) -> Result<Vec<u8>, AllocError>
    ensures { IfOk result (λ line. IsAdviceFor fault.now (map string_bytes words.now) line.items) }
{
    let alloc = rt.alloc();
    match fault {
        WordsFault::Words(_) => advice_for_words(rt, words),
        WordsFault::Identifier
        | WordsFault::Config(
            ConfigFault::IdRange | ConfigFault::SameId | ConfigFault::SameFunctional,
        ) => advice_for_values(alloc, words),
        WordsFault::Config(ConfigFault::LimitRange) => line_in(alloc, OF_THE_LIMIT),
        WordsFault::Unread(_) => advice_for_profile(rt, words),
        WordsFault::Help(_) | WordsFault::Misfit(_) | WordsFault::Memory => Ok(Vec::new(alloc)),
    }
}

/// The line for words that don't fit the commands, by the first of them.
fn advice_for_words<R: AllocGlobal + Files>(rt: &R, words: &[String]) -> Result<Vec<u8>, AllocError>
    ensures { IfOk result (λ line. IsOfWords (map string_bytes words.now) line.items) }
{
    match words {
        [word, rest @ ..] => advice_for_first(rt, word.as_str(), rest),
        [] => Ok(Vec::new(rt.alloc())),
    }
}

/// The line for the word that stands where a command has its place, and those behind it.
fn advice_for_first<R: AllocGlobal + Files>(
    rt: &R,
    word: &str,
    rest: &[String],
) -> Result<Vec<u8>, AllocError>
    ensures { IfOk result (λ line. IsOfFirst (line_of_word word.now) word.now (map string_bytes rest.now) line.items) }
{
    match line_of_word(word) {
        Some(line) => line_in(rt.alloc(), line),
        None => advice_for_files(rt, word, rest),
    }
}

/// What is said of a word that other programs have where a command has its place.
fn line_of_word(word: &str) -> Option<&'static str>
    ensures { option_map (λ t. t.now) result ≡ line_of_word word.now }
{
    match word {
        "help" => Some(OF_HELP),
        "version" => Some(OF_VERSION),
        "-" => Some(OF_A_DASH),
        _ => None,
    }
}

/// The line for a word that no other program has there, and those behind it: where it names a file, or the next one
/// does, too.
fn advice_for_files<R: AllocGlobal + Files>(
    rt: &R,
    name: &str,
    rest: &[String],
) -> Result<Vec<u8>, AllocError>
    ensures { IfOk result (λ line. IsOfFiles name.now (map string_bytes rest.now) line.items) }
{
    if !names_a_file(rt, name) {
        return Ok(Vec::new(rt.alloc()));
    }
    match rest {
        [other, ..] if names_a_file(rt, other.as_str()) => {
            files_line(rt.alloc(), name, other.as_str())
        }
        _ => file_line(rt.alloc(), name),
    }
}

/// Whether a word names a file, where the parser looks for a command.
fn names_a_file<R: Files>(rt: &R, word: &str) -> bool {
    if word.starts_with("-") || is_command(word) {
        return false;
    }
    match fs::metadata(rt, word) {
        Ok(found) => !found.is_dir(),
        Err(_) => false,
    }
}

/// The line for words whose profile can't be read. The parser took these words: that it does not now is that memory is
/// refused.
fn advice_for_profile<R: AllocGlobal + Files>(
    rt: &R,
    words: &[String],
) -> Result<Vec<u8>, AllocError>
    ensures { IfOk result (λ line. IsOfUnread (under_in (command_in (words_or_normalise (map string_bytes words.now)))) line.items) }
{
    match found(rt.alloc(), words) {
        Ok(matches) => match under_of(&matches) {
            Some(under) => unread_line(rt, under.file),
            None => Ok(Vec::new(rt.alloc())),
        },
        Err(_) => Err(AllocError),
    }
}

/// The line for a profile of this name that can't be read, where the file system says why.
fn unread_line<R: AllocGlobal + Files>(rt: &R, file: &str) -> Result<Vec<u8>, AllocError>
    ensures { IfOk result (λ line. IsOfUnreadFile file.entry.now line.items) }
{
    let name = Quoted(file.as_bytes());
    match fs::metadata(rt, file) {
        Ok(found) if found.is_dir() => line_in(rt.alloc(), ("hint: ", name, " is a folder\n")),
        Ok(_) => Ok(Vec::new(rt.alloc())),
        Err(error) => match open_fault(&error) {
            OpenFault::Missing => line_in(rt.alloc(), ("hint: there is no file ", name, "\n")),
            OpenFault::Denied | OpenFault::Other => Ok(Vec::new(rt.alloc())),
        },
    }
}

/// Whether a word is a command.
fn is_command(word: &str) -> bool {
    COMMANDS.iter().any(|row| row.name == word)
}

/// The line for the name of a file.
fn file_line(alloc: Global, name: &str) -> Result<Vec<u8>, AllocError>
    ensures { IfOk result (λ line. line.items ≡ file_line name.entry.now) }
{
    let name = Quoted(name.as_bytes());
    line_in(
        alloc,
        ("hint: ", name, " is a file: udsnorm list ", name, "\n"),
    )
}

/// The line for the names of two files.
fn files_line<'a>(alloc: Global, one: &'a str, other: &'a str) -> Result<Vec<u8>, AllocError>
    ensures { IfOk result (λ line. line.items ≡ files_line one.entry.now other.entry.now) }
{
    let one = Quoted(one.as_bytes());
    let other = Quoted(other.as_bytes());
    line_in(
        alloc,
        (
            "hint: ",
            one,
            " and ",
            other,
            " are files: udsnorm compare ",
            one,
            " ",
            other,
            "\n",
        ),
    )
}

/// The line for words with identifiers that are none, or the same. The parser took these words: that it does not now is that
/// memory is refused.
fn advice_for_values(alloc: Global, words: &[String]) -> Result<Vec<u8>, AllocError>
    ensures { IfOk result (λ line. IsOfCommand (command_in (words_or_normalise (map string_bytes words.now))) line.items) }
{
    match found(alloc, words) {
        Ok(matches) => advice_for_matches(alloc, &matches),
        Err(_) => Err(AllocError),
    }
}

/// The line for the values that a command is given.
fn advice_for_matches(alloc: Global, matches: &ArgMatches<'_>) -> Result<Vec<u8>, AllocError>
    ensures { IfOk result (λ line. IsOfCommand (subcommand_rows_of matches.now) line.items) }
{
    match matches.subcommand() {
        Some((_, found)) => given_line(alloc, found),
        None => Ok(Vec::new(alloc)),
    }
}

/// The line for these values, or the usual ones.
fn given_line(alloc: Global, found: &ArgMatches<'_>) -> Result<Vec<u8>, AllocError>
    ensures { IfOk result (λ line. line.items ≡ given_line (rows_of (found_of found.now))) }
{
    let tester = text_of(found, TESTER).unwrap_or(USUAL_TESTER);
    let unit = text_of(found, UNIT).unwrap_or(USUAL_UNIT);
    match text_of(found, FUNCTIONAL) {
        Some(functional) => all_values_line(alloc, tester, unit, functional),
        None => values_line(alloc, tester, unit),
    }
}

/// The line for three values of which one is no identifier, or of which two are the same.
fn all_values_line<'a>(
    alloc: Global,
    tester: &'a str,
    unit: &'a str,
    functional: &'a str,
) -> Result<Vec<u8>, AllocError>
    ensures { IfOk result (λ line. line.items ≡ all_values_line tester.entry.now unit.entry.now functional.entry.now) }
{
    if !is_carried(identifier_of(tester)) {
        return value_line(alloc, "--tester", tester);
    }
    if !is_carried(identifier_of(unit)) {
        return value_line(alloc, "--unit", unit);
    }
    if !is_carried(identifier_of(functional)) {
        return value_line(alloc, "--functional", functional);
    }
    line_in(
        alloc,
        (
            "hint: --tester is ",
            Quoted(tester.as_bytes()),
            ", --unit ",
            Quoted(unit.as_bytes()),
            ", --functional ",
            Quoted(functional.as_bytes()),
            "\n",
        ),
    )
}

/// The line for two values of which one is no identifier, or that are the same.
fn values_line<'a>(alloc: Global, tester: &'a str, unit: &'a str) -> Result<Vec<u8>, AllocError>
    ensures { IfOk result (λ line. line.items ≡ values_line tester.entry.now unit.entry.now) }
{
    if !is_carried(identifier_of(tester)) {
        return value_line(alloc, "--tester", tester);
    }
    if !is_carried(identifier_of(unit)) {
        return value_line(alloc, "--unit", unit);
    }
    line_in(
        alloc,
        (
            "hint: --tester is ",
            Quoted(tester.as_bytes()),
            ", --unit ",
            Quoted(unit.as_bytes()),
            "\n",
        ),
    )
}

/// Whether there is an identifier, and a bus carries it.
fn is_carried(identifier: Option<Id>) -> bool
    ensures { result ≡ is_carried identifier }
{
    match identifier {
        Some(identifier) => is_of_bus(identifier),
        None => false,
    }
}

/// The line for a value that is no identifier.
fn value_line(alloc: Global, option: &'static str, value: &str) -> Result<Vec<u8>, AllocError>
    ensures { IfOk result (λ line. line.items ≡ value_line option.now value.entry.now) }
{
    let value = value.as_bytes();
    line_in(
        alloc,
        (
            "hint: ",
            option,
            " is ",
            Quoted(value),
            WhatToWrite(behind_prefix(value)),
        ),
    )
}

/// What to write instead of a value, where that are these digits.
#[derive(Clone, Copy)]
struct WhatToWrite<'a>(Option<&'a [u8]>);

impl<'a> Part for WhatToWrite<'a> {
    ghost use Rattle.std.specs.Prelude.{option_map};
    ghost use Rattle.command_line.specs.Advice.{what_to_write};

    ghost text = { λ digits. what_to_write (option_map (λ t. t.now) digits.0) };

    fn say<S: TextSink>(self, out: &mut S) {
        match self.0 {
            Some(digits) => say(out, ("; write ", Quoted(digits), "\n")),
            None => say(out, OF_AN_IDENTIFIER),
        }
    }
}

/// The digits of an identifier behind `0x`.
fn behind_prefix(value: &[u8]) -> Option<&[u8]>
    ensures { option_map (λ t. t.now) result ≡ behind_prefix value.entry.now }
{
    let [zero, mark, digits @ ..] = value else {
        return None;
    };
    if *zero == b'0' && (*mark == b'x' || *mark == b'X') && is_spelled(digits) {
        Some(digits)
    } else {
        None
    }
}

/// Whether bytes are the digits of an identifier.
fn is_spelled(digits: &[u8]) -> bool
    ensures { result ≡ is_spelled digits.now }
{
    are_digits(digits) && (digits.len() == 3 || digits.len() == 8)
}

/// Whether a text has hexadecimal digits alone.
fn are_digits(text: &[u8]) -> bool
    ensures { result ≡ list_all is_ascii_hexdigit text.now }
{
    text.iter().all(|byte| byte.is_ascii_hexdigit())
}

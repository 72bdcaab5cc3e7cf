//! What the words give the options and the files of a command.

ghost use Rattle.std.specs.Prelude.{◌≡◌, option_map};
ghost use Rattle.clap.specs.Words.{first_of, found_of, rows_of};
ghost use Rattle.command_line.specs.Values.{comparison_style_in, credit_style_in, is_given, is_strict as strict_in, notation_in, numbering_in, page_name, page_name_beside, shown_name, style_in};

use crate::commands::{JSON, NO_NUMBERS, PairJob, SHOW, STRICT, TOML};
use clap::ArgMatches;
use std::path::Path;
use trace_text::{ComparisonStyle, CreditStyle, ItemStyle, Notation, Numbering};

/// How the lines of items are written.
pub(crate) fn style(found: &ArgMatches<'_>) -> ItemStyle
    ensures { result ≡ style_in (rows_of (found_of found.now)) }
{
    ItemStyle {
        numbering: numbering(found),
        notation: notation(found),
    }
}

/// How a comparison is written.
pub(crate) fn comparison_style(found: &ArgMatches<'_>) -> ComparisonStyle
    ensures { result ≡ comparison_style_in (rows_of (found_of found.now)) }
{
    ComparisonStyle {
        shows_items: is_given(found, SHOW),
        notation: notation(found),
    }
}

/// How credit lines are written.
pub(crate) fn credit_style(found: &ArgMatches<'_>) -> CreditStyle
    ensures { result ≡ credit_style_in (rows_of (found_of found.now)) }
{
    if is_given(found, TOML) {
        CreditStyle::Profile
    } else {
        CreditStyle::Lines(notation(found))
    }
}

/// Whether lines are objects of JSON.
pub(crate) fn notation(found: &ArgMatches<'_>) -> Notation
    ensures { result ≡ notation_in (rows_of (found_of found.now)) }
{
    if is_given(found, JSON) {
        Notation::Json
    } else {
        Notation::Text
    }
}

/// Whether a list has numbers.
fn numbering(found: &ArgMatches<'_>) -> Numbering
    ensures { result ≡ numbering_in (rows_of (found_of found.now)) }
{
    if is_given(found, NO_NUMBERS) {
        Numbering::Hidden
    } else {
        Numbering::Shown
    }
}

/// Whether a log has to be clean.
pub(crate) fn is_strict(found: &ArgMatches<'_>) -> bool
    ensures { result ≡ strict_in (rows_of (found_of found.now)) }
{
    is_given(found, STRICT)
}

/// Whether an option without a value is given.
pub(crate) fn is_given(found: &ArgMatches<'_>, name: &str) -> bool
    ensures { result ≡ is_given name.now (rows_of (found_of found.now)) }
{
    text_of(found, name).unwrap_or("") == "true"
}

/// The text of an option or a file, if it has one.
pub fn text_of<'a>(found: &ArgMatches<'a>, name: &str) -> Option<&'a str>
    ensures { option_map (λ t. t.now) result ≡ first_of name.now (rows_of (found_of found.now)) }
{
    found.get_str(name)
}

/// What a page calls the log of this file, or of standard input.
pub fn page_name(log: Option<&str>) -> &str
    ensures { result.now ≡ page_name (option_map (λ t. t.now) log.entry) }
{
    match log {
        Some(path) => Path::new(path).file_name().unwrap_or(path),
        None => "standard input",
    }
}

/// What the text of a job over two logs calls the log of this file, beside that of the other: a page by its name, and what
/// else has names by its path.
pub fn shown_name<'a>(job: PairJob, path: &'a str, other: &str) -> &'a str
    ensures { result.now ≡ shown_name job path.now other.now }
{
    match job {
        PairJob::Compare(_) | PairJob::Diff(_) => path,
        PairJob::Report => page_name_beside(path, other),
    }
}

/// What a page of two logs calls the log of this file, beside that of the other.
fn page_name_beside<'a>(path: &'a str, other: &str) -> &'a str
    ensures { result.now ≡ page_name_beside path.now other.now }
{
    let name = page_name(Some(path));
    if name == page_name(Some(other)) {
        path
    } else {
        name
    }
}

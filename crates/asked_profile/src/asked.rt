//! The profile that a text is.

ghost use Rattle.std.specs.Prelude.{◌≡◌};
ghost use Rattle.toml.specs.View.{table_view};
ghost use Rattle.asked_profile.specs.Asked.{IsAsked, IsAskedOf, IsToldOf};

use crate::wrong_text::WrongText;
use line_text::line_in;
use profile::{DocumentFault, Profile, ProfileFault, parse, profile_of};
use std::alloc::Global;
use text_parts::Part;
use toml::Table;
use trace_text::Number;

/// What is told of a text that is no profile.
#[derive(Drop)]
pub struct WrongProfile {
    /// The line where that stands, from 1; 0 where it is no place in the text.
    pub line: u64,
    /// What is wrong: printable ASCII, without the name of a file and the end of the line.
    pub text: Vec<u8>,
}

/// Why a text is no profile.
#[derive(Drop)]
pub enum AskedFault {
    /// Memory is refused.
    Memory,
    /// This is told of it.
    Wrong(WrongProfile),
}

/// The profile that a text is, or what is wrong in it.
pub fn profile_in(alloc: Global, text: &[u8]) -> Result<Profile, AskedFault>
    ensures { IsAsked text.now result }
{
    match parse(alloc, text) {
        Ok(document) => profile_of_document(alloc, &document),
        Err(DocumentFault::Memory) => Err(AskedFault::Memory),
        Err(DocumentFault::TooLong) => Err(told(alloc, 0, "longer than 65536 bytes")),
        Err(DocumentFault::NotToml(line, column)) => {
            let row = line as u64;
            let place = (
                "line ",
                Number(row),
                " column ",
                Number(column as u64),
                ": not TOML",
            );
            Err(told(alloc, row, place))
        }
    }
}

/// The profile that a document is, or what is wrong in it.
fn profile_of_document(alloc: Global, document: &Table) -> Result<Profile, AskedFault>
    ensures { IsAskedOf (table_view document.now) result }
{
    match profile_of(alloc, document) {
        Ok(profile) => Ok(profile),
        Err(ProfileFault::Memory) => Err(AskedFault::Memory),
        Err(ProfileFault::Wrong(wrong)) => Err(told(alloc, 0, WrongText { wrong, document })),
    }
}

/// This is told of a text, unless memory is refused.
fn told<P: Part>(alloc: Global, line: u64, part: P) -> AskedFault
    ensures { IsToldOf line (P.text part) result }
{
    match line_in(alloc, part) {
        Ok(text) => AskedFault::Wrong(WrongProfile { line, text }),
        Err(_) => AskedFault::Memory,
    }
}

//! What C names by numbers: identifiers and styles.
ghost use Rattle.std.specs.Prelude.{◌≡◌};
ghost use Rattle.udsnorm_c.specs.Spelled.{identifier_of, list_style, written};
ghost use Rattle.udsnorm_c.specs.Spelled as Spec;

use can_log::Id;
use trace_text::{ItemStyle, Notation, Numbering};

/// The identifiers where none is asked for.
pub(crate) const USUAL_TESTER: u32 = 0x7E0;

pub(crate) const USUAL_UNIT: u32 = 0x7E8;

/// The flag of Linux's `canid_t` for an identifier of 29 bits.
const EXTENDED: u32 = 0x8000_0000;

/// The number of no base identifier.
const NONE: u16 = 0xFFFF;

/// An identifier as Linux's `canid_t` has it.
pub(crate) fn identifier(number: u32) -> Id
    ensures { result ≡ identifier_of number }
{
    if number >= EXTENDED {
        Id::Ext(number - EXTENDED)
    } else if number <= NONE as u32 {
        Id::Std(number as u16)
    } else {
        Id::Std(NONE)
    }
}

/// How the lines of a list are written.
pub(crate) fn style_of(style: u32) -> Option<ItemStyle>
    ensures { result ≡ list_style style }
{
    match style {
        0 => Some(written(Notation::Text, Numbering::Shown)),
        1 => Some(written(Notation::Text, Numbering::Hidden)),
        2 => Some(written(Notation::Json, Numbering::Shown)),
        3 => Some(written(Notation::Json, Numbering::Hidden)),
        _ => None,
    }
}

/// How other lines are written.
pub(crate) fn notation_of(style: u32) -> Option<Notation>
    ensures { result ≡ Spec.notation_of style }
{
    match style {
        0 => Some(Notation::Text),
        2 => Some(Notation::Json),
        _ => None,
    }
}

/// Lines in this notation, with their numbers or without.
fn written(notation: Notation, numbering: Numbering) -> ItemStyle
    ensures { result ≡ written notation numbering }
{
    ItemStyle {
        numbering,
        notation,
    }
}

//! An identifier as a text spells it.

ghost use Rattle.std.specs.Prelude.{◌≡◌};
ghost use Rattle.std.specs.Char.{is_ascii_hexdigit};
ghost use Rattle.std.specs.List.{list_all};
ghost use Rattle.profile.specs.UnitKeys as Spec;

use can_log::Id;

/// The identifier that exactly three or exactly eight hexadecimal digits spell, in either case: a base identifier, or
/// an extended one.
#[tactic(auto, unfolding(crate::specs::UnitKeys::identifier_of))]
pub fn identifier_of(text: &str) -> Option<Id>
    ensures { result ≡ Spec.identifier_of text.now }
{
    // A sign is no digit of an identifier.
    if !are_digits(text.as_bytes()) {
        return None;
    }
    match text.len() {
        3 => u16::from_str_radix(text, 16).ok().map(Id::Std),
        8 => u32::from_str_radix(text, 16).ok().map(Id::Ext),
        _ => None,
    }
}

/// Whether a text has hexadecimal digits alone.
fn are_digits(text: &[u8]) -> bool
    ensures { result ≡ list_all is_ascii_hexdigit text.now }
{
    text.iter().all(|byte| byte.is_ascii_hexdigit())
}

/// Whether a bus carries the identifier: 11 bits of a base one, 29 of an extended one.
pub fn is_of_bus(identifier: Id) -> bool
    ensures { result ≡ Spec.is_of_bus identifier }
{
    match identifier {
        Id::Std(number) => number <= 0x7FF,
        Id::Ext(number) => number <= 0x1FFF_FFFF,
    }
}

//! What a file looks like that is no log, by its first bytes.

ghost use Rattle.std.specs.Prelude.{◌≡◌};
ghost use Rattle.std.specs.List.{list_any};
ghost use Rattle.trace_report.specs.Looks.{has_at, has_front, has_more_decimals, is_dated, is_table, is_told, lacks_stamp, look_of, look_told, text_look};

use crate::looks::{Look, TOLD, look_row};

/// What a log looks like, by its first bytes, which is refused in this line and column.
pub(crate) fn look_of(first: &[u8], line: u64, column: u32) -> Option<Look>
    ensures { result ≡ look_of first.now line column }
{
    if line == 1 && has_more_decimals(first, column) {
        return Some(Look::Nanoseconds);
    }
    match look_told(first) {
        Some(look) => Some(look),
        None => text_look(first, line),
    }
}

/// Whether the line that is refused in this column begins with no stamp where one is due.
pub(crate) fn lacks_stamp(first: &[u8], line: u64, column: u32) -> bool
    ensures { result ≡ lacks_stamp first.now line column }
{
    column == 1 && (line > 1 || has_front(first, b"DROPCOUNT"))
}

/// Whether a stamp has more than six decimals, in the line that these bytes begin and that is refused in this column.
fn has_more_decimals(first: &[u8], column: u32) -> bool
    ensures { result ≡ has_more_decimals first.now column }
{
    // The dot stands seven places before the refused byte, and columns count from 1: so it is the byte at the column
    // less 8, and behind a bracket and a digit at least.
    column >= 10 && has_at(first, column as usize - 8, b'.')
}

/// What first bytes tell.
fn look_told(first: &[u8]) -> Option<Look>
    ensures { result ≡ look_told first.now }
{
    TOLD.iter().copied().find(|look| is_told(*look, first))
}

/// Whether first bytes tell this look.
#[tactic(auto, using(crate::proofs::Signs::list_any_map))]
fn is_told(look: Look, first: &[u8]) -> bool
    ensures { result ≡ is_told first.now look }
{
    begins_with_one(first, look_row(look).first)
}

/// Whether bytes begin with one of these.
fn begins_with_one(bytes: &[u8], fronts: &[&[u8]]) -> bool
    ensures { result ≡ list_any (λ front. has_front bytes.now front.now) fronts.now }
{
    fronts.iter().any(|front| has_front(bytes, *front))
}

/// What the first bytes of a text look like that is refused in this line.
fn text_look(first: &[u8], line: u64) -> Option<Look>
    ensures { result ≡ text_look first.now line }
{
    if line != 1 {
        None
    } else if is_dated(first) {
        Some(Look::Date)
    } else if is_table(first) {
        Some(Look::Csv)
    } else {
        None
    }
}

/// Whether a stamp with a date stands in front.
fn is_dated(first: &[u8]) -> bool
    ensures { result ≡ is_dated first.now }
{
    has_at(first, 0, b'(') && has_at(first, 5, b'-')
}

/// Whether the bytes are values with commas or semicolons between them, and no stamp stands in front.
fn is_table(first: &[u8]) -> bool
    ensures { result ≡ is_table first.now }
{
    !has_at(first, 0, b'(') && (first.contains(&b',') || first.contains(&b';'))
}

/// Whether the bytes begin with these.
fn has_front(bytes: &[u8], front: &[u8]) -> bool
    ensures { result ≡ has_front bytes.now front.now }
{
    bytes.starts_with(front)
}

/// Whether this byte stands at this place.
fn has_at(bytes: &[u8], place: usize, byte: u8) -> bool
    ensures { result ≡ has_at bytes.now place byte }
{
    bytes.get(place) == Some(&byte)
}

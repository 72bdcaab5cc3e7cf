//! What is seen of the bytes of a message that rules have left.

ghost use Rattle.std.specs.Prelude.{◌≡◌};
ghost use Rattle.uds_echo.specs.Left as Spec;

use uds_rules::Mask;

/// The bit of a sub-function by which the tester asks for no positive response: its number is what lies below.
const SUPPRESS_POSITIVE_RESPONSE: u8 = 0x80;

/// The mask of a message, and the place where it begins, if it has one.
pub(crate) type Found = Option<(Mask, usize)>;

/// The byte at a place of a message with this mask; `None` where it is masked, or the message ends before.
pub(crate) fn seen_at(bytes: &[u8], found: &Found, place: usize) -> Option<u8>
    ensures { result ≡ Spec.seen_at bytes.now found.now place }
{
    if is_masked_at(found, place) {
        None
    } else {
        bytes.get(place).copied()
    }
}

/// What is compared of the byte at a place: where the service has a sub-function the number of this, which is the first one
/// behind its identifier.
pub(crate) fn compared_at(
    has_sub_function: bool,
    bytes: &[u8],
    found: &Found,
    place: usize,
) -> Option<u8>
    ensures { result ≡ Spec.compared_at has_sub_function bytes.now found.now place }
{
    let seen = seen_at(bytes, found, place);
    if place == 1 && has_sub_function {
        number_of(seen)
    } else {
        seen
    }
}

/// Whether the byte at a place of a message with this mask is masked.
fn is_masked_at(found: &Found, place: usize) -> bool
    ensures { result ≡ Spec.is_masked_at found.now place }
{
    match found {
        Some((mask, start)) => *start <= place && masks_place(*mask, place - *start),
        None => false,
    }
}

/// Whether a mask masks the byte at a place behind its prefix.
fn masks_place(mask: Mask, place: usize) -> bool
    ensures { result ≡ Spec.masks_place mask place }
{
    let mut rest = mask;
    let mut before = place;
    'places: while let Some((is_masked, behind)) = rest.split_first() {
        if before == 0 {
            return is_masked;
        }
        rest = behind;
        before -= 1;
    }
    false
}

/// Whether two bytes are known to be other than each other.
pub(crate) fn differ(one: Option<u8>, other: Option<u8>) -> bool
    ensures { result ≡ Spec.differ one other }
{
    match (one, other) {
        (Some(one), Some(other)) => one != other,
        _ => false,
    }
}

/// Of a sub-function its number.
fn number_of(seen: Option<u8>) -> Option<u8>
    ensures { result ≡ Spec.number_of seen }
{
    match seen {
        Some(byte) => Some(byte % SUPPRESS_POSITIVE_RESPONSE),
        None => None,
    }
}

//! The canonical line of a frame.
ghost use Rattle.std.specs.Prelude.{◌≡◌, ℕ, ◌+◌, ◌^◌, ◌<◌, ◌≤◌, List, [], ◌∷◌, ◌++◌, Some, codes, length, take, drop};
ghost use Rattle.arrayvec.specs.ArrayVec.{array_vec_len};
ghost use Rattle.can_log.specs.Canonical.{canonical_end, canonical_length, canonical_line, canonical_name, canonical_stamp, canonical_stamped, identifier_text};
ghost use Rattle.can_log.specs.declared.frame.Id.{Id as IdValue};
ghost use Rattle.can_log.specs.declared.frame.Id.TheVariants.{Std, Ext};
ghost use Rattle.can_log.specs.Frame.{IsCanIdentifier};
ghost use Rattle.can_log.specs.Log.{LogMeans};

use crate::digit_lanes::{digits_of_bytes, hexadecimal_digits};
use crate::frame::Id;
use crate::line_clock::{FRONT, LineClock, STAMP};
use arrayvec::ArrayVec;

/// How many bytes the line of a base identifier has.
pub const BASE_LINE: usize = 46;

/// How many bytes the line of an extended identifier has, which is the longest: its number has five digits more.
pub const LONGEST_LINE: usize = 51;

/// How many bytes the line of a base identifier has between its stamp and its data: [`base_name`] makes them.
pub const BASE_NAME: usize = 13;

/// The same of an extended identifier, for [`extended_name`].
pub const EXTENDED_NAME: usize = 18;

/// How many bytes a line has from its data on: sixteen digits and a line feed.
pub const LINE_END: usize = 17;

/// The line of a classic frame of 8 bytes at `n` milliseconds, with its line feed. An extended identifier has 29 bits.
///
/// At 12 milliseconds: `(0000000000.012000) can0 7E0#0322F190CCCCCCCC`, and under an extended identifier
/// `(0000000000.012000) can0 18DA10F1#0322F190CCCCCCCC`.
pub fn line_bytes(n: u64, id: Id, data: &[u8; 8]) -> ArrayVec<u8, LONGEST_LINE>
    requires n { n < 10 ^ 13 }
    requires id { IsCanIdentifier id }
    ensures bytes { result.items ≡ canonical_line n id «data».now }
    ensures means { LogMeans result.items (Some (canonical_stamped n id «data».now) ∷ []) }
{
    let mut line = ArrayVec::new();
    append_line(&mut line, &LineClock::at(n), id, data);
    line
}

/// Appends the line at the clock's time that [`line_bytes`] makes, so that it is made where it is to lie.
#[inline(always)]
pub fn append_line<const CAP: usize>(
    text: &mut ArrayVec<u8, CAP>,
    clock: &LineClock,
    id: Id,
    data: &[u8; 8],
)
    requires { array_vec_len text.old + canonical_length id ≤ CAP }
    ensures { text.new.items ≡ text.old.items ++ canonical_line clock.now id «data».now }
{
    match id {
        Id::Std(number) => append(text, &base_line(clock, number, data)),
        Id::Ext(number) => append(text, &extended_line(clock, number, data)),
    }
}

/// The line at the clock's time of a base identifier, as a value of its own: what takes it, takes it in one piece.
#[inline(always)]
pub fn base_line(clock: &LineClock, number: u16, data: &[u8; 8]) -> [u8; BASE_LINE]
    ensures { result ≡ canonical_line clock.now (Std number) «data».now }
{
    named_line(clock, &base_name(number), data)
}

/// The same of an extended identifier.
#[inline(always)]
pub fn extended_line(clock: &LineClock, number: u32, data: &[u8; 8]) -> [u8; LONGEST_LINE]
    ensures { result ≡ canonical_line clock.now (Ext number) «data».now }
{
    named_line(clock, &extended_name(number), data)
}

/// The line at the clock's time of an identifier with this name. Where each part lies is known when it is compiled.
#[inline(always)]
fn named_line<const LENGTH: usize>(clock: &LineClock, name: &[u8], data: &[u8; 8]) -> [u8; LENGTH]
    requires { LENGTH ≡ 33 + length name.now }
    ensures { result ≡ canonical_stamp clock.now ++ name.now ++ canonical_end «data».now }
{
    let mut line = [0; LENGTH];
    write_at(&mut line, 0, clock.stamp());
    write_at(&mut line, STAMP, name);
    write_at(&mut line, STAMP + name.len(), &line_end(data));
    line
}

/// What the line of a base identifier has between its stamp and its data: `00) can0 7E0#`. It is the same in each, so that
/// it can be made before them all.
#[inline(always)]
pub fn base_name(number: u16) -> [u8; BASE_NAME]
    ensures { result ≡ canonical_name (Std number) }
{
    name_of_digits(&hexadecimal_digits::<3>(u32::from(number)))
}

/// The same of an extended identifier: `00) can0 18DA10F1#`.
#[inline(always)]
pub fn extended_name(number: u32) -> [u8; EXTENDED_NAME]
    ensures { result ≡ canonical_name (Ext number) }
{
    name_of_digits(&hexadecimal_digits::<8>(number))
}

/// What the line of an identifier with these digits has between its stamp and its data.
#[inline(always)]
fn name_of_digits<const LENGTH: usize>(digits: &[u8]) -> [u8; LENGTH]
    requires { LENGTH ≡ 10 + length digits.now }
    ensures { result ≡ codes "00) can0 " ++ digits.now ++ codes "#" }
{
    let mut name = [0; LENGTH];
    write_at(&mut name, 0, b"00) can0 ");
    write_at(&mut name, FRONT - STAMP, digits);
    write_at(&mut name, LENGTH - 1, b"#");
    name
}

/// What a line has from its data on: the digits of the data, and the line feed.
#[inline(always)]
pub fn line_end(data: &[u8; 8]) -> [u8; LINE_END]
    ensures { result ≡ canonical_end «data».now }
{
    let mut end = [b'\n'; LINE_END];
    end[..16].copy_from_slice(&digits_of_bytes(data));
    end
}

/// Makes the line at the clock's time, with other data, out of one of the same identifier, whose digits stay.
#[inline(always)]
pub fn change_line(line: &mut [u8], clock: &LineClock, data: &[u8; 8])
    requires { BASE_LINE ≤ length line.old }
    ensures { (n : ℕ) (id : IdValue) (earlier : List ℕ) → length earlier ≡ 8 → line.old ≡ canonical_line n id earlier
        → line.new ≡ canonical_line clock.now id «data».now }
{
    write_at(line, 0, &clock.front());
    write_at(line, line.len() - LINE_END, &digits_of_bytes(data));
}

/// Writes a part of a line over the bytes from `at` on.
#[inline(always)]
pub(crate) fn write_at(line: &mut [u8], at: usize, part: &[u8])
    requires { at + length part.now ≤ length line.old }
    ensures written { take (at + length part.now) line.new ≡ take at line.old ++ part.now }
    ensures kept { drop (at + length part.now) line.new ≡ drop (at + length part.now) line.old }
    ensures length { length line.new ≡ length line.old }
{
    line[at..at + part.len()].copy_from_slice(part);
}

/// The digits by which a canonical line names an identifier: three of a base one, eight of an extended one.
pub fn identifier_text(id: Id) -> ArrayVec<u8, 8>
    ensures { result.items ≡ identifier_text id }
{
    let mut text = ArrayVec::new();
    match id {
        Id::Std(base) => append(&mut text, &hexadecimal_digits::<3>(u32::from(base))),
        Id::Ext(extended) => append(&mut text, &hexadecimal_digits::<8>(extended)),
    }
    text
}

/// How many bytes the line of an identifier has, its line feed counted.
pub fn line_length(id: Id) -> usize
    ensures { result ≡ canonical_length id }
{
    match id {
        Id::Std(_) => BASE_LINE,
        Id::Ext(_) => LONGEST_LINE,
    }
}

/// Appends bytes that there is room for.
#[inline(always)]
pub(crate) fn append<const CAP: usize>(text: &mut ArrayVec<u8, CAP>, bytes: &[u8])
    requires { array_vec_len text.old + length bytes.now ≤ CAP }
    ensures { text.new.items ≡ text.old.items ++ bytes.now }
{
    let _ = text.try_extend_from_slice(bytes);
}

//! Lines of plain form that are cut, or that end too near to the end of their piece: put where line feeds stand, they have room
//! for the lanes.

ghost use Rattle.std.specs.Prelude.{◌≡◌, ◌≤◌, ◌+◌, ◌-◌, ◌++◌, IfSome, IsTrue, length};
ghost use Rattle.can_log.specs.Refused.{NoLineFeed, HasCompletion};
ghost use Rattle.can_log.specs.proving.Padded.{line_feeds};

use crate::lanes::LANES;
use crate::plain::{LONGEST_PLAIN, plain_line};
use crate::stamp::LONGEST_FRONT;
use memchr::memchr;

/// Room for a line of plain form, its line feed, and what the lanes reach beyond it.
pub(crate) const ROOM_OF_PLAIN: usize = LONGEST_PLAIN + 1 + LANES;

/// A line of plain form with the longest stamp, and else as short as one is.
const SHORT_LINE: &[u8] = b"(1700000000.000000) a 000#";

/// Where the point of its stamp stands.
const POINT: usize = 11;

/// Whether a few bytes make a line of plain form of what is there so far. `false` says no more than that none were found that do.
#[inline(never)]
pub(crate) fn is_front_of_plain(line: &[u8], bytes: &[u8]) -> bool
    requires { NoLineFeed (line.now ++ bytes.now) }
    ensures { IsTrue result → HasCompletion (line.now ++ bytes.now) }
{
    let end = line.len() + bytes.len();
    if end > LONGEST_PLAIN {
        return false;
    }
    let mut padded = [b'\n'; ROOM_OF_PLAIN];
    put_line(&mut padded, line, bytes);
    let Some(completion) = completion_of(&padded[..end]) else {
        return false;
    };
    let whole = end + completion.len();
    if whole > LONGEST_PLAIN {
        return false;
    }
    padded[end..whole].copy_from_slice(completion);
    let completed: &[u8] = &padded;
    if end < POINT {
        return plain_line::<false>(completed).is_some();
    }
    plain_line::<true>(completed).is_some()
}

/// What is likely to complete a line with the longest stamp, cut in its stamp or in its data: the rest of the stamp and a frame
/// without data, or the second digit of a byte, or nothing.
#[inline(always)]
fn completion_of(front: &[u8]) -> Option<&'static [u8]>
    ensures few { IfSome result (λ completion. length completion.now ≤ 16) }
    ensures clean { IfSome result (λ completion. NoLineFeed completion.now) }
{
    if front.len() <= LONGEST_FRONT {
        // Where the seconds are cut, those that are there are taken for all.
        return Some(&SHORT_LINE[front.len().max(POINT)..]);
    }
    let behind = &front[LONGEST_FRONT..];
    let at = memchr(b'#', behind)?;
    // Of an FD frame two bytes stand before the digits: another `#`, and the flags.
    let is_halved = (behind.len() - at) % 2 == 0;
    Some(if is_halved { b"0" } else { b"" })
}

/// Puts a line that may be cut where line feeds stand: the lanes reach beyond its end. They are handed in, since an array that
/// is returned is copied.
#[inline(always)]
pub(crate) fn put_line(padded: &mut [u8; ROOM_OF_PLAIN], line: &[u8], bytes: &[u8])
    requires feeds { padded.old ≡ line_feeds ROOM_OF_PLAIN }
    requires short { length line.now + length bytes.now ≤ LONGEST_PLAIN }
    ensures { padded.new ≡ (line.now ++ bytes.now) ++ line_feeds (ROOM_OF_PLAIN - (length line.now + length bytes.now)) }
{
    let length = line.len();
    padded[..length].copy_from_slice(line);
    padded[length..length + bytes.len()].copy_from_slice(bytes);
}

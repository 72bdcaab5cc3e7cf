//! The lines of a log, read in pieces as a program would.

use can_log::{Scan, Scanner, Stamped};
use std::alloc::Global;
use std::io::{self, Read};

/// The size of a piece.
const PIECE: usize = 65_536;

/// No log is this long; a scanner takes 2^62 bytes.
const MOST_TAKEN: u64 = 1 << 61;

/// The time stamps and the last bytes of all frames before the log's end or its refused place,
/// added up.
pub(crate) fn sum_of_lines<R: Read>(alloc: Global, log: &mut R) -> io::Result<u64> {
    let mut buffer = vec![in alloc; 0u8; PIECE]?;
    let mut scanner = Scanner::new();
    let mut sum = 0u64;
    for _ in 0..u64::MAX {
        let size = log.read(&mut buffer)?;
        if size == 0 {
            break;
        }
        sum = sum.wrapping_add(sum_of_piece(&mut scanner, &buffer[..size]));
    }
    Ok(sum)
}

/// The same of the lines that end in the piece.
fn sum_of_piece(scanner: &mut Scanner, piece: &[u8]) -> u64 {
    let mut rest = piece;
    let mut sum = 0u64;
    let mut answer = Scan::NeedMore;
    for _ in 0..piece.len() {
        if scanner.taken() > MOST_TAKEN || rest.len() as u64 > MOST_TAKEN {
            break;
        }
        // As in the program, each answer is made over the one before it.
        scanner.scan_into(rest, &mut answer);
        let Scan::Line { used, what, .. } = &answer else {
            break;
        };
        if let Some(stamped) = what {
            sum = sum.wrapping_add(sum_of_line(stamped));
        }
        let Some(after) = rest.get(*used..) else {
            break;
        };
        rest = after;
    }
    sum
}

/// The time stamp and the last byte, for which all are read.
fn sum_of_line(stamped: &Stamped) -> u64 {
    let last = stamped.frame.data().last().copied().unwrap_or(0);
    stamped.micros.wrapping_add(last as u64)
}

//! What stands beside what in two sessions. No expected value comes from the program.

use crate::pairings::meaning_of;
use crate::rows::{assert_marked, assert_text, name_of, rows_of};
use direction::Dir::{Tester, Unit};
use std::alloc::{AllocError, Global};
use std::test::Fail;
use uds_difference::{Difference, Row};
use uds_exchange::{Meaning, Pairing};

/// The messages of two sessions, and their rows.
const SESSIONS: &str = "\
no message

equal sessions
left Tester#1003
left Unit#5003
left Tester#3E80
right Tester#1003
right Unit#5003
right Tester#3E80
row same
row same

one session has no message
left Tester#1003
left Unit#5003
left Tester#3E80
row only left
row only left

a value that differs
left Tester#1003
left Unit#5003
left Tester#22F190
left Unit#62F19041
right Tester#1003
right Unit#5003
right Tester#22F190
right Unit#62F19042
row same
row changed

two values that differ, one behind the other
left Tester#22F190
left Unit#62F19041
left Tester#22F191
left Unit#62F19141
right Tester#22F190
right Unit#62F19042
right Tester#22F191
right Unit#62F19142
row changed
row changed

a refusal in place of an answer
left Tester#22F190
left Unit#62F19041
right Tester#22F190
right Unit#7F2222
row changed

no answer in place of one
left Tester#22F190
left Unit#62F19041
right Tester#22F190
row changed

an exchange more
left Tester#1003
left Unit#5003
left Tester#22F190
left Unit#62F19041
right Tester#1003
right Unit#5003
right Tester#3E00
right Unit#7E00
right Tester#22F190
right Unit#62F19041
row same
row only right
row same

an exchange more beside a value that differs
left Tester#1003
left Unit#5003
left Tester#22F190
left Unit#62F19041
right Tester#1003
right Unit#5003
right Tester#22F18C
right Unit#62F18C30
right Tester#22F190
right Unit#62F19042
row same
row only right
row changed

a key that changes with its seed
left Tester#2701
left Unit#6701AA
left Tester#2702BB
left Unit#6702
right Tester#2701
right Unit#6701CC
right Tester#2702DD
right Unit#6702
row changed
row changed

another service
left Tester#22F190
left Unit#62F19041
right Tester#1902FF
right Unit#5902FF
row only left
row only right

two items in exchanged order
left Tester#22F190
left Unit#62F19041
left Tester#1902FF
left Unit#5902FF
right Tester#1902FF
right Unit#5902FF
right Tester#22F190
right Unit#62F19041
row only left
row same
row only right

a request and a stray of the same bytes
left Tester#62F1
right Unit#62F1
row only left
row only right

two keep-alives by a timer
left Tester#22F190
left Unit#62F19041
left Tester#22F191
left Unit#62F19141
right Tester#22F190
right Unit#62F19041
right Tester#3E80
right Tester#22F191
right Unit#62F19141
right Tester#3E80
row same
row only right
row same
row only right

strays of one side whose first byte is equal
left Unit#5902FF
right Unit#5902FE
row changed
";

#[test]
fn sessions_have_the_rows_of_their_row(rt: HostRuntime) -> Result<(), Fail> {
    let alloc = rt.alloc();
    for row in rows_of(SESSIONS) {
        let left = meaning_of(alloc, row, "left ")?;
        let right = meaning_of(alloc, row, "right ")?;
        let found = Difference::between(alloc, &left, &right)?;
        assert_marked(
            &rt,
            alloc,
            row,
            "row",
            rows_text(alloc, &found.rows)?.as_str(),
        )?;
        assert!(rt; found.shortest, "{}", name_of(row));
    }
    Ok(())
}

fn rows_text(alloc: Global, rows: &[Row]) -> Result<String, AllocError> {
    let mut text = String::new(alloc);
    for row in rows {
        text.push_str(match row {
            Row::Same => "same\n",
            Row::Changed => "changed\n",
            Row::OnlyLeft => "only left\n",
            Row::OnlyRight => "only right\n",
        })?;
    }
    Ok(text)
}

/// A session of so many exchanges, whose answers end with this byte, but for the one in the middle.
fn counted(alloc: Global, exchanges: usize, last: u8) -> Result<Meaning, AllocError> {
    let mut pairing = Pairing::new(alloc);
    for i in 0..exchanges {
        let high = (i / 256 % 256) as u8;
        let low = (i % 256) as u8;
        let last = if i == exchanges / 2 { 0 } else { last };
        pairing.take(Tester, &[0x22, high, low])?;
        pairing.take(Unit, &[0x62, high, low, last])?;
    }
    Ok(pairing.finish())
}

/// By 2,000 items that are removed and added the equal one in the middle is found at once; by two more it is found by
/// what the items ask.
#[test]
fn sessions_beyond_the_bound_are_set_side_by_side_by_requests(rt: HostRuntime) -> Result<(), Fail> {
    let alloc = rt.alloc();
    for (exchanges, shortest) in [(1_001, true), (1_002, false)] {
        let left = counted(alloc, exchanges, 1)?;
        let right = counted(alloc, exchanges, 2)?;
        let found = Difference::between(alloc, &left, &right)?;
        assert_eq!(rt; found.shortest, shortest);
        assert_eq!(rt; found.rows.len(), exchanges);
        for (i, row) in found.rows.iter().enumerate() {
            let expected = if i == exchanges / 2 {
                Row::Same
            } else {
                Row::Changed
            };
            assert!(rt; *row == expected, "{i}");
        }
    }
    Ok(())
}

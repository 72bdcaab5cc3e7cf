//! Which identifiers answer, and who asks them. No expected value comes from the program.

use crate::rows::{assert_marked, frame_of, lines_of, rows_of};
use std::alloc::Global;
use std::process::Abort;
use std::str;
use std::test::Fail;
use uds_find::{CreditLine, Finder};

/// Frames in turn, and the units that have a credit then: the number, that of its tester's requests, this, the unit, and the
/// functional identifier.
const LOGS: &str = "\
no frame

a request and its answer, each in a single frame
frame 7E0#023E00
frame 7E8#027E00
pair 1 1 7E0 7E8

an answer that begins in a first frame, which counts once
frame 7E0#0322F190
frame 7E8#101462F190574241
frame 7E0#300000
frame 7E8#2131413345304645
frame 7E8#2231323334353600
pair 1 1 7E0 7E8

a request in a first frame
frame 7E0#100A2EF190414243
frame 7E8#300000
frame 7E0#2144454647
frame 7E8#036EF190
pair 1 1 7E0 7E8

a request and its answer in frames of CAN FD
frame 7E0##00322F190AAAAAAAA
frame 7E8##0000A62F19041424344454647
pair 1 1 7E0 7E8

a negative response
frame 7E0#0322F190
frame 7E8#037F2231
pair 1 1 7E0 7E8

a negative response without its code says nothing
frame 7E0#0322F190
frame 7E8#027F22

a pending reply says nothing, and the answer after it is credited
frame 7E0#0322F190
frame 7E8#037F2278
frame 7E8#037F2278
frame 7E8#0462F19041
pair 1 1 7E0 7E8

a keep-alive says nothing, and asks for no answer
frame 7E0#023E80
frame 7E8#027E00

an answer without a request
frame 7E8#0462F19041

each unit's first answer to a functional request is credited
frame 7DF#0322F190
frame 7E8#0462F19041
frame 7E9#0462F19042
frame 7E8#0462F19043
pair 1 1 7DF 7E8
pair 1 1 7DF 7E9

an answer to another service
frame 7E0#0322F190
frame 7E8#025003

the last that asks has the credit
frame 6F1#0322F190
frame 6F0#0322F18C
frame 7E8#0462F18C41
pair 1 1 6F0 7E8

an identifier doesn't answer itself, and its answer leaves the asking to others
frame 7E0#0322F190
frame 7E0#0462F19041
frame 7E8#0462F19041
pair 1 1 7E0 7E8

a base identifier and an extended one of the same number are two
frame 00000123#0322F190
frame 123#0462F19041
pair 1 1 00000123 123

the largest identifier of a bus, and one above it, which says nothing
frame 1FFFFFFF#0322F190
frame 20000000#0322F191
frame 18DAF110#0462F19041
pair 1 1 1FFFFFFF 18DAF110

two services at a time
frame 7E0#0322F190
frame 7E0#023E00
frame 7E8#027E00
frame 7E8#0462F19041
pair 2 2 7E0 7E8

the most answers first, and then by the texts
frame 7E0#0322F190
frame 7E8#0462F19041
frame 123#0322F190
frame 7E8#0462F19041
frame 00000123#0322F190
frame 7E8#0462F19041
frame 123#0322F190
frame 124#0462F19041
frame 7E1#0322F190
frame 7E9#0462F19041
frame 7E1#0322F190
frame 7E9#0462F19041
pair 2 2 7E1 7E9
pair 1 2 123 124
pair 1 1 7E0 7E8

the partner is the tester, also where others have more credits, or it has none
frame 7E0#0322F18C
frame 7E1#0322F190
frame 7E8#0462F19041
frame 7E1#0322F190
frame 7E8#0462F19041
pair 0 1 7E0 7E8

a partner that doesn't ask is none
frame 7E0#037F2231
frame 7E1#0322F190
frame 7E8#0462F19041
pair 1 1 7E1 7E8

the partners of 7E8 and 7EF, and none of 7F0 and 7E7
frame 7E0#0322F18C
frame 7E7#0322F18C
frame 7E8#0462F18C41
frame 7EF#0462F18C41
frame 7F0#0462F18C41
frame 7E8#0462F18C41
frame 6F0#023E00
frame 7E7#027E00
pair 1 1 6F0 7E7
pair 1 1 7E7 7EF
pair 1 1 7E7 7F0
pair 0 1 7E0 7E8

the partner of normal fixed addressing
frame 18DA10F1#0322F190
frame 18DAF110#0462F19041
frame 18DB33F1#0322F190
frame 18DAF110#0462F19041
frame 18DAF128#0462F19041
pair 1 1 18DA10F1 18DAF110 18DB33F1
pair 1 1 18DB33F1 18DAF128

an identifier of both addresses alike is no partner of itself
frame 18DA1010#0322F190
frame 6F0#0322F190
frame 18DA1010#0462F19041
pair 1 1 6F0 18DA1010

one that isn't functional before one that is, with fewer credits too
frame 7DF#0322F190
frame 123#0462F19041
frame 7DF#0322F190
frame 123#0462F19041
frame 6F0#0322F190
frame 123#0462F19041
pair 1 1 6F0 123 7DF

of two that are functional the one with most credits
frame 7DF#0322F190
frame 123#0462F19041
frame 18DB33F1#0322F190
frame 123#0462F19041
frame 18DB33F1#0322F190
frame 123#0462F19041
pair 2 2 18DB33F1 123 7DF

the most credits, and then the first by its text
frame 6F1#0322F190
frame 123#0462F19041
frame 6F0#0322F190
frame 123#0462F19041
frame 6F2#0322F190
frame 124#0462F19041
frame 6F2#0322F190
frame 124#0462F19041
frame 6F0#0322F190
frame 124#0462F19041
pair 2 2 6F2 124
pair 1 2 6F0 123

answers to two services of which one is asked again
frame 6F0#0322F190
frame 6F0#0210030000000000
frame 123#0462F19041
frame 123#025003
frame 123#0462F19041
frame 6F0#0322F190
frame 123#0462F19041
pair 3 3 6F0 123

an answer that comes after another asking is credited to that one
frame 6F0#0322F190
frame 123#0462F19041
frame 6F1#0322F190
frame 123#0462F19041
frame 123#0462F19041
frame 6F1#0322F190
frame 123#0462F19041
pair 2 2 6F1 123
";

#[test]
fn answers_are_credited(rt: HostRuntime) -> Result<(), Fail> {
    assert_credited(&rt, rt.alloc(), LOGS)
}

/// The frames of each row have the units that stand there.
pub(crate) fn assert_credited(rt: &impl Abort, alloc: Global, rows: &str) -> Result<(), Fail> {
    for row in rows_of(rows) {
        let found = pairs_of(alloc, row)?;
        assert_marked(rt, alloc, row, "pair", found.as_str())?;
    }
    Ok(())
}

/// The lines of the units of a row's frames.
fn pairs_of(alloc: Global, row: &str) -> Result<String, Fail> {
    let mut finder = Finder::new(alloc);
    for line in lines_of(row) {
        if let Some(spelled) = line.strip_prefix("frame ") {
            finder.take(&frame_of(alloc, spelled)?)?;
        }
    }
    lines_told(alloc, finder.finish(alloc)?)
}

/// Tells lines as a row spells them.
fn lines_told(alloc: Global, lines: Vec<CreditLine>) -> Result<String, Fail> {
    let mut text = String::new(alloc);
    for line in &lines {
        let tester = str::from_utf8(line.tester.as_slice())?;
        let unit = str::from_utf8(line.unit.as_slice())?;
        let told = format!(in alloc; "{} {} {tester} {unit}", line.credits, line.requests)?;
        text.push_str(told.as_str())?;
        if let Some(functional) = &line.functional {
            text.push_str(" ")?;
            text.push_str(str::from_utf8(functional.as_slice())?)?;
        }
        text.push_str("\n")?;
    }
    Ok(text)
}

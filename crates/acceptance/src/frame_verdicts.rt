//! What each frame does to the receptions: its verdict, and the reception that it ends. No expected value comes from the program.

use crate::rows::{assert_marked, digits_of, frame_of, lines_of, number_of, rows_of, shown};
use direction::Dir::{self, Tester, Unit};
use isotp_receive::{Channel, Ended, Pair, Verdict};
use std::alloc::{AllocError, Global};
use std::process::Abort;
use std::test::Fail;

/// Frames at their microseconds and what each does, and the receptions that are open after them. Consecutive frames on time
/// and late.
const TIMES: &str = "\
a wait frame moves the deadline forward
frame 10000000 7E8#101462F190574241
event Began
frame 10500000 7E8#2133413543353045
event Stored
frame 11000000 7E0#310000
event Flow
frame 11900000 7E8#2246313233343536
event Message 62F1905742413341354335304546313233343536

a wait frame moves it back
frame 10000000 7E8#101462F190574241
event Began
frame 10500000 7E8#2133413543353045
event Stored
frame 5000000 7E0#310000
event Flow
frame 6000001 7E8#2246313233343536
event ends Unit, line 1, 20 bytes, Late: Dropped(NextLate)

a frame a second after it
frame 10000000 7E8#101462F190574241
event Began
frame 10500000 7E8#2133413543353045
event Stored
frame 5000000 7E0#310000
event Flow
frame 6000000 7E8#2246313233343536
event Message 62F1905742413341354335304546313233343536

a frame before it
frame 10000000 7E8#101462F190574241
event Began
frame 10500000 7E8#2133413543353045
event Stored
frame 5000000 7E0#310000
event Flow
frame 4000000 7E8#2246313233343536
event Message 62F1905742413341354335304546313233343536

exactly a second, up to the last time
frame 18446744073708551615 7E8#100862F190414243
event Began
frame 18446744073709551615 7E8#214445
event Message 62F1904142434445

one microsecond more than a second
frame 18446744073708551614 7E8#100862F190414243
event Began
frame 18446744073709551615 7E8#214445
event ends Unit, line 1, 8 bytes, Late: Dropped(NextLate)

from the last time to the first
frame 18446744073709551615 7E8#100862F190414243
event Began
frame 0 7E8#214445
event Message 62F1904142434445
";

/// The same of sequence numbers and lengths, and the first reason that holds.
const REASONS: &str = "\
a last frame shorter than RX_DL
frame 0 7E8##01046000102030405060708090A0B0C0D0E0F101112131415161718191A1B1C1D1E1F202122232425262728292A2B2C2D2E2F303132333435363738393A3B3C3D
event Began
frame 0 7E8##0213E3F404142434445464748
event Message 000102030405060708090A0B0C0D0E0F101112131415161718191A1B1C1D1E1F202122232425262728292A2B2C2D2E2F303132333435363738393A3B3C3D3E3F404142434445

a last frame as long as RX_DL
frame 0 7E8##01046000102030405060708090A0B0C0D0E0F101112131415161718191A1B1C1D1E1F202122232425262728292A2B2C2D2E2F303132333435363738393A3B3C3D
event Began
frame 0 7E8##0213E3F404142434445464748494A4B4C4D4E4F505152535455565758595A5B5C5D5E5F606162636465666768696A6B6C6D6E6F707172737475767778797A7B7C
event Message 000102030405060708090A0B0C0D0E0F101112131415161718191A1B1C1D1E1F202122232425262728292A2B2C2D2E2F303132333435363738393A3B3C3D3E3F404142434445

a last frame too short for what is missing
frame 0 7E8##01046000102030405060708090A0B0C0D0E0F101112131415161718191A1B1C1D1E1F202122232425262728292A2B2C2D2E2F303132333435363738393A3B3C3D
event Began
frame 0 7E8#213E3F4041424344
event ends Unit, line 1, 70 bytes, Length: Dropped(NextLength)

a frame that is not the last, and shorter
frame 0 7E8##01082000102030405060708090A0B0C0D0E0F101112131415161718191A1B1C1D1E1F202122232425262728292A2B2C2D2E2F303132333435363738393A3B3C3D
event Began
frame 0 7E8##0213E3F404142434445464748494A4B4C4D4E4F505152535455565758595A5B5C5D5E5F606162636465666768696A6B6C
event ends Unit, line 1, 130 bytes, Length: Dropped(NextLength)

a frame that is not the last, and longer
frame 0 7E8##01082000102030405060708090A0B0C0D0E0F101112131415
event Began
frame 0 7E8##021161718191A1B1C1D1E1F202122232425262728292A2B2C2D2E2F3031323334
event ends Unit, line 1, 130 bytes, Length: Dropped(NextLength)

a last frame longer than RX_DL
frame 0 7E8#100C000102030405
event Began
frame 0 7E8##021060708090A0B0C0D0E0F10
event ends Unit, line 1, 12 bytes, Length: Dropped(NextLength)

a last frame without a byte
frame 0 7E8#100C000102030405
event Began
frame 0 7E8#21
event ends Unit, line 1, 12 bytes, Length: Dropped(NextLength)

late, of three reasons
frame 0 7E8#101462F190574241
event Began
frame 1000001 7E8#2533
event ends Unit, line 1, 20 bytes, Late: Dropped(NextLate)
frame 1000001 7E8#2133413543353045
event Dropped(NextUnexpected)

the number, of two
frame 0 7E8#101462F190574241
event Began
frame 1000000 7E8#2533
event ends Unit, line 1, 20 bytes, Sequence: Dropped(NextSequence { expected: 1, found: 5 })
frame 1000000 7E8#2133413543353045
event Dropped(NextUnexpected)

the length alone
frame 0 7E8#101462F190574241
event Began
frame 1000000 7E8#2133
event ends Unit, line 1, 20 bytes, Length: Dropped(NextLength)
frame 1000000 7E8#2133413543353045
event Dropped(NextUnexpected)

where nothing began
frame 0 7E8#2133413543353045
event Dropped(NextUnexpected)
";

/// The same of what ends a reception, or leaves it.
const ENDS: &str = "\
an overflow before the first consecutive frame
frame 0 7E8#101462F190574241
event Began
frame 0 7E0#320000
event ends Unit, line 1, 20 bytes, Overflow: Flow
frame 0 7E8#2133413543353045
event Dropped(NextUnexpected)
frame 0 7E0#300000
event Dropped(FlowUnexpected)

an overflow after it
frame 0 7E8#101462F190574241
event Began
frame 0 7E8#2133413543353045
event Stored
frame 900000 7E0#320000
event Dropped(FlowUnexpected)
frame 1000000 7E8#2246313233343536
event Message 62F1905742413341354335304546313233343536

an overflow after it is no reference
frame 0 7E8#101462F190574241
event Began
frame 0 7E8#2133413543353045
event Stored
frame 900000 7E0#320000
event Dropped(FlowUnexpected)
frame 1000001 7E8#2246313233343536
event ends Unit, line 1, 20 bytes, Late: Dropped(NextLate)

a single frame ends the reception
frame 0 7E8#101462F190574241
event Began
frame 0 7E8#0462F19041000000
event ends Unit, line 1, 20 bytes, NewStart: Message 62F19041

a single frame alone
frame 0 7E8#0462F19041000000
event Message 62F19041

a first frame of the longest message ends the reception
frame 0 7E8#101462F190574241
event Began
frame 0 7E8#1000000FFFFF4142
event ends Unit, line 1, 20 bytes, NewStart: Began
open Unit, line 2, 1048575 bytes

a first frame of the longest message alone
frame 0 7E8#1000000FFFFF4142
event Began
open Unit, line 1, 1048575 bytes

a first frame of 65,536 bytes ends the reception
frame 0 7E8#101462F190574241
event Began
frame 0 7E8#1000000100004142
event ends Unit, line 1, 20 bytes, NewStart: Began
open Unit, line 2, 65536 bytes

a first frame of 65,536 bytes alone
frame 0 7E8#1000000100004142
event Began
open Unit, line 1, 65536 bytes

a first frame of too many bytes ends the reception
frame 0 7E8#101462F190574241
event Began
frame 0 7E8#1000001000004142
event ends Unit, line 1, 20 bytes, NewStart: Dropped(TooLong { announced: 1048576 })

a first frame of too many bytes alone
frame 0 7E8#1000001000004142
event Dropped(TooLong { announced: 1048576 })

the first frame alone
frame 0 7E8#101462F190574241
event Began
open Unit, line 1, 20 bytes
";

/// The same of frames to all units: they touch no reception.
const TO_ALL: &str = "\
a message to all inside one of the unit
frame 10000000 7E8#101462F190574241
event Began
frame 10000001 7E0#300000
event Flow
frame 10400000 7DF#023E80
event Message 3E80
frame 10900000 7E8#2133413543353045
event Stored
frame 11900000 7E8#2246313233343536
event Message 62F1905742413341354335304546313233343536

inside one of the tester
frame 0 7E0#100A2EF190414243
event Began
frame 1000 7DF#023E80
event Message 3E80
frame 2000 7E0#2144454647
event Message 2EF19041424344454647

it moves no deadline
frame 0 7E0#100A2EF190414243
event Began
frame 900000 7DF#023E80
event Message 3E80
frame 1000001 7E0#2144454647
event ends Tester, line 1, 10 bytes, Late: Dropped(NextLate)

flow control to all is for nobody
frame 0 7E8#100862F190414243
event Began
frame 900000 7DF#300000
event Dropped(FunctionalNotSingle)
frame 1000001 7E8#214445
event ends Unit, line 1, 8 bytes, Late: Dropped(NextLate)

a first frame begins nothing, however much it announces
frame 0 7DF#1000001000004142
event Dropped(FunctionalNotSingle)
frame 1 7DF#100A2EF190414243
event Dropped(FunctionalNotSingle)
frame 2 7DF#2144454647
event Dropped(FunctionalNotSingle)

overflow to all ends nothing
frame 0 7E8#100862F190414243
event Began
frame 1 7DF#320000
event Dropped(FunctionalNotSingle)
frame 2 7E8#214445
event Message 62F1904142434445

a fault of layout is told first
frame 0 7DF#3000
event Dropped(Pdu(FlowShort))
";

#[test]
fn each_frame_does_what_its_row_says(rt: HostRuntime) -> Result<(), Fail> {
    for table in [TIMES, REASONS, ENDS, TO_ALL] {
        for row in rows_of(table) {
            follow(&rt, rt.alloc(), row)?;
        }
    }
    Ok(())
}

/// A pair that takes the frames of a row, one in each line, does what the row says.
fn follow(rt: &impl Abort, alloc: Global, row: &str) -> Result<(), Fail> {
    let mut pair = Pair::new(alloc);
    let mut events = String::new(alloc);
    let mut line = 0u64;
    for text in lines_of(row) {
        if let Some(frame) = text.strip_prefix("frame ") {
            line = line.saturating_add(1);
            push_event(alloc, &mut events, &mut pair, line, frame)?;
        }
    }
    assert_marked(rt, alloc, row, "event", events.as_str())?;
    let mut open = String::new(alloc);
    push_open(alloc, &mut open, &pair, Tester)?;
    push_open(alloc, &mut open, &pair, Unit)?;
    assert_marked(rt, alloc, row, "open", open.as_str())?;
    Ok(())
}

/// Tells what a frame does, of the tester 7E0, to all units on 7DF, or of the unit, after its microseconds.
fn push_event(
    alloc: Global,
    text: &mut String,
    pair: &mut Pair,
    line: u64,
    frame: &str,
) -> Result<(), Fail> {
    let (micros, frame) = frame.split_once(' ').ok_or("no time")?;
    let channel = if frame.starts_with("7E0") {
        Channel::Tester
    } else if frame.starts_with("7DF") {
        Channel::Functional
    } else {
        Channel::Unit
    };
    let (micros, frame) = (number_of(micros)?, frame_of(alloc, frame)?);
    let event = pair.accept(line, micros, channel, &frame)?;
    if let Some(ended) = event.ended {
        push_ended(alloc, text, ended)?;
    }
    push_verdict(alloc, text, event.verdict)?;
    Ok(())
}

fn push_ended(alloc: Global, text: &mut String, ended: Ended) -> Result<(), AllocError> {
    let (dir, line, len, cause) = (ended.dir, ended.begun_line, ended.len, ended.cause);
    let told = format!(in alloc; "ends {dir:?}, line {line}, {len} bytes, {cause:?}: ")?;
    text.push_str(&told)
}

fn push_verdict(alloc: Global, text: &mut String, verdict: Verdict<'_>) -> Result<(), AllocError> {
    if let Verdict::Message(bytes) = verdict {
        text.push_str("Message ")?;
        text.push_str(&digits_of(alloc, bytes)?)?;
    } else {
        text.push_str(&shown(alloc, &verdict)?)?;
    }
    text.push_str("\n")
}

/// Tells the reception of a direction, where one is open.
fn push_open(alloc: Global, text: &mut String, pair: &Pair, dir: Dir) -> Result<(), AllocError> {
    if let Some((line, len)) = pair.open(dir) {
        text.push_str(&format!(in alloc; "{dir:?}, line {line}, {len} bytes\n")?)?;
    }
    Ok(())
}

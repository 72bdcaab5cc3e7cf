//! Answers that repeat what was asked, and others. No value here comes from the program: which bytes a positive response repeats
//! stands in the sections of its service in ISO 14229-1.

use crate::rows::{assert_text, bytes_of, lines_of};
use std::alloc::Global;
use std::test::Fail;
use uds_echo::answers_other;
use uds_rules::{RuleTable, Rules, mask_rule};

/// A request, what answers it, and whether the answer repeats what was asked.
const ANSWERS: &str = "\
1003 5003003201F4 same
1003 5001003201F4 other
1083 5003003201F4 same
1003 5083003201F4 same
1083 5001003201F4 other
1003 50 same
10 5003 same
1101 5101 same
1101 5102 other
190209 5902FF01234508 same
190209 590AFF01234508 other
2701 6701A53C same
2702A53C 6704 other
2803 6803 same
2803 6800 other
2908 6908 same
2908 6900 other
3E00 7E00 same
3E80 7E00 same
3E00 7E01 other
8301 C301 same
8301 C302 other
8502 C502 same
8502 C501 other
8605 C605 same
8605 C600 other
8703 C703 same
8703 C701 other
22F190 62F19041 same
22F101 62F10041 other
22F190 62E19041 other
22F190F18C 62F19041F18C42 same
22F190F18C 62F18C42 same
22F190F18C 62F18B42 other
22F190F18C 6290F142 other
22F19001020304F18C 62F18C42 same
22F1900102030405F18C 62020342 other
22F190F1 62F19041 same
22F190F1 62F1F141 other
22F190 62F1 same
22F190 62 same
22F1 62F190 same
22 62F190 same
24F190 64F190A0 same
24F190 64F191A0 other
2EF19041 6EF190 same
2EF19041 6EF191 other
2EF1 6EF191 same
2FF19003 6FF19003 same
2FF19003 6FF19103 other
2C01F200F1900101 6C01F200 same
2C01F200F1900101 6C01F201 other
2C01F200F1900101 6C02F200 other
2C01F200F1900101 6C01 same
2C01F200F1900101 6C02 other
2C03 6C03 same
2C03 6C01 other
2C03 6C03F200 same
2C03F2 6C03F3 same
3101FF00 7101FF00 same
3101FF00 7101FF01 other
3101FE00 7101FF00 other
3101FF00 7102FF00 other
3181FF00 7101FF00 same
3181FF00 7101FF01 other
3103FF00 7103FF01 other
3104FF00 7104FF01 same
3104FF00 7103FF00 other
3100FF00 7100FF01 same
3101FF00 7102 same
3101FF 7101FF00 same
3601AABB 7601 same
3601AABB 7602 other
3681AABB 7601 other
36 7602 same
380100 7801 same
380100 7802 other
14FFFFFF 54FFFFFE same
231201020304 6312 same
2A01F2 6A02 same
340011 7420 same
350011 7520 same
3701 7702 same
3D1201 7D13 same
8401 C402 same
0901 4902 same
1A86 5A87 same
2101 6102 same
BA01 FA02 same
22F190 7F2231 same
22F190 7F2278 same
3F01 7F02 same
22F190 6EF191 same
1003 6703 same
22F190  same
 62F190 same";

/// A request and what answers it, as a mask has left them, the mask, and whether the answer repeats what was asked.
const MASKED: &str = "\
22F101 62F10041 62F1.. same
22F100 62F10041 22F1.. same
22F101 620000 62.... same
22F101 620000 62..?? other
22F101 62F100 62F1??.. other
22F101 62F1 62F1* same
220000F18C 62F19041 22.... same
22F18CF100 62F19041 22F18C??.. same
22F18CE100 62F19041 22F18C??.. other
22F190 62F100 63.... other
3101FF00 71010000 7101.... same
3101FF00 71020000 7101.... other
3101FF00 7101FF01 7101??.. same
2EF19041 6E0001 6E..?? other
2EF19041 6E0090 6E..?? same
36FF 7600 7601* other
3601AA 7600 76.. same";

#[test]
fn answers_repeat_what_was_asked(rt: HostRuntime) -> Result<(), Fail> {
    let alloc = rt.alloc();
    for row in lines_of(ANSWERS) {
        let (request, rest) = row.split_once(' ').ok_or("no answer")?;
        let (answer, expected) = rest.split_once(' ').ok_or("nothing expected")?;
        let found = answered(alloc, &Rules::none(), request, answer)?;
        assert_text(&rt, row, found, expected);
    }
    Ok(())
}

#[test]
fn masked_places_are_not_compared(rt: HostRuntime) -> Result<(), Fail> {
    let alloc = rt.alloc();
    for row in lines_of(MASKED) {
        let (request, rest) = row.split_once(' ').ok_or("no answer")?;
        let (answer, rest) = rest.split_once(' ').ok_or("no mask")?;
        let (mask, expected) = rest.split_once(' ').ok_or("nothing expected")?;
        let mut table = RuleTable::none();
        table
            .add(mask_rule(mask).ok().ok_or("no mask")?)
            .ok()
            .ok_or("no room")?;
        let rules = Rules::of_table(alloc, table)?;
        let found = answered(alloc, &rules, request, answer)?;
        assert_text(&rt, row, found, expected);
    }
    Ok(())
}

/// Whether an answer repeats what was asked, in a word.
fn answered(
    alloc: Global,
    rules: &Rules,
    request: &str,
    answer: &str,
) -> Result<&'static str, Fail> {
    let request = bytes_of(alloc, request)?;
    let answer = bytes_of(alloc, answer)?;
    if answers_other(rules, &request, &answer) {
        Ok("other")
    } else {
        Ok("same")
    }
}

//! The slowest answers by worked values. No value here comes from the program.

use crate::rows::{assert_text, lines_of, number_of};
use slow_answers::{
    AnswerBeside, LongerAnswers, SlowAnswer, SlowestAnswers, took_much_longer, waited,
};
use std::alloc::Global;
use std::test::Fail;

/// How long each item waited, in order; and the items of the slowest, the slowest one first.
const SLOWEST: &str = "\
5 > 1
5 7 > 2 1
7 5 > 1 2
5 5 5 > 1 2 3
0 9 0 > 2 1 3
1 2 3 4 5 6 7 8 9 10 > 10 9 8 7 6 5 4 3 2 1
1 2 3 4 5 6 7 8 9 10 11 > 11 10 9 8 7 6 5 4 3 2
11 10 9 8 7 6 5 4 3 2 1 > 1 2 3 4 5 6 7 8 9 10
4 4 4 4 4 4 4 4 4 4 4 > 1 2 3 4 5 6 7 8 9 10
4 4 4 4 4 4 4 4 4 4 5 > 11 1 2 3 4 5 6 7 8 9
4 3 4 3 4 3 4 3 4 3 4 3 4 > 1 3 5 7 9 11 13 2 4 6
9 1 1 1 1 1 1 1 1 1 2 2 1 9 > 1 14 11 12 2 3 4 5 6 7";

/// When a request ended, when its answer began, and how long it waited, in microseconds.
const WAITED: &str = "\
0 0 0
1700000500000000 1700000500041302 41302
5 4 -
1 0 -
0 18446744073709551615 18446744073709551615";

/// How long answers took, each before the one beside it, in microseconds; how many of them took much longer, and which of
/// these is the slowest, counted from 1.
const LONGER: &str = "\
0/0 > 0
50000/0 > 1 1
49999/0 > 0
0/50000 > 0
100000/50000 > 0
100001/50000 > 1 1
200000/100000 > 0
200001/100000 > 1 1
59999/10000 > 0
60000/10000 > 1 1
109999/59999 > 0
640000/31000 31000/640000 > 1 1
5/5 70000/3 90000/4 90000/5 > 3 3
90000/40000 60000/0 80000/1 > 3 1
60000/59000 60000/0 60000/0 > 2 2
18446744073709551615/9223372036854775807 > 1 1
18446744073709551615/9223372036854775808 > 0
18446744073709551615/18446744073709551615 > 0";

#[test]
fn the_ten_slowest_stand_in_order(rt: HostRuntime) -> Result<(), Fail> {
    let alloc = rt.alloc();
    for row in lines_of(SLOWEST) {
        let (times, expected) = row.split_once(" > ").ok_or("nothing expected")?;
        let mut slowest = SlowestAnswers::new();
        let mut item = 0;
        for time in times.split(' ') {
            item = next(item);
            slowest.take(SlowAnswer {
                item,
                service: 0x22,
                micros: number_of(time)?,
                pending: 0,
            });
        }
        let found = items_of(alloc, slowest.as_slice())?;
        assert_text(&rt, row, found.as_str(), expected);
    }
    Ok(())
}

#[test]
fn a_request_waits_for_its_answer(rt: HostRuntime) -> Result<(), Fail> {
    let alloc = rt.alloc();
    for row in lines_of(WAITED) {
        let (asked, rest) = row.split_once(' ').ok_or("no answer")?;
        let (began, expected) = rest.split_once(' ').ok_or("nothing expected")?;
        let found = match waited(number_of(asked)?, number_of(began)?) {
            Some(micros) => format!(in alloc; "{micros}")?,
            None => format!(in alloc; "-")?,
        };
        assert_text(&rt, row, found.as_str(), expected);
    }
    Ok(())
}

#[test]
fn the_slowest_of_much_longer_answers_is_found(rt: HostRuntime) -> Result<(), Fail> {
    let alloc = rt.alloc();
    for row in lines_of(LONGER) {
        let (pairs, expected) = row.split_once(" > ").ok_or("nothing expected")?;
        let mut found = LongerAnswers::none();
        let mut place: usize = 0;
        for pair in pairs.split(' ') {
            let (micros, other) = pair.split_once('/').ok_or("no answer beside it")?;
            let answer = AnswerBeside {
                left: place,
                right: 0,
                micros: number_of(micros)?,
                other: number_of(other)?,
            };
            if found.count < 1_000 {
                found = found.with(answer);
            }
            place = place.saturating_add(1);
        }
        let told = match found.slowest {
            Some(slowest) => format!(in alloc;
                "{} {}",
                found.count,
                slowest.left.saturating_add(1)
            )?,
            None => format!(in alloc; "{}", found.count)?,
        };
        assert_text(&rt, row, told.as_str(), expected);
    }
    assert!(rt; took_much_longer(100_001, 50_000) && !took_much_longer(50_000, 100_001));
    Ok(())
}

/// The number behind another.
fn next(number: u64) -> u64 {
    number.saturating_add(1)
}

/// The items of some answers, with blanks between.
fn items_of(alloc: Global, answers: &[SlowAnswer]) -> Result<String, Fail> {
    let mut text = String::new(alloc);
    for answer in answers {
        if !text.is_empty() {
            text.push_str(" ")?;
        }
        text.push_str(&format!(in alloc; "{}", answer.item)?)?;
    }
    Ok(text)
}

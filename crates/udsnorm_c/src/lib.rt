//! The canonical form for C: logs in memory, and texts about them in memory of the caller.
//!
//! A call is handed the identifiers of the two sides, as Linux's `canid_t` has them, the limit of a log and of its
//! canonical log in bytes, the text of a profile and the name of one of its units, a log, and room for a text. What came of it stands in the answer, and its status is the
//! result too. Where the room is too small, nothing is put there, and the answer says how much is wanted. `udsnorm.h`
//! has the calls for C.
//!
//! A text is gathered in memory that the call takes and gives back. Nothing else is kept, so calls may run at once.
#![tactic(auto)]

ghost use Rattle.std.specs.Prelude.{◌≡◌, slice_index_or};
ghost use Rattle.isotp_receive.specs.declared.TheConstants.{MESSAGE_LIMIT};
ghost use Rattle.udsnorm_c.specs.Answered.{CompareAnswers, DiffAnswers, ExplainAnswers, FindAnswers, ListAnswers, MessagesAnswers, NormaliseAnswers, ReportAnswers, ReportPairAnswers};
ghost use Rattle.udsnorm_c.specs.Given.{given_of};
ghost use Rattle.udsnorm_c.specs.Spelled.{version, words_for_c};

mod answer;
mod differences;
mod given;
pub mod laws;
mod pages;
mod room;
mod sides;

use crate::answer::{WORDS, comparison_answer, no_style, status_words};
use crate::differences::put_pair_difference;
use crate::given::{Given, config_given, put_refusal, usual_given};
use crate::pages::{put_pair_report, put_report};
use crate::room::{put, put_front};
use crate::sides::{notation_of, style_of};
pub use answer::{UdsnormAnswer, UdsnormWords};
use std::alloc::Global;
use trace_canon::in_memory;

/// The numbers of the version, a byte for each: that of `VERSION` at the top.
const VERSION: u32 = 0x01_00_00;

/// The canonical log of a log.
#[unsafe(no_mangle)]
pub extern "C" fn udsnorm_normalise(
    alloc: Global,
    tester: u32,
    unit: u32,
    limit: u64,
    profile: &[u8],
    only: &[u8],
    log: &[u8],
    out: &mut [u8],
    answer: &mut UdsnormAnswer,
) -> u32
    ensures answers { NormaliseAnswers MESSAGE_LIMIT (given_of tester unit limit profile.now only.now) log.now out.old out.new answer.new }
    ensures status { result ≡ answer.new.status }
{
    *answer = match config_given(
        alloc,
        Given {
            tester,
            unit,
            limit,
            profile,
            only,
        },
    ) {
        Ok(config) => put(in_memory::canonical_log(alloc, &config, log), out),
        Err(why) => put_refusal(why, out),
    };
    answer.status
}

/// The list of the items of a log, in this style.
#[unsafe(no_mangle)]
pub extern "C" fn udsnorm_list(
    alloc: Global,
    tester: u32,
    unit: u32,
    limit: u64,
    profile: &[u8],
    only: &[u8],
    style: u32,
    log: &[u8],
    out: &mut [u8],
    answer: &mut UdsnormAnswer,
) -> u32
    ensures answers { ListAnswers MESSAGE_LIMIT (given_of tester unit limit profile.now only.now) style log.now out.old out.new answer.new }
    ensures status { result ≡ answer.new.status }
{
    *answer = match config_given(
        alloc,
        Given {
            tester,
            unit,
            limit,
            profile,
            only,
        },
    ) {
        Ok(config) => match style_of(style) {
            Some(style) => put(in_memory::item_list(alloc, &config, style, log), out),
            None => no_style(),
        },
        Err(why) => put_refusal(why, out),
    };
    answer.status
}

/// A line for each message of a log, with its place, in this style.
#[unsafe(no_mangle)]
pub extern "C" fn udsnorm_messages(
    alloc: Global,
    tester: u32,
    unit: u32,
    limit: u64,
    profile: &[u8],
    only: &[u8],
    style: u32,
    log: &[u8],
    out: &mut [u8],
    answer: &mut UdsnormAnswer,
) -> u32
    ensures answers { MessagesAnswers MESSAGE_LIMIT (given_of tester unit limit profile.now only.now) style log.now out.old out.new answer.new }
    ensures status { result ≡ answer.new.status }
{
    *answer = match config_given(
        alloc,
        Given {
            tester,
            unit,
            limit,
            profile,
            only,
        },
    ) {
        Ok(config) => match notation_of(style) {
            Some(notation) => put(in_memory::message_lines(alloc, &config, notation, log), out),
            None => no_style(),
        },
        Err(why) => put_refusal(why, out),
    };
    answer.status
}

/// What each frame of a log did, in this style.
#[unsafe(no_mangle)]
pub extern "C" fn udsnorm_explain(
    alloc: Global,
    tester: u32,
    unit: u32,
    limit: u64,
    profile: &[u8],
    only: &[u8],
    style: u32,
    log: &[u8],
    out: &mut [u8],
    answer: &mut UdsnormAnswer,
) -> u32
    ensures answers { ExplainAnswers MESSAGE_LIMIT (given_of tester unit limit profile.now only.now) style log.now out.old out.new answer.new }
    ensures status { result ≡ answer.new.status }
{
    *answer = match config_given(
        alloc,
        Given {
            tester,
            unit,
            limit,
            profile,
            only,
        },
    ) {
        Ok(config) => match notation_of(style) {
            Some(notation) => put(in_memory::explanation(alloc, &config, notation, log), out),
            None => no_style(),
        },
        Err(why) => put_refusal(why, out),
    };
    answer.status
}

/// A line for each pair of identifiers of which one answered the other, in this style. No identifier is asked for.
#[unsafe(no_mangle)]
pub extern "C" fn udsnorm_find(
    alloc: Global,
    limit: u64,
    style: u32,
    log: &[u8],
    out: &mut [u8],
    answer: &mut UdsnormAnswer,
) -> u32
    ensures answers { FindAnswers MESSAGE_LIMIT limit style log.now out.old out.new answer.new }
    ensures status { result ≡ answer.new.status }
{
    *answer = match config_given(alloc, usual_given(limit)) {
        Ok(config) => match notation_of(style) {
            Some(notation) => put(in_memory::credit_lines(alloc, &config, notation, log), out),
            None => no_style(),
        },
        Err(why) => put_refusal(why, out),
    };
    answer.status
}

/// What two logs are to each other.
#[unsafe(no_mangle)]
pub extern "C" fn udsnorm_compare(
    alloc: Global,
    tester: u32,
    unit: u32,
    limit: u64,
    profile: &[u8],
    only: &[u8],
    left: &[u8],
    right: &[u8],
    out: &mut [u8],
    answer: &mut UdsnormAnswer,
) -> u32
    ensures answers { CompareAnswers MESSAGE_LIMIT (given_of tester unit limit profile.now only.now) left.now right.now out.old out.new answer.new }
    ensures status { result ≡ answer.new.status }
{
    *answer = match config_given(
        alloc,
        Given {
            tester,
            unit,
            limit,
            profile,
            only,
        },
    ) {
        Ok(config) => comparison_answer(in_memory::comparison(alloc, &config, left, right)),
        Err(why) => put_refusal(why, out),
    };
    answer.status
}

/// Where two logs differ, which have these names there, in this style, and what they are to each other.
#[unsafe(no_mangle)]
pub extern "C" fn udsnorm_diff(
    alloc: Global,
    tester: u32,
    unit: u32,
    limit: u64,
    profile: &[u8],
    only: &[u8],
    style: u32,
    left_name: &[u8],
    left: &[u8],
    right_name: &[u8],
    right: &[u8],
    out: &mut [u8],
    answer: &mut UdsnormAnswer,
) -> u32
    ensures answers { DiffAnswers MESSAGE_LIMIT (given_of tester unit limit profile.now only.now) style left_name.now right_name.now left.now right.now out.old out.new answer.new }
    ensures status { result ≡ answer.new.status }
{
    *answer = match config_given(
        alloc,
        Given {
            tester,
            unit,
            limit,
            profile,
            only,
        },
    ) {
        Ok(config) => put_pair_difference(
            alloc, &config, style, left_name, left, right_name, right, out,
        ),
        Err(why) => put_refusal(why, out),
    };
    answer.status
}

/// The page of a log, which has this name there.
#[unsafe(no_mangle)]
pub extern "C" fn udsnorm_report(
    alloc: Global,
    tester: u32,
    unit: u32,
    limit: u64,
    profile: &[u8],
    only: &[u8],
    name: &[u8],
    log: &[u8],
    out: &mut [u8],
    answer: &mut UdsnormAnswer,
) -> u32
    ensures answers { ReportAnswers MESSAGE_LIMIT (given_of tester unit limit profile.now only.now) name.now log.now out.old out.new answer.new }
    ensures status { result ≡ answer.new.status }
{
    *answer = match config_given(
        alloc,
        Given {
            tester,
            unit,
            limit,
            profile,
            only,
        },
    ) {
        Ok(config) => put_report(alloc, &config, name, log, out),
        Err(why) => put_refusal(why, out),
    };
    answer.status
}

/// The page of two logs, which have these names there, and what they are to each other.
#[unsafe(no_mangle)]
pub extern "C" fn udsnorm_report_pair(
    alloc: Global,
    tester: u32,
    unit: u32,
    limit: u64,
    profile: &[u8],
    only: &[u8],
    left_name: &[u8],
    left: &[u8],
    right_name: &[u8],
    right: &[u8],
    out: &mut [u8],
    answer: &mut UdsnormAnswer,
) -> u32
    ensures answers { ReportPairAnswers MESSAGE_LIMIT (given_of tester unit limit profile.now only.now) left_name.now right_name.now left.now right.now out.old out.new answer.new }
    ensures status { result ≡ answer.new.status }
{
    *answer = match config_given(
        alloc,
        Given {
            tester,
            unit,
            limit,
            profile,
            only,
        },
    ) {
        Ok(config) => put_pair_report(alloc, &config, left_name, left, right_name, right, out),
        Err(why) => put_refusal(why, out),
    };
    answer.status
}

/// What a status means, in a few words, with a 0 behind them.
#[tactic(auto, using(crate::proofs::Words::words_end))]
#[unsafe(no_mangle)]
pub extern "C" fn udsnorm_status_text(status: u32) -> UdsnormWords
    ensures words { result.text ≡ words_for_c status }
    ensures ended { slice_index_or result.text 47 1 ≡ 0 }
{
    let mut text = [0; WORDS];
    put_front(status_words(status), &mut text);
    UdsnormWords { text }
}

/// The version of the library.
#[unsafe(no_mangle)]
pub extern "C" fn udsnorm_version() -> u32
    ensures { result ≡ version }
{
    VERSION
}

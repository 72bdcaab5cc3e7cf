//! What a call answers, as C sees it.
ghost use Rattle.std.specs.Prelude.{◌≡◌};
ghost use Rattle.udsnorm_c.specs.Answered as Spec;
ghost use Rattle.udsnorm_c.specs.Spelled.{status_words};

use trace_canon::Comparison;
use trace_canon::in_memory::CountedComparison;
use trace_log::{CompareFault, ConfigFault, Fault, Summary};
use trace_pair::in_memory::NoPairPage;

/// What came of a call. Which fields say something depends on the status; the others are 0.
#[repr(C)]
#[derive(Clone, Copy, Debug, PartialEq, Eq)]
pub struct UdsnormAnswer {
    pub status: u32,
    /// The column of a refused place, from 1.
    pub column: u32,
    /// Its line, from 1, or that of the message that announces too much.
    pub line: u64,
    /// The bytes that this message announces.
    pub announced: u64,
    /// The bytes of the text.
    pub length: u64,
    /// The number of the first item that differs, from 1.
    pub item: u64,
    /// Whose log has no meaning: 1 the first, 2 the second.
    pub side: u16,
    /// 1 where tester and unit look exchanged, in one log at least.
    pub exchanged: u16,
    /// 1 where each log is clean, so that no frame of it was lost that can be seen.
    pub clean: u32,
    pub lines: u64,
    pub frames: u64,
    pub messages: u64,
    pub dropped: u64,
    pub ended: u64,
    pub unfinished: u64,
    pub pending: u64,
    pub left_out: u64,
}

/// What a status means, in a few words, with a 0 behind them.
#[repr(C)]
#[derive(Clone, Copy, Debug, PartialEq, Eq)]
pub struct UdsnormWords {
    pub text: [u8; WORDS],
}

/// How many bytes they have room for, the 0 included.
pub(crate) const WORDS: usize = 48;

const DONE: u32 = 0;

const ID_RANGE: u32 = 1;

const SAME_ID: u32 = 2;

const LIMIT_RANGE: u32 = 3;

const BAD_LINE: u32 = 4;

const OVERSIZE: u32 = 5;

const LOG_LIMIT: u32 = 6;

const OUTPUT_LIMIT: u32 = 7;

const MEMORY: u32 = 8;

const ROOM: u32 = 9;

const STYLE: u32 = 10;

const PROFILE: u32 = 11;

const NOTHING: UdsnormAnswer = UdsnormAnswer {
    status: DONE,
    column: 0,
    line: 0,
    announced: 0,
    length: 0,
    item: 0,
    side: 0,
    exchanged: 0,
    clean: 0,
    lines: 0,
    frames: 0,
    messages: 0,
    dropped: 0,
    ended: 0,
    unfinished: 0,
    pending: 0,
    left_out: 0,
};

/// What a status means.
pub(crate) fn status_words(status: u32) -> &'static [u8]
    ensures { result.now ≡ status_words status }
{
    match status {
        DONE => b"done",
        ID_RANGE => b"identifier out of range",
        SAME_ID => b"tester and unit have the same identifier",
        LIMIT_RANGE => b"limit out of range",
        BAD_LINE => b"not a log line",
        OVERSIZE => b"a message that is too long is announced",
        LOG_LIMIT => b"log longer than the limit",
        OUTPUT_LIMIT => b"canonical log longer than the limit",
        MEMORY => b"out of memory",
        ROOM => b"not enough room for the text",
        STYLE => b"no such style",
        PROFILE => b"something is wrong in the profile",
        _ => b"no such status",
    }
}

/// An answer with this status alone.
fn status_alone(status: u32) -> UdsnormAnswer
    ensures { result ≡ Spec.status_alone status }
{
    UdsnormAnswer { status, ..NOTHING }
}

/// The answer where there is no such style.
pub(crate) fn no_style() -> UdsnormAnswer
    ensures { result ≡ Spec.status_alone 10 }
{
    status_alone(STYLE)
}

/// The answer where there is no such configuration.
pub(crate) fn refusal_of(fault: ConfigFault) -> UdsnormAnswer
    ensures { result ≡ Spec.refusal_of fault }
{
    status_alone(match fault {
        ConfigFault::IdRange => ID_RANGE,
        // A profile with such a unit is refused before, and no call is handed one.
        ConfigFault::SameId | ConfigFault::SameFunctional => SAME_ID,
        ConfigFault::LimitRange => LIMIT_RANGE,
    })
}

/// The answer where memory is refused before the log is read.
pub(crate) fn memory_answer() -> UdsnormAnswer
    ensures { result ≡ Spec.status_alone 8 }
{
    status_alone(MEMORY)
}

/// The answer where something is wrong in a profile, at this line of it, of which a text of this length tells.
pub(crate) fn profile_answer(line: u64, length: usize) -> UdsnormAnswer
    ensures { result ≡ Spec.profile_answer line length }
{
    UdsnormAnswer {
        line,
        length: length as u64,
        ..status_alone(PROFILE)
    }
}

/// The answer of a log that is refused, or for which memory was.
pub(crate) fn fault_answer(fault: Fault) -> UdsnormAnswer
    ensures { result ≡ Spec.fault_answer fault }
{
    match fault {
        Fault::BadLine { line, column } => UdsnormAnswer {
            line,
            column,
            ..status_alone(BAD_LINE)
        },
        Fault::Oversize { line, announced } => UdsnormAnswer {
            line,
            announced: announced as u64,
            ..status_alone(OVERSIZE)
        },
        Fault::LogLimit => status_alone(LOG_LIMIT),
        Fault::OutputLimit => status_alone(OUTPUT_LIMIT),
        Fault::Read | Fault::Write | Fault::Memory => status_alone(MEMORY),
    }
}

/// The answer of a text of this length about a log, where the buffer has this many bytes.
pub(crate) fn text_answer(length: usize, summary: Summary, room: usize) -> UdsnormAnswer
    ensures { result ≡ Spec.text_answer length summary room }
{
    UdsnormAnswer {
        length: length as u64,
        exchanged: u16::from(summary.looks_exchanged),
        clean: flag(summary.is_clean()),
        lines: summary.lines,
        frames: summary.frames,
        messages: summary.messages,
        dropped: summary.dropped,
        ended: summary.ended,
        unfinished: summary.unfinished,
        pending: summary.pending,
        left_out: summary.left_out,
        ..status_alone(text_status(length, room))
    }
}

/// The status of a text of this length, where the buffer has this many bytes.
fn text_status(length: usize, room: usize) -> u32
    ensures { result ≡ Spec.text_status length room }
{
    if length <= room { DONE } else { ROOM }
}

/// 1 where it is so.
fn flag(is_so: bool) -> u32
    ensures { result ≡ Spec.flag is_so }
{
    if is_so { 1 } else { 0 }
}

/// The answer of two logs that are compared.
pub(crate) fn comparison_answer(compared: Result<CountedComparison, CompareFault>) -> UdsnormAnswer
    ensures { result ≡ Spec.comparison_answer compared }
{
    match compared {
        Ok(counted) => counted_answer(counted),
        Err(fault) => side_answer(fault),
    }
}

/// How two logs compare, whether both are clean, and whether the sides of one look exchanged.
fn counted_answer(counted: CountedComparison) -> UdsnormAnswer
    ensures { result ≡ Spec.counted_answer counted }
{
    let are_clean = counted.left.is_clean() && counted.right.is_clean();
    UdsnormAnswer {
        item: first_item(counted.comparison),
        exchanged: u16::from(counted.left.looks_exchanged || counted.right.looks_exchanged),
        clean: flag(are_clean),
        ..status_alone(DONE)
    }
}

/// Whose log can't be compared, and why.
pub(crate) fn side_answer(fault: CompareFault) -> UdsnormAnswer
    ensures { result ≡ Spec.side_answer fault }
{
    match fault {
        CompareFault::Left(fault) => UdsnormAnswer {
            side: 1,
            ..fault_answer(fault)
        },
        CompareFault::Right(fault) => UdsnormAnswer {
            side: 2,
            ..fault_answer(fault)
        },
    }
}

/// The answer of a text of this length about two logs that compare so, where the buffer has this many bytes.
pub(crate) fn pair_answer(length: usize, counted: CountedComparison, room: usize) -> UdsnormAnswer
    ensures { result ≡ Spec.pair_answer length counted room }
{
    UdsnormAnswer {
        status: text_status(length, room),
        length: length as u64,
        ..counted_answer(counted)
    }
}

/// The answer where two logs have no page.
pub(crate) fn no_pair_answer(why: NoPairPage) -> UdsnormAnswer
    ensures { result ≡ Spec.no_pair_answer why }
{
    match why {
        NoPairPage::OfLog(fault) => side_answer(fault),
        NoPairPage::OfMemory => status_alone(MEMORY),
    }
}

/// The first item that differs, from 1, or 0.
fn first_item(comparison: Comparison) -> u64
    ensures { result ≡ Spec.first_item comparison }
{
    match comparison {
        Comparison::Same => 0,
        Comparison::Different { item } => number_of(item),
    }
}

/// The number of an item, from 1.
fn number_of(item: usize) -> u64
    ensures { result ≡ Spec.number_of item }
{
    if (item as u64) < u64::MAX {
        item as u64 + 1
    } else {
        u64::MAX
    }
}

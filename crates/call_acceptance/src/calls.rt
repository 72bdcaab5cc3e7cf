//! A session through each call of `trace_canon`, and that of `trace_difference` in memory, over devices that only a test has. What
//! whole logs become is tested over the built program, by `tests/program/sessions.py`.

use can_log::Id;
use std::alloc::Global;
use std::io::{ErrorKind, Read, Write};
use std::process::Abort;
use std::test::Fail;
use trace_canon::in_memory::{CountedComparison, CountedText};
use trace_canon::{Comparison, compare, explain, in_memory, list, meaning_of, normalise};
use trace_difference::in_memory::{CountedDifference, pair_difference};
use trace_io::{FailsAt, Reading, Source, Target, Writing};
use trace_log::{CompareFault, Config, ConfigFault, Fault, Summary};
use trace_text::{ItemStyle, Notation, Numbering};
use tried_sessions::{
    CANONICAL, LOG, byte_by_byte, failing, full, is_front, is_of_session, repeated, sides,
};
use uds_exchange::Meaning;

/// Lines in words, with their numbers.
pub(crate) const NUMBERED: ItemStyle = ItemStyle {
    numbering: Numbering::Shown,
    notation: Notation::Text,
};

/// The same without them.
const UNNUMBERED: ItemStyle = ItemStyle {
    numbering: Numbering::Hidden,
    notation: Notation::Text,
};

pub(crate) const LISTED: &str =
    "1 exchange ReadDataByIdentifier 22F190 -> positive 62F1905742413341354335304546313233343536\n";

const PLACED: &str = "\
1 request tester lines 1 to 1 at 1700000000.000000 to 1700000000.000000 22F190
1 answer unit lines 2 to 5 at 1700000000.012000 to 1700000000.030000 62F1905742413341354335304546313233343536
";

/// The front of the line of its counts.
const EXPLAINED: &str = "lines 5 frames 5 messages 2 ";

/// What is printed of its meaning, the bytes of a message as numbers.
const MEANING: &str = "Meaning { items: [Exchange { request: [34, 241, 144], \
answer: Some([98, 241, 144, 87, 66, 65, 51, 65, 53, 67, 53, 48, 69, 70, 49, 50, 51, 52, 53, 54]) }] }";

/// A call that reads a log and writes a text.
#[derive(Clone, Copy)]
pub(crate) enum Call {
    Normalise,
    List,
    Explain,
}

/// What a call answers over this reader, and the writer as it left it.
pub(crate) fn answer_of<R: Read + Drop, W: Write + Drop>(
    alloc: Global,
    call: Call,
    reader: R,
    writer: W,
) -> Result<(Result<Summary, Fault>, Writing<W>), ConfigFault> {
    let config = sides()?;
    let (mut reader, mut writer) = (Reading::new(reader), Writing::new(writer));
    let answer = match call {
        Call::Normalise => normalise(alloc, &config, &mut reader, &mut writer),
        Call::List => list(alloc, &config, NUMBERED, &mut reader, &mut writer),
        Call::Explain => explain(alloc, &config, Notation::Text, &mut reader, &mut writer),
    };
    Ok((answer, writer))
}

/// What a call writes of the session in this reader is this text.
fn assert_written<R: Read + Drop>(
    rt: &impl Abort,
    alloc: Global,
    call: Call,
    reader: R,
    text: &str,
) -> Result<(), Fail> {
    let (answer, writer) = answer_of(alloc, call, reader, Vec::new(alloc))?;
    assert!(rt; is_of_session(&answer));
    assert!(rt;
        is_front(writer.into_inner().as_slice(), text, text.len()),
        "{text}"
    );
    Ok(())
}

/// A call writes this text of the session, read at once and byte by byte. Where reading fails in its middle, so much of the
/// text was written; where a writer that takes a byte a call has room for fifty bytes, those.
fn assert_call(
    rt: &impl Abort,
    alloc: Global,
    call: Call,
    text: &str,
    early: usize,
) -> Result<(), Fail> {
    assert_written(rt, alloc, call, LOG.as_bytes(), text)?;
    assert_written(rt, alloc, call, byte_by_byte(), text)?;
    let (answer, writer) = answer_of(alloc, call, failing(), Vec::new(alloc))?;
    assert!(rt; answer == Err(Fault::Read));
    assert!(rt;
        is_front(writer.into_inner().as_slice(), text, early),
        "{text}"
    );
    let (answer, writer) = answer_of(alloc, call, LOG.as_bytes(), full(alloc))?;
    assert!(rt; answer == Err(Fault::Write) && writer.failures() == 1);
    assert!(rt;
        is_front(writer.into_inner().inner.inner.as_slice(), text, 50),
        "{text}"
    );
    Ok(())
}

#[test]
fn each_call_writes_its_text_of_a_session(rt: HostRuntime) -> Result<(), Fail> {
    assert_call(&rt, rt.alloc(), Call::Normalise, CANONICAL, 46)?;
    assert_call(&rt, rt.alloc(), Call::List, LISTED, 0)?;
    let explained = in_memory::explanation(rt.alloc(), &sides()?, Notation::Text, LOG.as_bytes())?;
    assert_call(
        &rt,
        rt.alloc(),
        Call::Explain,
        str::from_utf8(explained.text.as_slice())?,
        0,
    )
}

/// What the log of this reader means.
pub(crate) fn meaning_in<R: Read + Drop>(
    alloc: Global,
    reader: R,
) -> Result<Result<Meaning, Fault>, ConfigFault> {
    Ok(meaning_of(alloc, &sides()?, &mut Reading::new(reader)))
}

#[test]
fn the_meaning_of_a_session_has_its_messages(rt: HostRuntime) -> Result<(), Fail> {
    let alloc = rt.alloc();
    let meaning = meaning_in(alloc, byte_by_byte())??;
    assert_eq!(rt; format!(in alloc; "{meaning:?}")?.as_str(), MEANING);
    assert!(rt; meaning_in(alloc, failing())?.err() == Some(Fault::Read));
    Ok(())
}

/// What comparing the logs of these readers answers, and how many reads of the right one were made.
pub(crate) fn compared<A: Read + Drop, B: Read + Drop>(
    alloc: Global,
    left: A,
    right: B,
) -> Result<(Result<Comparison, CompareFault>, u64), ConfigFault> {
    let (mut left, mut right) = (Reading::new(left), Reading::new(right));
    let found = match compare(alloc, &sides()?, &mut left, &mut right) {
        Ok(compared) => Ok(compared.comparison),
        Err(fault) => Err(fault),
    };
    Ok((found, right.reads()))
}

#[test]
fn thousands_of_frames_have_a_meaning(rt: HostRuntime) -> Result<(), Fail> {
    let alloc = rt.alloc();
    let log = repeated(alloc, "(1.000000) can0 7E8#0759595959595959\n", 2_000)?;
    assert!(rt; meaning_in(alloc, log.as_bytes())??.len() == 2_000);
    Ok(())
}

#[test]
fn a_session_is_compared(rt: HostRuntime) -> Result<(), Fail> {
    let alloc = rt.alloc();
    let found = compared(alloc, LOG.as_bytes(), byte_by_byte())?;
    assert!(rt; found == (Ok(Comparison::Same), 213));
    let found = compared(alloc, failing(), byte_by_byte())?;
    assert!(rt; found == (Err(CompareFault::Left(Fault::Read)), 0));
    let found = compared(alloc, byte_by_byte(), failing())?;
    assert!(rt; found == (Err(CompareFault::Right(Fault::Read)), 101));
    Ok(())
}

/// A text about a log in memory.
#[derive(Clone, Copy)]
enum Text {
    CanonicalLog,
    ItemList(ItemStyle),
    MessageLines,
    MessageObjects,
    Explanation,
}

/// This text. Like the next ones, and like those above, it promises nothing, so that no proof of a test weighs what the calls
/// promise.
fn text_in_memory(
    alloc: Global,
    text: Text,
    log: &[u8],
) -> Result<Result<CountedText, Fault>, ConfigFault> {
    let config = sides()?;
    Ok(match text {
        Text::CanonicalLog => in_memory::canonical_log(alloc, &config, log),
        Text::ItemList(style) => in_memory::item_list(alloc, &config, style, log),
        Text::MessageLines => in_memory::message_lines(alloc, &config, Notation::Text, log),
        Text::MessageObjects => in_memory::message_lines(alloc, &config, Notation::Json, log),
        Text::Explanation => in_memory::explanation(alloc, &config, Notation::Text, log),
    })
}

/// What this log means.
fn meaning_in_memory(alloc: Global, log: &[u8]) -> Result<Result<Meaning, Fault>, ConfigFault> {
    Ok(in_memory::meaning(alloc, &sides()?, log))
}

/// How these logs compare.
fn comparison_in_memory(
    alloc: Global,
    left: &[u8],
    right: &[u8],
) -> Result<Result<CountedComparison, CompareFault>, ConfigFault> {
    Ok(in_memory::comparison(alloc, &sides()?, left, right))
}

/// How they differ.
fn difference_in_memory(
    alloc: Global,
    left: &[u8],
    right: &[u8],
) -> Result<Result<CountedDifference, CompareFault>, ConfigFault> {
    let text = Notation::Text;
    Ok(pair_difference(alloc, &sides()?, text, b"log", b"a request", left, right))
}

#[test]
fn a_session_in_memory_has_its_meaning(rt: HostRuntime) -> Result<(), Fail> {
    let alloc = rt.alloc();
    let log = LOG.as_bytes();
    let meaning = meaning_in_memory(alloc, log)??;
    assert_eq!(rt; format!(in alloc; "{meaning:?}")?.as_str(), MEANING);
    let listed = text_in_memory(alloc, Text::ItemList(NUMBERED), log)??;
    assert!(rt; listed.text.as_slice() == LISTED.as_bytes());
    let cut = text_in_memory(alloc, Text::CanonicalLog, &log[..9])?.err();
    assert!(rt;
        cut == Some(Fault::BadLine {
            line: 1,
            column: 10
        })
    );
    Ok(())
}

#[test]
fn a_session_in_memory_has_its_counts(rt: HostRuntime) -> Result<(), Fail> {
    let alloc = rt.alloc();
    let log = LOG.as_bytes();
    let found = text_in_memory(alloc, Text::CanonicalLog, log)??;
    assert!(rt; found.text.as_slice() == CANONICAL.as_bytes() && found.summary.messages == 2);
    let found = text_in_memory(alloc, Text::ItemList(UNNUMBERED), log)??;
    assert!(rt; found.summary.frames == 5);
    let found = text_in_memory(alloc, Text::MessageLines, log)??;
    assert!(rt; found.text.as_slice() == PLACED.as_bytes() && found.summary.messages == 2);
    let found = text_in_memory(alloc, Text::Explanation, log)??;
    assert!(rt;
        found.text.as_slice().starts_with(EXPLAINED.as_bytes()) && found.summary.lines == 5
    );
    let found = comparison_in_memory(alloc, log, CANONICAL.as_bytes())?;
    let found = found.or(Err("not compared"))?;
    assert!(rt; found.comparison == Comparison::Same);
    assert!(rt; found.left.frames == 5 && found.right.messages == 2);
    Ok(())
}

/// A session whose answer is other than was asked, behind a reply that came before its request.
const OTHER_ANSWER: &str = "\
(2.000000) can0 7E0#0322F101
(1.999000) can0 7E8#037F2278
(2.500000) can0 7E8#0562F1004142
";

/// What is told of its messages as JSON.
const REPLIES: &str = "\
{\"item\":1,\"role\":\"request\",\"direction\":\"tester\",\"first_line\":1,\"last_line\":1,\"start\":\"2.000000\",\"end\":\"2.000000\",\"message\":\"22F101\"}
{\"item\":1,\"role\":\"pending\",\"direction\":\"unit\",\"first_line\":2,\"last_line\":2,\"start\":\"1.999000\",\"end\":\"1.999000\",\"after_us\":-1000,\"message\":\"7F2278\"}
{\"item\":1,\"role\":\"answer\",\"direction\":\"unit\",\"first_line\":3,\"last_line\":3,\"start\":\"2.500000\",\"end\":\"2.500000\",\"after_us\":500000,\"echo\":false,\"message\":\"62F1004142\"}
";

/// And of its item.
const OTHER_ITEM: &str = "\
{\"item\":1,\"kind\":\"exchange\",\"service\":\"ReadDataByIdentifier\",\"request\":\"22F101\",\"outcome\":\"positive\",\"echo\":false,\"answer\":\"62F1004142\"}
";

#[test]
fn a_session_in_memory_has_its_replies(rt: HostRuntime) -> Result<(), Fail> {
    let alloc = rt.alloc();
    let log = OTHER_ANSWER.as_bytes();
    let found = text_in_memory(alloc, Text::MessageObjects, log)??;
    assert_eq!(rt; str::from_utf8(found.text.as_slice())?, REPLIES);
    let style = ItemStyle {
        numbering: Numbering::Shown,
        notation: Notation::Json,
    };
    let found = text_in_memory(alloc, Text::ItemList(style), log)??;
    assert_eq!(rt; str::from_utf8(found.text.as_slice())?, OTHER_ITEM);
    Ok(())
}

/// What `diff` has of the session, and of its request without an answer.
const DIFFERING: &str = "\
--- log
+++ \"a request\"
@@ -1 +1 @@
-exchange ReadDataByIdentifier 22F190 -> positive 62F1905742413341354335304546313233343536
+exchange ReadDataByIdentifier 22F190 -> unanswered
";

#[test]
fn two_sessions_in_memory_have_their_difference(rt: HostRuntime) -> Result<(), Fail> {
    let alloc = rt.alloc();
    let (log, request) = (LOG.as_bytes(), &CANONICAL.as_bytes()[..45]);
    let found = difference_in_memory(alloc, log, request)?;
    let found = found.or(Err("not compared"))?;
    assert!(rt; found.text.as_slice() == DIFFERING.as_bytes());
    assert!(rt; found.counted.comparison == Comparison::Different { item: 0 });
    assert!(rt; found.counted.left.messages == 2 && found.counted.right.messages == 1);
    let found = difference_in_memory(alloc, log, CANONICAL.as_bytes())?;
    let found = found.or(Err("not compared"))?;
    assert!(rt; found.text.is_empty() && found.counted.comparison == Comparison::Same);
    let refused = difference_in_memory(alloc, log, &log[..9])?.err();
    let of_the_right = CompareFault::Right(Fault::BadLine {
        line: 1,
        column: 10,
    });
    assert!(rt; refused == Some(of_the_right));
    Ok(())
}

#[test]
fn a_log_in_the_middle_of_which_writing_fails(rt: HostRuntime) -> Result<(), Fail> {
    let alloc = rt.alloc();
    let log = repeated(alloc, LOG, 100)?;
    let (answer, given, writer) = normalised_until_writing_fails(alloc, log.as_bytes())?;
    assert!(rt; answer == Err(Fault::Write) && writer.failures() == 1);
    assert!(rt; given <= 38 + 4095 && writer.into_inner().inner.is_empty());
    Ok(())
}

/// What `normalise` answers over a writer that fails at once, how many bytes of the log it was given then, and the writer.
fn normalised_until_writing_fails(
    alloc: Global,
    log: &[u8],
) -> Result<(Result<Summary, Fault>, u64, Writing<FailsAt<Vec<u8>>>), ConfigFault> {
    let mut reader = Reading::new(log);
    let mut writer = Writing::new(FailsAt {
        inner: Vec::new(alloc),
        after: Some(0),
        kind: ErrorKind::Other,
    });
    let answer = normalise(alloc, &sides()?, &mut reader, &mut writer);
    Ok((answer, reader.given(), writer))
}

#[test]
fn a_configuration_has_its_identifiers(rt: HostRuntime) -> Result<(), Fail> {
    let (tester, unit) = (Id::Ext(0x1FFFFFFF), Id::Std(0x7FF));
    let config = Config::new(tester, unit, 1)?;
    assert!(rt; config.tester() == tester && config.unit() == unit);
    // No word of the program spells a base identifier of more than three digits.
    let refused = Config::new(Id::Std(0x7E0), Id::Std(0xFFFF), 1).err();
    assert!(rt; refused == Some(ConfigFault::IdRange));
    Ok(())
}

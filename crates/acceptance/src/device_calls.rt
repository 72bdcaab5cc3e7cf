//! What std's errors become, and what the devices for tests give and take. The answers of a device are told call by call, and
//! compared with a row.

use crate::rows::{
    assert_front, assert_marked, digits_of, line_marked, lines_of, number_of, rows_of,
};
use std::alloc::{AllocError, Global};
use std::io;
use std::io::ErrorKind;
use std::process::Abort;
use std::test::Fail;
use trace_io::{
    DeviceFault, Endless, FailsAfter, FailsAt, FullAfter, Reading, Short, Source, Target, Writing,
    write_all,
};

/// Reads, each with room for a number of bytes, what it answers with the buffer afterwards, and what is counted.
const FAILS_AT_THE_SECOND_READ: &str = "\
three bytes, and a failure between them
read 2: 2 #6162
read 2: fails #0000
read 2: 1 #6300
read 2: 0 #0000
counts 4 reads, 3 bytes, 1 failures
";

#[test]
fn any_error_of_the_reader_is_a_failure_and_gives_nothing(rt: HostRuntime) -> Result<(), Fail> {
    for kind in [
        ErrorKind::Interrupted,
        ErrorKind::WouldBlock,
        ErrorKind::UnexpectedEof,
    ] {
        let mut reader = Reading::new(FailsAt {
            inner: b"abc".as_slice(),
            after: Some(1),
            kind,
        });
        assert_reads(&rt, rt.alloc(), &mut reader, FAILS_AT_THE_SECOND_READ)?;
        assert!(rt; reader.into_inner().after.is_none(), "{kind:?}");
    }
    Ok(())
}

/// After how many calls a writer fails, the calls and what each answers, and the bytes that it took.
const FAILS_AT_A_CALL: &str = "\
the first write
after 0
call write a: fails
call write b: 1
call flush: 0
counts 1 failures
taken b

the second write
after 1
call write a: 1
call write b: fails
call flush: 0
counts 1 failures
taken a

the flush
after 2
call write a: 1
call write b: 1
call flush: fails
counts 1 failures
taken ab
";

#[test]
fn any_error_of_the_writer_is_a_failure_and_takes_nothing(rt: HostRuntime) -> Result<(), Fail> {
    for kind in [
        ErrorKind::Interrupted,
        ErrorKind::StorageFull,
        ErrorKind::BrokenPipe,
    ] {
        for row in rows_of(FAILS_AT_A_CALL) {
            let mut writer = Writing::new(FailsAt {
                inner: Vec::new(rt.alloc()),
                after: Some(number_of(line_marked(row, "after"))?),
                kind,
            });
            assert_writes(&rt, rt.alloc(), &mut writer, row)?;
            assert_bytes(&rt, row, "taken", writer.into_inner().inner.as_slice());
        }
    }
    Ok(())
}

/// An empty piece asks for nothing, and so it doesn't fail.
const FULL: &str = "\
room for two bytes
call write a: 1
call write bc: 1
call write c: fails
call write : 0
call flush: 0
counts 1 failures
taken ab
";

#[test]
fn a_write_that_takes_nothing_is_a_failure(rt: HostRuntime) -> Result<(), Fail> {
    let mut writer = Writing::new(FullAfter {
        inner: Vec::new(rt.alloc()),
        room: 2,
    });
    assert_writes(&rt, rt.alloc(), &mut writer, FULL)?;
    assert_bytes(&rt, FULL, "taken", writer.into_inner().inner.as_slice());
    Ok(())
}

const SHORT_READS: &str = "\
two bytes
read 4: 1 #61000000
read 4: 1 #62000000
read 4: 0 #00000000
counts 3 reads, 2 bytes, 0 failures
";

#[test]
fn a_short_device_gives_one_byte_a_call(rt: HostRuntime) -> Result<(), Fail> {
    let mut reader = Reading::new(Short {
        inner: b"ab".as_slice(),
        most: 1,
    });
    assert_reads(&rt, rt.alloc(), &mut reader, SHORT_READS)
}

const SHORT_WRITES: &str = "\
two bytes in two calls
call write ab: 1
call write b: 1
counts 0 failures
taken ab
";

#[test]
fn a_short_device_takes_one_byte_a_call(rt: HostRuntime) -> Result<(), Fail> {
    let mut writer = Writing::new(Short {
        inner: Vec::new(rt.alloc()),
        most: 1,
    });
    assert_writes(&rt, rt.alloc(), &mut writer, SHORT_WRITES)?;
    assert_bytes(
        &rt,
        SHORT_WRITES,
        "taken",
        writer.into_inner().inner.as_slice(),
    );
    Ok(())
}

/// Texts that are written to a writer with so much room, which takes one byte a call.
const WHOLE: &str = "\
no room
room 0
call all : 0
call all abc: fails
counts 1 failures
taken

room for a part
room 2
call all : 0
call all abc: fails
counts 1 failures
taken ab

as much room as is needed
room 3
call all : 0
call all abc: 3
counts 0 failures
taken abc

more room
room 4
call all : 0
call all abc: 3
counts 0 failures
taken abc
";

#[test]
fn a_text_is_written_whole_or_as_far_as_there_is_room(rt: HostRuntime) -> Result<(), Fail> {
    for row in rows_of(WHOLE) {
        let mut writer = Writing::new(Short {
            inner: FullAfter {
                inner: Vec::new(rt.alloc()),
                room: number_of(line_marked(row, "room"))? as usize,
            },
            most: 1,
        });
        assert_writes(&rt, rt.alloc(), &mut writer, row)?;
        assert_bytes(
            &rt,
            row,
            "taken",
            writer.into_inner().inner.inner.as_slice(),
        );
    }
    Ok(())
}

const FAILING_READS: &str = "\
three bytes, of which two are given
read 1: 1 #61
read 4: 1 #62000000
read 4: fails #00000000
read 4: fails #00000000
counts 4 reads, 2 bytes, 2 failures
left c
";

#[test]
fn every_read_behind_two_bytes_fails(rt: HostRuntime) -> Result<(), Fail> {
    let mut reader = Reading::new(FailsAfter {
        inner: b"abc".as_slice(),
        room: 2,
        kind: ErrorKind::Other,
    });
    assert_reads(&rt, rt.alloc(), &mut reader, FAILING_READS)?;
    assert_bytes(&rt, FAILING_READS, "left", reader.into_inner().inner);
    Ok(())
}

const FAILING_WRITES: &str = "\
three bytes, of which two are taken
call write a: 1
call write bc: 1
call write c: fails
counts 1 failures
taken ab
";

#[test]
fn every_write_behind_two_bytes_fails(rt: HostRuntime) -> Result<(), Fail> {
    let mut writer = Writing::new(FailsAfter {
        inner: Vec::new(rt.alloc()),
        room: 2,
        kind: ErrorKind::Other,
    });
    assert_writes(&rt, rt.alloc(), &mut writer, FAILING_WRITES)?;
    assert_bytes(
        &rt,
        FAILING_WRITES,
        "taken",
        writer.into_inner().inner.as_slice(),
    );
    Ok(())
}

const ENDLESS: &str = "\
a line feed without end
read 0: 0 #
read 2: 1 #0A00
read 2: 1 #0A00
counts 3 reads, 2 bytes, 0 failures
";

#[test]
fn one_byte_is_given_without_end(rt: HostRuntime) -> Result<(), Fail> {
    assert_reads(&rt, rt.alloc(), &mut Endless::new(b'\n'), ENDLESS)
}

const REPEATED: &str = "\
a line feed repeated
read 2: 1 #0A00
read 2: 1 #0A00
counts 2 reads, 2 bytes, 0 failures
";

#[test]
fn a_repeated_byte_is_given_without_end(rt: HostRuntime) -> Result<(), Fail> {
    let mut reader = Reading::new(Short {
        inner: io::repeat(b'\n'),
        most: 1,
    });
    assert_reads(&rt, rt.alloc(), &mut reader, REPEATED)
}

/// A reader answers the reads of a row as the row has it, and has counted what the row says.
fn assert_reads<R: Source>(
    rt: &impl Abort,
    alloc: Global,
    reader: &mut R,
    row: &str,
) -> Result<(), Fail> {
    let mut told = String::new(alloc);
    for line in lines_of(row) {
        if let Some(read) = line.strip_prefix("read ") {
            let (room, _) = read.split_once(':').ok_or("no answer")?;
            push_read(rt, alloc, &mut told, reader, number_of(room)? as usize)?;
        }
    }
    assert_marked(rt, alloc, row, "read", told.as_str())?;
    let (reads, given, failures) = (reader.reads(), reader.given(), reader.failures());
    let counts = format!(in alloc; "{reads} reads, {given} bytes, {failures} failures\n")?;
    assert_marked(rt, alloc, row, "counts", counts.as_str())?;
    Ok(())
}

/// Tells what is answered to a read with room for this number of bytes, and the buffer, which was all zeros.
fn push_read<R: Source>(
    rt: &impl Abort,
    alloc: Global,
    text: &mut String,
    reader: &mut R,
    room: usize,
) -> Result<(), AllocError> {
    let mut buffer = Vec::new(alloc);
    buffer.resize(room, 0)?;
    assert!(rt; reader.reads() < 1000 && reader.given() < 1000 && reader.failures() < 1000);
    assert!(rt; buffer.len() < 1000);
    let answer = reader.read(&mut buffer);
    let told = told_answer(alloc, answer)?;
    let digits = digits_of(alloc, &buffer)?;
    text.push_str(&format!(in alloc; "{room}: {told} #{digits}\n")?)
}

/// Tells how many bytes a call gave or took, or that it failed.
fn told_answer(alloc: Global, answer: Result<usize, DeviceFault>) -> Result<String, AllocError> {
    match answer {
        Ok(count) => format!(in alloc; "{count}"),
        Err(DeviceFault) => String::from_str(alloc, "fails"),
    }
}

/// A writer answers the calls of a row as the row has it, and has counted what the row says.
fn assert_writes<W: Target>(
    rt: &impl Abort,
    alloc: Global,
    writer: &mut W,
    row: &str,
) -> Result<(), Fail> {
    let mut told = String::new(alloc);
    for line in lines_of(row) {
        if let Some(call) = line.strip_prefix("call ") {
            let (call, _) = call.split_once(':').ok_or("no answer")?;
            push_write(rt, alloc, &mut told, writer, call)?;
        }
    }
    assert_marked(rt, alloc, row, "call", told.as_str())?;
    let failures = writer.failures();
    let counts = format!(in alloc; "{failures} failures\n")?;
    assert_marked(rt, alloc, row, "counts", counts.as_str())?;
    Ok(())
}

/// Tells what is answered to a call.
fn push_write<W: Target>(
    rt: &impl Abort,
    alloc: Global,
    text: &mut String,
    writer: &mut W,
    call: &str,
) -> Result<(), AllocError> {
    let answer = answer_to(rt, writer, call);
    let told = told_answer(alloc, answer)?;
    text.push_str(&format!(in alloc; "{call}: {told}\n")?)
}

/// How many bytes are taken of a piece or of a whole text. A flush, the other call, takes none.
fn answer_to<W: Target>(rt: &impl Abort, writer: &mut W, call: &str) -> Result<usize, DeviceFault> {
    assert!(rt; writer.failures() < 1000);
    if let Some(piece) = call.strip_prefix("write ") {
        return writer.write(piece.as_bytes());
    }
    if let Some(whole) = call.strip_prefix("all ") {
        return write_all(writer, whole.as_bytes()).and(Ok(whole.len()));
    }
    writer.flush().and(Ok(0))
}

/// These bytes are those that the row has with this mark.
fn assert_bytes(rt: &impl Abort, row: &str, mark: &str, found: &[u8]) {
    let expected = line_marked(row, mark);
    assert_front(rt, found, expected, expected.len());
}

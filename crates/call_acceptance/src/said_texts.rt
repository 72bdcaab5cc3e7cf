//! Each part of a line, and each name and number that commands share, said to a sink that has [`TextSink::put`] alone: wholes and
//! three texts are put there as the trait itself puts them. Expected texts come from the standards' names and from the numbers.

use crate::calls::{LISTED, NUMBERED, meaning_in};
use direction::Dir::{Tester, Unit};
use isotp_pdu::PduFault;
use isotp_receive::Cause;
use std::alloc::Global;
use std::process::Abort;
use std::str;
use std::test::Fail;
use text_parts::{Part, say};
use trace_io::TextSink;
use trace_log::Count;
use trace_text::{
    Byte, EndCause, HexBytes, HexadecimalDigit, LayoutFault, Length, Number, Ordinal, ResponseCode,
    Sender, ServiceName, SixDecimals, Stamp, ThreeDecimals, Verbatim, say_counts, say_items,
};
use tried_sessions::LOG;
use uds_rules::Rules;

/// Keeps what is said, up to where memory is refused.
#[derive(Drop)]
struct Kept {
    text: Vec<u8>,
    lacks: bool,
}

impl TextSink for Kept {
    ghost use Rattle.std.specs.Prelude.{⊤};

    ghost says = { λ old text new. ⊤ };

    ghost nothing = { λ s. tt };

    ghost onward = { λ s m t a b one two. tt };

    fn put(&mut self, text: &[u8]) {
        if self.text.extend_from_slice(text).is_err() {
            self.lacks = true;
        }
    }
}

/// A sink to which nothing was said.
fn empty_sink(alloc: Global) -> Kept {
    Kept {
        text: Vec::new(alloc),
        lacks: false,
    }
}

/// This text was said.
fn assert_kept(rt: &impl Abort, said: &Kept, text: &str) -> Result<(), Fail> {
    assert!(rt; !said.lacks);
    assert_eq!(rt; str::from_utf8(said.text.as_slice())?, text);
    Ok(())
}

/// The part is said so.
fn assert_part<P: Part>(rt: &impl Abort, alloc: Global, part: P, text: &str) -> Result<(), Fail> {
    let mut said = empty_sink(alloc);
    say(&mut said, part);
    assert_kept(rt, &said, text)
}

/// The number is said so.
fn assert_number(rt: &impl Abort, alloc: Global, number: u64, text: &str) -> Result<(), Fail> {
    assert_part(rt, alloc, Number(number), text)
}

#[test]
fn a_number_of_each_length_is_said(rt: HostRuntime) -> Result<(), Fail> {
    let alloc = rt.alloc();
    assert_number(&rt, alloc, 0, "0")?;
    assert_number(&rt, alloc, 9, "9")?;
    assert_number(&rt, alloc, 10, "10")?;
    assert_number(&rt, alloc, 909, "909")?;
    assert_number(&rt, alloc, 1_000, "1000")?;
    assert_number(&rt, alloc, 9_999, "9999")?;
    assert_number(&rt, alloc, 10_000, "10000")?;
    assert_number(&rt, alloc, 120_034, "120034")?;
    assert_number(&rt, alloc, 1_000_203, "1000203")?;
    assert_number(&rt, alloc, 99_999_999, "99999999")?;
    assert_number(&rt, alloc, 100_000_000, "100000000")?;
    assert_number(&rt, alloc, 1_700_000_005, "1700000005")?;
    assert_number(&rt, alloc, 12_000_000_340, "12000000340")?;
    assert_number(&rt, alloc, 999_999_999_999, "999999999999")?;
    assert_number(&rt, alloc, 1_000_000_000_000, "1000000000000")?;
    assert_number(&rt, alloc, u64::MAX, "18446744073709551615")
}

#[test]
fn each_part_is_said(rt: HostRuntime) -> Result<(), Fail> {
    let alloc = rt.alloc();
    assert_part(&rt, alloc, "line ", "line ")?;
    assert_part(&rt, alloc, Ordinal(0), "1")?;
    assert_part(&rt, alloc, Ordinal(usize::MAX), "18446744073709551616")?;
    assert_part(&rt, alloc, HexadecimalDigit(11), "B")?;
    assert_part(&rt, alloc, SixDecimals(1_700_000_000_012_300), "012300")?;
    assert_part(
        &rt,
        alloc,
        Stamp(1_700_000_000_012_300),
        "1700000000.012300",
    )?;
    assert_part(&rt, alloc, Verbatim(b"7E0"), "7E0")?;
    assert_part(&rt, alloc, HexBytes(&[]), "")?;
    assert_part(&rt, alloc, HexBytes(&[0x22, 0xF1, 0x90]), "22F190")?;
    assert_part(
        &rt,
        alloc,
        HexBytes(&[0x0A; 17]),
        "0A0A0A0A0A0A0A0A0A0A0A0A0A0A0A0A0A",
    )?;
    assert_part(&rt, alloc, ServiceName(0x22), "ReadDataByIdentifier")?;
    assert_part(&rt, alloc, ServiceName(0x02), "service_02")?;
    assert_part(&rt, alloc, ResponseCode(0x31), "requestOutOfRange")?;
    assert_part(&rt, alloc, ResponseCode(0x02), "code_02")
}

#[test]
fn parts_are_said_one_after_another(rt: HostRuntime) -> Result<(), Fail> {
    let mut said = empty_sink(rt.alloc());
    say(&mut said, ());
    say(&mut said, ("item ", Ordinal(11), ": ", ServiceName(0x3E)));
    assert_kept(&rt, &said, "item 12: TesterPresent")
}

#[test]
fn each_name_and_number_is_said(rt: HostRuntime) -> Result<(), Fail> {
    let mut said = empty_sink(rt.alloc());
    say(&mut said, "from ");
    say(&mut said, (Sender(Tester), " to ", Sender(Unit)));
    say(&mut said, (", ", Ordinal(9), ", "));
    say(
        &mut said,
        (
            Length(4_095),
            ", ",
            SixDecimals(7),
            ", ",
            ThreeDecimals(12_045),
            ", ",
            HexadecimalDigit(15),
        ),
    );
    say(
        &mut said,
        (
            Byte(0x7F),
            HexBytes(&[0x50, 0x03]),
            ", ",
            ServiceName(0x10),
            ", ",
            ResponseCode(0x10),
        ),
    );
    assert_kept(
        &rt,
        &said,
        "from tester to unit, 10, 4095, 000007, 045, F7F5003, DiagnosticSessionControl, generalReject",
    )
}

#[test]
fn what_was_lost_is_said(rt: HostRuntime) -> Result<(), Fail> {
    let mut said = empty_sink(rt.alloc());
    say(&mut said, EndCause(Cause::Overflow));
    say_counts(
        ", ",
        " ",
        &[Count("frames", 12), Count("messages", 0)],
        &mut said,
    );
    say(&mut said, (", ", LayoutFault(PduFault::Empty)));
    assert_kept(&rt, &said, "overflow, frames 12, messages 0, empty frame")
}

#[test]
fn the_items_of_a_session_are_said(rt: HostRuntime) -> Result<(), Fail> {
    let mut said = empty_sink(rt.alloc());
    say_items(
        &meaning_in(rt.alloc(), LOG.as_bytes())??,
        NUMBERED,
        &Rules::none(),
        &mut said,
    );
    assert_kept(&rt, &said, LISTED)
}

#[test]
fn three_texts_are_one_after_another(rt: HostRuntime) -> Result<(), Fail> {
    let mut said = empty_sink(rt.alloc());
    said.put_three(b"1700", b"0000", b"00");
    said.put_three(b"", b"", b".");
    said.put_whole(b"012300");
    said.put_whole(b"");
    assert_kept(&rt, &said, "1700000000.012300")
}

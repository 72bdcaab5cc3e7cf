//! The vectors of the message formats, and of the tables what no log shows. No value here comes from the program.

use crate::rows::{assert_text, bytes_of, lines_of, shown};
use std::alloc::Global;
use std::test::Fail;
use uds_message::{answer_to, code_name, is_suppressing, service_name, tester_kind};

/// Messages of the tester with their kinds, messages of the unit with what they are to the request of a service, and messages of
/// the tester that suppress a positive response or not.
const ANSWERS: &str = "\
kind#3E80 KeepAlive
kind#3E00 Request
kind#3E Request
kind#3E8000 Request
kind#62F190 Other
kind#BA Request
kind#FF80 Other
kind# Other
22#62 Final
22#62F19041 Final
22#7F2231 Final
22#7F2278 Pending
22#7F227800 No
22#7F223100 No
22#7F22 No
22#7F1931 No
22#7F1978 No
22# No
3F#7F3F11 Final
3F#7F3F78 Pending
3F#7F2231 No
3F#7F No
BA#FA Final
62#A2 No
suppressing#1083 true
suppressing#1003 false
suppressing#10 false
suppressing#22F190 false
suppressing#3E80 true
suppressing#8480 false
suppressing#BA80 false
suppressing# false";

#[test]
fn messages_are_told_apart_by_their_bytes(rt: HostRuntime) -> Result<(), Fail> {
    let alloc = rt.alloc();
    for row in lines_of(ANSWERS) {
        let (question, answer) = row.split_once(' ').ok_or("no answer")?;
        assert_text(&rt, row, answered(alloc, question)?.as_str(), answer);
    }
    Ok(())
}

/// What is answered to the question in front of the `#` by the message behind it.
fn answered(alloc: Global, question: &str) -> Result<String, Fail> {
    let (question, message) = question.split_once('#').ok_or("no message")?;
    let message = bytes_of(alloc, message)?;
    let answer = if question == "kind" {
        shown(alloc, &tester_kind(&message))?
    } else if question == "suppressing" {
        shown(alloc, &is_suppressing(&message))?
    } else {
        let service = bytes_of(alloc, question)?;
        shown(
            alloc,
            &answer_to(*service.first().ok_or("no service")?, &message),
        )?
    };
    Ok(answer)
}

// What else the tables have is listed by the program.
#[test]
fn what_is_no_request_has_no_name(rt: HostRuntime) {
    for sid in 0..=255u8 {
        if sid & 0x40 != 0 {
            assert!(rt;
                service_name(sid).is_none() && !is_suppressing(&[sid, 0x80]),
                "{sid:02X}"
            );
        }
    }
    assert_eq!(rt;
        code_name(0x78),
        Some("requestCorrectlyReceivedResponsePending")
    );
}

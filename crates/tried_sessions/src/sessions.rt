//! Sessions: what their logs hold, and what each call has to make of them.

use can_log::Kind::{self, Classic, Fd};
use direction::Dir::{self, Tester, Unit};

/// A message with its sender.
pub type Message = (Dir, &'static [u8]);

/// A session, layer by layer.
#[derive(Clone, Copy)]
pub struct Session {
    pub name: &'static str,
    pub log: &'static [u8],
    pub frames: &'static [(Dir, Kind, &'static [u8])],
    /// The messages as they are completed.
    pub messages: &'static [Message],
    /// The messages in the order of their meaning.
    pub ordered: &'static [Message],
    pub canonical: &'static [u8],
    pub listed: &'static [u8],
    /// What its explanation begins with, the line of the counts.
    pub explained: &'static [u8],
    pub found: &'static [u8],
}

pub const SESSIONS: [Session; 3] = [VIN, STRAY, BOTH];

/// Those of which the messages alone are told, too.
pub const OF_MESSAGES: [Session; 4] = [VIN, STRAY, BOTH, LARGE];

/// A request in a single frame, and its response of 20 bytes in three.
const VIN: Session = Session {
    name: "vin",
    log: b"(1700000000.000000) can0 7E0#0322F190\n\
    (1700000000.012000) can0 7E8#101462F190574241\n\
    (1700000000.012300) can0 7E0#300000\n\
    (1700000000.020000) can0 7E8#2133413543353045\n\
    (1700000000.030000) can0 7E8#2246313233343536\n",
    frames: &[
        (Tester, Classic, b"\x03\x22\xF1\x90"),
        (Unit, Classic, b"\x10\x14\x62\xF1\x90WBA"),
        (Tester, Classic, b"\x30\x00\x00"),
        (Unit, Classic, b"\x213A5C50E"),
        (Unit, Classic, b"\x22F123456"),
    ],
    messages: &VIN_MESSAGES,
    ordered: &VIN_MESSAGES,
    canonical: b"(0000000000.000000) can0 7E0#0322F190CCCCCCCC\n\
    (0000000000.001000) can0 7E8#101462F190574241\n\
    (0000000000.002000) can0 7E0#300000CCCCCCCCCC\n\
    (0000000000.003000) can0 7E8#2133413543353045\n\
    (0000000000.004000) can0 7E8#2246313233343536\n",
    listed: b"1 exchange ReadDataByIdentifier 22F190 -> positive 62F1905742413341354335304546313233343536\n",
    explained: b"lines 5 frames 5 messages 2 ",
    found: b"1 --tester 7E0 --unit 7E8\n",
};

const VIN_MESSAGES: [Message; 2] = [
    (Tester, b"\x22\xF1\x90"),
    (Unit, b"\x62\xF1\x90WBA3A5C50EF123456"),
];

/// A keep-alive between a request and its response.
const STRAY: Session = Session {
    name: "stray",
    log: b"(0000000000.000000) can0 7E0#0322F190\n\
    (0000000000.001000) can0 7E0#023E80\n\
    (0000000000.002000) can0 7E8#0462F19041\n",
    frames: &[
        (Tester, Classic, b"\x03\x22\xF1\x90"),
        (Tester, Classic, b"\x02\x3E\x80"),
        (Unit, Classic, b"\x04\x62\xF1\x90A"),
    ],
    messages: &[
        (Tester, b"\x22\xF1\x90"),
        (Tester, b"\x3E\x80"),
        (Unit, b"\x62\xF1\x90A"),
    ],
    ordered: &[
        (Tester, b"\x22\xF1\x90"),
        (Unit, b"\x62\xF1\x90A"),
        (Tester, b"\x3E\x80"),
    ],
    canonical: b"(0000000000.000000) can0 7E0#0322F190CCCCCCCC\n\
    (0000000000.001000) can0 7E8#0462F19041CCCCCC\n\
    (0000000000.002000) can0 7E0#023E80CCCCCCCCCC\n",
    listed: b"1 exchange ReadDataByIdentifier 22F190 -> positive 62F19041\n\
    2 stray tester 3E80\n",
    explained: b"lines 3 frames 3 messages 3 ",
    found: b"1 --tester 7E0 --unit 7E8\n",
};

/// Messages of several frames of both sides at once: 10 bytes of the tester, 100 of the unit.
const BOTH: Session = Session {
    name: "both",
    log: b"(0000000000.000000) can0 7E0#100A2EF190414243\n\
    (0000000000.001000) can0 7E8##01064000102030405060708090A0B0C0D0E0F101112131415161718191A1B1C1D1E1F202122232425262728292A2B2C2D2E2F303132333435363738393A3B3C3D\n\
    (0000000000.002000) can0 7E8#300000\n\
    (0000000000.003000) can0 7E0#300000\n\
    (0000000000.004000) can0 7E8##0213E3F404142434445464748494A4B4C4D4E4F505152535455565758595A5B5C5D5E5F60616263AAAAAAAAAAAAAAAAAA\n\
    (0000000000.005000) can0 7E0#2144454647\n",
    frames: &[
        (Tester, Classic, b"\x10\x0A\x2E\xF1\x90ABC"),
        (Unit, Fd, FIRST_FRAME),
        (Unit, Classic, b"\x30\x00\x00"),
        (Tester, Classic, b"\x30\x00\x00"),
        (Unit, Fd, LAST_FRAME),
        (Tester, Classic, b"\x21DEFG"),
    ],
    messages: &BOTH_MESSAGES,
    ordered: &BOTH_MESSAGES,
    canonical: b"(0000000000.000000) can0 7E8#1064000102030405\n\
    (0000000000.001000) can0 7E0#300000CCCCCCCCCC\n\
    (0000000000.002000) can0 7E8#21060708090A0B0C\n\
    (0000000000.003000) can0 7E8#220D0E0F10111213\n\
    (0000000000.004000) can0 7E8#231415161718191A\n\
    (0000000000.005000) can0 7E8#241B1C1D1E1F2021\n\
    (0000000000.006000) can0 7E8#2522232425262728\n\
    (0000000000.007000) can0 7E8#26292A2B2C2D2E2F\n\
    (0000000000.008000) can0 7E8#2730313233343536\n\
    (0000000000.009000) can0 7E8#283738393A3B3C3D\n\
    (0000000000.010000) can0 7E8#293E3F4041424344\n\
    (0000000000.011000) can0 7E8#2A45464748494A4B\n\
    (0000000000.012000) can0 7E8#2B4C4D4E4F505152\n\
    (0000000000.013000) can0 7E8#2C53545556575859\n\
    (0000000000.014000) can0 7E8#2D5A5B5C5D5E5F60\n\
    (0000000000.015000) can0 7E8#2E616263CCCCCCCC\n\
    (0000000000.016000) can0 7E0#100A2EF190414243\n\
    (0000000000.017000) can0 7E8#300000CCCCCCCCCC\n\
    (0000000000.018000) can0 7E0#2144454647CCCCCC\n",
    listed: b"1 stray unit 000102030405060708090A0B0C0D0E0F101112131415161718191A1B1C1D1E1F202122232425262728292A2B2C2D2E2F303132333435363738393A3B3C3D3E3F404142434445464748494A4B4C4D4E4F505152535455565758595A5B5C5D5E5F60616263\n\
    2 exchange WriteDataByIdentifier 2EF19041424344454647 -> unanswered\n",
    explained: b"lines 6 frames 6 messages 2 ",
    found: b"",
};

const BOTH_MESSAGES: [Message; 2] = [(Unit, HUNDRED), (Tester, b"\x2E\xF1\x90ABCDEFG")];

const HUNDRED: &[u8] =
    b"\x00\x01\x02\x03\x04\x05\x06\x07\x08\x09\x0A\x0B\x0C\x0D\x0E\x0F\x10\x11\x12\x13\x14\x15\x16\x17\
    \x18\x19\x1A\x1B\x1C\x1D\x1E\x1F\x20\x21\x22\x23\x24\x25\x26\x27\x28\x29\x2A\x2B\x2C\x2D\x2E\x2F\
    \x30\x31\x32\x33\x34\x35\x36\x37\x38\x39\x3A\x3B\x3C\x3D\x3E\x3F\x40\x41\x42\x43\x44\x45\x46\x47\
    \x48\x49\x4A\x4B\x4C\x4D\x4E\x4F\x50\x51\x52\x53\x54\x55\x56\x57\x58\x59\x5A\x5B\x5C\x5D\x5E\x5F\
    \x60\x61\x62\x63";

/// Its first frame, and its second and last one, padded.
const FIRST_FRAME: &[u8] =
    b"\x10\x64\x00\x01\x02\x03\x04\x05\x06\x07\x08\x09\x0A\x0B\x0C\x0D\x0E\x0F\x10\x11\x12\x13\x14\x15\
    \x16\x17\x18\x19\x1A\x1B\x1C\x1D\x1E\x1F\x20\x21\x22\x23\x24\x25\x26\x27\x28\x29\x2A\x2B\x2C\x2D\
    \x2E\x2F\x30\x31\x32\x33\x34\x35\x36\x37\x38\x39\x3A\x3B\x3C\x3D";

const LAST_FRAME: &[u8] =
    b"\x21\x3E\x3F\x40\x41\x42\x43\x44\x45\x46\x47\x48\x49\x4A\x4B\x4C\x4D\x4E\x4F\x50\x51\x52\x53\x54\
    \x55\x56\x57\x58\x59\x5A\x5B\x5C\x5D\x5E\x5F\x60\x61\x62\x63\xAA\xAA\xAA\xAA\xAA\xAA\xAA\xAA\xAA";

/// Messages that don't fit beside one another, and a stray that is longer than what several may share.
const LARGE: Session = Session {
    name: "large",
    log: b"",
    frames: &[],
    messages: &[
        (Tester, &[0x22; 900]),
        (Unit, &[0x59; 700]),
        (Unit, &[0x59; 5000]),
        (Unit, &[0x62; 900]),
        (Tester, &[0x2C; 3000]),
        (Unit, &[0x6C; 900]),
    ],
    ordered: &[
        (Tester, &[0x22; 900]),
        (Unit, &[0x62; 900]),
        (Unit, &[0x59; 700]),
        (Unit, &[0x59; 5000]),
        (Tester, &[0x2C; 3000]),
        (Unit, &[0x6C; 900]),
    ],
    canonical: b"",
    listed: b"",
    explained: b"",
    found: b"",
};

//! Diagnostic trouble codes: how people spell them, what their status says, and where a message has some.

ghost use Rattle.std.specs.Prelude.{◌≡◌, option_map};
ghost use Rattle.uds_names.specs.TroubleCodes as Spec;

use can_log::digits_of_bytes;

/// The service identifier of a positive response to ReadDTCInformation.
const DTC_INFORMATION: u8 = 0x59;

/// A code and its status have so many bytes.
const RECORD_LENGTH: usize = 4;

/// What the first byte of a code says of its system, in units of the digits below.
const SYSTEM: u8 = 0x40;

/// A trouble code as people spell it, as P0123-45, by its three bytes (SAE J2012-DA, ISO 15031-6).
#[tactic(auto, unfolding(can_log::specs::Digits::digits))]
pub fn trouble_code(high: u8, middle: u8, low: u8) -> [u8; 8]
    ensures { result ≡ Spec.trouble_code high middle low }
{
    let digits = digits_of_bytes(&[high % SYSTEM, middle, low, 0, 0, 0, 0, 0]);
    [
        system_letter(high / SYSTEM),
        digits[0],
        digits[1],
        digits[2],
        digits[3],
        b'-',
        digits[4],
        digits[5],
    ]
}

/// The letter of a system: powertrain, chassis, body or network.
fn system_letter(system: u8) -> u8
    ensures { result ≡ Spec.system_letter system }
{
    match system {
        0 => b'P',
        1 => b'C',
        2 => b'B',
        _ => b'U',
    }
}

/// What a bit of the status of a trouble code says where it is 1 (ISO 14229-1, Annex D.2); `None` from 8 on.
pub fn status_bit_name(bit: u8) -> Option<&'static str>
    ensures { option_map (λ name. name.now) result ≡ Spec.status_bit_name bit }
{
    match bit {
        0 => Some("testFailed"),
        1 => Some("testFailedThisOperationCycle"),
        2 => Some("pendingDTC"),
        3 => Some("confirmedDTC"),
        4 => Some("testNotCompletedSinceLastClear"),
        5 => Some("testFailedSinceLastClear"),
        6 => Some("testNotCompletedThisOperationCycle"),
        7 => Some("warningIndicatorRequested"),
        _ => None,
    }
}

/// The trouble codes of a positive response to ReadDTCInformation, each of three bytes and a fourth one, its status: of
/// one that lists codes all, where nothing else follows, and of one that tells of a single code this; else nothing.
pub fn trouble_records(response: &[u8]) -> &[u8]
    ensures { result.now ≡ Spec.trouble_records response.now }
{
    match response {
        [DTC_INFORMATION, report, rest @ ..] => records_of_report(*report, rest),
        _ => &[],
    }
}

/// The codes with their status behind the identifier of a report.
fn records_of_report(report: u8, rest: &[u8]) -> &[u8]
    ensures { result.now ≡ Spec.records_of_report report rest.now }
{
    match report {
        0x02 | 0x0A..=0x0E | 0x15 => match rest {
            [_, records @ ..] => whole_records(records),
            [] => &[],
        },
        0x04 | 0x06 => first_record(rest),
        _ => &[],
    }
}

/// These bytes, if they are codes with their status and nothing else.
fn whole_records(bytes: &[u8]) -> &[u8]
    ensures { result.now ≡ Spec.whole_records bytes.now }
{
    if bytes.len() % RECORD_LENGTH == 0 {
        bytes
    } else {
        &[]
    }
}

/// The code with its status that these bytes begin with, if they have so many.
fn first_record(bytes: &[u8]) -> &[u8]
    ensures { result.now ≡ Spec.first_record bytes.now }
{
    if bytes.len() >= RECORD_LENGTH {
        &bytes[..RECORD_LENGTH]
    } else {
        &[]
    }
}

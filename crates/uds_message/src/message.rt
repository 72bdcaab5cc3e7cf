//! What a message is, by its bytes.

ghost use Rattle.std.specs.Prelude.{◌≡◌};
ghost use Rattle.uds_message.specs.Message as Spec;

use crate::names::has_sub_function;

/// The service identifier of TesterPresent.
const TESTER_PRESENT: u8 = 0x3E;

/// The service identifier of every negative response (ISO 14229-1, negative response message).
const NEGATIVE_RESPONSE: u8 = 0x7F;

/// What a positive response adds to the identifier of its request: bit 6.
const POSITIVE_RESPONSE: u8 = 0x40;

/// The response code requestCorrectlyReceived-ResponsePending.
const RESPONSE_PENDING: u8 = 0x78;

/// The bit of a sub-function by which the tester asks for no positive response.
const SUPPRESS_POSITIVE_RESPONSE: u8 = 0x80;

/// What a message of the tester is.
#[derive(Clone, Copy, Debug, PartialEq, Eq)]
pub enum TesterKind {
    /// A request, to which the unit may answer.
    Request,
    /// `3E 80`: TesterPresent with the positive response suppressed. It keeps the session alive and has no answer.
    KeepAlive,
    /// Neither: it is empty, or bit 6 of its first byte is set.
    Other,
}

/// What a message of the unit is to a request.
#[derive(Clone, Copy, Debug, PartialEq, Eq)]
pub enum Answer {
    /// The positive response, or a negative one that ends the exchange.
    Final,
    /// The negative response with code 78: the answer is still to come.
    Pending,
    /// It doesn't answer the request.
    No,
}

/// The service identifier of a message: its first byte, or 0 where it has none.
pub fn sid(message: &[u8]) -> u8
    ensures { result ≡ Spec.sid message.now }
{
    match message {
        [] => 0,
        [sid, ..] => *sid,
    }
}

/// Whether a message of the unit is a negative response, by its first byte.
pub fn is_negative_response(response: &[u8]) -> bool
    ensures { result ≡ Spec.is_negative_response response.now }
{
    sid(response) == NEGATIVE_RESPONSE
}

/// The response code of a negative response: its third byte, or 0 where it has none.
pub fn response_code(response: &[u8]) -> u8
    ensures { result ≡ Spec.response_code response.now }
{
    match response {
        [_, _, code, ..] => *code,
        _ => 0,
    }
}

/// Tells requests from keep-alives by the bytes alone (ISO 14229-1, the table of service identifiers).
pub fn tester_kind(message: &[u8]) -> TesterKind
    ensures { result ≡ Spec.tester_kind message.now }
{
    match message {
        [] => TesterKind::Other,
        [TESTER_PRESENT, SUPPRESS_POSITIVE_RESPONSE] => TesterKind::KeepAlive,
        [sid, ..] => if is_response_sid(*sid) {
            TesterKind::Other
        } else {
            TesterKind::Request
        },
    }
}

/// What a message of the unit is to a request whose first byte is `sid` (ISO 14229-1, positive and negative
/// response messages). Where bit 6 of `sid` is set there is no such request, and the answer is `No`.
pub fn answer_to(sid: u8, message: &[u8]) -> Answer
    ensures { result ≡ Spec.answer_to sid message.now }
{
    if is_response_sid(sid) {
        return Answer::No;
    }
    match message {
        [] => Answer::No,
        [NEGATIVE_RESPONSE, refused, code] if *refused == sid => {
            if *code == RESPONSE_PENDING {
                Answer::Pending
            } else {
                Answer::Final
            }
        }
        [first, ..] => {
            if *first == sid + POSITIVE_RESPONSE && *first != NEGATIVE_RESPONSE {
                Answer::Final
            } else {
                Answer::No
            }
        }
    }
}

/// Whether a request asks the unit to keep a positive response to itself (ISO 14229-1, the
/// suppressPosRspMsgIndicationBit). This changes nothing in which message answers the request.
pub fn is_suppressing(message: &[u8]) -> bool
    ensures { result ≡ Spec.is_suppressing message.now }
{
    match message {
        [sid, sub_function, ..] => has_sub_function(*sid)
            && sub_function & SUPPRESS_POSITIVE_RESPONSE != 0,
        _ => false,
    }
}

/// Whether a response code says that the answer is still to come.
pub fn is_response_pending(code: u8) -> bool
    ensures { result ≡ Spec.is_response_pending code }
{
    code == RESPONSE_PENDING
}

/// The service that a positive response with this identifier answers.
pub fn service_answered(sid: u8) -> u8
    ensures { result ≡ Spec.service_answered sid }
{
    sid.saturating_sub(POSITIVE_RESPONSE)
}

/// Whether bit 6 is set, which tells the identifiers of responses.
pub fn is_response_sid(sid: u8) -> bool
    ensures { result ≡ Spec.is_response_sid sid }
{
    sid & POSITIVE_RESPONSE != 0
}
